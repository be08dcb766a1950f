//! Conversion of the pending messages from a list to layers, and back.

ghost use Rattle.std.specs.Prelude.{◌≡◌, ◌+◌, ◌<◌, ◌≤◌, ◌++◌, [], All, AllPairs, IsTrue, OnOk};
ghost use Rattle.std.specs.Prelude.{MatchResult, Some, length, slice_get};
ghost use Rattle.std.specs.Option.{option_map};
ghost use Rattle.std.specs.VecDeque.{deque_len, deque_capacity};
ghost use Rattle.mq_select.specs.Crossing.{HaveMoved};
ghost use Rattle.mq_select.specs.Outcome.{HasCrossed};

use crate::{Layered, ListWaiting, Placed};
use mq_message::{Body, Selection, Waiting};
use std::alloc::{AllocError, Global};
use std::collections::VecDeque;

/// The type of the first message.
fn first_type<B>(messages: &VecDeque<Placed<B>>) -> Option<i64>
    ensures { result ≡ option_map (λ m. m.1.mtype) (slice_get messages.now.items 0) }
{
    Some(messages.front()?.1.mtype)
}

/// Moves messages, first to last, to the end of a list in layers, and makes room there for one more
/// of this type. `Err` means out of memory: then some have moved.
fn go_over<B: Body>(
    messages: &mut VecDeque<Placed<B>>,
    index: &mut Layered<B>,
    mtype: i64,
) -> Result<(), AllocError>
    requires rising { AllPairs (λ a b. a.0 < b.0) (index.old.messages ++ messages.old.items) }
    ensures kept { index.new.messages ++ messages.new.items
        ≡ index.old.messages ++ messages.old.items }
    ensures ok { OnOk result ((messages.new.items ≡ []) × (index.new.prepared ≡ Some mtype)) }
    ensures capacity { deque_capacity messages.new ≡ deque_capacity messages.old }
{
    while let Some(next) = first_type(messages) {
        index.prepare(next)?;
        let (place, message) = messages.pop_front().unwrap();
        index.put_prepared(place, message);
    }
    index.prepare(mtype)
}

/// Moves the messages of a list in layers to the end of others, where there is room for them.
fn go_back<B: Body>(index: &mut Layered<B>, messages: &mut VecDeque<Placed<B>>)
    requires { deque_len messages.old + length index.old.messages
        ≤ deque_capacity messages.old }
    ensures { HaveMoved (messages.old.items ++ index.old.messages)
        index.new messages.old messages.new }
{
    while let Some(first) = index.pop_first() {
        messages.push_back_reserved(first);
    }
}

/// Moves the messages of a list in layers back to a list, before those that were left there.
fn cross_back<B: Body>(index: &mut Layered<B>, messages: &mut VecDeque<Placed<B>>)
    requires { deque_len messages.old + length index.old.messages
        ≤ deque_capacity messages.old }
    ensures { HaveMoved (index.old.messages ++ messages.old.items)
        index.new messages.old messages.new }
{
    let left = messages.len();
    go_back(index, messages);
    messages.rotate_left(left);
}

/// Whether all messages of a list are of this type.
fn is_of<B: Body>(list: &ListWaiting<B>, mtype: i64) -> bool
    ensures { IsTrue result → All (λ m. m.1.mtype ≡ mtype) list.now.messages }
{
    list.find(Selection::Except(mtype)).is_none()
}

/// A list of messages of this type as the first layer, with room for one more of it. `Err` means
/// out of memory: then the list is as it was.
fn taken_over<B: Body>(
    list: ListWaiting<B>,
    alloc: Global,
    mtype: i64,
) -> Result<Layered<B>, ListWaiting<B>>
    requires { All (λ m. m.1.mtype ≡ mtype) list.messages }
    ensures { MatchResult result (HasCrossed mtype list) (λ same. same ≡ list) }
{
    let mut list = list;
    match list.prepare(mtype) {
        Ok(()) => Ok(Layered::of_one(list, alloc, mtype)),
        Err(_) => Err(list),
    }
}

/// A list in layers to which the messages of a list have moved, with room for one more of this
/// type. `Err` means out of memory: then the list is as it was.
fn moved<B: Body>(
    list: ListWaiting<B>,
    alloc: Global,
    mtype: i64,
) -> Result<Layered<B>, ListWaiting<B>>
    ensures { MatchResult result (HasCrossed mtype list) (λ same. same ≡ list) }
{
    let (messages, prepared) = list.into_parts();
    let mut messages = messages;
    let mut index = Layered::new(alloc, first_type(&messages).unwrap_or(mtype));
    match go_over(&mut messages, &mut index, mtype) {
        Ok(()) => {
            messages.destroy_empty();
            Ok(index)
        }
        Err(_) => {
            cross_back(&mut index, &mut messages);
            index.end();
            Err(ListWaiting::from_parts(messages, prepared))
        }
    }
}

/// A list in layers of the messages of a list, with room for one more of this type. `Err` means out
/// of memory: then the list is as it was.
pub(crate) fn layered<B: Body>(
    list: ListWaiting<B>,
    alloc: Global,
    mtype: i64,
) -> Result<Layered<B>, ListWaiting<B>>
    ensures { MatchResult result (HasCrossed mtype list) (λ same. same ≡ list) }
{
    if is_of(&list, mtype) {
        taken_over(list, alloc, mtype)
    } else {
        moved(list, alloc, mtype)
    }
}

/// A list of the messages of one in layers, with room for so many and one more of this type. `Err`
/// means out of memory: then the list in layers is as it was.
pub(crate) fn listed<B: Body>(
    index: Layered<B>,
    alloc: Global,
    most: usize,
    mtype: i64,
) -> Result<ListWaiting<B>, Layered<B>>
    requires few { length index.messages < most }
    ensures { MatchResult result (HasCrossed mtype index) (λ same. same ≡ index) }
{
    let Ok(messages) = VecDeque::with_capacity(alloc, most) else {
        return Err(index);
    };
    let (mut messages, mut index) = (messages, index);
    index.places_rise();
    go_back(&mut index, &mut messages);
    index.end();
    Ok(ListWaiting::from_parts(messages, Some(mtype)))
}
