//! The form for many pending messages: a list of one type, and an index by type behind it.

ghost use Rattle.std.specs.Prelude.{◌≡◌, ◌<◌, ◌++◌, [], All, IfSome, IsSome, OnErr, OnOk, Some};
ghost use Rattle.std.specs.Prelude.{false, length, map, nat_lt};
ghost use Rattle.std.specs.Option.{option_map};
ghost use Rattle.mq_message.specs.Selection.{pick};
ghost use Rattle.mq_message.specs.Waiting.{message_at};
ghost use Rattle.mq_select.specs.Layered.{joins, prefers, reaches, room_for};
ghost use Rattle.mq_select.specs.Outcome.{CanPut, HasCrossed, IsFresh, IsPopped, IsPut, IsTaken};

use crate::same::SameType;
use crate::{ByType, ListWaiting};
use mq_message::{Body, Header, Message, Selection, Waiting};
use std::alloc::{AllocError, Global};
use std::marker::Model;

/// The pending messages in two layers: first those of one type, in a list, and behind them the
/// others, indexed by type. While all messages sent are of the first type, the second layer is
/// empty, and a message costs no node and no map lookup. It can't be dropped, whatever its bodies
/// are: `end` alone takes it.
pub struct Layered<B> {
    first: SameType<B>,
    rest: ByType<B>,
    /// The type for which the layer that its next message goes to has room.
    prepared: Option<i64>,
    alloc: Global,
}

impl<B> Model for Layered<B> {
    ghost use Rattle.std.specs.Prelude.{◌++◌};
    ghost use Rattle.mq_message.specs.Waiting.{Listed};
    ghost use Rattle.mq_select.specs.Layered.{IsLayered};

    ghost Value = { Listed B };

    ghost view = { λ w. record {
      messages = w.first.messages ++ w.rest.messages;
      prepared = w.prepared;
    } };

    ghost invariant = { λ w. IsLayered w.first w.rest w.prepared };
}

/// Whether the next message of this type joins those of one type.
fn is_joining<B>(first: &SameType<B>, rest: &ByType<B>, mtype: i64) -> bool
    ensures { result ≡ joins first.now rest.now.messages mtype }
{
    rest.is_empty() && first.mtype() == mtype
}

/// Whether the selection prefers one of the rest to the first layer's.
fn is_preferred<B>(first: &SameType<B>, rest: &ByType<B>, selection: Selection) -> bool
    ensures { result ≡ prefers selection first.now.mtype (map (λ m. m.1.mtype) rest.now.messages) }
{
    match selection {
        Selection::UpTo(bound) => match rest.lowest_within(bound) {
            Some(lowest) => lowest < first.mtype(),
            None => false,
        },
        _ => false,
    }
}

/// The place of the message that the selection picks from both layers.
fn find_in<B: Body>(first: &SameType<B>, rest: &ByType<B>, selection: Selection) -> Option<u64>
    ensures { result ≡ option_map (λ m. m.0)
        (pick (λ m. m.1.mtype) (first.now.messages ++ rest.now.messages) selection) }
{
    match first.find(selection) {
        Some(place) => {
            if is_preferred(first, rest, selection) {
                rest.find(selection)
            } else {
                Some(place)
            }
        }
        None => rest.find(selection),
    }
}

/// Whether a place is behind the first layer.
fn is_behind<B: Body>(rest: &ByType<B>, place: u64) -> bool
    ensures reached { result ≡ reaches place rest.now.messages }
    ensures before { result ≡ false → All (λ m. place < m.0) rest.now.messages }
{
    rest.places_rise();
    match rest.find(Selection::Any) {
        Some(least) => least <= place,
        None => false,
    }
}

/// Allocates room for one more message of this type in the layer that it joins. `Err` means out of
/// memory.
fn prepare_in<B: Body>(
    first: &mut SameType<B>,
    rest: &mut ByType<B>,
    alloc: Global,
    mtype: i64,
) -> Result<(), AllocError>
    ensures first { first.new.messages ≡ first.old.messages }
    ensures rest { rest.new.messages ≡ rest.old.messages }
    ensures ok { OnOk result (room_for first.new rest.new mtype ≡ Some mtype) }
    ensures unchanged { OnErr result ((first.new ≡ first.old) × (rest.new ≡ rest.old)) }
{
    if is_joining(first, rest, mtype) {
        return first.prepare();
    }
    rest.prepare(mtype)?;
    first.give_back(alloc);
    Ok(())
}

impl<B> Layered<B> {
    /// Whether more than so many messages are pending.
    #[inline(never)]
    pub(crate) fn is_longer_than(&self, few: usize) -> bool
        ensures { result ≡ nat_lt few (length self.now.messages) }
    {
        let first = self.first.len();
        few < first || few - first < self.rest.len()
    }
}

impl<B: Body> Layered<B> {
    /// Empty layers, of which the first is for messages of this type.
    pub(crate) fn new(alloc: Global, mtype: i64) -> Layered<B>
        ensures { IsFresh result }
    {
        Layered {
            first: SameType::new(alloc, mtype),
            rest: ByType::fresh(alloc),
            prepared: None,
            alloc,
        }
    }

    /// Makes a list whose messages are all of this type, with room for one more, the first layer.
    pub(crate) fn of_one(list: ListWaiting<B>, alloc: Global, mtype: i64) -> Layered<B>
        requires same { All (λ m. m.1.mtype ≡ mtype) list.messages }
        requires prepared { list.prepared ≡ Some mtype }
        ensures { HasCrossed mtype list result }
    {
        // The parts are what says that the places rise.
        let (messages, prepared) = list.into_parts();
        Layered {
            first: SameType::of(ListWaiting::from_parts(messages, prepared), mtype),
            rest: ByType::fresh(alloc),
            prepared: Some(mtype),
            alloc,
        }
    }

    /// Takes out the first message, and its place with it.
    pub(crate) fn pop_first(&mut self) -> Option<(u64, Message<B>)>
        ensures { IsPopped result self.old self.new }
    {
        self.prepared = None;
        match self.find(Selection::Any) {
            Some(place) => Some((place, self.take(place))),
            None => None,
        }
    }
}

/// Takes out the message at this place, which is behind the first layer. It is not inlined, and
/// returns an option: so a message of the first layer, which is taken most often, is not copied
/// through the memory in which this one is returned.
#[inline(never)]
fn take_behind<B: Body>(rest: &mut ByType<B>, place: u64) -> Option<Message<B>>
    requires { IsSome (message_at place rest.old.messages) }
    ensures there { IsSome result }
    ensures taken { IfSome result (λ m. IsTaken place m rest.old rest.new) }
{
    Some(rest.take(place))
}

// Of the frequent calls those that move a message are inlined, since a move through memory costs
// more than their branches. In `IndexWaiting` the others would make the small list's slower.
impl<B: Body> Waiting<B> for Layered<B> {
    ghost messages = { λ w. w.messages };

    ghost prepared = { λ w. w.prepared };

    fn fresh(alloc: Global) -> Self {
        Layered::new(alloc, 1)
    }

    fn places_rise(&self) {
        let _ = &self.prepared;
    }

    #[inline(never)]
    fn find(&self, selection: Selection) -> Option<u64> {
        if self.rest.is_empty() {
            self.first.find(selection)
        } else {
            find_in(&self.first, &self.rest, selection)
        }
    }

    #[inline(never)]
    fn prepare(&mut self, mtype: i64) -> Result<(), AllocError> {
        prepare_in(&mut self.first, &mut self.rest, self.alloc, mtype)?;
        self.prepared = Some(mtype);
        Ok(())
    }

    #[inline(always)]
    fn put_prepared(&mut self, place: u64, message: Message<B>)
        requires { CanPut place message self.old }
        ensures { IsPut place message self.old self.new }
    {
        self.prepared = None;
        if is_joining(&self.first, &self.rest, message.mtype) {
            self.first.put_prepared(place, message);
        } else {
            self.rest.put_prepared(place, message);
        }
    }

    #[inline(always)]
    fn take(&mut self, place: u64) -> Message<B> {
        self.prepared = None;
        if is_behind(&self.rest, place) {
            take_behind(&mut self.rest, place).unwrap()
        } else {
            self.first.take(place)
        }
    }

    #[inline(never)]
    fn length_of(&self, place: u64) -> u64 {
        if is_behind(&self.rest, place) {
            self.rest.length_of(place)
        } else {
            self.first.length_of(place)
        }
    }

    fn headers(&self, alloc: Global) -> Result<Vec<Header>, AllocError> {
        let mut headers = self.first.headers(alloc)?;
        let rest = self.rest.headers(alloc)?;
        headers.extend_from_slice(&rest)?;
        Ok(headers)
    }

    fn pop_any(&mut self) -> Option<Message<B>> {
        match self.pop_first() {
            Some((_, message)) => Some(message),
            None => None,
        }
    }

    fn end(self) {
        let Layered {
            first,
            rest,
            prepared: _,
            alloc: _,
        } = self;
        first.end();
        rest.end();
    }
}
