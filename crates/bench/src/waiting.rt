//! The data structures of pending messages: one message is put at the end and one is taken, again
//! and again, behind a number of pending ones.

ghost use Rattle.std.specs.Prelude.{◌+◌, ◌<◌, All, OnOk};

use crate::words::Words;
use anyhow::Result;
use mq_message::{Message, Selection, VecBody, Waiting, discard};
use mq_select::{ByType, IndexWaiting, ListWaiting};
use std::alloc::{AllocError, Global};

/// What is measured.
#[derive(Clone, Copy)]
struct Plan {
    waiting: u32,
    types: u32,
    selection: Picks,
    pairs: u32,
}

/// Which of the messages are received.
#[derive(Clone, Copy)]
enum Picks {
    Any,
    Exact,
    Except,
    UpTo,
    Last,
}

/// The type of the message at an index.
fn type_of(place: u64, types: u32) -> i64 {
    if types == 0 {
        return 1;
    }
    (place % u64::from(types) + 1) as i64
}

/// Puts an empty message at the end.
fn put<W: Waiting<VecBody>>(
    alloc: Global,
    list: &mut W,
    place: u64,
    mtype: i64,
) -> Result<(), AllocError>
    requires above { All (λ m. m.0 < place) (W.messages list.old) }
    ensures below { OnOk result (All (λ m. m.0 < place + 1) (W.messages list.new)) }
{
    list.prepare(mtype)?;
    let message = Message {
        mtype,
        sender: 1,
        tag: place,
        body: VecBody::from_vec(Vec::new(alloc)),
    };
    list.put_prepared(place, message);
    Ok(())
}

/// Takes the message that a selection picks: 1 plus its length, or 0 where there is none.
fn receive<W: Waiting<VecBody>>(list: &mut W, selection: Selection, above: u64) -> u64
    requires { All (λ m. m.0 < above) (W.messages list.old) }
    ensures { All (λ m. m.0 < above) (W.messages list.new) }
{
    let Some(place) = list.find(selection) else {
        return 0;
    };
    let length = list.length_of(place);
    let _message = list.take(place);
    length.wrapping_add(1)
}

/// Puts the pending messages.
fn filled<W: Waiting<VecBody>>(alloc: Global, list: &mut W, plan: Plan) -> Result<(), AllocError>
    requires { All (λ m. m.0 < 0) (W.messages list.old) }
    ensures { OnOk result (All (λ m. m.0 < plan.waiting) (W.messages list.new)) }
{
    for i in 0..plan.waiting {
        put(alloc, list, u64::from(i), type_of(u64::from(i), plan.types))?;
    }
    Ok(())
}

/// Makes the pairs, and counts the messages that were received.
fn pairs<W: Waiting<VecBody>>(alloc: Global, list: &mut W, plan: Plan) -> Result<u64, AllocError>
    requires { All (λ m. m.0 < plan.waiting) (W.messages list.old) }
{
    let mut came = 0u64;
    for i in 0..plan.pairs {
        let place = u64::from(plan.waiting) + u64::from(i);
        let mtype = match plan.selection {
            Picks::Last => i64::from(plan.types) + 1,
            _ => type_of(place, plan.types),
        };
        put(alloc, list, place, mtype)?;
        let selection = match plan.selection {
            Picks::Any => Selection::Any,
            Picks::Exact | Picks::Last => Selection::Exact(mtype),
            Picks::Except => Selection::Except(2),
            Picks::UpTo => Selection::UpTo(u64::MAX),
        };
        came = came.wrapping_add(receive(list, selection, place + 1));
    }
    Ok(came)
}

/// Makes the pairs on a list of their own.
fn measured<W: Waiting<VecBody>>(alloc: Global, plan: Plan) -> Result<u64, AllocError> {
    let mut list = W::fresh(alloc);
    let came = match filled(alloc, &mut list, plan) {
        Ok(()) => pairs(alloc, &mut list, plan),
        Err(refused) => Err(refused),
    };
    discard(list);
    came
}

/// The data structure of the pending messages.
#[derive(Clone, Copy)]
enum Form {
    List,
    Typed,
    Index,
}

/// The form of that word; the index where it is of no other.
fn form_of(word: &str) -> Form {
    match word {
        "list" => Form::List,
        "typed" => Form::Typed,
        _ => Form::Index,
    }
}

/// The selection of that word; any where it is of no other.
fn picks_of(word: &str) -> Picks {
    match word {
        "exact" => Picks::Exact,
        "except" => Picks::Except,
        "upto" => Picks::UpTo,
        "last" => Picks::Last,
        _ => Picks::Any,
    }
}

/// `waiting FORM WAITING TYPES SELECTION PAIRS`, where FORM is `list`, `typed`, or `index`, which
/// is a list or in layers by how many are pending. The messages are of the types from 1 on in turn,
/// and SELECTION is `any`, `exact`, `except` or `upto`; or `last`, where those of the pairs are of
/// a type that no other is of, and selected by it: counts the messages that were received.
pub(crate) fn run(rt: &impl Print, alloc: Global, words: &Words) -> Result<()> {
    let plan = Plan {
        waiting: words.number(2, 3)?,
        types: words.number(3, 2)?,
        selection: picks_of(words.word(4)),
        pairs: words.number(5, 10)?,
    };
    let came = match form_of(words.word(1)) {
        Form::List => measured::<ListWaiting<VecBody>>(alloc, plan)?,
        Form::Typed => measured::<ByType<VecBody>>(alloc, plan)?,
        Form::Index => measured::<IndexWaiting<VecBody>>(alloc, plan)?,
    };
    println!(rt; "{came} messages came")?;
    Ok(())
}
