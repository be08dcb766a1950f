//! A store of pending messages that adapts its form to their number: the entry point of this crate.

ghost use Rattle.std.specs.Prelude.{◌≡◌, [], false, MatchResult};
ghost use Rattle.mq_select.specs.declared.index.TheConstants.{FEW, MOST_LISTED};
ghost use Rattle.mq_select.specs.Forms.{stays, waiting_in};
ghost use Rattle.mq_select.specs.Outcome.{CanPut, HasCrossed, IsPrepared, IsPut};

use crate::crossing::{layered, listed};
use crate::{Layered, ListWaiting};
use mq_message::{Body, Header, Message, Selection, Waiting};
use std::alloc::{AllocError, Global};
use std::marker::Model;
use std::mem;

/// The most messages that are kept as a list.
const MOST_LISTED: usize = 32;

/// The most messages with which a list in layers becomes a list again.
const FEW: usize = 8;

/// The two forms: a list of few messages, or layers of many.
enum WaitingForm<B> {
    Few(ListWaiting<B>),
    Many(Layered<B>),
}

/// The pending messages: a list while they are few, which is cheapest then, and layers while they
/// are many. `prepare` converts it: to layers at 32 messages or more, and back to a list at 8 or
/// fewer. The gap is hysteresis, so that a queue does not convert with each call. It can't be
/// dropped, whatever its bodies are: `end` alone takes it.
pub struct IndexWaiting<B> {
    held: WaitingForm<B>,
    alloc: Global,
}

impl<B> Model for IndexWaiting<B> {
    ghost use Rattle.mq_message.specs.Waiting.{Listed};

    ghost Value = { Listed B };

    ghost use Rattle.mq_select.specs.Forms.{waiting_in};

    ghost view = { λ w. waiting_in w.held };
}

/// Whether one more message keeps the form.
#[inline(always)]
fn has_room<B>(held: &WaitingForm<B>) -> bool
    ensures { result ≡ stays MOST_LISTED FEW held.now }
{
    match held {
        WaitingForm::Few(list) => list.len() < MOST_LISTED,
        WaitingForm::Many(index) => index.is_longer_than(FEW),
    }
}

/// Ends an empty form.
fn end<B: Body>(held: WaitingForm<B>)
    requires { (waiting_in held).messages ≡ [] }
{
    match held {
        WaitingForm::Few(list) => list.end(),
        WaitingForm::Many(index) => index.end(),
    }
}

/// The messages in the other form, with room for one more of this type. `Err` means out of memory:
/// then they are as they were.
fn crossed<B: Body>(
    held: WaitingForm<B>,
    alloc: Global,
    mtype: i64,
) -> Result<WaitingForm<B>, WaitingForm<B>>
    requires { stays MOST_LISTED FEW held ≡ false }
    ensures { MatchResult result (λ new. HasCrossed mtype (waiting_in held) (waiting_in new))
        (λ same. waiting_in same ≡ waiting_in held) }
{
    match held {
        WaitingForm::Few(list) => match layered(list, alloc, mtype) {
            Ok(index) => Ok(WaitingForm::Many(index)),
            Err(list) => Err(WaitingForm::Few(list)),
        },
        WaitingForm::Many(index) => match listed(index, alloc, MOST_LISTED, mtype) {
            Ok(list) => Ok(WaitingForm::Few(list)),
            Err(index) => Err(WaitingForm::Many(index)),
        },
    }
}

/// Converts to the other form, with room for one more message of this type. `Err` means out of
/// memory.
#[cold]
#[inline(never)]
fn cross<B: Body>(held: &mut WaitingForm<B>, alloc: Global, mtype: i64) -> Result<(), AllocError>
    requires { stays MOST_LISTED FEW held.old ≡ false }
    ensures { IsPrepared mtype result (waiting_in held.old) (waiting_in held.new) }
{
    let old = mem::replace(held, WaitingForm::Few(ListWaiting::fresh(alloc)));
    match crossed(old, alloc, mtype) {
        Ok(new) => {
            end(mem::replace(held, new));
            Ok(())
        }
        Err(same) => {
            end(mem::replace(held, same));
            Err(AllocError)
        }
    }
}

// A call is a branch on the form, then the form's own call: the frequent ones are inlined.
impl<B: Body> Waiting<B> for IndexWaiting<B> {
    ghost messages = { λ w. w.messages };

    ghost prepared = { λ w. w.prepared };

    fn fresh(alloc: Global) -> Self {
        IndexWaiting {
            held: WaitingForm::Few(ListWaiting::fresh(alloc)),
            alloc,
        }
    }

    fn places_rise(&self) {
        match &self.held {
            WaitingForm::Few(list) => list.places_rise(),
            WaitingForm::Many(index) => index.places_rise(),
        }
    }

    #[inline(always)]
    fn find(&self, selection: Selection) -> Option<u64> {
        match &self.held {
            WaitingForm::Few(list) => list.find(selection),
            WaitingForm::Many(index) => index.find(selection),
        }
    }

    #[inline(always)]
    fn prepare(&mut self, mtype: i64) -> Result<(), AllocError> {
        if !has_room(&self.held) {
            return cross(&mut self.held, self.alloc, mtype);
        }
        match &mut self.held {
            WaitingForm::Few(list) => list.prepare(mtype),
            WaitingForm::Many(index) => index.prepare(mtype),
        }
    }

    #[inline(always)]
    fn put_prepared(&mut self, place: u64, message: Message<B>)
        requires { CanPut place message self.old }
        ensures { IsPut place message self.old self.new }
    {
        match &mut self.held {
            WaitingForm::Few(list) => list.put_prepared(place, message),
            WaitingForm::Many(index) => index.put_prepared(place, message),
        }
    }

    #[inline(always)]
    fn take(&mut self, place: u64) -> Message<B> {
        match &mut self.held {
            WaitingForm::Few(list) => list.take(place),
            WaitingForm::Many(index) => index.take(place),
        }
    }

    #[inline(always)]
    fn length_of(&self, place: u64) -> u64 {
        match &self.held {
            WaitingForm::Few(list) => list.length_of(place),
            WaitingForm::Many(index) => index.length_of(place),
        }
    }

    fn headers(&self, alloc: Global) -> Result<Vec<Header>, AllocError> {
        match &self.held {
            WaitingForm::Few(list) => list.headers(alloc),
            WaitingForm::Many(index) => index.headers(alloc),
        }
    }

    fn pop_any(&mut self) -> Option<Message<B>> {
        match &mut self.held {
            WaitingForm::Few(list) => list.pop_any(),
            WaitingForm::Many(index) => index.pop_any(),
        }
    }

    fn end(self) {
        let IndexWaiting { held, alloc: _ } = self;
        end(held);
    }
}
