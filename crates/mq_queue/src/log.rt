//! Logs of events. An append is in two steps: room is reserved before the queue changes, so that
//! out of memory changes nothing.

ghost use Rattle.std.specs.Prelude.{◌≡◌, ◌<◌, ◌≤◌, ◌+◌, ◌++◌, ◌∷◌, [], length, vec_len, vec_capacity};
ghost use Rattle.std.specs.Prelude.{MatchResult, OnOk};
ghost use Rattle.mq_queue.specs.Base.{event_from};
ghost use Rattle.mq_queue.specs.declared.limits.TheConstants.{MAX_CUT};

use crate::{Base, Event, Figures, Notice};
use std::alloc::AllocError;
use std::marker::Model;

/// The log of a queue that was taken apart, seen as the base of the drained events, and the list of
/// those since then.
#[derive(Drop)]
pub struct Log {
    base: Base,
    tail: Vec<Event>,
}

impl Model for Log {
    ghost use Rattle.std.specs.Prelude.{◌≤◌};
    ghost use Rattle.mq_queue.specs.Queue.{CutLog};
    ghost use Rattle.mq_queue.specs.declared.limits.TheConstants.{MAX_CUT};

    ghost Value = { CutLog };

    ghost view = { λ log. record { base = log.base; tail = log.tail.items } };

    ghost invariant = { λ log. log.base.places ≤ MAX_CUT };
}

impl Log {
    pub(crate) fn of(base: Base, tail: Vec<Event>) -> Log
        requires { base.places ≤ MAX_CUT }
        ensures { result ≡ record { base = base; tail = tail.items } }
    {
        Log { base, tail }
    }

    /// How many events the whole log has.
    pub fn len(&self) -> u64
        ensures { result ≡ self.now.base.places + length self.now.tail }
    {
        whole_count(self.base.places, &self.tail)
    }

    /// How many of them were drained.
    pub fn first(&self) -> u64
        ensures { result ≡ self.now.base.places }
    {
        self.base.places
    }

    /// The event at this place of the whole log, or `None` where it was drained or is past the end.
    pub fn get(&self, i: u64) -> Option<Event>
        ensures { result ≡ event_from self.now.base.places self.now.tail i }
    {
        event_at(self.base.places, &self.tail, i)
    }

    /// The events that were not drained, of which the first is at the place `first`.
    pub fn events(&self) -> &[Event]
        ensures { result.now ≡ self.now.tail }
    {
        self.tail.as_slice()
    }

    /// The base of the drained events, and the events since then. It allocates nothing.
    pub fn into_parts(self) -> (Base, Vec<Event>)
        ensures base { result.0 ≡ self.base }
        ensures tail { result.1.items ≡ self.tail }
    {
        let Log { base, tail } = self;
        (base, tail)
    }
}

/// How many events there are with those that were drained.
pub(crate) fn whole_count(first: u64, events: &Vec<Event>) -> u64
    requires { first ≤ MAX_CUT }
    ensures { result ≡ first + length events.now.items }
{
    first + events.len() as u64
}

/// The event at this place, where `first` events were drained.
pub(crate) fn event_at(first: u64, events: &Vec<Event>, i: u64) -> Option<Event>
    ensures { result ≡ event_from first events.now.items i }
{
    if i < first {
        return None;
    }
    events.get((i - first) as usize).copied()
}

/// Reserves room for one more event, and then gives it to the notice. `Err` means out of memory.
pub(crate) fn reserve<N: Notice>(
    events: &mut Vec<Event>,
    event: Event,
    after: Figures,
    notice: &mut N,
) -> Result<(), AllocError>
    ensures items { events.new.items ≡ events.old.items }
    ensures room { OnOk result (vec_len events.new < vec_capacity events.new) }
    ensures noticed { MatchResult result (λ _. N.takes notice.old event after notice.new)
        (λ _. notice.new ≡ notice.old) }
{
    events.reserve(1)?;
    notice.prepare(event, after)
}

/// Adds an event, for which there is room.
pub(crate) fn append(events: &mut Vec<Event>, event: Event)
    requires { vec_len events.old < vec_capacity events.old }
    ensures { events.new.items ≡ events.old.items ++ event ∷ [] }
{
    match events.push(event) {
        Ok(()) => (),
        Err(_) => unreachable!(),
    }
}
