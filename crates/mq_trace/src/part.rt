//! A list that is read from its front: what was read since some point can be searched again.

ghost use Rattle.std.specs.Prelude.{◌≡◌, [], length, slice_get};
ghost use Rattle.mq_trace.specs.Walk.{left_behind, passed};

use mq_queue::Event;
use std::marker::Model;

/// Part of a slot's entries, seen as those of the last queue that were passed, and those that are
/// still to come.
#[derive(Drop)]
pub(crate) struct Part<'a> {
    events: &'a [Event],
    /// Where the last queue's begin.
    begun: usize,
    /// How many were passed.
    done: usize,
}

impl<'a> Model for Part<'a> {
    ghost use Rattle.std.specs.Prelude.{◌≤◌, drop, length, slice_range};
    ghost use Rattle.mq_trace.specs.Walk.{Trail};

    ghost Value = { Trail };

    ghost view = { λ p. record {
      log = slice_range p.events.now p.begun p.done;
      rest = drop p.done p.events.now;
    } };

    ghost invariant = { λ p. (p.begun ≤ p.done) × (p.done ≤ length p.events.now) };
}

impl<'a> Part<'a> {
    pub(crate) fn new(events: &'a [Event]) -> Part<'a>
        ensures { result ≡ record { log = []; rest = events.now } }
    {
        Part {
            events,
            begun: 0,
            done: 0,
        }
    }

    /// The next entry, which is not passed yet.
    pub(crate) fn first(&self) -> Option<Event>
        ensures { result ≡ slice_get self.now.rest 0 }
    {
        self.events.get(self.done).copied()
    }

    /// Passes the next entry, if there is one.
    pub(crate) fn pass(&mut self)
        ensures { self.new ≡ passed self.old.log self.old.rest }
    {
        if self.done < self.events.len() {
            self.done += 1;
        }
    }

    /// Leaves the entries of the last queue behind.
    pub(crate) fn leave_behind(&mut self)
        ensures { self.new ≡ left_behind self.old }
    {
        self.begun = self.done;
    }

    /// How many entries of the last queue were passed.
    pub(crate) fn len(&self) -> u64
        ensures { result ≡ length self.now.log }
    {
        (self.done - self.begun) as u64
    }

    /// The entry of the last queue at this index, if it was passed.
    pub(crate) fn get(&self, i: u64) -> Option<Event>
        ensures { result ≡ slice_get self.now.log i }
    {
        self.events[self.begun..self.done].get(i as usize).copied()
    }
}
