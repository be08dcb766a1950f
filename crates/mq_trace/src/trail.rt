//! The two parts of a slot's entries, read as one list.

ghost use Rattle.std.specs.Prelude.{◌≡◌, ◌++◌, [], length, slice_get};
ghost use Rattle.mq_trace.specs.Found.{more};
ghost use Rattle.mq_trace.specs.Walk.{left_behind, passed};

use crate::part::Part;
use mq_queue::Event;
use std::marker::Model;

/// The entries of a slot, seen as those of the last queue that were passed, and those that are
/// still to come.
#[derive(Drop)]
pub(crate) struct Trail<'a> {
    past: Part<'a>,
    last: Part<'a>,
}

impl<'a> Model for Trail<'a> {
    ghost use Rattle.std.specs.Prelude.{◌≡◌, ◌⊎◌, ◌++◌, []};
    ghost use Rattle.mq_trace.specs.Walk.{Trail as Whole};

    ghost Value = { Whole };

    ghost view = { λ t. record {
      log = t.past.log ++ t.last.log;
      rest = t.past.rest ++ t.last.rest;
    } };

    ghost invariant = { λ t. (t.past.rest ≡ []) ⊎ (t.last.log ≡ []) };
}

impl<'a> Trail<'a> {
    pub(crate) fn new(past: &'a [Event], last: &'a [Event]) -> Trail<'a>
        ensures { result ≡ record { log = []; rest = past.now ++ last.now } }
    {
        Trail {
            past: Part::new(past),
            last: Part::new(last),
        }
    }

    /// The next entry, which is not passed yet.
    pub(crate) fn first(&self) -> Option<Event>
        ensures { result ≡ slice_get self.now.rest 0 }
    {
        match self.past.first() {
            Some(event) => Some(event),
            None => self.last.first(),
        }
    }

    /// Passes the next entry, if there is one.
    pub(crate) fn pass(&mut self)
        ensures { self.new ≡ passed self.old.log self.old.rest }
    {
        match self.past.first() {
            Some(_) => self.past.pass(),
            None => self.last.pass(),
        }
    }

    /// Leaves the entries of the last queue behind.
    pub(crate) fn leave_behind(&mut self)
        ensures { self.new ≡ left_behind self.old }
    {
        self.past.leave_behind();
        self.last.leave_behind();
    }

    /// How many entries of the last queue were passed, within a `u64`.
    pub(crate) fn len(&self) -> u64
        ensures { result ≡ more 0 (length self.now.log) }
    {
        self.past.len().saturating_add(self.last.len())
    }

    /// The entry of the last queue at this index, if it was passed.
    pub(crate) fn get(&self, i: u64) -> Option<Event>
        ensures { result ≡ slice_get self.now.log i }
    {
        let before = self.past.len();
        if i < before {
            self.past.get(i)
        } else {
            self.last.get(i - before)
        }
    }
}
