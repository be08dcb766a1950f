//! The base of a queue's log whose beginning was drained.

ghost use Rattle.std.specs.Prelude.{◌≡◌, ◌==◌, IsTrue, find, None};
ghost use Rattle.std.specs.Option.{option_copied};
ghost use Rattle.mq_trace.specs.Found.{kept_at, places_of};
ghost use Rattle.mq_trace.specs.Steps.{counts_kept};
ghost use Rattle.mq_trace.specs.Walk.{IsAscending, place_in};

use crate::counts::{Counts, NO_COUNTS};
use mq_message::Header;
use mq_queue::{Base, BaseEntries};
use std::marker::Model;

/// The base of the last queue, where the beginning of its log was drained.
#[derive(Drop)]
pub(crate) struct Kept<'a> {
    base: Option<&'a Base>,
    /// Whether what waited is in the order of places, as each log leaves it.
    ascending: bool,
}

impl<'a> Model for Kept<'a> {
    ghost use Rattle.std.specs.Prelude.{Option, IsTrue, IfSome};
    ghost use Rattle.std.specs.Option.{option_copied};
    ghost use Rattle.mq_queue.specs.declared.base.Base.{Base};
    ghost use Rattle.mq_trace.specs.Walk.{IsAscending};

    ghost Value = { Option Base };

    ghost view = { λ k. option_copied k.base };

    ghost invariant = { λ k. IsTrue k.ascending
        → IfSome k.base (λ base. IsAscending base.now.waiting) };
}

impl<'a> Kept<'a> {
    /// Where nothing was drained.
    pub(crate) fn none() -> Kept<'a>
        ensures { result ≡ None }
    {
        Kept {
            base: None,
            ascending: false,
        }
    }

    pub(crate) fn new(base: Option<&'a Base>) -> Kept<'a>
        ensures { result ≡ option_copied base.entry }
    {
        let ascending = match base {
            Some(base) => is_ascending(&base.waiting),
            None => false,
        };
        Kept { base, ascending }
    }

    /// How many events were drained.
    pub(crate) fn places(&self) -> u64
        ensures { result ≡ places_of self.now }
    {
        match self.base {
            Some(base) => base.places,
            None => 0,
        }
    }

    /// What waited then.
    pub(crate) fn counts(&self) -> Counts
        ensures { result ≡ counts_kept self.now }
    {
        match self.base {
            Some(base) => Counts {
                messages: base.figures.qnum,
                bytes: base.figures.cbytes,
            },
            None => NO_COUNTS,
        }
    }

    /// The message at this place among those that waited.
    pub(crate) fn message(&self, place: u64) -> Option<Header>
        ensures { result ≡ kept_at self.now place }
    {
        let base = self.base?;
        if self.ascending {
            search(&base.waiting, place)
        } else {
            scan(&base.waiting, place)
        }
    }
}

/// The place of a message in the list, or 0 past the list's end.
fn place_at(waiting: &BaseEntries, i: u64) -> u64
    ensures { result ≡ place_in waiting.now i }
{
    match waiting.get(i) {
        Some(message) => message.place,
        None => 0,
    }
}

/// Whether each message has a greater place than those before it.
fn is_ascending(waiting: &BaseEntries) -> bool
    ensures { IsTrue result → IsAscending waiting.now }
{
    for i in 1..waiting.len() {
        if place_at(waiting, i) <= place_at(waiting, i - 1) {
            return false;
        }
    }
    true
}

/// The first message with this place, in a list in the order of places.
fn search(waiting: &BaseEntries, place: u64) -> Option<Header>
    requires { IsAscending waiting.now }
    ensures { result ≡ find (λ m. m.place == place) waiting.now }
{
    let (mut low, mut high) = (0, waiting.len());
    while low < high {
        let middle = low + (high - low) / 2;
        let message = waiting.get(middle)?;
        if message.place == place {
            return Some(message);
        }
        if message.place < place {
            low = middle + 1;
        } else {
            high = middle;
        }
    }
    None
}

/// The same in a list in any order, by a linear search.
fn scan(waiting: &BaseEntries, place: u64) -> Option<Header>
    ensures { result ≡ find (λ m. m.place == place) waiting.now }
{
    for i in 0..waiting.len() {
        let message = waiting.get(i)?;
        if message.place == place {
            return Some(message);
        }
    }
    None
}
