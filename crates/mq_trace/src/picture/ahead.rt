//! The entries of a slot that are still to come.

ghost use Rattle.std.specs.Prelude.{◌≡◌, ◌++◌, drop, slice_get};
ghost use Rattle.mq_trace.specs.Bars.{end_of, to_come, until_of};

use super::bars::{Stamp, Until};
use crate::SlotEntries;
use mq_queue::Event;

/// The entries of a slot from some position on.
#[derive(Clone, Copy)]
pub(crate) struct Ahead<'a> {
    past: &'a [Event],
    last: &'a [Event],
}

impl<'a> Ahead<'a> {
    /// All entries of the slot.
    pub(crate) fn new(slot: SlotEntries<'a>) -> Ahead<'a>
        ensures { to_come result ≡ slot.entry.past.now ++ slot.entry.last.now }
    {
        Ahead {
            past: slot.past,
            last: slot.last,
        }
    }

    /// The first of them.
    fn first(self) -> Option<Event>
        ensures { result ≡ slice_get (to_come self.entry) 0 }
    {
        match self.past {
            [event, ..] => Some(*event),
            [] => self.last.first().copied(),
        }
    }

    /// Those after the first of them.
    pub(crate) fn passed(self) -> Ahead<'a>
        ensures { to_come result ≡ drop 1 (to_come self.entry) }
    {
        match self.past {
            [_, past @ ..] => Ahead {
                past,
                last: self.last,
            },
            [] => Ahead {
                past: self.past,
                last: match self.last {
                    [_, last @ ..] => last,
                    [] => self.last,
                },
            },
        }
    }

    /// What becomes of the message with this place, where the first of these entries has this
    /// position. The entries are read up to the one that ends its wait.
    #[tactic(auto, using(crate::proofs::Ends::until_found, crate::proofs::Ends::until_waits))]
    pub(crate) fn until(self, entry: u64, place: u64) -> Until
        ensures { result ≡ until_of place entry (to_come self.entry) }
    {
        let mut ahead = self;
        let mut at = entry;
        while let Some(event) = ahead.first() {
            if let Some(until) = end(event, at, place) {
                return until;
            }
            ahead = ahead.passed();
            at = at.saturating_add(1);
        }
        Until::Waiting
    }
}

/// Whether this event, at this position, ends the wait of the message with this place.
fn end(event: Event, entry: u64, place: u64) -> Option<Until>
    ensures { result ≡ end_of place entry event }
{
    match event {
        Event::Received {
            seat,
            moment,
            place: received,
            ..
        } if received == place => {
            let at = Stamp { entry, moment };
            Some(Until::Received { seat, at })
        }
        Event::Removed { moment, .. } => {
            let at = Stamp { entry, moment };
            Some(Until::Removed { at })
        }
        _ => None,
    }
}
