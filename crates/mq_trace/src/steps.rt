//! The steps of a slot's entries: an iterator of a size that does not grow with them.

ghost use Rattle.std.specs.Prelude.{◌≡◌, ◌++◌};
ghost use Rattle.std.specs.Iterator.{YieldsFirst, item_count};
ghost use Rattle.mq_queue.specs.Waiting.{sent_at as header_sent};
ghost use Rattle.mq_trace.specs.Found.{message_at};
ghost use Rattle.mq_trace.specs.Steps.{entered, first_point, id_at, message_of, place_of};
ghost use Rattle.mq_trace.specs.Steps.{point_in, steps_from};

use crate::counts::Counts;
use crate::kept::Kept;
use crate::trail::Trail;
use crate::{SlotEntries, Step};
use mq_message::Header;
use mq_queue::Event;
use mq_table::MAX_SLOTS;
use std::iter::FusedIterator;
use std::marker::Model;

/// What a slot's entries say, one after another, seen as what is known before the next of them and
/// those that are still to come.
#[derive(Drop)]
pub struct Steps<'a> {
    slot: u8,
    /// The position of the next entry in the slot's list.
    entry: u64,
    /// How many queues were made.
    made: u64,
    kept: Kept<'a>,
    trail: Trail<'a>,
    counts: Counts,
}

impl<'a> Model for Steps<'a> {
    ghost use Rattle.mq_trace.specs.Walk.{Walk};

    ghost Value = { Walk };

    ghost view = { λ s. record {
      at = record {
        slot = s.slot;
        entry = s.entry;
        made = s.made;
        base = s.kept;
        log = s.trail.log;
        counts = s.counts;
      };
      rest = s.trail.rest;
    } };
}

impl<'a> Steps<'a> {
    pub(crate) fn new(entries: SlotEntries<'a>) -> Steps<'a>
        ensures at { result.at ≡ first_point entries.entry }
        ensures rest { result.rest ≡ entries.entry.past.now ++ entries.entry.last.now }
    {
        let kept = Kept::new(entries.base);
        let counts = kept.counts();
        Steps {
            slot: entries.slot,
            entry: entries.first,
            made: u64::from(entries.made),
            kept,
            trail: Trail::new(entries.past, entries.last),
            counts,
        }
    }

    /// Where the event is a making, begins with its queue.
    fn enter(&mut self, event: Event)
        ensures { self.new ≡ record self.old { at = entered self.old.at event } }
    {
        if let Event::Made { .. } = event {
            self.made = self.made.saturating_add(1);
            self.kept = Kept::none();
            self.trail.leave_behind();
        }
    }

    /// The id of the last queue.
    fn id(&self) -> u32
        ensures { result ≡ id_at self.now.at }
    {
        let number = self
            .made
            .saturating_sub(1)
            .saturating_mul(u64::from(MAX_SLOTS))
            .saturating_add(u64::from(self.slot));
        number.min(u64::from(u32::MAX)) as u32
    }

    /// The place of the next event in its queue's log.
    fn place(&self) -> u64
        ensures { result ≡ place_of self.now.at }
    {
        self.kept.places().saturating_add(self.trail.len())
    }

    /// The message at this place of the last queue's log, if that was sent.
    fn message_at(&self, place: u64) -> Option<Header>
        ensures { result ≡ message_at self.now.at.base self.now.at.log place }
    {
        let places = self.kept.places();
        if place < places {
            self.kept.message(place)
        } else {
            sent_at(place, self.trail.get(place - places)?)
        }
    }

    /// The message that the next event sends or receives.
    fn message_of(&self, event: Event) -> Option<Header>
        ensures { result ≡ message_of self.now.at event }
    {
        match event {
            Event::Received { place, .. } => self.message_at(place),
            _ => sent_at(self.place(), event),
        }
    }
}

/// The message that the event at this place sent, if it is a sending.
fn sent_at(place: u64, event: Event) -> Option<Header>
    ensures { result ≡ header_sent place event }
{
    match event {
        Event::Sent {
            seat,
            moment: _,
            tag,
            mtype,
            length,
        } => Some(Header {
            place,
            seat,
            tag,
            mtype,
            length,
        }),
        _ => None,
    }
}

impl<'a> Iterator for Steps<'a> {
    type Item = Step;

    ghost next_gives = { YieldsFirst (λ w. steps_from w.at w.rest) };

    ghost remaining = { item_count (λ w. steps_from w.at w.rest) };

    fn next(&mut self) -> Option<Step> {
        let event = self.trail.first()?;
        self.enter(event);
        let message = self.message_of(event);
        self.counts = self.counts.after(event, message);
        let step = Step {
            entry: self.entry,
            id: self.id(),
            event,
            message,
            qnum: self.counts.messages,
            cbytes: self.counts.bytes,
        };
        self.trail.pass();
        self.entry = self.entry.saturating_add(1);
        Some(step)
    }
}

impl<'a> FusedIterator for Steps<'a> {}
