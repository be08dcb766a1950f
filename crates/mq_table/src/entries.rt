//! Reads of a slot list by index: its length, how much of it was drained, and each retained event.

ghost use Rattle.std.specs.Prelude.{◌≡◌, ◌<◌, ◌-◌, ◌^◌, slice_get};
ghost use Rattle.mq_table.specs.Kept.{entries_of, offset_now};
ghost use Rattle.mq_table.specs.KeptShown.{event_now};

use crate::Slot;
use mq_message::{Body, Waiting};
use mq_queue::{Event, QueueState};

/// The event at this index of the retained events of a queue's log.
fn kept_event<B: Body, W: Waiting<B>>(queue: &QueueState<B, W>, i: u64) -> Option<Event>
    ensures { result ≡ slice_get queue.now.tail i }
{
    if queue.tail_len() <= i {
        return None;
    }
    queue.event(queue.first() + i)
}

impl<B: Body, W: Waiting<B>> Slot<B, W> {
    /// How many entries the slot list has, with those that were drained.
    pub fn events(&self) -> u64
        ensures value { result ≡ entries_of self.now }
        ensures small { result < 2 ^ 64 - 1 }
    {
        let past = self.first + self.past.len() as u64;
        match &self.live {
            Some(queue) => past + queue.tail_len(),
            None => past,
        }
    }

    /// How many of them were drained.
    pub fn first(&self) -> u64
        ensures { result ≡ self.now.first }
    {
        self.first
    }

    /// The event at this index of the slot list, or `None` if it was drained or is past the end.
    pub fn event(&self, i: u64) -> Option<Event>
        ensures { result ≡ event_now self.now i }
    {
        if i < self.first {
            return None;
        }
        let place = i - self.first;
        let past = self.past.len() as u64;
        if place < past {
            return self.past.get(place as usize).copied();
        }
        match &self.live {
            Some(queue) => kept_event(queue, place - past),
            None => None,
        }
    }

    /// How many entries of the slot list are those of removed queues.
    pub fn offset(&self) -> u64
        ensures { result ≡ offset_now self.now }
    {
        let entries = self.events();
        match &self.live {
            Some(queue) => entries - queue.log_len(),
            None => entries,
        }
    }
}
