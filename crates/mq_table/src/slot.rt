//! The state of a slot, and its accessors: the lookup of an id, whether it is free, its board row.

ghost use Rattle.std.specs.Prelude.{◌≡◌, ◌<◌, ◌≤◌, ◌+◌, ◌-◌, ◌^◌, true, false, is_some, IsTrue};
ghost use Rattle.mq_table.specs.Ids.{slot_of, seq_of};
ghost use Rattle.mq_table.specs.Kept.{entries_of, is_live_kept, made_of, offset_now};
ghost use Rattle.mq_table.specs.KeptPart.{IsLawfulSlot, WaitsNow};
ghost use Rattle.mq_table.specs.KeptShown.{event_now, is_free_now, last_id_now, row_now, standing_now};
ghost use Rattle.mq_table.specs.SlotList.{by_standing};
ghost use Rattle.mq_table.specs.SlotParts.{empty_kept};

use crate::{Id, IdRefusal, MAX_SEQ, MAX_SLOTS};
use mq_message::{Body, Waiting};
use mq_queue::{Base, BoardRow, Event, NO_FIGURES, QueueState};
use std::alloc::Global;
use std::marker::Model;

/// A slot of the queue table, which has one queue at a time. It is seen as its number, the retained
/// part of its slot list, and the pending messages of its queue. A slot is not dropped:
/// `into_parts` ends it.
pub struct Slot<B: Body, W: Waiting<B>> {
    pub(crate) number: u8,
    /// How many entries were drained.
    pub(crate) first: u64,
    /// How many of these are `Made` events.
    pub(crate) gone: u32,
    /// The key of the queue that is in the slot, or 0.
    pub(crate) key: i32,
    /// The base of the queue that was live at the last drain, if it was removed since.
    pub(crate) base: Option<Base>,
    /// The retained events of the queues that were removed.
    pub(crate) past: Vec<Event>,
    /// How many queues were made.
    pub(crate) made: u32,
    pub(crate) live: Option<QueueState<B, W>>,
}

impl<B: Body, W: Waiting<B>> Model for Slot<B, W> {
    ghost use Rattle.mq_table.specs.Kept.{KeptSlot};
    ghost use Rattle.mq_table.specs.SlotParts.{IsSlot, slot_with};

    ghost Value = { KeptSlot B };

    ghost view = { λ s. slot_with s.number s.first s.gone s.key s.base s.past.items s.live };

    ghost invariant = { λ s. IsSlot B.bytes s.made s.live s.base
        (slot_with s.number s.first s.gone s.key s.base s.past.items s.live) };
}

impl<B: Body, W: Waiting<B>> Slot<B, W> {
    /// A slot in which no queue was made.
    pub fn new(alloc: Global, number: u8) -> Slot<B, W>
        requires { number < MAX_SLOTS }
        ensures { result ≡ empty_kept number }
    {
        Slot {
            number,
            first: 0,
            gone: 0,
            key: 0,
            base: None,
            past: Vec::new(alloc),
            made: 0,
            live: None,
        }
    }

    /// The invariant: the slot retains its part of a list of at most `MAX_SEQ + 1` queues, and its
    /// pending messages are those that this part leaves.
    pub fn holds(&self)
        ensures lawful { IsLawfulSlot MAX_SEQ self.now }
        ensures waits { WaitsNow B.bytes self.now }
        ensures numbered { self.now.number < MAX_SLOTS }
    {
        let _ = &self.number;
    }

    pub fn number(&self) -> u8
        ensures value { result ≡ self.now.number }
        ensures within { result < MAX_SLOTS }
    {
        self.number
    }

    /// Whether a queue is in the slot.
    pub fn is_live(&self) -> bool
        ensures { result ≡ is_live_kept self.now }
    {
        self.live.is_some()
    }

    /// How many queues were made in the slot.
    pub fn made(&self) -> u32
        ensures value { result ≡ made_of self.now }
        ensures within { result ≤ MAX_SEQ + 1 }
    {
        self.made
    }

    /// The id of the queue that was made last, which is in the slot.
    pub fn last_id(&self) -> Id
        requires live { is_live_kept self.now ≡ true }
        ensures { result ≡ last_id_now self.now }
    {
        Id::of(self.number, self.made.saturating_sub(1))
    }

    /// The key of the queue that is in the slot: 0 is IPC_PRIVATE (msgget(2)), and is answered too
    /// where no queue is.
    pub fn key(&self) -> i32
        ensures { result ≡ self.now.key }
    {
        self.key
    }

    /// Whether a queue can be made in the slot, where its ids end with this seq.
    pub fn is_free(&self, last_seq: u32) -> bool
        ensures value { result ≡ is_free_now last_seq self.now }
        ensures empty { IsTrue result → is_live_kept self.now ≡ false }
        ensures unused { IsTrue result → made_of self.now ≤ last_seq }
    {
        !self.is_live() && self.made() <= last_seq
    }

    /// Whether this id's queue is in the slot, or why not.
    pub fn look(&self, id: Id) -> Result<(), IdRefusal>
        requires { slot_of id ≡ self.now.number }
        ensures { result ≡ by_standing (standing_now self.now (seq_of id)) }
    {
        let made = self.made();
        if made <= id.seq() {
            Err(IdRefusal::Never)
        } else if self.is_live() && id.seq() + 1 == made {
            Ok(())
        } else {
            Err(IdRefusal::Removed)
        }
    }

    /// What a report shows of the slot: the figures of the queue that is in it, or all 0.
    pub fn row(&self) -> BoardRow
        ensures value { result ≡ row_now self.now }
        ensures within { result.made ≤ MAX_SEQ + 1 }
    {
        let made = self.made;
        let key = self.key;
        match &self.live {
            Some(queue) => BoardRow {
                made,
                live: true,
                key,
                figures: queue.figures(),
            },
            None => BoardRow {
                made,
                live: false,
                key,
                figures: NO_FIGURES,
            },
        }
    }
}
