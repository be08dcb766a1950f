//! What a slot's mutex protects: the slot and the writer of its board. The calls that change them
//! are in `calls`, `turns` and `many`.

ghost use Rattle.std.specs.Prelude.{◌≡◌, ◌≢◌, ◌⊎◌, ◌<◌, ◌≤◌, ◌+◌, ◌-◌, ◌^◌, ◌==◌, [], true};
ghost use Rattle.std.specs.Prelude.{All, IfOk, IfSome, IsFalse, IsTrue, MatchResult, OnOk, length};
ghost use Rattle.mq_queue.specs.Row.{is_live, made_count};
ghost use Rattle.mq_table.specs.Cut.{IsCutOf, cut_shown};
ghost use Rattle.mq_table.specs.Ids.{slot_of};
ghost use Rattle.mq_table.specs.Slot.{Waits};
ghost use Rattle.mq_table.specs.SlotList.{is_free, IsSlotList};
ghost use Rattle.mq_table.specs.SlotParts.{empty_kept};
ghost use Rattle.mq_table.specs.declared.limits.TheConstants.{MAX_SEQ, MAX_SLOTS};
ghost use Rattle.mq_calls.specs.Texts.{bytes_of};
ghost use Rattle.mq_calls.specs.declared.errno.Errno.TheVariants.{ENOMEM};
ghost use Rattle.mq_system.specs.Answer.{id_with_key, looks_in_slot, refused_here};
ghost use Rattle.mq_system.specs.Pledge.{IsPledged};
ghost use Rattle.mq_system.specs.Outcome.{IsLook};
ghost use Rattle.mq_system.specs.Seat.{front_of};
ghost use Rattle.mq_system.specs.Shared.{IsShared, cut_at_end, cut_where, empty_locked, keeps_from};
ghost use Rattle.mq_system.specs.Shared.{locked};

use crate::{Entries, Names, Pledge, Seat, SlotOf};
use crossbeam_utils::CachePadded;
use mq_board::BoardWriter;
use mq_calls::{Errno, Refused};
use mq_table::{Cut, Id, MAX_SLOTS};
use std::marker::{Model, PhantomData};
use std::sync::ledger::Share;

/// A slot of a system, under its lock, with the writer of its board, which has published all that
/// happened in the slot and nothing else, also what was drained from the slot's list since then. It
/// is seen as the whole slot and the number of entries that were drained; the pledge holds of each
/// pending message.
#[repr(C)]
pub struct SharedSlot<P: Pledge, N: Names> {
    /// Unused bytes between the lock's word and what it protects: a call that tries to acquire the
    /// lock takes no other cache line from its holder.
    apart: CachePadded<()>,
    pub(crate) parts: SlotParts<N>,
    pledge: PhantomData<P>,
}

/// What a slot under its lock is made of. Between two calls of a batch, its board lacks the entries
/// that the batch appended.
pub struct SlotParts<N: Names> {
    pub slot: SlotOf<N>,
    pub writer: BoardWriter<N>,
    /// As much as its whole list has entries.
    pub entries: Share<Entries<N>>,
}

impl<P: Pledge, N: Names> Model for SharedSlot<P, N> {
    ghost use Rattle.std.specs.Prelude.{◌≡◌};
    ghost use Rattle.mq_system.specs.Shared.{IsShared, LockedSlot, locked};

    ghost Value = { LockedSlot };

    ghost view = { λ s. locked s.parts.writer.events s.parts.slot };

    ghost invariant = { λ s. IsShared P.kept N.slots N.last_seq s.parts.writer.board
        s.parts.writer.events s.parts.writer.pending s.parts.slot s.parts.entries.parts
        s.parts.entries.amount };
}

impl<P: Pledge, N: Names> SharedSlot<P, N> {
    /// A slot in which no queue was made, and its board, of the same number, on which nothing is
    /// published.
    pub fn new(
        slot: SlotOf<N>,
        writer: BoardWriter<N>,
        entries: Share<Entries<N>>,
    ) -> SharedSlot<P, N>
        requires within { slot.number < N.slots }
        requires board { writer.board ≡ slot.number }
        requires empty { slot ≡ empty_kept slot.number }
        requires unused { (writer.events ≡ []) × (writer.pending ≡ []) }
        requires part { entries.parts ≡ 1 }
        requires none { entries.amount ≡ 0 }
        ensures { result ≡ empty_locked slot.number }
    {
        let parts = SlotParts {
            slot,
            writer,
            entries,
        };
        SharedSlot {
            apart: CachePadded::new(()),
            parts,
            pledge: PhantomData,
        }
    }

    /// What holds of each slot under its lock.
    pub fn holds(&self)
        ensures within { self.now.whole.number < N.slots }
        ensures lawful { IsSlotList N.last_seq self.now.whole.events }
        ensures waits { Waits bytes_of self.now.whole }
        ensures pledged { All (λ m. IsPledged P.kept m.1) self.now.whole.messages }
        ensures numbered { self.now.whole.number < MAX_SLOTS }
        ensures few { length self.now.whole.events < 2 ^ 64 - 1 }
        ensures made { made_count self.now.whole.events ≤ MAX_SEQ + 1 }
    {
        self.parts.slot.holds();
        self.parts.holds();
    }

    /// Whether this is its number.
    pub fn is_number(&self, number: u8) -> bool
        ensures { result ≡ (self.now.whole.number == number) }
    {
        self.parts.slot.number() == number
    }

    /// The seat observes what happened in this slot. Whether this is its number, and the seat's
    /// view was not newer than the slot: under its lock a slot of another number, or a newer view,
    /// is not reachable (argued, not proved).
    pub fn enter(&mut self, seat: &mut Seat<N>, number: u8) -> bool
        requires within { number < N.slots }
        ensures look { IsLook seat.old seat.new }
        ensures known { IsTrue result → (self.old.whole.number ≡ number)
            × (front_of seat.new number ≡ self.old.whole.events) }
        ensures refused { IsFalse result → (self.old.whole.number ≢ number)
            ⊎ (length self.old.whole.events < length (front_of seat.old number)) }
        ensures same { self.new ≡ self.old }
    {
        self.is_number(number) && seat.learn(number, self.parts.writer.tell())
    }

    /// Whether this id's queue is in the slot, or why not.
    pub fn look(&self, id: Id) -> Result<(), Refused>
        requires id { slot_of id ≡ self.now.whole.number }
        ensures value { result ≡ looks_in_slot self.now.whole id }
        ensures live { OnOk result (is_live self.now.whole.events ≡ true) }
    {
        self.parts.look(id)
    }

    /// The refusal after all that has happened in the slot.
    pub(crate) fn refused(&self, errno: Errno) -> Refused
        ensures { result ≡ refused_here self.now.whole errno }
    {
        self.parts.refused(errno)
    }

    /// The id of the queue in the slot, where it is there and has this key.
    pub fn with_key(&self, key: i32) -> Option<Id>
        ensures value { result ≡ id_with_key self.now.whole key }
        ensures within { IfSome result (λ id. slot_of id ≡ self.now.whole.number) }
    {
        let slot = &self.parts.slot;
        slot.holds();
        if slot.is_live() && slot.key() == key {
            Some(slot.last_id())
        } else {
            None
        }
    }

    /// Whether a queue can be made in the slot, where its ids end with this seq.
    pub fn is_free(&self, last_seq: u32) -> bool
        ensures { result ≡ is_free last_seq self.now.whole.events }
    {
        self.parts.slot.is_free(last_seq)
    }

    /// Drains the slot's list, and returns the entries that were retained of it since the last
    /// drain. This is no event: the whole list, the board and the counts stay. ENOMEM alone.
    pub fn cut(&mut self) -> Result<Cut, Refused>
        ensures answer { MatchResult result (λ cut. IsCutOf self.old.whole.events (cut_shown cut))
            (λ r. r ≡ refused_here self.old.whole ENOMEM) }
        ensures first { IfOk result (λ cut. cut.first ≡ self.old.first) }
        ensures after { MatchResult result (λ _. self.new ≡ cut_at_end self.old)
            (λ _. self.new ≡ self.old) }
    {
        match self.parts.slot.cut() {
            Ok(cut) => Ok(cut),
            Err(_) => Err(self.refused(Errno::ENOMEM)),
        }
    }

    /// Drains the slot's list as `cut` does where at least `entries` entries of it are retained,
    /// and drops these. Whether at least that many were. ENOMEM alone.
    pub fn cut_from(&mut self, entries: u64) -> Result<bool, Refused>
        ensures answer { MatchResult result
            (λ cut. (cut ≡ keeps_from entries self.old) × (self.new ≡ cut_where cut self.old))
            (λ r. (keeps_from entries self.old ≡ true) × (self.new ≡ self.old)
            × (r ≡ refused_here self.old.whole ENOMEM)) }
    {
        self.holds();
        if self.parts.slot.events() - self.parts.slot.first() < entries {
            return Ok(false);
        }
        self.cut()?;
        Ok(true)
    }

    /// What it is made of, at the end.
    pub fn into_parts(self) -> SlotParts<N>
        ensures slot { locked result.writer.events result.slot ≡ self }
        ensures shared { IsShared P.kept N.slots N.last_seq result.writer.board
            result.writer.events result.writer.pending result.slot result.entries.parts
            result.entries.amount }
        ensures waits { Waits bytes_of self.whole }
    {
        self.holds();
        let SharedSlot {
            apart: _,
            parts,
            pledge: _,
        } = self;
        parts
    }
}
