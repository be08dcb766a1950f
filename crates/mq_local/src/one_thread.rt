//! The state of a system of one thread, and the allocation of its texts.

ghost use Rattle.std.specs.Prelude.{◌≡◌, ◌↔◌, ◌<◌, ◌≤◌, ◌+◌, ◌^◌, false, Some, length, replicate};
ghost use Rattle.std.specs.Prelude.{IfOk, IsErrOf, All};
ghost use Rattle.std.specs.Prelude.{vec_len, vec_capacity};
ghost use Rattle.mq_tree.specs.Fit.{largest};
ghost use Rattle.mq_tree.specs.LentSet.{free_pages};
ghost use Rattle.mq_arena.specs.Lent.{place};
ghost use Rattle.mq_arena.specs.declared.page.TheConstants.{PAGE_LEN};
ghost use Rattle.mq_arena.specs.Text.{order_for};
ghost use Rattle.mq_table.specs.KeptPart.{IsLawfulSlot, WaitsNow};
ghost use Rattle.mq_table.specs.KeptShown.{row_now};
ghost use Rattle.mq_local.specs.Holds.{AreKeysOf};
ghost use Rattle.mq_calls.specs.Limits.{keeps_limits, empty_queues, empty_slots};
ghost use Rattle.mq_local.specs.Outcome.{Answers};
ghost use Rattle.mq_calls.specs.State.{slot_at};
ghost use Rattle.mq_calls.specs.Texts.{bytes_of, comes_home, drafts, drafts_of, text_spent};

use mq_arena::{
    ArenaState, Block, Homecoming, INLINE_LEN, LEDGER_PARTS, Text, Unopened, order_for,
};
use mq_calls::home::take_back;
use mq_calls::{ClosedSlot, Config, DraftError, SysError};
use mq_queue::{BoardRow, MSGMAX};
use mq_select::IndexWaiting;
use mq_table::{KeyTable, MAX_SEQ, MAX_SLOTS, Slot};
use std::alloc::Global;
use std::marker::Model;
use std::sync::ledger::{Blank, Ledger};

/// A slot whose messages are texts.
pub(crate) type TextSlot<L> = Slot<Text<L>, IndexWaiting<Text<L>>>;

/// The queues of one thread, by the calls of the manual, of which none blocks: a full queue answers
/// EAGAIN, and a queue with no eligible message ENOMSG. `close` ends it.
pub struct OneThread<L: Ledger> {
    pub(crate) arena: ArenaState<L>,
    pub(crate) slots: Vec<TextSlot<L>>,
    pub(crate) keys: KeyTable,
    pub(crate) last_seq: u32,
    /// Reserved for what `close` returns.
    pub(crate) closed: Vec<ClosedSlot>,
}

impl<L: Ledger> Model for OneThread<L> {
    ghost use Rattle.std.specs.Prelude.{vec_capacity};
    ghost use Rattle.mq_calls.specs.State.{QueuesState};
    ghost use Rattle.mq_local.specs.Kept.{IsKept};

    ghost Value = { QueuesState };

    ghost view = { λ s.
        record { arena = s.arena; slots = s.slots.items; keys = s.keys; last_seq = s.last_seq } };

    ghost invariant = { λ s.
        IsKept s.slots.items s.keys s.last_seq s.closed.items (vec_capacity s.closed) };
}

/// Slots in which no queue was made, as many as there is room for.
fn fill<L: Ledger>(alloc: Global, slots: &mut Vec<TextSlot<L>>, count: u8)
    requires count { count ≤ MAX_SLOTS }
    requires empty { length slots.old.items ≡ 0 }
    requires room { count ≤ vec_capacity slots.old }
    ensures { slots.new.items ≡ empty_slots count }
{
    for number in 0..count {
        slots.push_reserved(Slot::new(alloc, number));
    }
}

/// A text in a block that was just allocated.
fn zero_text<L: Ledger>(block: Block<L>, len: usize) -> Text<L>
    requires some { 0 < len }
    requires most { len ≤ MSGMAX }
    requires order { block.order ≡ order_for len }
    requires zero { block.pages ≡ replicate (2 ^ block.order) (replicate PAGE_LEN 0) }
    ensures { result ≡ record { bytes = replicate len 0; block = Some (place block) } }
{
    Text::of(block, len)
}

impl<L: Ledger> OneThread<L> {
    /// A system in which no queue is made and nothing is allocated. Its ledger has more parts than
    /// an arena has pages.
    pub fn new(alloc: Global, config: Config, ledger: Blank) -> Result<OneThread<L>, SysError>
        requires name { ledger.name ≡ L.name }
        requires parts { ledger.parts ≡ L.parts }
        requires enough { LEDGER_PARTS ≤ ledger.parts }
        ensures ok { IfOk result (λ system. system ≡ empty_queues config) }
        ensures err { IsErrOf result SysError.Config ↔ (keeps_limits config ≡ false) }
    {
        if !config.is_valid() {
            return Err(SysError::Config);
        }
        let Ok(arena) = Unopened::new(alloc, config.height) else {
            return Err(SysError::Memory);
        };
        let Ok(closed) = Vec::with_capacity(alloc, config.slots as usize) else {
            return Err(SysError::Memory);
        };
        let Ok(mut slots) = Vec::with_capacity(alloc, config.slots as usize) else {
            return Err(SysError::Memory);
        };
        fill(alloc, &mut slots, config.slots);
        Ok(OneThread {
            arena: arena.open::<L>(ledger),
            slots,
            keys: KeyTable::new(alloc),
            last_seq: config.last_seq,
            closed,
        })
    }

    /// What holds of each system: its slots keep parts of slot lists with no more queues than its
    /// ids allow, the pending messages are those that these leave pending, and the key table has
    /// the keys of the queues in its slots.
    pub fn holds(&self)
        ensures lawful { All (IsLawfulSlot self.now.last_seq) self.now.slots }
        ensures waits { All (WaitsNow bytes_of) self.now.slots }
        ensures keys { AreKeysOf self.now.slots self.now.keys }
    {
        let _ = &self.keys;
    }

    /// A zeroed text of `len` bytes, to be filled in place.
    #[tactic(auto, using(crate::proofs::DraftLemmas::zero_drafts))]
    pub fn draft(&mut self, len: u64) -> Result<Text<L>, DraftError>
        ensures answer { Answers (drafts self.old len) DraftError.Memory self.old self.new result }
        ensures memory { IsErrOf result DraftError.Memory → INLINE_LEN < len }
    {
        if len > MSGMAX {
            return Err(DraftError::TooLong);
        }
        let len = len as usize;
        if len == 0 {
            return Ok(Text::empty());
        }
        match self.arena.take(order_for(len)) {
            Ok(block) => Ok(zero_text(block, len)),
            Err(refusal) => Err(DraftError::from(refusal)),
        }
    }

    /// Allocates a text of these bytes, as `draft` does for as many. They are written once, and
    /// nothing is zeroed before.
    #[tactic(auto, using(crate::proofs::DraftLemmas::byte_drafts))]
    pub fn draft_of(&mut self, bytes: &[u8]) -> Result<Text<L>, DraftError>
        ensures answer { Answers (drafts_of self.old bytes.now) DraftError.Memory
            self.old self.new result }
        ensures memory { IsErrOf result DraftError.Memory → INLINE_LEN < length bytes.now }
    {
        if bytes.len() as u64 > MSGMAX {
            return Err(DraftError::TooLong);
        }
        if bytes.is_empty() {
            return Ok(Text::empty());
        }
        match Text::of_bytes(&mut self.arena, bytes) {
            Ok(text) => Ok(text),
            Err(refusal) => Err(DraftError::from(refusal)),
        }
    }

    /// Frees a text, with its block. A text without a block counts as freed.
    // Inlined for the same reason as `ArenaState::put`.
    #[inline(always)]
    pub fn spend(&mut self, text: Text<L>) -> Homecoming
        ensures back { self.new ≡ text_spent text self.old }
        ensures home { result ≡ comes_home text self.old.arena }
    {
        take_back(&mut self.arena, text)
    }

    /// How many pages the arena has.
    pub fn pages(&self) -> u32
        ensures { result ≡ 2 ^ self.now.arena.height }
    {
        self.arena.pages()
    }

    /// How many of them are free.
    pub fn free_pages(&self) -> u32
        ensures { result ≡ free_pages self.now.arena.height self.now.arena.lent }
    {
        self.arena.free_pages()
    }

    /// The greatest order of a block that fits.
    pub fn largest(&self) -> Option<u8>
        ensures { result ≡ largest self.now.arena.height self.now.arena.lent }
    {
        self.arena.largest()
    }

    /// How many slots there are.
    pub fn slots(&self) -> u8
        ensures count { result ≡ length self.now.slots }
        ensures within { result ≤ MAX_SLOTS }
    {
        self.slots.len() as u8
    }

    /// What a report shows of a slot.
    pub fn row(&self, slot: u8) -> BoardRow
        requires { slot < length self.now.slots }
        ensures value { result ≡ row_now (slot_at self.now slot) }
        ensures within { result.made ≤ MAX_SEQ + 1 }
    {
        self.slots[slot as usize].row()
    }
}
