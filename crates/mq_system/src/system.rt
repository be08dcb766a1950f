//! The system that threads share: how it is made, and how texts are drafted and spent. The calls of
//! queues are in `get`, `messages`, `many`, `control` and `cut`, and its end is in `close`.

ghost use Rattle.std.specs.Prelude.{◌≡◌, ◌↔◌, ◌⊎◌, ◌<◌, ◌≤◌, ◌-◌, ◌*◌, ◌^◌, ℕ, true, false};
ghost use Rattle.std.specs.Prelude.{◌++◌, None, length, nat_lt, replicate, vec_len, IfOk, IsErrOf};
ghost use Rattle.std.specs.List.{concat};
ghost use Rattle.std.specs.VecDeque.{deque_len};
ghost use Rattle.mq_arena.specs.Bytes.{pages_with};
ghost use Rattle.mq_arena.specs.Text.{order_for};
ghost use Rattle.mq_calls.specs.Limits.{keeps_limits};
ghost use Rattle.mq_system.specs.Drafts.{IsInLeast};
ghost use Rattle.mq_system.specs.Sizes.{AreNames};
ghost use Rattle.mq_system.specs.Started.{AreFresh};

use crate::close::{AtClose, Rest};
use crate::keys::KeyLock;
use crate::pages::Magazines;
use crate::parts::{fill_monitors, give_up, leave, make_slots_and_seats};
use crate::{
    Blanks, Config, Delivered, DraftError, Entries, Keys, Names, NoWait, Pages, Patience, Pledge,
    Seat, SlotMonitor, SysError, Tally, TextOf,
};
use mq_arena::{
    Arena, Block, Homecoming, INLINE_LEN, LEDGER_PARTS, PAGE_LEN, TakeError, Text, Unopened,
    Unwritten, order_for,
};
use mq_calls::ClosedSlot;
use mq_queue::MSGMAX;
use mq_table::MAX_SLOTS;
use std::alloc::Global;
use std::collections::VecDeque;
use std::marker::Model;
use std::sync::Wait;
use std::sync::ledger::Total;

/// The queues of several threads, by the calls of the manual. `close` ends it.
pub struct System<P: Pledge, N: Names> {
    pub(crate) monitors: Vec<SlotMonitor<P, N>>,
    pub(crate) keys: KeyLock<N>,
    /// What the parts of all slots and seats have together.
    pub(crate) total: Total<Entries<N>>,
    /// Where `close` gathers them.
    pub(crate) rest: AtClose<N>,
    pub(crate) arena: Arena<Pages<N>>,
    pub(crate) magazines: Magazines<N>,
    pub(crate) last_seq: u32,
    /// How many pages the arena has.
    pub(crate) pages: u32,
    /// Room for what `close` returns.
    pub(crate) closed: Vec<ClosedSlot>,
}

impl<P: Pledge, N: Names> Model for System<P, N> {
    ghost use Rattle.std.specs.Prelude.{ℕ, vec_len, vec_capacity};
    ghost use Rattle.mq_system.specs.Sizes.{IsSystem};

    ghost Value = { ℕ };

    ghost view = { λ s. s.last_seq };

    ghost invariant = { λ s. IsSystem N.slots N.seats N.last_seq N.height (vec_len s.monitors)
        s.last_seq s.pages s.closed.items (vec_capacity s.closed) s.total.parts s.total.amount };
}

impl<P: Pledge, N: Names> System<P, N> {
    /// A system in which no queue is made and no page is allocated, and its seats in the order of
    /// their numbers. `Blanks::of` has the ledgers and boards that it needs. `Config` where a
    /// number is out of its limits, then `Memory`.
    pub fn new<R: Wait>(
        alloc: Global,
        rt: &R,
        config: Config,
        blanks: Blanks,
    ) -> Result<(System<P, N>, Vec<Seat<N>>), SysError>
        requires names { AreNames N.Names.own N.Naming blanks config }
        requires enough { LEDGER_PARTS ≤ blanks.pages.parts }
        ensures seats { IfOk result (λ r. vec_len r.1 ≡ N.seats) }
        ensures fresh { IfOk result (λ r. AreFresh N.slots r.1.items) }
        ensures err { IsErrOf result SysError.Config ↔ (keeps_limits config ≡ false) }
    {
        if !config.is_valid() {
            return Err(SysError::Config);
        }
        let Ok(arena) = Unopened::new(alloc, config.height) else {
            return Err(SysError::Memory);
        };
        let Ok(closed) = Vec::with_capacity(alloc, config.slots as usize) else {
            return Err(SysError::Memory);
        };
        let Ok(fronts) = Vec::with_capacity(alloc, config.seats as usize) else {
            return Err(SysError::Memory);
        };
        let Ok(mut monitors) = Vec::with_capacity(alloc, config.slots as usize) else {
            return Err(SysError::Memory);
        };
        let Blanks {
            pages: ledger,
            entries,
            boards,
        } = blanks;
        let mut arena = arena.open::<Pages<N>>(ledger);
        let mut tally = Tally::new(entries);
        let Ok((slots, seats)) = make_slots_and_seats::<P, N, R>(
            alloc, rt, &mut arena, boards, &mut tally, config,
        ) else {
            monitors.destroy_empty();
            return Err(SysError::Memory);
        };
        let pages = arena.pages();
        let arena = Arena::new(arena);
        let Ok(magazines) = Magazines::new(alloc, rt, &arena, config.seats, config.height) else {
            give_up(rt, &mut arena.into_state(), slots);
            leave(seats);
            monitors.destroy_empty();
            return Err(SysError::Memory);
        };
        fill_monitors(slots, &mut monitors);
        let (total, parts) = tally.close();
        let system = System {
            monitors,
            keys: KeyLock::new(Keys::new(alloc)),
            total,
            rest: AtClose::new(Rest { parts, fronts }),
            arena,
            magazines,
            last_seq: config.last_seq,
            pages,
            closed,
        };
        Ok((system, seats))
    }

    /// The same system, with bounded logs: a call that finds at least `entries` entries of its slot
    /// retained, and no fewer than messages are pending there, drains and drops them before it
    /// acts. `cut_log` and `close` return what is retained then. Where a drain runs out of memory,
    /// the next call does it. Without this the logs are kept.
    pub fn with_log_limit(self, entries: u64) -> System<P, N>
        ensures { result ≡ self }
    {
        let mut system = self;
        for monitor in system.monitors.iter_mut() {
            monitor.limit_log(entries);
        }
        system
    }

    /// How many slots there are.
    pub fn slots(&self) -> u8
        ensures count { result ≡ N.slots }
        ensures within { result ≤ MAX_SLOTS }
    {
        self.monitors.len() as u8
    }

    /// A zeroed text of `len` bytes, to be filled in place. A text over MSGMAX is too long; one of
    /// some bytes may find that no free block has room, and one over `INLINE_LEN` no memory.
    pub fn draft<R: Wait>(&self, rt: &R, len: u64) -> Result<TextOf<N>, DraftError>
        ensures ok { IfOk result (λ text. text.bytes ≡ replicate len 0) }
        ensures block { IfOk result (IsInLeast len) }
        ensures too_long { IsErrOf result DraftError.TooLong ↔ (nat_lt MSGMAX len ≡ true) }
        ensures no_run { IsErrOf result DraftError.NoRun → 0 < len }
        ensures memory { IsErrOf result DraftError.Memory → INLINE_LEN < len }
    {
        self.draft_within(rt, len, &mut NoWait)
    }

    /// A text as `draft` makes it. Where no free block has room it waits until one has, or the
    /// patience ends; a text that is greater than the arena is not waited for.
    pub fn draft_within<R: Wait, T: Patience>(
        &self,
        rt: &R,
        len: u64,
        patience: &mut T,
    ) -> Result<TextOf<N>, DraftError>
        ensures ok { IfOk result (λ text. text.bytes ≡ replicate len 0) }
        ensures block { IfOk result (IsInLeast len) }
        ensures too_long { IsErrOf result DraftError.TooLong ↔ (nat_lt MSGMAX len ≡ true) }
        ensures no_run { IsErrOf result DraftError.NoRun → 0 < len }
        ensures ended { IsErrOf result DraftError.NoRun →
            (T.ends ≡ true) ⊎ (N.height < order_for len) }
        ensures memory { IsErrOf result DraftError.Memory → INLINE_LEN < len }
    {
        if len > MSGMAX {
            return Err(DraftError::TooLong);
        }
        let len = len as usize;
        if len == 0 {
            return Ok(Text::empty());
        }
        let order = order_for(len);
        match self.magazines.take_any(rt, &self.arena, order, patience) {
            Ok(taken) => {
                let block = taken.overwrite(&[]);
                Ok(Text::of(block, len))
            }
            Err(refusal) => Err(DraftError::from(refusal)),
        }
    }

    /// A text of these bytes, which are written once, and nothing is cleared before.
    pub fn draft_of<R: Wait>(&self, rt: &R, bytes: &[u8]) -> Result<TextOf<N>, DraftError>
        ensures ok { IfOk result (λ text. text.bytes ≡ bytes.now) }
        ensures block { IfOk result (IsInLeast (length bytes.now)) }
        ensures too_long { IsErrOf result DraftError.TooLong
            ↔ (nat_lt MSGMAX (length bytes.now) ≡ true) }
        ensures no_run { IsErrOf result DraftError.NoRun → 0 < length bytes.now }
        ensures memory { IsErrOf result DraftError.Memory → INLINE_LEN < length bytes.now }
    {
        self.draft_of_within(rt, bytes, &mut NoWait)
    }

    /// A text of these bytes as `draft_of` makes it, which waits for pages as `draft_within` does.
    pub fn draft_of_within<R: Wait, T: Patience>(
        &self,
        rt: &R,
        bytes: &[u8],
        patience: &mut T,
    ) -> Result<TextOf<N>, DraftError>
        ensures ok { IfOk result (λ text. text.bytes ≡ bytes.now) }
        ensures block { IfOk result (IsInLeast (length bytes.now)) }
        ensures too_long { IsErrOf result DraftError.TooLong
            ↔ (nat_lt MSGMAX (length bytes.now) ≡ true) }
        ensures no_run { IsErrOf result DraftError.NoRun → 0 < length bytes.now }
        ensures ended { IsErrOf result DraftError.NoRun →
            (T.ends ≡ true) ⊎ (N.height < order_for (length bytes.now)) }
        ensures memory { IsErrOf result DraftError.Memory → INLINE_LEN < length bytes.now }
    {
        if bytes.len() as u64 > MSGMAX {
            return Err(DraftError::TooLong);
        }
        if bytes.is_empty() {
            return Ok(Text::empty());
        }
        let order = order_for(bytes.len());
        let found = self.magazines.take_any(rt, &self.arena, order, patience);
        filled(found, bytes)
    }

    /// A text of these bytes as `draft_of` makes it, in a block of this seat's magazine, if that
    /// has one that fits.
    pub fn draft_by<R: Wait>(
        &self,
        rt: &R,
        seat: &Seat<N>,
        bytes: &[u8],
    ) -> Result<TextOf<N>, DraftError>
        ensures ok { IfOk result (λ text. text.bytes ≡ bytes.now) }
        ensures block { IfOk result (IsInLeast (length bytes.now)) }
        ensures too_long { IsErrOf result DraftError.TooLong
            ↔ (nat_lt MSGMAX (length bytes.now) ≡ true) }
        ensures no_run { IsErrOf result DraftError.NoRun → 0 < length bytes.now }
        ensures memory { IsErrOf result DraftError.Memory → INLINE_LEN < length bytes.now }
    {
        self.draft_by_within(rt, seat, bytes, &mut NoWait)
    }

    /// A text of these bytes as `draft_by` makes it, which waits for pages as `draft_within` does.
    pub fn draft_by_within<R: Wait, T: Patience>(
        &self,
        rt: &R,
        seat: &Seat<N>,
        bytes: &[u8],
        patience: &mut T,
    ) -> Result<TextOf<N>, DraftError>
        ensures ok { IfOk result (λ text. text.bytes ≡ bytes.now) }
        ensures block { IfOk result (IsInLeast (length bytes.now)) }
        ensures too_long { IsErrOf result DraftError.TooLong
            ↔ (nat_lt MSGMAX (length bytes.now) ≡ true) }
        ensures no_run { IsErrOf result DraftError.NoRun → 0 < length bytes.now }
        ensures ended { IsErrOf result DraftError.NoRun →
            (T.ends ≡ true) ⊎ (N.height < order_for (length bytes.now)) }
        ensures memory { IsErrOf result DraftError.Memory → INLINE_LEN < length bytes.now }
    {
        if MSGMAX < bytes.len() as u64 {
            return Err(DraftError::TooLong);
        }
        if bytes.is_empty() {
            return Ok(Text::empty());
        }
        seat.holds();
        let order = order_for(bytes.len());
        let taken = self
            .magazines
            .take(rt, &self.arena, seat.number(), order, patience);
        filled(taken, bytes)
    }

    /// Spends a text: its block is freed, and the waiters for pages are woken. A text without a
    /// block is `Home`.
    pub fn spend<R: Wait>(&self, rt: &R, text: TextOf<N>) -> Homecoming
        ensures none { text.block ≡ None → result ≡ Homecoming.Home }
    {
        match text.into_block() {
            Some(block) => self.magazines.put_home(rt, &self.arena, block),
            None => Homecoming::Home,
        }
    }

    /// Frees a text, whose block goes into this seat's magazine for its next drafts, up to
    /// `MAGAZINE_PAGES` pages. A draft that finds no free block empties all magazines before it
    /// fails.
    pub fn spend_by<R: Wait>(&self, rt: &R, seat: &Seat<N>, text: TextOf<N>) {
        seat.holds();
        match text.into_block() {
            Some(block) => self.magazines.put(rt, &self.arena, seat.number(), block),
            None => (),
        }
    }

    /// Spends texts as `spend_by` does, under one hold of the lock of this seat's magazine, or one
    /// more for each that has no room there.
    pub fn spend_texts_by<R: Wait>(
        &self,
        rt: &R,
        seat: &Seat<N>,
        texts: &mut VecDeque<Delivered<TextOf<N>>>,
    )
        ensures { deque_len texts.new ≡ 0 }
    {
        seat.holds();
        let number = seat.number();
        self.magazines.put_all(rt, &self.arena, number, texts);
    }
}

/// The block with these bytes in its first ones and zeros behind them.
fn written<N: Names>(block: Unwritten<Pages<N>>, bytes: &[u8]) -> Block<Pages<N>>
    requires most { length bytes.now ≤ MSGMAX }
    requires order { block.order ≡ order_for (length bytes.now) }
    ensures order { result.order ≡ order_for (length bytes.now) }
    ensures pages { result.pages ≡ pages_with (2 ^ result.order) bytes.now }
    ensures bytes { concat result.pages
        ≡ bytes.now ++ replicate (PAGE_LEN * 2 ^ result.order - length bytes.now) 0 }
{
    block.overwrite(bytes)
}

/// The text of these bytes in the block that was taken for it.
pub(crate) fn text_in<N: Names>(block: Unwritten<Pages<N>>, bytes: &[u8]) -> TextOf<N>
    requires some { 0 < length bytes.now }
    requires most { length bytes.now ≤ MSGMAX }
    requires order { block.order ≡ order_for (length bytes.now) }
    ensures bytes { result.bytes ≡ bytes.now }
    ensures block { IsInLeast (length bytes.now) result }
{
    Text::of(written(block, bytes), bytes.len())
}

/// The text of these bytes in the block that was taken for it, if one was.
fn filled<N: Names>(
    taken: Result<Unwritten<Pages<N>>, TakeError>,
    bytes: &[u8],
) -> Result<TextOf<N>, DraftError>
    requires some { 0 < length bytes.now }
    requires most { length bytes.now ≤ MSGMAX }
    requires order { IfOk taken (λ b. b.order ≡ order_for (length bytes.now)) }
    requires memory { IsErrOf taken TakeError.Memory → INLINE_LEN < length bytes.now }
    ensures ok { IfOk result (λ text. text.bytes ≡ bytes.now) }
    ensures block { IfOk result (IsInLeast (length bytes.now)) }
    ensures too_long { ¬ IsErrOf result DraftError.TooLong }
    ensures no_run { IsErrOf result DraftError.NoRun → IsErrOf taken TakeError.NoRun }
    ensures memory { IsErrOf result DraftError.Memory → INLINE_LEN < length bytes.now }
{
    match taken {
        Ok(block) => Ok(text_in(block, bytes)),
        Err(refusal) => Err(DraftError::from(refusal)),
    }
}
