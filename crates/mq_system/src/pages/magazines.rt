//! The seats' magazines: caches of spent blocks, from which a seat drafts without the arena's lock.
ghost use Rattle.std.specs.Prelude.{◌≡◌, ◌<◌, ◌≤◌, ◌⊎◌, [], true, length, IfErr, IfNone, IfOk};
ghost use Rattle.std.specs.Prelude.{IfSome, IsErrOf};
ghost use Rattle.std.specs.VecDeque.{deque_capacity, deque_len};
ghost use Rattle.mq_tree.specs.declared.limits.TheConstants.{MAX_HEIGHT};
ghost use Rattle.mq_system.specs.Drafts.{AreBlocksFor};

use super::waiters::{Own, PageWaiters, Returned, free_all, next_block, take_now};
use crate::{Delivered, Letter, Names, Pages, Patience, TextOf};
use crossbeam_utils::CachePadded;
use mq_arena::{
    Arena, Block, Homecoming, INLINE_ORDER, MAX_ORDER, Magazine, TakeError, Unwritten, order_for,
};
use mq_queue::MSGMAX;
use std::alloc::{AllocError, Global};
use std::collections::VecDeque;
use std::marker::Model;
use std::sync::atomic::{AtomicU16, Ordering};
use std::sync::{Mutex, MutexGuard, Wait};

/// Marks a block with which no seat has drafted.
const NOBODY: u16 = u16::MAX;

/// A magazine for each seat. The lock of a magazine is taken before the arena's; a call that takes
/// several takes them in the order of their seats.
pub(crate) struct Magazines<N: Names> {
    each: Vec<Own<N>>,
    /// At the index of a block's first page, the index of the seat that last drafted with it, if
    /// one did. A seat whose magazine is full returns a block to that seat's magazine, and with it
    /// those that it has cached: so it takes that lock seldom, and neither takes the arena's.
    drafters: Vec<AtomicU16>,
    waiters: PageWaiters,
    /// The order of a block that has all pages.
    height: u8,
}

impl<N: Names> Model for Magazines<N> {
    ghost use Rattle.std.specs.Prelude.{◌≡◌, ℕ};

    ghost Value = { ℕ };

    ghost view = { λ m. m.height };

    ghost invariant = { λ m. m.height ≡ N.height };
}

impl<N: Names> Magazines<N> {
    /// That many empty magazines. An `Err` means that memory ran out.
    pub(crate) fn new<R: Wait>(
        alloc: Global,
        rt: &R,
        arena: &Arena<Pages<N>>,
        count: u16,
        height: u8,
    ) -> Result<Magazines<N>, AllocError>
        requires height { height ≡ N.height }
        requires within { height ≤ MAX_HEIGHT }
    {
        let drafters = no_drafters(alloc, 1usize << height)?;
        let mut each = Vec::with_capacity(alloc, count as usize)?;
        for _ in 0..count {
            let Ok(magazine) = Magazine::new(alloc) else {
                let made = Magazines {
                    each,
                    drafters,
                    waiters: PageWaiters::new(),
                    height,
                };
                made.end(rt, arena);
                return Err(AllocError);
            };
            each.push_reserved(CachePadded::new(Mutex::new(magazine)));
        }
        Ok(Magazines {
            each,
            drafters,
            waiters: PageWaiters::new(),
            height,
        })
    }

    /// Ends them: all their blocks are freed.
    pub(crate) fn end<R: Wait>(self, rt: &R, arena: &Arena<Pages<N>>) {
        let Magazines {
            mut each,
            drafters: _,
            waiters: _,
            height: _,
        } = self;
        while let Some(own) = each.pop() {
            let mut left = CachePadded::into_inner(own).into_inner();
            arena.put_all(rt, &mut left);
            left.end();
        }
        each.destroy_empty();
    }

    /// A block of the magazine of the seat with this number, else as `take_any` returns it.
    pub(crate) fn take<R: Wait, T: Patience>(
        &self,
        rt: &R,
        arena: &Arena<Pages<N>>,
        seat: u16,
        order: u8,
        patience: &mut T,
    ) -> Result<Unwritten<Pages<N>>, TakeError>
        requires seat { 1 ≤ seat }
        requires order { order ≤ MAX_ORDER }
        ensures order { IfOk result (λ b. b.order ≡ order) }
        ensures memory { IsErrOf result TakeError.Memory → INLINE_ORDER < order }
        ensures ended { IsErrOf result TakeError.NoRun →
            (T.ends ≡ true) ⊎ (N.height < order) }
    {
        let own = seat - 1;
        let block = match self.take_kept(rt, own, order) {
            Some(block) => block,
            None => self.take_any(rt, arena, order, patience)?,
        };
        self.note(block.start(), own);
        Ok(block)
    }

    /// Takes blocks for the texts of these letters out of the magazine of the seat with this
    /// number, under one hold of its lock: for the first ones, up to one for which it has none.
    pub(crate) fn take_first<R: Wait>(
        &self,
        rt: &R,
        seat: u16,
        letters: &[Letter<&[u8]>],
        blocks: &mut VecDeque<Unwritten<Pages<N>>>,
    )
        requires seat { 1 ≤ seat }
        requires empty { blocks.old.items ≡ [] }
        requires room { length letters.now ≤ deque_capacity blocks.old }
        ensures { AreBlocksFor (λ r. r.now) blocks.new.items letters.now }
    {
        let own = seat - 1;
        if let Some(magazine) = self.each.get(own as usize) {
            let mut magazine = magazine.lock(rt);
            take_blocks(&mut magazine, letters, blocks);
            MutexGuard::unlock(magazine);
        }
    }

    /// Notes which seat drafts with the block that begins there. It writes only a change, so that
    /// the cache line stays shared.
    pub(crate) fn note(&self, start: u32, seat: u16) {
        if let Some(drafter) = self.drafters.get(start as usize) {
            if drafter.load(Ordering::Relaxed) != seat {
                drafter.store(seat, Ordering::Relaxed);
            }
        }
    }

    /// The seat that last drafted with the block that begins there.
    fn drafter(&self, start: u32) -> u16 {
        match self.drafters.get(start as usize) {
            Some(drafter) => drafter.load(Ordering::Relaxed),
            None => NOBODY,
        }
    }

    /// A block of that order from the magazine of the seat at this index.
    fn take_kept<R: Wait>(&self, rt: &R, seat: u16, order: u8) -> Option<Unwritten<Pages<N>>>
        requires { order ≤ MAX_ORDER }
        ensures { IfSome result (λ b. b.order ≡ order) }
    {
        let own = self.each.get(seat as usize)?;
        let mut magazine = own.lock(rt);
        let found = magazine.take(order);
        MutexGuard::unlock(magazine);
        found
    }

    /// A block of the arena. Where there is none it waits for one until the patience ends, if the
    /// arena could ever allocate it. `NoRun`, then `Memory`.
    pub(crate) fn take_any<R: Wait, T: Patience>(
        &self,
        rt: &R,
        arena: &Arena<Pages<N>>,
        order: u8,
        patience: &mut T,
    ) -> Result<Unwritten<Pages<N>>, TakeError>
        requires { order ≤ MAX_ORDER }
        ensures order { IfOk result (λ b. b.order ≡ order) }
        ensures memory { IsErrOf result TakeError.Memory → INLINE_ORDER < order }
        ensures ended { IsErrOf result TakeError.NoRun →
            (T.ends ≡ true) ⊎ (N.height < order) }
    {
        match take_now(rt, arena, &self.each, order) {
            Err(TakeError::NoRun) => {
                if self.height < order || patience.left().is_none() {
                    return Err(TakeError::NoRun);
                }
                self.wait_for(rt, arena, order, patience)
            }
            taken => taken,
        }
    }

    /// Waits until there is a block of that order, or the patience ends.
    fn wait_for<R: Wait, T: Patience>(
        &self,
        rt: &R,
        arena: &Arena<Pages<N>>,
        order: u8,
        patience: &mut T,
    ) -> Result<Unwritten<Pages<N>>, TakeError>
        requires { order ≤ MAX_ORDER }
        ensures order { IfOk result (λ b. b.order ≡ order) }
        ensures memory { IsErrOf result TakeError.Memory → INLINE_ORDER < order }
        ensures ended { IsErrOf result TakeError.NoRun → T.ends ≡ true }
    {
        for _ in rt.forever() {
            let missed = match self.waiters.add().take(rt, arena, &self.each, order) {
                Ok(taken) => return taken,
                Err(missed) => missed,
            };
            let Some(longest) = patience.left() else {
                return Err(TakeError::NoRun);
            };
            missed.wait(rt, longest);
        }
        unreachable!()
    }

    /// Frees a block, and wakes the waiters for pages.
    pub(crate) fn put_home<R: Wait>(
        &self,
        rt: &R,
        arena: &Arena<Pages<N>>,
        block: Block<Pages<N>>,
    ) -> Homecoming {
        let (came, home) = Returned::home(rt, arena, block);
        self.waiters.wake(home);
        came
    }

    /// Keeps a block in the magazine of the seat with this number, while it has room, or of the
    /// seat that drafted with it; else the block is freed.
    pub(crate) fn put<R: Wait>(
        &self,
        rt: &R,
        arena: &Arena<Pages<N>>,
        seat: u16,
        block: Block<Pages<N>>,
    )
        requires { 1 ≤ seat }
    {
        let own = seat - 1;
        let returned = match self.keep(rt, own, block) {
            Ok(returned) => returned,
            Err(block) => self.put_back(rt, arena, own, block),
        };
        self.waiters.wake(returned);
    }

    /// Keeps the blocks of these texts as `put` does, as many under one hold of the lock of the
    /// seat's magazine as it has room for.
    pub(crate) fn put_all<R: Wait>(
        &self,
        rt: &R,
        arena: &Arena<Pages<N>>,
        seat: u16,
        texts: &mut VecDeque<Delivered<TextOf<N>>>,
    )
        requires { 1 ≤ seat }
        ensures { deque_len texts.new ≡ 0 }
    {
        let own = seat - 1;
        while let Some(block) = self.keep_all(rt, own, texts) {
            let freed = self.put_back(rt, arena, own, block);
            self.waiters.wake(freed);
        }
    }

    /// Keeps the blocks of these texts in the magazine of the seat at this index, up to the first
    /// for which it has no room: that is returned.
    fn keep_all<R: Wait>(
        &self,
        rt: &R,
        seat: u16,
        texts: &mut VecDeque<Delivered<TextOf<N>>>,
    ) -> Option<Block<Pages<N>>>
        ensures none { IfNone result (deque_len texts.new ≡ 0) }
        ensures fewer { IfSome result (λ b. deque_len texts.new < deque_len texts.old) }
    {
        let block = next_block(texts)?;
        let Some(own) = self.each.get(seat as usize) else {
            return Some(block);
        };
        let (kept, left) = Returned::kept_all::<N, R>(rt, own, block, texts);
        self.waiters.wake(kept);
        left
    }

    /// Returns a block for which the magazine at this index has no room to the seat that drafted
    /// with it, if that is another one; else, or where it has more pages than are inline, the block
    /// is freed.
    fn put_back<R: Wait>(
        &self,
        rt: &R,
        arena: &Arena<Pages<N>>,
        own: u16,
        block: Block<Pages<N>>,
    ) -> Returned {
        let drafter = self.drafter(block.start());
        if drafter == own || INLINE_ORDER < block.order() {
            return Returned::freed(rt, arena, block);
        }
        let seats = (self.each.get(own as usize), self.each.get(drafter as usize));
        let (Some(full), Some(other)) = seats else {
            return Returned::freed(rt, arena, block);
        };
        let (mut full, mut other) = if own < drafter {
            let full = full.lock(rt);
            (full, other.lock(rt))
        } else {
            let other = other.lock(rt);
            (full.lock(rt), other)
        };
        let returned = Returned::moved(rt, arena, &mut full, &mut other, block);
        MutexGuard::unlock(other);
        free_all(rt, arena, &mut full);
        MutexGuard::unlock(full);
        returned
    }

    /// Keeps a block in the magazine of the seat at this index, or returns it where that has no
    /// room.
    fn keep<R: Wait>(
        &self,
        rt: &R,
        seat: u16,
        block: Block<Pages<N>>,
    ) -> Result<Returned, Block<Pages<N>>>
        ensures { IfErr result (λ b. b ≡ block) }
    {
        match self.each.get(seat as usize) {
            Some(own) => Returned::kept::<N, R>(rt, own, block),
            None => Err(block),
        }
    }
}

/// Takes blocks for the texts of these letters out of a magazine: for the first ones, up to one for
/// which it has none.
fn take_blocks<N: Names>(
    magazine: &mut Magazine<Pages<N>>,
    letters: &[Letter<&[u8]>],
    blocks: &mut VecDeque<Unwritten<Pages<N>>>,
)
    requires empty { blocks.old.items ≡ [] }
    requires room { length letters.now ≤ deque_capacity blocks.old }
    ensures { AreBlocksFor (λ r. r.now) blocks.new.items letters.now }
{
    for place in 0..letters.len() {
        let letter = &letters[place];
        let len = letter.text.len();
        if len == 0 || MSGMAX < len as u64 {
            return;
        }
        match magazine.take(order_for(len)) {
            Some(block) => blocks.push_back_reserved(block),
            None => return,
        }
    }
}

/// The drafters of the blocks of these pages: none yet. An `Err` means that memory ran out.
fn no_drafters(alloc: Global, pages: usize) -> Result<Vec<AtomicU16>, AllocError> {
    let mut drafters = Vec::with_capacity(alloc, pages)?;
    for _ in 0..pages {
        drafters.push_reserved(AtomicU16::new(NOBODY));
    }
    Ok(drafters)
}
