//! How a draft allocates pages or waits for some, and how they are returned. A draft waits only
//! once it has tried after it registered as a waiter; and a call that returns pages wakes the
//! waiters, for the token that says so can't be dropped.
ghost use Rattle.std.specs.Prelude.{◌≡◌, ◌<◌, ◌≤◌, [], IfErr, IfNone, IfOk, IfSome, IsErrOf};
ghost use Rattle.std.specs.VecDeque.{deque_len};

use crate::{Delivered, Names, Pages, TextOf, Waiters};
use crossbeam_utils::CachePadded;
use mq_arena::{Arena, Block, Homecoming, INLINE_ORDER, MAX_ORDER, Magazine, TakeError, Unwritten};
use std::collections::VecDeque;
use std::sync::{Mutex, MutexGuard, Wait};
use std::time::Duration;

/// A seat's magazine under its lock, which another seat takes only to return a block that this one
/// drafted, with those that it has cached itself, or where no free block of the arena has room.
pub(crate) type Own<N> = CachePadded<Mutex<Magazine<Pages<N>>>>;

/// A token of pages that were returned, whose waiters are not woken yet.
pub(crate) struct Returned {
    unwoken: (),
}

impl Returned {
    /// Frees a block.
    pub(crate) fn home<N: Names, R: Wait>(
        rt: &R,
        arena: &Arena<Pages<N>>,
        block: Block<Pages<N>>,
    ) -> (Homecoming, Returned) {
        let homecoming = arena.put(rt, block);
        (homecoming, Returned { unwoken: () })
    }

    /// Frees a block of a text that was spent.
    pub(crate) fn freed<N: Names, R: Wait>(
        rt: &R,
        arena: &Arena<Pages<N>>,
        block: Block<Pages<N>>,
    ) -> Returned {
        let (_homecoming, returned) = Returned::home(rt, arena, block);
        returned
    }

    /// Keeps a block in this magazine, or returns it where that has no room.
    pub(crate) fn kept<N: Names, R: Wait>(
        rt: &R,
        own: &Own<N>,
        block: Block<Pages<N>>,
    ) -> Result<Returned, Block<Pages<N>>>
        ensures { IfErr result (λ b. b ≡ block) }
    {
        let mut magazine = own.lock(rt);
        let kept = magazine.put(block);
        MutexGuard::unlock(magazine);
        match kept {
            Ok(()) => Ok(Returned { unwoken: () }),
            Err(block) => Err(block),
        }
    }

    /// Keeps a block in this magazine, and then those of these texts, up to the first for which it
    /// has no room: that is returned.
    pub(crate) fn kept_all<N: Names, R: Wait>(
        rt: &R,
        own: &Own<N>,
        block: Block<Pages<N>>,
        texts: &mut VecDeque<Delivered<TextOf<N>>>,
    ) -> (Returned, Option<Block<Pages<N>>>)
        ensures none { IfNone result.1 (deque_len texts.new ≡ 0) }
        ensures fewer { deque_len texts.new ≤ deque_len texts.old }
    {
        let mut magazine = own.lock(rt);
        let left = match magazine.put(block) {
            Ok(()) => fill(&mut magazine, texts),
            Err(block) => Some(block),
        };
        MutexGuard::unlock(magazine);
        (Returned { unwoken: () }, left)
    }

    /// Moves a block to the magazine `other`, and behind it those of a full one, as many as there
    /// is room for. Where there is none for the first, it is freed.
    pub(crate) fn moved<N: Names, R: Wait>(
        rt: &R,
        arena: &Arena<Pages<N>>,
        full: &mut Magazine<Pages<N>>,
        other: &mut Magazine<Pages<N>>,
        block: Block<Pages<N>>,
    ) -> Returned {
        match other.put(block) {
            Ok(()) => {
                full.move_to(other);
                Returned { unwoken: () }
            }
            Err(block) => Returned::freed(rt, arena, block),
        }
    }
}

/// The block of the first of these texts that has one. Those before it are spent with it.
pub(crate) fn next_block<N: Names>(
    texts: &mut VecDeque<Delivered<TextOf<N>>>,
) -> Option<Block<Pages<N>>>
    ensures none { IfNone result (deque_len texts.new ≡ 0) }
    ensures fewer { IfSome result (λ b. deque_len texts.new < deque_len texts.old) }
{
    while let Some(delivered) = texts.pop_front() {
        if let Some(block) = delivered.text.into_block() {
            return Some(block);
        }
    }
    None
}

/// Caches the blocks of these texts, up to the first for which there is no room: that is returned.
fn fill<N: Names>(
    magazine: &mut Magazine<Pages<N>>,
    texts: &mut VecDeque<Delivered<TextOf<N>>>,
) -> Option<Block<Pages<N>>>
    ensures none { IfNone result (deque_len texts.new ≡ 0) }
    ensures fewer { deque_len texts.new ≤ deque_len texts.old }
{
    while let Some(block) = next_block(texts) {
        if let Err(block) = magazine.put(block) {
            return Some(block);
        }
    }
    None
}

/// The drafts that wait for pages: woken where a text was spent, whether its pages were freed or
/// are kept in a magazine.
#[derive(Drop)]
pub(crate) struct PageWaiters {
    waiters: CachePadded<Waiters>,
}

impl PageWaiters {
    pub(crate) fn new() -> PageWaiters {
        PageWaiters {
            waiters: CachePadded::new(Waiters::new()),
        }
    }

    /// Wakes all waiters for pages, once some were returned.
    pub(crate) fn wake(&self, returned: Returned) {
        let Returned { unwoken: () } = returned;
        self.waiters.wake();
    }

    /// Registers a draft as a waiter.
    pub(crate) fn add(&self) -> PageWaiter<'_> {
        let waiters = &*self.waiters;
        let seen = waiters.register();
        PageWaiter { waiters, seen }
    }
}

/// A draft that registered as a waiter for pages, and has not tried to allocate since.
#[derive(Drop)]
pub(crate) struct PageWaiter<'w> {
    waiters: &'w Waiters,
    seen: u64,
}

impl<'w> PageWaiter<'w> {
    /// A block as `take_now` returns it, or that the draft missed one.
    pub(crate) fn take<N: Names, R: Wait>(
        self,
        rt: &R,
        arena: &Arena<Pages<N>>,
        magazines: &[Own<N>],
        order: u8,
    ) -> Result<Result<Unwritten<Pages<N>>, TakeError>, Missed<'w>>
        requires { order ≤ MAX_ORDER }
        ensures order { IfOk result (λ taken. IfOk taken (λ b. b.order ≡ order)) }
        ensures memory { IfOk result (λ taken.
            IsErrOf taken TakeError.Memory → INLINE_ORDER < order) }
        ensures no_run { IfOk result (λ taken. ¬ IsErrOf taken TakeError.NoRun) }
    {
        match take_now(rt, arena, magazines, order) {
            Err(TakeError::NoRun) => Err(Missed { waiter: self }),
            taken => Ok(taken),
        }
    }
}

/// One that has tried since, and found none: it misses no wake after that.
#[derive(Drop)]
pub(crate) struct Missed<'w> {
    waiter: PageWaiter<'w>,
}

impl<'w> Missed<'w> {
    /// Waits, for no longer than this, until all are woken.
    pub(crate) fn wait<R: Wait>(self, rt: &R, longest: Duration) {
        let PageWaiter { waiters, seen } = self.waiter;
        waiters.wait(rt, seen, longest);
    }
}

/// Frees the blocks of a magazine. It takes the arena's lock only where there are some.
pub(crate) fn free_all<N: Names, R: Wait>(
    rt: &R,
    arena: &Arena<Pages<N>>,
    magazine: &mut Magazine<Pages<N>>,
)
    ensures { magazine.new ≡ [] }
{
    if let Some(block) = magazine.pop() {
        arena.put(rt, block);
        arena.put_all(rt, magazine);
    }
}

/// A block of the arena, or `NoRun` where none fitted after all magazines were emptied, then
/// `Memory`.
pub(crate) fn take_now<N: Names, R: Wait>(
    rt: &R,
    arena: &Arena<Pages<N>>,
    magazines: &[Own<N>],
    order: u8,
) -> Result<Unwritten<Pages<N>>, TakeError>
    requires { order ≤ MAX_ORDER }
    ensures order { IfOk result (λ b. b.order ≡ order) }
    ensures memory { IsErrOf result TakeError.Memory → INLINE_ORDER < order }
{
    match arena.take_unwritten(rt, order) {
        Err(TakeError::NoRun) => take_emptied(rt, arena, magazines, order),
        taken => taken,
    }
}

/// A block of the arena, once the blocks of these magazines are freed. Their locks are held until
/// it is allocated, so that `NoRun` is true: no seat can keep a block meanwhile.
fn take_emptied<N: Names, R: Wait>(
    rt: &R,
    arena: &Arena<Pages<N>>,
    magazines: &[Own<N>],
    order: u8,
) -> Result<Unwritten<Pages<N>>, TakeError>
    requires { order ≤ MAX_ORDER }
    ensures order { IfOk result (λ b. b.order ≡ order) }
    ensures memory { IsErrOf result TakeError.Memory → INLINE_ORDER < order }
{
    match magazines.split_first() {
        Some((first, rest)) => {
            let mut magazine = first.lock(rt);
            free_all(rt, arena, &mut magazine);
            let taken = take_emptied(rt, arena, rest, order);
            MutexGuard::unlock(magazine);
            taken
        }
        None => arena.take_unwritten(rt, order),
    }
}
