//! A slot's monitor: its lock, and its waiters for room and for messages. A call spins with backoff
//! before it parks for the lock.

ghost use Rattle.std.specs.Prelude.{◌≡◌, ◌<◌, IsTrue, MatchOption, Some, length};
ghost use Rattle.std.specs.Sync.Mutex.{mutex_guard_value};
ghost use Rattle.mq_calls.specs.declared.errno.Errno.TheVariants.{EAGAIN, ENOMSG};
ghost use Rattle.mq_table.specs.Ids.{seq_of};
ghost use Rattle.mq_system.specs.Outcome.{IsLook, IsUnderLock};
ghost use Rattle.mq_system.specs.Seat.{front_of};
ghost use Rattle.mq_system.specs.Seen.{receive_verdict, send_verdict};

use super::ReceiveRequest;
use crate::{Names, Pledge, Seat, SharedSlot, TextOf, Waiters};
use crossbeam_utils::{Backoff, CachePadded};
use mq_table::Id;
use std::hint::spin_loop;
use std::sync::{Mutex, MutexGuard, Wait};
use std::time::Duration;

/// How often a call tries to acquire a slot's lock before it parks for it. Each try takes the
/// lock's cache line from its holder, so the call backs off between them.
const LOCK_ATTEMPTS: u32 = 30;

/// The least number of pending messages at which backoff takes long pauses.
const PLENTY: u64 = 32;

/// Spins of a long pause.
const LONG_PAUSE: u32 = 512;

/// How a call backs off from a slot's lock that another holds.
#[derive(Drop)]
enum Pauses {
    /// By many spins: it misses nothing, and the lock's holder can do several calls meanwhile.
    Long,
    /// Longer each time, and then it yields.
    Growing(Backoff),
}

impl Pauses {
    /// Those of a seat: long where at least `PLENTY` messages were pending and there was room, when
    /// it last observed the slot.
    fn of<N: Names>(seat: &Seat<N>, slot: u8) -> Pauses
        requires { slot < N.slots }
    {
        let figures = seat.known(slot).figures;
        let full = figures.qbytes - figures.qbytes / 8;
        if PLENTY <= figures.qnum && figures.qnum <= full && figures.cbytes <= full {
            Pauses::Long
        } else {
            Pauses::Growing(Backoff::new())
        }
    }

    fn pause(&self) {
        match self {
            Pauses::Long => {
                for _turn in 0..LONG_PAUSE {
                    spin_loop();
                }
            }
            Pauses::Growing(backoff) => backoff.snooze(),
        }
    }
}

/// A slot's lock and its waiters: senders for room, receivers for messages. They poll cache lines
/// of their own, which no change of the slot takes away from them.
pub(crate) struct SlotMonitor<P: Pledge, N: Names> {
    held: Mutex<SharedSlot<P, N>>,
    not_full: CachePadded<Waiters>,
    not_empty: CachePadded<Waiters>,
    /// How many entries of the slot's list are retained before the next call drains it.
    log_limit: u64,
}

/// A call that registered as a waiter of a slot while it held the slot's lock and found that it has
/// to wait: it misses no wake after that.
#[derive(Drop)]
pub(crate) struct SlotWaiter<'m> {
    waiters: &'m Waiters,
    seen: u64,
}

impl<'m> SlotWaiter<'m> {
    /// Waits, for no longer than this, until all are woken.
    pub(crate) fn wait<R: Wait>(self, rt: &R, longest: Duration) {
        self.waiters.wait(rt, self.seen, longest);
    }
}

impl<P: Pledge, N: Names> SlotMonitor<P, N> {
    pub(crate) fn new(slot: SharedSlot<P, N>) -> SlotMonitor<P, N> {
        SlotMonitor {
            held: Mutex::new(slot),
            not_full: CachePadded::new(Waiters::new()),
            not_empty: CachePadded::new(Waiters::new()),
            log_limit: u64::MAX,
        }
    }

    /// From now on a call drains the slot's list where at least `entries` entries of it are
    /// retained, and no fewer than messages are pending.
    pub(crate) fn limit_log(&mut self, entries: u64) {
        self.log_limit = entries;
    }

    /// The slot alone. No thread has the monitor any more.
    pub(crate) fn into_slot(self) -> SharedSlot<P, N> {
        let SlotMonitor {
            held,
            not_full: _,
            not_empty: _,
            log_limit: _,
        } = self;
        held.into_inner()
    }

    /// The seat learns what happened in the slot, whose list is drained where it has reached the
    /// limit. A drain takes time linear in the number of pending messages, so it waits for as many
    /// entries: an entry then costs a constant. Where it runs out of memory, the next call does it.
    fn admit(&self, held: &mut SharedSlot<P, N>, seat: &mut Seat<N>, number: u8) -> bool
        requires within { number < N.slots }
        ensures look { IsLook seat.old seat.new }
        ensures known { IsTrue result → (held.new.whole.number ≡ number)
            × (front_of seat.new number ≡ held.new.whole.events) }
    {
        if !held.enter(seat, number) {
            return false;
        }
        if self.log_limit != u64::MAX {
            let pending = seat.known(number).figures.qnum;
            let _ = held.cut_from(self.log_limit.max(pending));
        }
        true
    }

    /// Acquires the lock for a seat as `enter` does, if it is free.
    #[inline(always)]
    #[tactic(auto, using(crate::proofs::LaterLemmas::look_self))]
    fn try_enter<'s>(
        &'s self,
        seat: &mut Seat<N>,
        number: u8,
    ) -> Option<MutexGuard<'s, SharedSlot<P, N>>>
        requires within { number < N.slots }
        ensures { MatchOption result (IsLook seat.old seat.new)
            (λ held. IsUnderLock seat.old seat.new number (mutex_guard_value held).whole) }
    {
        seat.holds();
        let mut held = self.held.try_lock()?;
        if self.admit(&mut held, seat, number) {
            return Some(held);
        }
        MutexGuard::unlock(held);
        None
    }

    /// Acquires the lock for a seat, which then has observed all that happened in the slot. A slot
    /// of another number, or a view newer than the slot, would be released and acquired again;
    /// neither is reachable (argued, not proved).
    #[tactic(auto, using(crate::proofs::LaterLemmas::look_self, crate::proofs::LaterLemmas::look_trans))]
    pub(crate) fn enter<'s, R: Wait>(
        &'s self,
        rt: &R,
        seat: &mut Seat<N>,
        number: u8,
    ) -> MutexGuard<'s, SharedSlot<P, N>>
        requires within { number < N.slots }
        ensures { IsUnderLock seat.old seat.new number (mutex_guard_value result).whole }
    {
        seat.holds();
        if let Some(held) = self.try_enter(seat, number) {
            return held;
        }
        let pauses = Pauses::of(seat, number);
        for _try in 1..LOCK_ATTEMPTS {
            pauses.pause();
            if let Some(held) = self.try_enter(seat, number) {
                return held;
            }
        }
        for _ in rt.forever() {
            let mut held = self.held.lock(rt);
            if self.admit(&mut held, seat, number) {
                return held;
            }
            MutexGuard::unlock(held);
        }
        unreachable!()
    }

    /// Registers a sender that waits for room. The slot under its lock has none for its text.
    pub(crate) fn add_sender(
        &self,
        _held: &SharedSlot<P, N>,
        _id: Id,
        _mtype: i64,
        _text: &TextOf<N>,
    ) -> SlotWaiter<'_>
        requires full { send_verdict (seq_of _id) _mtype (length _text.now.bytes)
            _held.now.whole.events ≡ Some EAGAIN }
    {
        let waiters = &*self.not_full;
        let seen = waiters.register();
        SlotWaiter { waiters, seen }
    }

    /// Registers a receiver that waits for a message. The slot under its lock has none that this
    /// selection names.
    pub(crate) fn add_receiver(
        &self,
        _held: &SharedSlot<P, N>,
        _request: &ReceiveRequest,
    ) -> SlotWaiter<'_>
        requires none { receive_verdict (seq_of _request.now.id) _request.now.size
            _request.now.selection _request.now.noerror _held.now.whole.events ≡ Some ENOMSG }
    {
        let waiters = &*self.not_empty;
        let seen = waiters.register();
        SlotWaiter { waiters, seen }
    }

    /// Wakes the senders that wait for room.
    pub(crate) fn wake_senders(&self) {
        self.not_full.wake();
    }

    /// Wakes the receivers that wait for a message.
    pub(crate) fn wake_receivers(&self) {
        self.not_empty.wake();
    }

    /// Wakes all waiters of the slot: they check it once more.
    pub(crate) fn wake(&self) {
        self.wake_receivers();
        self.wake_senders();
    }
}
