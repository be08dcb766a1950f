//! The client handle of a seat: msgget(2) and msgctl(2). Its sends and receives are in modules of
//! their own.

ghost use Rattle.std.specs.Prelude.{◌≡◌, ◌<◌, true, length, map, slice_index, MatchResult};
ghost use Rattle.mq_queue.specs.Row.{row};
ghost use Rattle.mq_table.specs.Cut.{IsCutOf, cut_shown};
ghost use Rattle.mq_table.specs.Ids.{seq_of, slot_of};
ghost use Rattle.mq_calls.specs.declared.errno.Errno.TheVariants.{ENOMEM};
ghost use Rattle.mq_system.specs.Get.{IsGot, IsNotGot};
ghost use Rattle.mq_system.specs.Outcome.{IsLook, IsRemoved, IsSet};
ghost use Rattle.mq_system.specs.Refusals.{MayRemove, MaySet, out_of_slots};
ghost use Rattle.mq_system.specs.Seat.{front_of};
ghost use Rattle.mq_system.specs.Seen.{remove_verdict, set_verdict};
ghost use Rattle.mq_system.specs.Shown.{known_usage, stat_of};
ghost use Rattle.mq.specs.Caller.{creating, IsAsked, IsGotId, IsTurnedBack};
ghost use Rattle.mq.specs.Moments.{IsTimed};

use crate::Moments;
use mq_calls::{Errno, GetFlags, Got, Removal, Usage};
use mq_queue::{BoardRow, Figures};
use mq_system::{Names, Pledge, Seat, System};
use mq_table::{Cut, Id};
use std::alloc::Global;
use std::sync::Wait;
use std::time::Clock;

/// A thread's handle to a system: the calls of the manual, at a seat of its own. Messages are
/// bytes, which it copies, or texts, which it moves.
pub struct Caller<'a, P: Pledge, N: Names, R: Wait + Clock> {
    pub rt: &'a R,
    pub alloc: Global,
    pub system: &'a System<P, N>,
    pub seat: Seat<N>,
    /// A buffer that a receive reserves before it takes a message, kept for the next one.
    pub(crate) room: Vec<u8>,
    /// The timestamps of its calls.
    pub moments: Moments,
}

impl<'a, P: Pledge, N: Names, R: Wait + Clock> Caller<'a, P, N, R> {
    /// The caller at this seat, with timestamps of the clock.
    pub fn new(
        rt: &'a R,
        alloc: Global,
        system: &'a System<P, N>,
        seat: Seat<N>,
    ) -> Caller<'a, P, N, R>
        ensures seat { result.seat ≡ seat }
        ensures clock { result.moments.by_clock ≡ true }
        ensures now { result.moments.now ≡ 0 }
    {
        Caller {
            rt,
            alloc,
            system,
            seat,
            room: Vec::new(alloc),
            moments: Moments::by_clock(),
        }
    }

    /// Its seat, which another caller may take, or with which the system is closed.
    pub fn into_seat(self) -> Seat<N>
        ensures { result ≡ self.entry.seat }
    {
        let Caller {
            rt: _,
            alloc: _,
            system: _,
            seat,
            room: _,
            moments: _,
        } = self;
        seat
    }

    /// Its runtime, which is its clock too.
    pub fn runtime(&self) -> &'a R {
        self.rt
    }

    /// Its allocator.
    pub fn alloc(&self) -> Global {
        self.alloc
    }

    /// The number of its seat.
    pub fn number(&self) -> u16
        ensures { result ≡ self.now.seat.number }
    {
        self.seat.number()
    }

    /// The number of the system's slots.
    pub fn slots(&self) -> u8
        ensures { result ≡ N.slots }
    {
        self.seat.slots()
    }

    /// How many changes its seat made in the slot: a queue that was made, a message that was sent
    /// or received, a quota that was set, or a removal.
    pub fn count(&self, slot: usize) -> u64
        requires slot { slot < N.slots }
        ensures { result ≡ slice_index self.now.seat.by_slot slot }
    {
        self.seat.count(slot)
    }

    /// Begins a call: its timestamp is read from the clock, where `moments` says so.
    #[inline(always)]
    pub(crate) fn begin(&mut self)
        ensures seat { self.new.seat ≡ self.old.seat }
        ensures moments { IsTimed self.old.moments self.new.moments }
    {
        self.moments = self.moments.of_call(self.rt);
    }

    /// The queue with this key, which is made where there is none (msgget(2) with IPC_CREAT).
    pub fn queue(&mut self, key: i32) -> Result<Id, Errno>
        ensures answer { MatchResult result
            (IsGotId N.slots N.last_seq key self.new.moments.now self.old.seat self.new.seat)
            (IsNotGot N.slots N.last_seq key creating self.old.seat self.new.seat) }
        ensures moments { IsTimed self.old.moments self.new.moments }
    {
        let flags = GetFlags {
            create: true,
            exclusive: false,
        };
        match self.get(key, flags) {
            Ok(got) => Ok(got.id),
            Err(errno) => Err(errno),
        }
    }

    /// The queue with this key, and whether it was made (msgget(2)). Key 0 is IPC_PRIVATE.
    pub fn get(&mut self, key: i32, flags: GetFlags) -> Result<Got, Errno>
        ensures answer { MatchResult result
            (IsGot N.slots N.last_seq key flags self.new.moments.now self.old.seat self.new.seat)
            (IsNotGot N.slots N.last_seq key flags self.old.seat self.new.seat) }
        ensures moments { IsTimed self.old.moments self.new.moments }
    {
        self.begin();
        self.system
            .msgget(self.rt, &mut self.seat, key, flags, self.moments.now)
    }

    /// Sets the quota of the queue: how many bytes may be pending, and as many messages (msgctl(2),
    /// IPC_SET). EINVAL, EIDRM, EPERM, then ENOMEM.
    pub fn set(&mut self, id: Id, qbytes: u64) -> Result<u64, Errno>
        ensures answer { MatchResult result
            (IsSet N.slots id qbytes self.new.moments.now self.old.seat self.new.seat)
            (IsTurnedBack IsAsked (out_of_slots N.slots id) (MaySet qbytes) (slot_of id)
            (set_verdict (seq_of id) qbytes) self.old.seat self.new.seat) }
        ensures moments { IsTimed self.old.moments self.new.moments }
    {
        self.begin();
        match self
            .system
            .set(self.rt, &mut self.seat, id, qbytes, self.moments.now)
        {
            Ok(entry) => Ok(entry),
            Err(refused) => Err(refused.errno),
        }
    }

    /// Removes the queue (msgctl(2), IPC_RMID). Its waiters are refused with EIDRM.
    pub fn remove(&mut self, id: Id) -> Result<Removal, Errno>
        ensures answer { MatchResult result
            (IsRemoved N.slots N.last_seq id self.new.moments.now self.old.seat self.new.seat)
            (IsTurnedBack IsAsked (out_of_slots N.slots id) MayRemove (slot_of id)
            (remove_verdict (seq_of id)) self.old.seat self.new.seat) }
        ensures moments { IsTimed self.old.moments self.new.moments }
    {
        self.begin();
        match self
            .system
            .rmid(self.rt, &mut self.seat, id, self.moments.now)
        {
            Ok(removal) => Ok(removal),
            Err(refused) => Err(refused.errno),
        }
    }

    /// Drains the log of a slot: returns its entries since the last drain, to be stored or dropped,
    /// with a checkpoint of those before. Messages, ids, keys and figures stay, and the indices
    /// of entries count on. `close` returns only what is retained then. ENOMEM alone.
    pub fn cut_log(&mut self, slot: u8) -> Result<Cut, Errno>
        requires within { slot < N.slots }
        ensures answer { MatchResult result
            (λ cut. IsCutOf (front_of self.new.seat slot) (cut_shown cut))
            (λ errno. errno ≡ ENOMEM) }
        ensures look { IsLook self.old.seat self.new.seat }
        ensures moments { self.new.moments ≡ self.old.moments }
    {
        match self.system.cut_log(self.rt, &mut self.seat, slot) {
            Ok(cut) => Ok(cut),
            Err(refusal) => Err(refusal.errno),
        }
    }

    /// The figures of the queue (msgctl(2), IPC_STAT). It does not wait, takes no lock and
    /// allocates nothing. EINVAL, then EIDRM.
    pub fn stat(&mut self, id: Id) -> Result<Figures, Errno>
        ensures answer { result ≡ stat_of N.slots (front_of self.new.seat (slot_of id)) id }
        ensures look { IsLook self.old.seat self.new.seat }
        ensures moments { self.new.moments ≡ self.old.moments }
    {
        self.seat.stat(id)
    }

    /// A row for each slot. It does not wait, takes no lock and allocates nothing.
    pub fn report(&mut self, rows: &mut [BoardRow])
        requires { length rows.old ≡ N.slots }
        ensures rows { rows.new ≡ map row self.new.seat.fronts }
        ensures look { IsLook self.old.seat self.new.seat }
        ensures moments { self.new.moments ≡ self.old.moments }
    {
        self.seat.report(rows);
    }

    /// What is in use, of all slots together (msgctl(2), IPC_INFO and MSG_INFO). It does not wait.
    pub fn info(&mut self) -> Usage
        ensures answer { result ≡ known_usage N.slots N.height self.new.seat N.slots }
        ensures look { IsLook self.old.seat self.new.seat }
        ensures moments { self.new.moments ≡ self.old.moments }
    {
        self.system.info(&mut self.seat)
    }
}
