//! The calls that control a queue and that show it.
ghost use Rattle.std.specs.Prelude.{◌≡◌, length, map, MatchResult};
ghost use Rattle.mq_queue.specs.Row.{row};
ghost use Rattle.mq_table.specs.Ids.{slot_of};
ghost use Rattle.mq_system.specs.Outcome.{IsLook, IsNotRemoved, IsNotSet, IsRemoved, IsSet};
ghost use Rattle.mq_system.specs.Seat.{front_of};
ghost use Rattle.mq_system.specs.Shown.{known_usage, stat_of};

use crate::messages::too_early;
use crate::{Errno, Names, Pledge, Refused, Removal, Seat, System, WaitingOf};
use mq_calls::Usage;
use mq_message::Waiting;
use mq_queue::{BoardRow, Figures};
use mq_table::Id;
use std::sync::{MutexGuard, Wait};

impl<P: Pledge, N: Names> System<P, N> {
    /// Sets the quota (msgctl(2), IPC_SET of msg_qbytes), and returns the entry. EINVAL, EIDRM,
    /// EPERM over MSGMNB, then ENOMEM.
    #[tactic(auto, using(crate::proofs::LaterLemmas::look_self))]
    pub fn set<R: Wait>(
        &self,
        rt: &R,
        seat: &mut Seat<N>,
        id: Id,
        qbytes: u64,
        moment: u64,
    ) -> Result<u64, Refused>
        ensures answer { MatchResult result (IsSet N.slots id qbytes moment seat.old seat.new)
            (IsNotSet N.slots id qbytes seat.old seat.new) }
    {
        let slot = id.slot();
        if slot as usize >= self.monitors.len() {
            return Err(too_early());
        }
        let monitor = &self.monitors[slot as usize];
        let mut held = monitor.enter(rt, seat, slot);
        let answer = held.set(rt, seat, id, qbytes, moment);
        MutexGuard::unlock(held);
        match answer {
            Ok(entry) => {
                monitor.wake_senders();
                Ok(entry)
            }
            Err(refused) => Err(refused),
        }
    }

    /// Removes the queue (msgctl(2), IPC_RMID). The calls that wait in it fail with EIDRM, and the
    /// texts of its pending messages are freed. EINVAL, EIDRM, then ENOMEM.
    #[tactic(auto, using(crate::proofs::LaterLemmas::look_self))]
    pub fn rmid<R: Wait>(
        &self,
        rt: &R,
        seat: &mut Seat<N>,
        id: Id,
        moment: u64,
    ) -> Result<Removal, Refused>
        ensures answer { MatchResult result
            (IsRemoved N.slots N.last_seq id moment seat.old seat.new)
            (IsNotRemoved N.slots id seat.old seat.new) }
    {
        let slot = id.slot();
        if slot as usize >= self.monitors.len() {
            return Err(too_early());
        }
        let monitor = &self.monitors[slot as usize];
        let mut keys = self.keys.lock(rt);
        let mut held = monitor.enter(rt, seat, slot);
        let answer = held.remove(rt, &mut *keys, seat, id, moment);
        MutexGuard::unlock(held);
        MutexGuard::unlock(keys);
        match answer {
            Ok((removal, waiting)) => {
                monitor.wake();
                self.take_home(rt, waiting);
                Ok(removal)
            }
            Err(refused) => Err(refused),
        }
    }

    /// Spends the texts of all pending messages.
    fn take_home<R: Wait>(&self, rt: &R, mut waiting: WaitingOf<N>) {
        while let Some(message) = waiting.pop_any() {
            self.spend(rt, message.into_body());
        }
        waiting.end();
    }

    /// The figures of the queue (msgctl(2), IPC_STAT), by `Seat::stat`. It never blocks, takes
    /// no lock and allocates nothing. EINVAL, then EIDRM.
    pub fn stat(&self, seat: &mut Seat<N>, id: Id) -> Result<Figures, Errno>
        ensures answer { result ≡ stat_of N.slots (front_of seat.new (slot_of id)) id }
        ensures look { IsLook seat.old seat.new }
    {
        seat.stat(id)
    }

    /// A row for each slot, by `Seat::report`. It never blocks, takes no lock and allocates
    /// nothing.
    pub fn report(&self, seat: &mut Seat<N>, rows: &mut [BoardRow])
        requires { length rows.old ≡ N.slots }
        ensures rows { rows.new ≡ map row seat.new.fronts }
        ensures look { IsLook seat.old seat.new }
    {
        seat.report(rows);
    }

    /// What is in use, of all slots together (msgctl(2), IPC_INFO and MSG_INFO), by `Seat::info`.
    /// It never blocks, takes no lock and allocates nothing.
    pub fn info(&self, seat: &mut Seat<N>) -> Usage
        ensures answer { result ≡ known_usage N.slots N.height seat.new N.slots }
        ensures look { IsLook seat.old seat.new }
    {
        seat.info(self.pages)
    }
}
