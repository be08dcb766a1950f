//! What `msgget` does in a slot that is locked for it.
ghost use Rattle.std.specs.Prelude.{◌≡◌, ◌≢◌, ◌<◌, ◌≤◌, pos, None, OnErr, MatchOption, MatchResult};
ghost use Rattle.mq_table.specs.Keys.{id_of_key};
ghost use Rattle.mq_table.specs.declared.limits.TheConstants.{MAX_SEQ};
ghost use Rattle.mq_system.specs.Making.{IsMade, IsNotMade, IsThere, Lacks};
ghost use Rattle.mq_system.specs.Outcome.{IsLook};
ghost use Rattle.mq_system.specs.Seat.{front_of};

use crate::{Keys, Names, Pledge, Seat, SlotMonitor};
use mq_calls::{Errno, Got};
use mq_table::Id;
use std::sync::{MutexGuard, Wait};

/// What a queue is made with: its key, which is new or 0, and the moment of its creation.
#[derive(Clone, Copy)]
pub(crate) struct NewQueue {
    pub key: i32,
    pub moment: u64,
}

impl<P: Pledge, N: Names> SlotMonitor<P, N> {
    /// The id of the queue in the slot, where it is there and has this key, which is not 0.
    pub(crate) fn with_key<R: Wait>(
        &self,
        rt: &R,
        seat: &mut Seat<N>,
        number: u8,
        key: i32,
    ) -> Option<Id>
        requires within { number < N.slots }
        requires some { key ≢ pos 0 }
        ensures answer { MatchOption result (Lacks key (front_of seat.new number))
            (IsThere number key (front_of seat.new number)) }
        ensures look { IsLook seat.old seat.new }
    {
        let held = self.enter(rt, seat, number);
        held.holds();
        let found = held.with_key(key);
        MutexGuard::unlock(held);
        found
    }

    /// Makes a queue in the slot, and enters its key. ENOSPC where the slot is not free, then
    /// ENOMEM.
    pub(crate) fn make<R: Wait>(
        &self,
        rt: &R,
        keys: &mut Keys<N>,
        seat: &mut Seat<N>,
        number: u8,
        last_seq: u32,
        queue: NewQueue,
    ) -> Result<Got, Errno>
        requires within { number < N.slots }
        requires last { last_seq ≡ N.last_seq }
        requires bounded { N.last_seq ≤ MAX_SEQ }
        requires absent { queue.key ≢ pos 0 → id_of_key keys.old queue.key ≡ None }
        ensures answer { MatchResult result
            (IsMade seat.old seat.new number N.last_seq queue.key queue.moment)
            (IsNotMade N.last_seq (front_of seat.new number)) }
        ensures unchanged { OnErr result ((keys.new ≡ keys.old) × IsLook seat.old seat.new) }
    {
        let mut held = self.enter(rt, seat, number);
        if !held.is_free(last_seq) {
            MutexGuard::unlock(held);
            return Err(Errno::ENOSPC);
        }
        held.holds();
        let answer = held.make(rt, keys, seat, queue.key, queue.moment);
        MutexGuard::unlock(held);
        match answer {
            Ok(got) => Ok(got),
            Err(_) => Err(Errno::ENOMEM),
        }
    }
}
