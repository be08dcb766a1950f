//! msgget(2): the lookup of a key, and a new queue in the first free slot, under the keys' lock.

ghost use Rattle.std.specs.Prelude.{◌≡◌, ◌≢◌, ◌<◌, None, pos, IfSome, IfNone, OnErr, MatchResult};
ghost use Rattle.mq_table.specs.Ids.{slot_of};
ghost use Rattle.mq_table.specs.Keys.{id_of_key};
ghost use Rattle.mq_system.specs.Making.{Lacks};
ghost use Rattle.mq_system.specs.Outcome.{IsLook};
ghost use Rattle.mq_system.specs.Get.{IsFound, IsGot, IsNew, IsNotGot, IsNotNew, WasBelow};

use crate::slots::NewQueue;
use crate::{Errno, GetFlags, Got, Keys, Names, Pledge, Seat, System};
use mq_table::Id;
use std::sync::{MutexGuard, Wait};

impl<P: Pledge, N: Names> System<P, N> {
    /// The id of the queue with this key, or of a new queue (msgget(2)). Key 0 is IPC_PRIVATE.
    /// EEXIST, ENOENT, ENOSPC, then ENOMEM.
    pub fn msgget<R: Wait>(
        &self,
        rt: &R,
        seat: &mut Seat<N>,
        key: i32,
        flags: GetFlags,
        moment: u64,
    ) -> Result<Got, Errno>
        ensures answer { MatchResult result
            (IsGot N.slots N.last_seq key flags moment seat.old seat.new)
            (IsNotGot N.slots N.last_seq key flags seat.old seat.new) }
    {
        let mut keys = self.keys.lock(rt);
        let answer = self.get(rt, &mut *keys, seat, key, flags, moment);
        MutexGuard::unlock(keys);
        answer
    }

    /// The same, under the keys' lock.
    fn get<R: Wait>(
        &self,
        rt: &R,
        keys: &mut Keys<N>,
        seat: &mut Seat<N>,
        key: i32,
        flags: GetFlags,
        moment: u64,
    ) -> Result<Got, Errno>
        ensures answer { MatchResult result
            (IsGot N.slots N.last_seq key flags moment seat.old seat.new)
            (IsNotGot N.slots N.last_seq key flags seat.old seat.new) }
    {
        if key == 0 {
            return self.make(rt, keys, seat, key, moment);
        }
        if let Some(id) = self.find(rt, keys, seat, key) {
            if flags.create && flags.exclusive {
                return Err(Errno::EEXIST);
            }
            return Ok(Got { id, made: None });
        }
        if !flags.create {
            return Err(Errno::ENOENT);
        }
        self.make(rt, keys, seat, key, moment)
    }

    /// The id of the queue with this key, which is not 0, as the table and then its slot have it. A
    /// pair without its queue would be forgotten, and a queue without its pair found in its slot;
    /// neither is reachable (argued, not proved).
    #[tactic(auto, using(crate::proofs::LaterLemmas::look_self, crate::proofs::LaterLemmas::look_trans))]
    fn find<R: Wait>(&self, rt: &R, keys: &mut Keys<N>, seat: &mut Seat<N>, key: i32) -> Option<Id>
        requires some { key ≢ pos 0 }
        ensures within { IfSome result (λ id. slot_of id < N.slots) }
        ensures found { IfSome result (IsFound key seat.old seat.new) }
        ensures absent { IfNone result (id_of_key keys.new key ≡ None) }
        ensures lacked { IfNone result (WasBelow (Lacks key) seat.old seat.new N.slots) }
        ensures look { IsLook seat.old seat.new }
    {
        if let Some(id) = self.look(rt, keys, seat, key) {
            return Some(id);
        }
        match self.search(rt, seat, key) {
            Some(id) => Some(id),
            None => None,
        }
    }

    /// The id of the queue with this key, as the table has it.
    #[tactic(auto, using(crate::proofs::LaterLemmas::look_self, crate::proofs::LaterLemmas::look_trans))]
    fn look<R: Wait>(&self, rt: &R, keys: &mut Keys<N>, seat: &mut Seat<N>, key: i32) -> Option<Id>
        requires some { key ≢ pos 0 }
        ensures within { IfSome result (λ id. slot_of id < N.slots) }
        ensures found { IfSome result (IsFound key seat.old seat.new) }
        ensures absent { IfNone result (id_of_key keys.new key ≡ None) }
        ensures look { IsLook seat.old seat.new }
    {
        let Some(id) = keys.look(key) else {
            return None;
        };
        let number = id.slot();
        if let Some(found) = self.monitors[number as usize].with_key(rt, seat, number, key) {
            return Some(found);
        }
        keys.forget_key(key);
        None
    }

    /// The id of the queue with this key, as the first slot that has one has it.
    fn search<R: Wait>(&self, rt: &R, seat: &mut Seat<N>, key: i32) -> Option<Id>
        requires some { key ≢ pos 0 }
        ensures within { IfSome result (λ id. slot_of id < N.slots) }
        ensures found { IfSome result (IsFound key seat.old seat.new) }
        ensures lacked { IfNone result (WasBelow (Lacks key) seat.old seat.new N.slots) }
        ensures look { IsLook seat.old seat.new }
    {
        for number in 0..self.slots() {
            if let Some(found) = self.monitors[number as usize].with_key(rt, seat, number, key) {
                return Some(found);
            }
        }
        None
    }

    /// Makes a queue in the first slot that is free.
    #[tactic(auto, using(crate::proofs::LaterLemmas::look_trans))]
    fn make<R: Wait>(
        &self,
        rt: &R,
        keys: &mut Keys<N>,
        seat: &mut Seat<N>,
        key: i32,
        moment: u64,
    ) -> Result<Got, Errno>
        requires absent { key ≢ pos 0 → id_of_key keys.old key ≡ None }
        ensures answer { MatchResult result
            (IsNew N.slots N.last_seq key moment seat.old seat.new)
            (IsNotNew N.slots N.last_seq seat.old seat.new) }
        ensures look { OnErr result (IsLook seat.old seat.new) }
    {
        let queue = NewQueue { key, moment };
        for number in 0..self.slots() {
            let monitor = &self.monitors[number as usize];
            match monitor.make(rt, keys, seat, number, self.last_seq, queue) {
                Ok(got) => return Ok(got),
                Err(errno) => match errno {
                    Errno::ENOSPC => (),
                    _ => return Err(Errno::ENOMEM),
                },
            }
        }
        Err(Errno::ENOSPC)
    }
}
