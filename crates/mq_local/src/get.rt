//! msgget(2) for one thread: the lookup of a key, and a new queue in the least free slot.

ghost use Rattle.std.specs.Prelude.{◌≡◌, ◌≢◌, pos, None, IfSome, OnErr};
ghost use Rattle.mq_table.specs.Keys.{id_of_key};
ghost use Rattle.mq_calls.specs.Get.{IsFreeSlot, MayRunOut, free_slot, makes_one};
ghost use Rattle.mq_calls.specs.Get.{msgget as msgget_answer};
ghost use Rattle.mq_local.specs.Outcome.{Answers};

use crate::OneThread;
use mq_calls::{Errno, GetFlags, Got};
use mq_queue::NoNotice;
use mq_table::make_under;
use std::sync::ledger::Ledger;

impl<L: Ledger> OneThread<L> {
    /// The id of the queue with this key, or of a new queue (msgget(2)). Key 0 is IPC_PRIVATE.
    /// EEXIST, ENOENT, ENOSPC, then ENOMEM.
    pub fn msgget(
        &mut self,
        seat: u16,
        key: i32,
        flags: GetFlags,
        moment: u64,
    ) -> Result<Got, Errno>
        ensures answer { Answers (msgget_answer self.old seat key flags moment) Errno.ENOMEM
            self.old self.new result }
        ensures memory { OnErr result (MayRunOut (msgget_answer self.old seat key flags moment)) }
    {
        if key == 0 {
            return self.make(seat, key, moment);
        }
        match self.keys.look(key) {
            Some(_) if flags.create && flags.exclusive => Err(Errno::EEXIST),
            Some(id) => Ok(Got { id, made: None }),
            None if flags.create => self.make(seat, key, moment),
            None => Err(Errno::ENOENT),
        }
    }

    /// Makes a queue in the least slot that is free.
    fn make(&mut self, seat: u16, key: i32, moment: u64) -> Result<Got, Errno>
        requires { key ≢ pos 0 → id_of_key self.old.keys key ≡ None }
        ensures answer { Answers (makes_one self.old key seat moment) Errno.ENOMEM
            self.old self.new result }
        ensures memory { OnErr result (MayRunOut (makes_one self.old key seat moment)) }
    {
        let Some(k) = self.least_free() else {
            return Err(Errno::ENOSPC);
        };
        let entry = self.slots[k].events();
        match make_under(
            &mut self.keys,
            &mut self.slots[k],
            key,
            seat,
            moment,
            &mut NoNotice,
        ) {
            Ok(id) => Ok(Got {
                id,
                made: Some(entry),
            }),
            Err(_) => Err(Errno::ENOMEM),
        }
    }

    fn least_free(&self) -> Option<usize>
        ensures first { result ≡ free_slot self.now }
        ensures free { IfSome result (IsFreeSlot self.now) }
    {
        let last_seq = self.last_seq;
        self.slots.iter().position(|slot| slot.is_free(last_seq))
    }
}
