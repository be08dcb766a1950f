//! The client handle of one thread: msgget(2) and msgctl(2). Its sends and receives are in modules
//! of their own.

ghost use Rattle.std.specs.Prelude.{◌≡◌, ◌<◌, length, map, OnErr};
ghost use Rattle.mq_table.specs.KeptShown.{row_now};
ghost use Rattle.mq_calls.specs.Calls.{rmid, set as set_answer, stat as stat_answer};
ghost use Rattle.mq_calls.specs.Get.{MayRunOut, msgget};
ghost use Rattle.mq_calls.specs.Look.{refused_at};
ghost use Rattle.mq_calls.specs.Usages.{usage_of};
ghost use Rattle.mq_local.specs.Outcome.{Answers};
ghost use Rattle.mq.specs.Caller.{creating};
ghost use Rattle.mq.specs.Local.{AnswersCutLog, AnswersErrno, IsIdOf};

use crate::LocalQueues;
use mq_calls::{Errno, GetFlags, Got, Removal, Usage};
use mq_queue::{BoardRow, Figures};
use mq_table::{Cut, Id};
use std::sync::ledger::Ledger;

/// The queues of one thread, at a seat: the calls of `Caller`, with the answers of IPC_NOWAIT. A
/// call that would wait is refused with EAGAIN or ENOMSG, since no other thread could end its wait.
#[derive(Drop)]
pub struct LocalCaller<'a, L: Ledger> {
    pub of: &'a mut LocalQueues<L>,
    pub seat: u16,
}

impl<'a, L: Ledger> LocalCaller<'a, L> {
    /// The number of its seat.
    pub fn number(&self) -> u16
        ensures { result ≡ self.now.seat }
    {
        self.seat
    }

    /// The number of slots.
    pub fn slots(&self) -> u8
        ensures { result ≡ length self.now.of.now.queues.slots }
    {
        self.of.queues.slots()
    }

    /// The queue with this key, which is made where there is none (msgget(2) with IPC_CREAT).
    pub fn queue(&mut self, key: i32) -> Result<Id, Errno>
        ensures same_reference { self.new.of.ghost_name ≡ self.old.of.ghost_name }
        ensures answer { IsIdOf (msgget self.old.of.now.queues self.old.seat key creating
            self.old.of.now.moment) self.old.of.now.queues self.new.of.now.queues result }
        ensures seat { self.new.seat ≡ self.old.seat }
        ensures moment { self.new.of.now.moment ≡ self.old.of.now.moment }
    {
        let flags = GetFlags {
            create: true,
            exclusive: false,
        };
        match self.get(key, flags) {
            Ok(got) => Ok(got.id),
            Err(errno) => Err(errno),
        }
    }

    /// The queue with this key, and whether it was made (msgget(2)). Key 0 is IPC_PRIVATE.
    pub fn get(&mut self, key: i32, flags: GetFlags) -> Result<Got, Errno>
        ensures same_reference { self.new.of.ghost_name ≡ self.old.of.ghost_name }
        ensures answer { Answers (msgget self.old.of.now.queues self.old.seat key flags
            self.old.of.now.moment) Errno.ENOMEM self.old.of.now.queues self.new.of.now.queues
            result }
        ensures memory { OnErr result (MayRunOut (msgget self.old.of.now.queues self.old.seat key
            flags self.old.of.now.moment)) }
        ensures seat { self.new.seat ≡ self.old.seat }
        ensures moment { self.new.of.now.moment ≡ self.old.of.now.moment }
    {
        let moment = self.of.moment;
        self.of.queues.msgget(self.seat, key, flags, moment)
    }

    /// Sets the quota of the queue: how many bytes may be pending, and as many messages (msgctl(2),
    /// IPC_SET). EINVAL, EIDRM, EPERM, then ENOMEM.
    pub fn set(&mut self, id: Id, qbytes: u64) -> Result<u64, Errno>
        ensures same_reference { self.new.of.ghost_name ≡ self.old.of.ghost_name }
        ensures answer { AnswersErrno (set_answer self.old.of.now.queues self.old.seat id qbytes
            self.old.of.now.moment) (refused_at self.old.of.now.queues id Errno.ENOMEM)
            self.old.of.now.queues self.new.of.now.queues result }
        ensures seat { self.new.seat ≡ self.old.seat }
        ensures moment { self.new.of.now.moment ≡ self.old.of.now.moment }
    {
        let moment = self.of.moment;
        match self.of.queues.set(self.seat, id, qbytes, moment) {
            Ok(entry) => Ok(entry),
            Err(refused) => Err(refused.errno),
        }
    }

    /// Removes the queue (msgctl(2), IPC_RMID). EINVAL, EIDRM, then ENOMEM.
    pub fn remove(&mut self, id: Id) -> Result<Removal, Errno>
        ensures same_reference { self.new.of.ghost_name ≡ self.old.of.ghost_name }
        ensures answer { AnswersErrno (rmid self.old.of.now.queues self.old.seat id
            self.old.of.now.moment) (refused_at self.old.of.now.queues id Errno.ENOMEM)
            self.old.of.now.queues self.new.of.now.queues result }
        ensures seat { self.new.seat ≡ self.old.seat }
        ensures moment { self.new.of.now.moment ≡ self.old.of.now.moment }
    {
        let moment = self.of.moment;
        match self.of.queues.rmid(self.seat, id, moment) {
            Ok(removal) => Ok(removal),
            Err(refused) => Err(refused.errno),
        }
    }

    /// Drains the log of a slot: returns its entries since the last drain, with a checkpoint of
    /// those before. ENOMEM alone.
    pub fn cut_log(&mut self, slot: u8) -> Result<Cut, Errno>
        requires within { slot < length self.old.of.now.queues.slots }
        ensures same_reference { self.new.of.ghost_name ≡ self.old.of.ghost_name }
        ensures answer { AnswersCutLog self.old.of.now.queues slot self.new.of.now.queues result }
        ensures seat { self.new.seat ≡ self.old.seat }
        ensures moment { self.new.of.now.moment ≡ self.old.of.now.moment }
    {
        match self.of.queues.cut_log(slot) {
            Ok(cut) => Ok(cut),
            Err(refused) => Err(refused.errno),
        }
    }

    /// The figures of the queue (msgctl(2), IPC_STAT). EINVAL, then EIDRM.
    pub fn stat(&self, id: Id) -> Result<Figures, Errno>
        ensures { result ≡ stat_answer self.now.of.now.queues id }
    {
        self.of.queues.stat(id)
    }

    /// A row for each slot.
    pub fn report(&self, rows: &mut [BoardRow])
        requires { length rows.old ≡ length self.now.of.now.queues.slots }
        ensures { rows.new ≡ map row_now self.now.of.now.queues.slots }
    {
        for slot in 0..self.slots() {
            rows[slot as usize] = self.of.queues.row(slot);
        }
    }

    /// What is in use, of all slots together (msgctl(2), IPC_INFO and MSG_INFO).
    pub fn info(&self) -> Usage
        ensures { result ≡ usage_of self.now.of.now.queues }
    {
        self.of.queues.info()
    }
}
