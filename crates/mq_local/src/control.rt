//! msgctl(2) for one thread: IPC_SET of the quota, IPC_RMID, IPC_STAT, IPC_INFO and MSG_INFO.

ghost use Rattle.std.specs.Prelude.{◌≡◌};
ghost use Rattle.mq_calls.specs.Calls.{rmid, set, stat};
ghost use Rattle.mq_calls.specs.Look.{refused_at};
ghost use Rattle.mq_local.specs.Outcome.{Answers};
ghost use Rattle.mq_calls.specs.Usages.{usage_of};

use crate::OneThread;
use mq_calls::home::take_home;
use mq_calls::{Errno, Refused, Removal, Usage};
use mq_message::Waiting;
use mq_queue::{Figures, NoNotice};
use mq_table::{Id, remove_under};
use std::sync::ledger::Ledger;

impl<L: Ledger> OneThread<L> {
    /// Sets the quota (msgctl(2), IPC_SET of msg_qbytes), and returns the entry. EINVAL, EIDRM,
    /// EPERM over MSGMNB, then ENOMEM.
    pub fn set(&mut self, seat: u16, id: Id, qbytes: u64, moment: u64) -> Result<u64, Refused>
        ensures answer { Answers (set self.old seat id qbytes moment)
            (refused_at self.old id Errno.ENOMEM) self.old self.new result }
    {
        let k = self.slot_of_id(id)?;
        match self.slots[k].set(qbytes, seat, moment, &mut NoNotice) {
            Ok(entry) => Ok(entry),
            Err(refusal) => Err(self.refused(k, Errno::from(refusal))),
        }
    }

    /// Removes the queue (msgctl(2), IPC_RMID), and spends the texts that were pending in it.
    /// EINVAL, EIDRM, then ENOMEM.
    pub fn rmid(&mut self, seat: u16, id: Id, moment: u64) -> Result<Removal, Refused>
        ensures answer { Answers (rmid self.old seat id moment)
            (refused_at self.old id Errno.ENOMEM) self.old self.new result }
    {
        let k = self.slot_of_id(id)?;
        let entry = self.slots[k].events();
        match remove_under(
            &mut self.keys,
            &mut self.slots[k],
            seat,
            moment,
            &mut NoNotice,
        ) {
            Ok((log, mut waiting)) => {
                take_home(&mut self.arena, &mut waiting);
                waiting.end();
                Ok(Removal { entry, log })
            }
            Err(_) => Err(self.refused(k, Errno::ENOMEM)),
        }
    }

    /// The figures of the queue (msgctl(2), IPC_STAT). EINVAL, then EIDRM.
    pub fn stat(&self, id: Id) -> Result<Figures, Errno>
        ensures { result ≡ stat self.now id }
    {
        match self.slot_of_id(id) {
            Ok(k) => Ok(self.slots[k].figures()),
            Err(refused) => Err(refused.errno),
        }
    }

    /// What is in use, of all slots together (msgctl(2), IPC_INFO and MSG_INFO).
    #[tactic(auto, using(mq_calls::proofs::UsageLemmas::usages))]
    pub fn info(&self) -> Usage
        ensures { result ≡ usage_of self.now }
    {
        let mut usage = Usage::none(self.slots(), self.pages());
        for slot in 0..self.slots() {
            usage = usage.with_slot(slot, self.row(slot));
        }
        usage
    }
}
