//! The lists over the queues of one thread.

use crate::memory::calls::{Calls, MOST};
use crate::memory::lists::{List, Wrong, plays};
use mq::{
    Config, DraftError, Errno, Id, Ledger, LocalQueues, Message, QueueProgram, ReceiveOptions,
    Selection,
};

/// The queues of one thread.
#[derive(Drop)]
struct One<'a, L: Ledger> {
    queues: &'a mut LocalQueues<L>,
}

impl<'a, L: Ledger> Calls for One<'a, L> {
    fn most(&self) -> u64 {
        u64::MAX
    }

    fn queue(&mut self, seat: u16, key: i32) -> Result<Id, Errno> {
        self.queues.moment = MOST;
        self.queues.caller(seat).queue(key)
    }

    fn draft(&mut self, len: u64) -> Result<(), DraftError> {
        match self.queues.queues.draft(len) {
            Ok(text) => {
                self.queues.caller(0).spend(text);
                Ok(())
            }
            Err(error) => Err(error),
        }
    }

    fn send(&mut self, seat: u16, id: Id, mtype: i64, bytes: &[u8]) -> Result<(), Errno> {
        let message = Message::new(mtype, bytes).tagged(MOST);
        self.queues.caller(seat).send(id, message)?;
        Ok(())
    }

    fn receive(&mut self, seat: u16, id: Id, size: u64, msgtyp: i64) -> Result<u64, Errno> {
        let selection = Selection::read(msgtyp, false);
        let options = ReceiveOptions::new().up_to(size);
        let mut caller = self.queues.caller(seat);
        Ok(caller.receive_with(id, selection, options)?.length)
    }

    fn set(&mut self, seat: u16, id: Id, qbytes: u64) -> Result<(), Errno> {
        self.queues.caller(seat).set(id, qbytes)?;
        Ok(())
    }

    fn waiting(&mut self, seat: u16, id: Id) -> Result<u64, Errno> {
        Ok(self.queues.caller(seat).stat(id)?.qnum)
    }

    fn cut(&mut self, seat: u16, slot: u8) -> Result<(), Errno> {
        let mut caller = self.queues.caller(seat);
        if slot >= caller.slots() {
            return Err(Errno::EINVAL);
        }
        caller.cut_log(slot)?;
        Ok(())
    }

    fn remove(&mut self, seat: u16, id: Id) -> Result<(), Errno> {
        self.queues.caller(seat).remove(id)?;
        Ok(())
    }
}

/// Plays a list.
#[derive(Drop)]
pub(crate) struct OnOne<'t> {
    pub(crate) list: List,
    pub(crate) bytes: &'t [u8],
}

impl<'t> QueueProgram for OnOne<'t> {
    type Answer = Option<Wrong>;

    fn run<L: Ledger>(self, config: Config, queues: &mut LocalQueues<L>) -> Option<Wrong> {
        plays(self.list, One { queues }, config, self.bytes)
    }
}
