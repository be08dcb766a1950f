//! A caller's calls, and nothing of what the system is made of.

use crate::runs::Nothing;
use mq::{
    Caller, Clock, Cut, Delivered, Errno, Forever, Id, Message, Moments, Names, NoWait,
    ReceiveOptions, RecvFlags, Removal, Selection, SendFlags, Usage, Wait,
};

/// The calls of `mq::Caller`, by names of one form each.
pub(crate) trait SeatCalls {
    /// Its calls have this moment from now on.
    fn tell(&mut self, moment: u64);

    fn queue(&mut self, key: i32) -> Result<Id, Errno>;

    fn send_with(
        &mut self,
        id: Id,
        mtype: i64,
        tag: u64,
        bytes: &[u8],
        flags: SendFlags,
    ) -> Result<u64, Errno>;

    fn receive_flagged(
        &mut self,
        id: Id,
        size: u64,
        msgtyp: i64,
        flags: RecvFlags,
    ) -> Result<Delivered<Vec<u8>>, Errno>;

    fn remove(&mut self, id: Id) -> Result<Removal, Errno>;

    /// EINVAL where there is no such slot.
    fn cut_log(&mut self, slot: u8) -> Result<Cut, Errno>;

    fn info(&mut self) -> Usage;
}

impl<'a, N: Names, R: Wait + Clock> SeatCalls for Caller<'a, Nothing, N, R> {
    fn tell(&mut self, moment: u64) {
        self.moments = Moments::at(moment);
    }

    fn queue(&mut self, key: i32) -> Result<Id, Errno> {
        self.queue(key)
    }

    fn send_with(
        &mut self,
        id: Id,
        mtype: i64,
        tag: u64,
        bytes: &[u8],
        flags: SendFlags,
    ) -> Result<u64, Errno> {
        let message = Message { mtype, tag, bytes };
        if flags.nowait {
            self.try_send(id, message)
        } else {
            self.send(id, message)
        }
    }

    fn receive_flagged(
        &mut self,
        id: Id,
        size: u64,
        msgtyp: i64,
        flags: RecvFlags,
    ) -> Result<Delivered<Vec<u8>>, Errno> {
        let selection = Selection::read(msgtyp, flags.except);
        let options = ReceiveOptions {
            size,
            noerror: flags.noerror,
        };
        if flags.nowait {
            self.receive_within(id, selection, options, &mut NoWait)
        } else {
            self.receive_within(id, selection, options, &mut Forever)
        }
    }

    fn remove(&mut self, id: Id) -> Result<Removal, Errno> {
        self.remove(id)
    }

    fn cut_log(&mut self, slot: u8) -> Result<Cut, Errno> {
        if slot >= self.slots() {
            return Err(Errno::EINVAL);
        }
        self.cut_log(slot)
    }

    fn info(&mut self) -> Usage {
        self.info()
    }
}
