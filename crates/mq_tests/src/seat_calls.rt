//! A worker's calls at its seat, and nothing of what the system is made of.

use crate::runs::Nothing;
use mq::{
    Caller, Clock, Cut, Delivered, Errno, Forever, Id, Message, Names, NoWait, ReceiveOptions,
    RecvFlags, Removal, Selection, SendFlags, Wait, Worker,
};
use std::alloc::Global;

/// The calls of `mq::Caller`, by names of one form each.
pub(crate) trait SeatCalls {
    /// The number of the seat.
    fn number(&self) -> u16;

    /// How many changes the seat made in the slot, or 0 where there is no such slot.
    fn count(&self, slot: u8) -> u64;

    fn queue(&mut self, key: i32) -> Result<Id, Errno>;

    fn send(&mut self, id: Id, mtype: i64, tag: u64, bytes: &[u8]) -> Result<u64, Errno>;

    fn send_with(
        &mut self,
        id: Id,
        mtype: i64,
        tag: u64,
        bytes: &[u8],
        flags: SendFlags,
    ) -> Result<u64, Errno>;

    fn receive(&mut self, id: Id, size: u64, msgtyp: i64) -> Result<Delivered<Vec<u8>>, Errno>;

    fn receive_flagged(
        &mut self,
        id: Id,
        size: u64,
        msgtyp: i64,
        flags: RecvFlags,
    ) -> Result<Delivered<Vec<u8>>, Errno>;

    fn remove(&mut self, id: Id) -> Result<Removal, Errno>;

    /// EINVAL where there is no such slot.
    fn cut_log(&mut self, slot: u8) -> Result<Cut, Errno>;
}

impl<'a, N: Names, R: Wait + Clock> SeatCalls for Caller<'a, Nothing, N, R> {
    fn number(&self) -> u16 {
        self.number()
    }

    fn count(&self, slot: u8) -> u64 {
        if slot >= self.slots() {
            return 0;
        }
        self.count(slot as usize)
    }

    fn queue(&mut self, key: i32) -> Result<Id, Errno> {
        self.queue(key)
    }

    fn send(&mut self, id: Id, mtype: i64, tag: u64, bytes: &[u8]) -> Result<u64, Errno> {
        self.send(id, Message { mtype, tag, bytes })
    }

    fn send_with(
        &mut self,
        id: Id,
        mtype: i64,
        tag: u64,
        bytes: &[u8],
        flags: SendFlags,
    ) -> Result<u64, Errno> {
        let message = Message { mtype, tag, bytes };
        if flags.nowait {
            self.try_send(id, message)
        } else {
            self.send(id, message)
        }
    }

    fn receive(&mut self, id: Id, size: u64, msgtyp: i64) -> Result<Delivered<Vec<u8>>, Errno> {
        let flags = RecvFlags {
            nowait: false,
            noerror: false,
            except: false,
        };
        self.receive_flagged(id, size, msgtyp, flags)
    }

    fn receive_flagged(
        &mut self,
        id: Id,
        size: u64,
        msgtyp: i64,
        flags: RecvFlags,
    ) -> Result<Delivered<Vec<u8>>, Errno> {
        let selection = Selection::read(msgtyp, flags.except);
        let options = ReceiveOptions {
            size,
            noerror: flags.noerror,
        };
        if flags.nowait {
            self.receive_within(id, selection, options, &mut NoWait)
        } else {
            self.receive_within(id, selection, options, &mut Forever)
        }
    }

    fn remove(&mut self, id: Id) -> Result<Removal, Errno> {
        self.remove(id)
    }

    fn cut_log(&mut self, slot: u8) -> Result<Cut, Errno> {
        if slot >= self.slots() {
            return Err(Errno::EINVAL);
        }
        self.cut_log(slot)
    }
}

/// What is done at a seat, which it sees by its calls.
pub(crate) trait Work: Drop {
    type Answer: Drop + Send;

    fn work<C: SeatCalls, R: Wait>(self, rt: &R, alloc: Global, calls: &mut C) -> Self::Answer;
}

/// A worker that does it.
#[derive(Drop)]
pub(crate) struct By<W: Work>(pub(crate) W);

impl<W: Work> Worker<Nothing> for By<W> {
    type Answer = W::Answer;

    fn work<N: Names, R: Wait + Clock>(self, caller: &mut Caller<'_, Nothing, N, R>) -> W::Answer {
        self.0.work(caller.rt, caller.alloc, caller)
    }
}

/// The queue with this key, of a call that is made once more where it found no memory.
pub(crate) fn queue<C: SeatCalls>(calls: &mut C, key: i32) -> Result<Id, Errno> {
    match calls.queue(key) {
        Err(Errno::ENOMEM) => calls.queue(key),
        answer => answer,
    }
}

/// Sends, once more where it found no memory.
pub(crate) fn send<C: SeatCalls>(
    calls: &mut C,
    id: Id,
    mtype: i64,
    tag: u64,
    bytes: &[u8],
) -> Result<u64, Errno> {
    match calls.send(id, mtype, tag, bytes) {
        Err(Errno::ENOMEM) => calls.send(id, mtype, tag, bytes),
        answer => answer,
    }
}

/// Receives the first message, once more where it found no memory.
pub(crate) fn receive<C: SeatCalls>(
    calls: &mut C,
    id: Id,
    size: u64,
) -> Result<Delivered<Vec<u8>>, Errno> {
    match calls.receive(id, size, 0) {
        Err(Errno::ENOMEM) => calls.receive(id, size, 0),
        answer => answer,
    }
}
