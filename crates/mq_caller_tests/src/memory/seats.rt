//! The lists over a system, by one thread at all its seats.

use crate::memory::calls::{Calls, MOST};
use crate::memory::lists::{List, Wrong, plays};
use crate::runs::Nothing;
use mq::{
    Caller, Clock, Config, Delivered, DraftError, Errno, GetFlags, Id, Names, RecvFlags, SendFlags,
    SendRefused, SystemProgram, Wait,
};

const NOWAIT: SendFlags = SendFlags { nowait: true };

const AT_ONCE: RecvFlags = RecvFlags {
    nowait: true,
    noerror: false,
    except: false,
};

/// The calls of a system at one seat.
pub(crate) trait OnSeat {
    fn gets(&mut self, key: i32) -> Result<Id, Errno>;

    fn drafts(&mut self, len: u64) -> Result<(), DraftError>;

    fn sends(&mut self, id: Id, mtype: i64, bytes: &[u8]) -> Result<(), Errno>;

    fn receives(&mut self, id: Id, size: u64, msgtyp: i64) -> Result<u64, Errno>;

    fn sets(&mut self, id: Id, qbytes: u64) -> Result<(), Errno>;

    fn shows(&mut self, id: Id) -> Result<u64, Errno>;

    fn cuts(&mut self, slot: u8) -> Result<(), Errno>;

    fn removes(&mut self, id: Id) -> Result<(), Errno>;
}

impl<'s, N: Names, R: Wait + Clock> OnSeat for Caller<'s, Nothing, N, R> {
    fn gets(&mut self, key: i32) -> Result<Id, Errno> {
        let flags = GetFlags {
            create: true,
            exclusive: false,
        };
        let got = self
            .system
            .msgget(self.rt, &mut self.seat, key, flags, MOST)?;
        Ok(got.id)
    }

    fn drafts(&mut self, len: u64) -> Result<(), DraftError> {
        match self.system.draft(self.rt, len) {
            Ok(text) => {
                self.system.spend(self.rt, text);
                Ok(())
            }
            Err(error) => Err(error),
        }
    }

    fn sends(&mut self, id: Id, mtype: i64, bytes: &[u8]) -> Result<(), Errno> {
        let text = match self.system.draft_of(self.rt, bytes) {
            Ok(text) => text,
            Err(error) => return Err(error.errno()),
        };
        match self.system.msgsnd(self.rt, &mut self.seat, id, mtype, MOST, text, NOWAIT, MOST) {
            Ok(_) => Ok(()),
            Err(refusal) => {
                let SendRefused { refused, text } = refusal;
                self.system.spend(self.rt, text);
                Err(refused.errno)
            }
        }
    }

    fn receives(&mut self, id: Id, size: u64, msgtyp: i64) -> Result<u64, Errno> {
        match self
            .system
            .msgrcv(self.rt, &mut self.seat, id, size, msgtyp, AT_ONCE, MOST)
        {
            Ok(received) => {
                let Delivered { length, text, .. } = received;
                self.system.spend(self.rt, text);
                Ok(length)
            }
            Err(refused) => Err(refused.errno),
        }
    }

    fn sets(&mut self, id: Id, qbytes: u64) -> Result<(), Errno> {
        match self.system.set(self.rt, &mut self.seat, id, qbytes, MOST) {
            Ok(_) => Ok(()),
            Err(refused) => Err(refused.errno),
        }
    }

    fn shows(&mut self, id: Id) -> Result<u64, Errno> {
        Ok(self.system.stat(&mut self.seat, id)?.qnum)
    }

    fn cuts(&mut self, slot: u8) -> Result<(), Errno> {
        if slot >= self.system.slots() {
            return Err(Errno::EINVAL);
        }
        match self.system.cut_log(self.rt, &mut self.seat, slot) {
            Ok(_) => Ok(()),
            Err(refused) => Err(refused.errno),
        }
    }

    fn removes(&mut self, id: Id) -> Result<(), Errno> {
        match self.system.rmid(self.rt, &mut self.seat, id, MOST) {
            Ok(_) => Ok(()),
            Err(refused) => Err(refused.errno),
        }
    }
}

/// The seats of a system.
#[derive(Drop)]
struct AtSeats<'a, C: OnSeat> {
    seats: &'a mut [C],
}

impl<'a, C: OnSeat> Calls for AtSeats<'a, C> {
    fn most(&self) -> u64 {
        u64::MAX
    }

    fn queue(&mut self, seat: u16, key: i32) -> Result<Id, Errno> {
        match self.seats.get_mut(seat as usize) {
            Some(seat) => seat.gets(key),
            None => Err(Errno::EINVAL),
        }
    }

    fn draft(&mut self, len: u64) -> Result<(), DraftError> {
        match self.seats.get_mut(0) {
            Some(seat) => seat.drafts(len),
            None => Ok(()),
        }
    }

    fn send(&mut self, seat: u16, id: Id, mtype: i64, bytes: &[u8]) -> Result<(), Errno> {
        match self.seats.get_mut(seat as usize) {
            Some(seat) => seat.sends(id, mtype, bytes),
            None => Err(Errno::EINVAL),
        }
    }

    fn receive(&mut self, seat: u16, id: Id, size: u64, msgtyp: i64) -> Result<u64, Errno> {
        match self.seats.get_mut(seat as usize) {
            Some(seat) => seat.receives(id, size, msgtyp),
            None => Err(Errno::EINVAL),
        }
    }

    fn set(&mut self, seat: u16, id: Id, qbytes: u64) -> Result<(), Errno> {
        match self.seats.get_mut(seat as usize) {
            Some(seat) => seat.sets(id, qbytes),
            None => Err(Errno::EINVAL),
        }
    }

    fn waiting(&mut self, seat: u16, id: Id) -> Result<u64, Errno> {
        match self.seats.get_mut(seat as usize) {
            Some(seat) => seat.shows(id),
            None => Err(Errno::EINVAL),
        }
    }

    fn cut(&mut self, seat: u16, slot: u8) -> Result<(), Errno> {
        match self.seats.get_mut(seat as usize) {
            Some(seat) => seat.cuts(slot),
            None => Err(Errno::EINVAL),
        }
    }

    fn remove(&mut self, seat: u16, id: Id) -> Result<(), Errno> {
        match self.seats.get_mut(seat as usize) {
            Some(seat) => seat.removes(id),
            None => Err(Errno::EINVAL),
        }
    }
}

/// Plays a list.
#[derive(Drop)]
pub(crate) struct OnAll<'t> {
    pub(crate) list: List,
    pub(crate) bytes: &'t [u8],
}

impl<'t> SystemProgram<Nothing> for OnAll<'t> {
    type Answer = Option<Wrong>;

    fn run<N: Names, R: Wait + Clock>(
        self,
        config: Config,
        callers: &mut [Caller<'_, Nothing, N, R>],
    ) -> Option<Wrong> {
        plays(self.list, AtSeats { seats: callers }, config, self.bytes)
    }
}
