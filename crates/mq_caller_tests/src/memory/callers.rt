//! The lists over a system, by a caller at the seat of each call.

use crate::memory::calls::{Calls, MOST};
use crate::memory::lists::{List, Wrong, plays};
use crate::memory::seats::OnSeat;
use crate::runs::Nothing;
use crate::seat_calls::SeatCalls;
use mq::{
    Caller, Clock, Config, DraftError, Errno, Id, MSGMAX, Names, RecvFlags, SendFlags,
    SystemProgram, Wait,
};

const NOWAIT: SendFlags = SendFlags { nowait: true };

const AT_ONCE: RecvFlags = RecvFlags {
    nowait: true,
    noerror: false,
    except: false,
};

/// The callers of a system.
#[derive(Drop)]
struct ByCallers<'a, C: SeatCalls + OnSeat> {
    callers: &'a mut [C],
}

impl<'a, C: SeatCalls + OnSeat> Calls for ByCallers<'a, C> {
    fn most(&self) -> u64 {
        MSGMAX
    }

    fn queue(&mut self, seat: u16, key: i32) -> Result<Id, Errno> {
        match self.callers.get_mut(seat as usize) {
            Some(caller) => {
                caller.tell(MOST);
                caller.queue(key)
            }
            None => Err(Errno::EINVAL),
        }
    }

    fn draft(&mut self, len: u64) -> Result<(), DraftError> {
        match self.callers.get_mut(0) {
            Some(caller) => caller.drafts(len),
            None => Ok(()),
        }
    }

    fn send(&mut self, seat: u16, id: Id, mtype: i64, bytes: &[u8]) -> Result<(), Errno> {
        match self.callers.get_mut(seat as usize) {
            Some(caller) => {
                caller.send_with(id, mtype, MOST, bytes, NOWAIT)?;
                Ok(())
            }
            None => Err(Errno::EINVAL),
        }
    }

    fn receive(&mut self, seat: u16, id: Id, size: u64, msgtyp: i64) -> Result<u64, Errno> {
        match self.callers.get_mut(seat as usize) {
            Some(caller) => Ok(caller.receive_flagged(id, size, msgtyp, AT_ONCE)?.length),
            None => Err(Errno::EINVAL),
        }
    }

    fn set(&mut self, seat: u16, id: Id, qbytes: u64) -> Result<(), Errno> {
        match self.callers.get_mut(seat as usize) {
            Some(caller) => caller.sets(id, qbytes),
            None => Err(Errno::EINVAL),
        }
    }

    fn waiting(&mut self, seat: u16, id: Id) -> Result<u64, Errno> {
        match self.callers.get_mut(seat as usize) {
            Some(caller) => caller.shows(id),
            None => Err(Errno::EINVAL),
        }
    }

    fn cut(&mut self, seat: u16, slot: u8) -> Result<(), Errno> {
        match self.callers.get_mut(seat as usize) {
            Some(caller) => {
                caller.cut_log(slot)?;
                Ok(())
            }
            None => Err(Errno::EINVAL),
        }
    }

    fn remove(&mut self, seat: u16, id: Id) -> Result<(), Errno> {
        match self.callers.get_mut(seat as usize) {
            Some(caller) => {
                caller.remove(id)?;
                Ok(())
            }
            None => Err(Errno::EINVAL),
        }
    }
}

/// Plays a list.
#[derive(Drop)]
pub(crate) struct OnCallers<'t> {
    pub(crate) list: List,
    pub(crate) bytes: &'t [u8],
}

impl<'t> SystemProgram<Nothing> for OnCallers<'t> {
    type Answer = Option<Wrong>;

    fn run<N: Names, R: Wait + Clock>(
        self,
        config: Config,
        callers: &mut [Caller<'_, Nothing, N, R>],
    ) -> Option<Wrong> {
        plays(self.list, ByCallers { callers }, config, self.bytes)
    }
}
