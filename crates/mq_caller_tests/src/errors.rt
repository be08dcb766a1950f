//! The errors of a caller's calls: each has the errno of msgop(2), whatever the length of the text
//! or the size that the receiver asks for.

use crate::runs::Nothing;
use crate::seat_calls::SeatCalls;
use mq::{
    Caller, Clock, Config, Errno, Id, Names, RecvFlags, SendFlags, SysError, SystemProgram, Wait,
    with_system,
};
use std::alloc::Global;
use std::process::Abort;

/// Pages for four texts of the greatest length, of which two fill a queue.
const ROOMY: Config = Config {
    height: 8,
    slots: 4,
    seats: 1,
    last_seq: 9,
};

/// The queue that is there, one that was removed, one that was never made, and one past the slots.
const HERE: u32 = 0;

const REMOVED: u32 = 1;

const NEVER: u32 = 2;

const PAST: u32 = 63;

/// How many bytes are sent, and for how many room is made.
const LENGTHS: [usize; 5] = [0, 1, 4_001, 8_193, 65_536];

/// Room for more bytes than any message has.
const AMPLE: usize = 1_000_000;

/// Sends that are refused whatever is sent.
const SENDS: [(u32, i64, Errno); 5] = [
    (HERE, 0, Errno::EINVAL),
    (HERE, i64::MIN, Errno::EINVAL),
    (PAST, 1, Errno::EINVAL),
    (NEVER, 1, Errno::EINVAL),
    (REMOVED, 1, Errno::EIDRM),
];

/// Receipts that are refused whatever there is room for, while no message is pending.
const RECEIPTS: [(u32, Errno); 4] = [
    (PAST, Errno::EINVAL),
    (NEVER, Errno::EINVAL),
    (REMOVED, Errno::EIDRM),
    (HERE, Errno::ENOMSG),
];

/// What a call answered in place of what was expected.
#[derive(Drop)]
struct Wrong {
    id: u32,
    len: usize,
    answered: Result<u64, Errno>,
}

fn same(answered: Result<u64, Errno>, wanted: Result<u64, Errno>) -> bool {
    answered == wanted
}

/// Sends so many bytes at once, and answers how many there were.
fn sent<C: SeatCalls>(
    calls: &mut C,
    alloc: Global,
    id: u32,
    mtype: i64,
    len: usize,
) -> Result<u64, Errno> {
    let Ok(bytes) = vec![in alloc; 7; len] else {
        return Err(Errno::ENOMEM);
    };
    let flags = SendFlags { nowait: true };
    match calls.send_with(Id::from_number(id), mtype, 0, bytes.as_slice(), flags) {
        Ok(_) => Ok(len as u64),
        Err(errno) => Err(errno),
    }
}

/// Receives at once, and answers how many bytes were received.
fn received<C: SeatCalls>(calls: &mut C, id: u32, size: usize) -> Result<u64, Errno> {
    let flags = RecvFlags {
        nowait: true,
        noerror: false,
        except: false,
    };
    match calls.receive_flagged(Id::from_number(id), size as u64, 0, flags) {
        Ok(delivered) => Ok(delivered.text.len() as u64),
        Err(errno) => Err(errno),
    }
}

/// Makes calls, and keeps what was wrong first.
#[derive(Drop)]
struct Asker<'c, C: SeatCalls> {
    calls: &'c mut C,
    alloc: Global,
    wrong: Option<Wrong>,
}

impl<'c, C: SeatCalls> Asker<'c, C> {
    fn wants(
        &mut self,
        id: u32,
        len: usize,
        answered: Result<u64, Errno>,
        wanted: Result<u64, Errno>,
    ) {
        if self.wrong.is_none() && !same(answered, wanted) {
            self.wrong = Some(Wrong { id, len, answered });
        }
    }

    /// Sends so many bytes.
    fn sends(&mut self, id: u32, mtype: i64, len: usize, wanted: Result<u64, Errno>) {
        let answered = sent(self.calls, self.alloc, id, mtype, len);
        self.wants(id, len, answered, wanted);
    }

    /// Receives up to so many bytes.
    fn receives(&mut self, id: u32, size: usize, wanted: Result<u64, Errno>) {
        let answered = received(self.calls, id, size);
        self.wants(id, size, answered, wanted);
    }

    fn makes(&mut self, key: i32, wanted: u32) {
        let answered = match self.calls.queue(key) {
            Ok(id) => Ok(id.number() as u64),
            Err(errno) => Err(errno),
        };
        self.wants(wanted, 0, answered, Ok(wanted as u64));
    }

    /// Removes the queue, which is its second entry.
    fn removes(&mut self, id: u32) {
        let answered = match self.calls.remove(Id::from_number(id)) {
            Ok(removal) => Ok(removal.entry),
            Err(errno) => Err(errno),
        };
        self.wants(id, 0, answered, Ok(1));
    }

    /// With so many bytes each call is refused as with any other number.
    fn is_refused(&mut self, len: usize) {
        for (id, mtype, errno) in SENDS {
            self.sends(id, mtype, len, Err(errno));
        }
        for (id, errno) in RECEIPTS {
            self.receives(id, len, Err(errno));
        }
    }

    /// So many bytes go through the queue.
    fn passes(&mut self, len: usize) {
        self.sends(HERE, 1, len, Ok(len as u64));
        self.receives(HERE, len, Ok(len as u64));
    }

    /// Fills the queue, in which no text then has room, and whose texts no smaller size takes.
    fn fills(&mut self) {
        for _ in 0..2 {
            self.sends(HERE, 1, 65_536, Ok(65_536));
        }
        let usage = self.calls.info();
        self.wants(HERE, 2, Ok(usage.messages), Ok(2));
        self.wants(HERE, 131_072, Ok(usage.bytes), Ok(131_072));
        self.wants(HERE, 256, Ok(u64::from(usage.pages)), Ok(256));
        for len in [1, 4_001, 8_193] {
            self.sends(HERE, 1, len, Err(Errno::EAGAIN));
            self.receives(HERE, len, Err(Errno::E2BIG));
        }
        self.receives(HERE, 0, Err(Errno::E2BIG));
    }

    /// Makes each call that is refused, with each number of bytes, and then those that succeed.
    fn asks(&mut self) {
        self.makes(5, HERE);
        self.makes(6, REMOVED);
        self.removes(REMOVED);
        for len in LENGTHS {
            self.is_refused(len);
        }
        for (id, errno) in RECEIPTS {
            self.receives(id, AMPLE, Err(errno));
        }
        self.sends(HERE, 1, 65_537, Err(Errno::EINVAL));
        for len in LENGTHS {
            self.passes(len);
        }
        self.sends(HERE, 1, 65_536, Ok(65_536));
        self.receives(HERE, AMPLE, Ok(65_536));
        self.fills();
    }
}

/// Answers what was wrong.
#[derive(Drop)]
struct Refusals;

impl SystemProgram<Nothing> for Refusals {
    type Answer = Option<Wrong>;

    fn run<N: Names, R: Wait + Clock>(
        self,
        _config: Config,
        callers: &mut [Caller<'_, Nothing, N, R>],
    ) -> Option<Wrong> {
        let Some(caller) = callers.first_mut() else {
            return None;
        };
        let alloc = caller.alloc;
        let mut asker = Asker {
            calls: caller,
            alloc,
            wrong: None,
        };
        asker.asks();
        asker.wrong
    }
}

#[test]
fn a_caller_gets_each_errno_whatever_its_size(rt: HostRuntime) {
    // Once more, when out of memory.
    for _ in 0..2 {
        match with_system(&rt, rt.alloc(), ROOMY, Refusals) {
            Err(SysError::Memory) => (),
            Err(error) => panic!(rt; "{error}"),
            Ok(ended) => match ended.answer {
                None => {
                    holds!(rt; ended.free_pages == 256);
                    return;
                }
                Some(wrong) => wanted_memory(&rt, wrong),
            },
        }
    }
    panic!(rt; "no memory");
}

/// Nothing was wrong but that a call was out of memory.
fn wanted_memory(rt: &impl Abort, wrong: Wrong) {
    let Wrong { id, len, answered } = wrong;
    if !matches!(answered, Err(Errno::ENOMEM)) {
        panic!(rt; "{id}, {len}: {answered:?}");
    }
}
