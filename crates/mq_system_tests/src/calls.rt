//! The calls of a system, each made once more where there was no memory. Seat 1 makes, sends, sets
//! and removes, and seat 2 receives and drains.

use crate::holds;
use crate::system::Calls;
use mq_system::{
    Delivered, DraftError, Errno, GetFlags, Got, RecvFlags, Refused, Removal, SendFlags,
    SendRefused,
};
use mq_table::{Cut, Id};
use std::process::Abort;
use std::sync::Wait;

pub(crate) const NO_FLAG: GetFlags = GetFlags {
    create: false,
    exclusive: false,
};

pub(crate) const CREATE: GetFlags = GetFlags {
    create: true,
    exclusive: false,
};

pub(crate) const EXCLUSIVE: GetFlags = GetFlags {
    create: false,
    exclusive: true,
};

pub(crate) const NEW: GetFlags = GetFlags {
    create: true,
    exclusive: true,
};

/// The tag of all that is sent.
pub(crate) const TAG: u64 = 7;

const NOWAIT: SendFlags = SendFlags { nowait: true };

/// What a receiver asks for.
#[derive(Clone, Copy)]
pub(crate) struct Wanted {
    pub(crate) size: u64,
    pub(crate) msgtyp: i64,
    pub(crate) except: bool,
    pub(crate) noerror: bool,
    /// Whether nothing is waited for.
    pub(crate) nowait: bool,
}

impl Wanted {
    pub(crate) fn flags(&self) -> RecvFlags {
        RecvFlags {
            nowait: self.nowait,
            noerror: self.noerror,
            except: self.except,
        }
    }
}

/// The first message, up to so many bytes, of those that are there.
pub(crate) fn first(size: u64) -> Wanted {
    Wanted {
        size,
        msgtyp: 0,
        except: false,
        noerror: false,
        nowait: true,
    }
}

pub(crate) fn seat<'s, T>(rt: &impl Abort, seats: &'s mut [T], k: usize) -> &'s mut T {
    match seats.get_mut(k) {
        Some(seat) => seat,
        None => panic!(rt; "there is no seat {k}"),
    }
}

pub(crate) fn get<S: Calls, R: Abort + Wait>(
    rt: &R,
    system: &S,
    seats: &mut [S::Seat],
    key: i32,
    flags: GetFlags,
    moment: u64,
) -> Result<Got, Errno> {
    let seat = seat(rt, seats, 0);
    match system.msgget(rt, seat, key, flags, moment) {
        Err(Errno::ENOMEM) => system.msgget(rt, seat, key, flags, moment),
        answer => answer,
    }
}

pub(crate) fn draft<S: Calls, R: Wait>(
    rt: &R,
    system: &S,
    len: u64,
) -> Result<S::Text, DraftError> {
    match system.draft(rt, len) {
        Err(DraftError::Memory) => system.draft(rt, len),
        answer => answer,
    }
}

pub(crate) fn send<S: Calls, R: Abort + Wait>(
    rt: &R,
    system: &S,
    seats: &mut [S::Seat],
    id: u32,
    mtype: i64,
    text: S::Text,
    moment: u64,
) -> Result<u64, SendRefused<S::Text>> {
    let seat = seat(rt, seats, 0);
    let id = Id::from_number(id);
    match system.msgsnd(rt, seat, id, mtype, TAG, text, NOWAIT, moment) {
        Err(
            SendRefused {
                refused: Refused {
                    errno: Errno::ENOMEM,
                    ..
                },
                text,
            },
        ) => system.msgsnd(rt, seat, id, mtype, TAG, text, NOWAIT, moment),
        answer => answer,
    }
}

pub(crate) fn receive<S: Calls, R: Abort + Wait>(
    rt: &R,
    system: &S,
    seats: &mut [S::Seat],
    id: u32,
    wanted: Wanted,
    moment: u64,
) -> Result<Delivered<S::Text>, Refused> {
    let seat = seat(rt, seats, 1);
    let id = Id::from_number(id);
    let flags = wanted.flags();
    match system.msgrcv(rt, seat, id, wanted.size, wanted.msgtyp, flags, moment) {
        Err(
            Refused {
                errno: Errno::ENOMEM,
                ..
            },
        ) => system.msgrcv(rt, seat, id, wanted.size, wanted.msgtyp, flags, moment),
        answer => answer,
    }
}

/// Nothing is received, for this reason, after so many entries.
pub(crate) fn refused<S: Calls, R: Abort + Wait>(
    rt: &R,
    system: &S,
    seats: &mut [S::Seat],
    errno: Errno,
    entries: u64,
) {
    match receive(rt, system, seats, 0, first(9), 5) {
        Ok(_delivered) => panic!(rt; "a message is received"),
        Err(refused) => is(rt, refused, errno, Some(entries)),
    }
}

/// A call was refused for this, after so many entries.
pub(crate) fn is(rt: &impl Abort, refused: Refused, errno: Errno, entries: Option<u64>) {
    holds(rt, refused.errno == errno, "why a call is refused");
    holds(rt, refused.entry == entries, "after so many entries");
}

pub(crate) fn set<S: Calls, R: Abort + Wait>(
    rt: &R,
    system: &S,
    seats: &mut [S::Seat],
    id: u32,
    qbytes: u64,
    moment: u64,
) -> Result<u64, Refused> {
    let seat = seat(rt, seats, 0);
    let id = Id::from_number(id);
    match system.set(rt, seat, id, qbytes, moment) {
        Err(
            Refused {
                errno: Errno::ENOMEM,
                ..
            },
        ) => system.set(rt, seat, id, qbytes, moment),
        answer => answer,
    }
}

pub(crate) fn remove<S: Calls, R: Abort + Wait>(
    rt: &R,
    system: &S,
    seats: &mut [S::Seat],
    id: u32,
    moment: u64,
) -> Result<Removal, Refused> {
    let seat = seat(rt, seats, 0);
    let id = Id::from_number(id);
    match system.rmid(rt, seat, id, moment) {
        Err(
            Refused {
                errno: Errno::ENOMEM,
                ..
            },
        ) => system.rmid(rt, seat, id, moment),
        answer => answer,
    }
}

/// How many entries there are up to the end of a drain.
fn end_of(cut: &Cut) -> u64 {
    let entries = (cut.past.len() as u64).saturating_add(cut.last.len() as u64);
    cut.first.saturating_add(entries)
}

/// What is drained of a slot. Where that is refused at first, the refusal has the number of all
/// entries.
pub(crate) fn cut<S: Calls, R: Abort + Wait>(
    rt: &R,
    system: &S,
    seats: &mut [S::Seat],
    slot: u8,
) -> Cut {
    let seat = seat(rt, seats, 1);
    match system.cut_log(rt, seat, slot) {
        Ok(cut) => cut,
        Err(refused) => match system.cut_log(rt, seat, slot) {
            Ok(cut) => {
                is(rt, refused, Errno::ENOMEM, Some(end_of(&cut)));
                cut
            }
            Err(refused) => panic!(rt; "a cut is refused twice: {refused}"),
        },
    }
}

/// It is the first drain of a slot, in which no queue was removed.
pub(crate) fn is_first(rt: &impl Abort, cut: &Cut) {
    holds(rt, cut.first == 0 && cut.made == 0, "nothing was before");
    holds(rt, cut.base.is_none(), "nothing waited before");
    holds(rt, cut.past.is_empty(), "no queue was removed");
}

/// It is a drain behind another one, of a queue that is there. So many entries were before, of
/// which one message is pending, and nothing happened since.
pub(crate) fn is_second(rt: &impl Abort, cut: &Cut, entries: u64) {
    holds(
        rt,
        cut.first == entries && cut.made == 1,
        "behind another cut",
    );
    holds(rt, cut.last.is_empty(), "nothing twice");
    match &cut.base {
        Some(base) => {
            holds(rt, base.places == entries, "what was before");
            holds(rt, base.waiting.len() == 1, "what waits");
        }
        None => panic!(rt; "nothing is known of the queue that is there"),
    }
}

/// So many changes are of the seat's own calls in slot 0.
pub(crate) fn counts<S: Calls, R: Abort>(rt: &R, system: &S, seat: &S::Seat, changes: u64) {
    holds(
        rt,
        system.count(rt, seat, 0) == changes,
        "what a seat counts",
    );
}
