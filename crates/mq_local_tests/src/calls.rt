//! The calls of a system, each made once more where there was no memory. Seat 1 makes, sends, sets
//! and removes, and seat 2 receives.

use crate::holds;
use crate::system::Calls;
use mq_arena::Homecoming;
use mq_calls::{Delivered, DraftError, Errno, GetFlags, Got, Refused, Removal, SendRefused};
use mq_table::{Cut, Id};
use std::process::Abort;

pub(crate) const NO_FLAG: GetFlags = GetFlags {
    create: false,
    exclusive: false,
};

pub(crate) const CREATE: GetFlags = GetFlags {
    create: true,
    exclusive: false,
};

pub(crate) const NEW: GetFlags = GetFlags {
    create: true,
    exclusive: true,
};

/// What a receiver asks for.
#[derive(Clone, Copy)]
pub(crate) struct Wanted {
    pub(crate) size: u64,
    pub(crate) msgtyp: i64,
    pub(crate) except: bool,
    pub(crate) noerror: bool,
}

/// The first message, up to so many bytes.
pub(crate) fn first(size: u64) -> Wanted {
    Wanted {
        size,
        msgtyp: 0,
        except: false,
        noerror: false,
    }
}

pub(crate) fn get<S: Calls>(
    system: &mut S,
    key: i32,
    flags: GetFlags,
    moment: u64,
) -> Result<Got, Errno> {
    match system.msgget(1, key, flags, moment) {
        Err(Errno::ENOMEM) => system.msgget(1, key, flags, moment),
        answer => answer,
    }
}

/// A text that is sent by seat 1, with the tag 7.
pub(crate) fn send<S: Calls>(
    system: &mut S,
    id: u32,
    mtype: i64,
    text: S::Text,
    moment: u64,
) -> Result<u64, SendRefused<S::Text>> {
    let id = Id::from_number(id);
    match system.msgsnd(1, id, mtype, 7, text, moment) {
        Err(
            SendRefused {
                refused: Refused {
                    errno: Errno::ENOMEM,
                    ..
                },
                text,
            },
        ) => system.msgsnd(1, id, mtype, 7, text, moment),
        answer => answer,
    }
}

fn received_once<S: Calls>(
    system: &mut S,
    id: u32,
    wanted: Wanted,
    moment: u64,
) -> Result<Delivered<S::Text>, Refused> {
    let Wanted {
        size,
        msgtyp,
        except,
        noerror,
    } = wanted;
    system.msgrcv(
        2,
        Id::from_number(id),
        size,
        msgtyp,
        except,
        noerror,
        moment,
    )
}

fn no_memory<T>(answer: &Result<T, Refused>) -> bool {
    match answer {
        Ok(_) => false,
        Err(refused) => refused.errno == Errno::ENOMEM,
    }
}

/// What seat 2 receives.
pub(crate) fn receive<S: Calls>(
    system: &mut S,
    id: u32,
    wanted: Wanted,
    moment: u64,
) -> Result<Delivered<S::Text>, Refused> {
    match received_once(system, id, wanted, moment) {
        Err(
            Refused {
                errno: Errno::ENOMEM,
                ..
            },
        ) => received_once(system, id, wanted, moment),
        answer => answer,
    }
}

pub(crate) fn set<S: Calls>(
    system: &mut S,
    id: u32,
    qbytes: u64,
    moment: u64,
) -> Result<u64, Refused> {
    let answer = system.set(1, Id::from_number(id), qbytes, moment);
    if no_memory(&answer) {
        return system.set(1, Id::from_number(id), qbytes, moment);
    }
    answer
}

pub(crate) fn remove<S: Calls>(system: &mut S, id: u32, moment: u64) -> Result<Removal, Refused> {
    let answer = system.rmid(1, Id::from_number(id), moment);
    if no_memory(&answer) {
        return system.rmid(1, Id::from_number(id), moment);
    }
    answer
}

/// How many entries there are up to the end of a drain.
fn end_of(cut: &Cut) -> u64 {
    let entries = (cut.past.len() as u64).saturating_add(cut.last.len() as u64);
    cut.first.saturating_add(entries)
}

/// A drain is out of memory, and the refusal has the number of all entries.
fn is_refusal_of(rt: &impl Abort, refused: Refused, cut: &Cut) {
    holds(rt, refused.errno == Errno::ENOMEM, "a cut is refused");
    let entries = refused.entry;
    holds(
        rt,
        entries == Some(end_of(cut)),
        "a refused cut tells other entries",
    );
}

/// What is drained of a slot. Where that is refused at first, the refusal has the number of all
/// entries.
pub(crate) fn cut<S: Calls>(rt: &impl Abort, system: &mut S, slot: u8) -> Cut {
    let refused = match system.cut_log(rt, slot) {
        Ok(cut) => return cut,
        Err(refused) => refused,
    };
    match system.cut_log(rt, slot) {
        Ok(cut) => {
            is_refusal_of(rt, refused, &cut);
            cut
        }
        Err(_) => panic!(rt; "a cut is refused twice"),
    }
}

/// A text of so many zero bytes. Where there is no memory for it at first, all pages are left.
pub(crate) fn drafted<S: Calls>(rt: &impl Abort, system: &mut S, length: u64) -> S::Text {
    let (free, largest) = (system.free_pages(), system.largest());
    match system.draft(length) {
        Ok(text) => return text,
        Err(refusal) => holds(rt, refusal == DraftError::Memory, "not drafted"),
    }
    holds(rt, system.free_pages() == free, "a page is taken");
    holds(rt, system.largest() == largest, "another order fits");
    match system.draft(length) {
        Ok(text) => text,
        Err(_) => panic!(rt; "not drafted twice"),
    }
}

/// A short text of these bytes, which allocates no memory.
pub(crate) fn written<S: Calls>(rt: &impl Abort, system: &mut S, bytes: &[u8]) -> S::Text {
    match system.draft_of(bytes) {
        Ok(text) => {
            let length = system.shape(&text).len;
            holds(
                rt,
                length == bytes.len() as u64,
                "another length is drafted",
            );
            text
        }
        Err(_) => panic!(rt; "not drafted"),
    }
}

/// Sends a text that must be taken.
pub(crate) fn taken<S: Calls>(
    rt: &impl Abort,
    system: &mut S,
    id: u32,
    mtype: i64,
    text: S::Text,
) -> u64 {
    match send(system, id, mtype, text, 5) {
        Ok(entry) => entry,
        Err(
            SendRefused {
                refused: _,
                text: _text,
            },
        ) => panic!(rt; "not taken"),
    }
}

/// Receives a message that must be there.
pub(crate) fn delivered<S: Calls>(
    rt: &impl Abort,
    system: &mut S,
    id: u32,
    wanted: Wanted,
) -> Delivered<S::Text> {
    match receive(system, id, wanted, 6) {
        Ok(delivered) => delivered,
        Err(_) => panic!(rt; "not received"),
    }
}

/// Spends a text that is the system's own.
pub(crate) fn spent<S: Calls>(rt: &impl Abort, system: &mut S, text: S::Text) {
    let home = system.spend(text) == Homecoming::Home;
    holds(rt, home, "a text does not come home");
}
