//! The calls of a worker, each made once more where it found no memory.

use mq::{
    Delivered, DraftError, Ended, Errno, GetFlags, Id, Names, Pledge, RecvFlags, Seat, SendFlags,
    SendRefused, System, TextOf, WorkersError,
};
use std::process::Abort;
use std::sync::Wait;

/// Nothing is pledged.
pub(crate) struct Nothing;

impl Pledge for Nothing {
    ghost kept = { λ _ _ _ _. Unit {0} };
}

/// The queue with this key, made where it is not there.
pub(crate) fn queue<N: Names, R: Wait>(
    rt: &R,
    system: &System<Nothing, N>,
    seat: &mut Seat<N>,
    key: i32,
) -> Result<Id, Errno> {
    let flags = GetFlags {
        create: true,
        exclusive: false,
    };
    match system.msgget(rt, seat, key, flags, 1) {
        Ok(got) => Ok(got.id),
        Err(Errno::ENOMEM) => Ok(system.msgget(rt, seat, key, flags, 1)?.id),
        Err(errno) => Err(errno),
    }
}

fn draft<N: Names, R: Wait>(
    rt: &R,
    system: &System<Nothing, N>,
    len: u64,
) -> Result<TextOf<N>, DraftError> {
    match system.draft(rt, len) {
        Err(DraftError::Memory) => system.draft(rt, len),
        drafted => drafted,
    }
}

/// Sends so many bytes, and waits for room.
pub(crate) fn send<N: Names, R: Wait>(
    rt: &R,
    system: &System<Nothing, N>,
    seat: &mut Seat<N>,
    id: Id,
    mtype: i64,
    len: u64,
) -> Result<(), Errno> {
    let mut text = match draft(rt, system, len) {
        Ok(text) => text,
        Err(error) => return Err(error.errno()),
    };
    let flags = SendFlags { nowait: false };
    for _ in 0..2 {
        match system.msgsnd(rt, seat, id, mtype, 0, text, flags, 2) {
            Ok(_) => return Ok(()),
            Err(refusal) => {
                let SendRefused {
                    refused,
                    text: again,
                } = refusal;
                text = again;
                if refused.errno != Errno::ENOMEM {
                    system.spend(rt, text);
                    return Err(refused.errno);
                }
            }
        }
    }
    system.spend(rt, text);
    Err(Errno::ENOMEM)
}

/// Receives a message of up to `size` bytes, and waits for one; answers its type and length.
pub(crate) fn receive<N: Names, R: Wait>(
    rt: &R,
    system: &System<Nothing, N>,
    seat: &mut Seat<N>,
    id: Id,
    size: u64,
    msgtyp: i64,
) -> Result<(i64, u64), Errno> {
    let flags = RecvFlags {
        nowait: false,
        noerror: false,
        except: false,
    };
    let received = match system.msgrcv(rt, seat, id, size, msgtyp, flags, 3) {
        Ok(received) => received,
        Err(refused) if refused.errno == Errno::ENOMEM => {
            match system.msgrcv(rt, seat, id, size, msgtyp, flags, 3) {
                Ok(received) => received,
                Err(refused) => return Err(refused.errno),
            }
        }
        Err(refused) => return Err(refused.errno),
    };
    let Delivered {
        entry: _,
        mtype,
        sender: _,
        tag: _,
        length,
        text,
    } = received;
    system.spend(rt, text);
    Ok((mtype, length))
}

/// Sets the quota.
pub(crate) fn set<N: Names, R: Wait>(
    rt: &R,
    system: &System<Nothing, N>,
    seat: &mut Seat<N>,
    id: Id,
    qbytes: u64,
) -> Result<(), Errno> {
    for _ in 0..2 {
        match system.set(rt, seat, id, qbytes, 4) {
            Ok(_) => return Ok(()),
            Err(refused) if refused.errno != Errno::ENOMEM => return Err(refused.errno),
            Err(_) => (),
        }
    }
    Err(Errno::ENOMEM)
}

/// Removes the queue.
pub(crate) fn remove<N: Names, R: Wait>(
    rt: &R,
    system: &System<Nothing, N>,
    seat: &mut Seat<N>,
    id: Id,
) -> Result<(), Errno> {
    for _ in 0..2 {
        match system.rmid(rt, seat, id, 5) {
            Ok(_) => return Ok(()),
            Err(refused) if refused.errno != Errno::ENOMEM => return Err(refused.errno),
            Err(_) => (),
        }
    }
    Err(Errno::ENOMEM)
}

/// What has ended, with so many pages free.
pub(crate) fn ended_of<T: Drop, R: Abort>(
    rt: &R,
    ended: Result<Ended<T>, WorkersError>,
    pages: u32,
) -> Ended<T> {
    match ended {
        Ok(ended) => {
            holds!(rt; ended.free_pages == pages, "a page is out");
            ended
        }
        Err(WorkersError::Memory | WorkersError::Thread) => panic!(rt; "out of memory"),
        Err(_) => panic!(rt; "no system"),
    }
}
