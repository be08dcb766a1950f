//! Two seats drain one slot's log in turns while two others send and receive, and remove the queue
//! and make it anew.

use crate::joined::{Flaw, join};
use crate::runs::{SMALL, Worked, ended_of, wanted_memory, work_all};
use crate::seat_calls::{By, SeatCalls, Work, queue, send};
use mq::{Config, Cut, Ended, Errno, Id, WorkersError};
use std::alloc::{AllocError, Global};
use std::hint::spin_loop;
use std::sync::Wait;
use std::sync::atomic::{AtomicU64, Ordering};
use std::thread::Threads;
use std::time::Clock;

/// How many queues there are, one after another, and how many texts go through each.
const QUEUES: u64 = 3;

const TEXTS: u64 = 100;

const SIZE: Config = Config {
    slots: 1,
    seats: 4,
    ..SMALL
};

/// What the four threads share.
#[derive(Drop)]
struct Shared {
    /// Which of the two drains next.
    turn: AtomicU64,
    /// How many texts were received.
    received: AtomicU64,
    /// Not 0 once all is sent and received, or somebody has given up.
    over: AtomicU64,
}

#[derive(Drop)]
enum Role<'a> {
    Send(&'a Shared),
    Receive(&'a Shared),
    Cut(&'a Shared, u64),
}

/// Waits until so many texts were received, or all is over.
fn await_received<R: Wait>(rt: &R, shared: &Shared, count: u64) {
    for _ in rt.forever() {
        let received = shared.received.load(Ordering::SeqCst);
        if received >= count || shared.over.load(Ordering::SeqCst) != 0 {
            return;
        }
        spin_loop();
    }
}

/// Removes the queue, at the second try where there was no memory.
fn remove<C: SeatCalls>(calls: &mut C, id: Id) -> Result<(), Errno> {
    for _ in 0..2 {
        match calls.remove(id) {
            Ok(_) => return Ok(()),
            Err(Errno::ENOMEM) => (),
            Err(errno) => return Err(errno),
        }
    }
    Err(Errno::ENOMEM)
}

fn sends<C: SeatCalls, R: Wait>(rt: &R, calls: &mut C, shared: &Shared) -> Result<(), Errno> {
    let mut sent = 0u64;
    for round in 0..QUEUES {
        let id = queue(calls, 7)?;
        for tag in 0..TEXTS {
            send(calls, id, 3, tag, b"")?;
            sent = sent.saturating_add(1);
        }
        await_received(rt, shared, sent);
        if round + 1 < QUEUES {
            remove(calls, id)?;
        }
    }
    Ok(())
}

fn receives<C: SeatCalls, R: Wait>(rt: &R, calls: &mut C, shared: &Shared) -> Result<(), Errno> {
    for _ in rt.forever() {
        let received = shared.received.load(Ordering::SeqCst);
        if received >= QUEUES * TEXTS || shared.over.load(Ordering::SeqCst) != 0 {
            return Ok(());
        }
        let id = queue(calls, 7)?;
        match calls.receive(id, 9, 0) {
            Ok(_) => {
                shared.received.fetch_add(1, Ordering::SeqCst);
            }
            // The queue was removed, or there was no memory.
            Err(Errno::EIDRM | Errno::EINVAL | Errno::ENOMEM) => (),
            Err(errno) => return Err(errno),
        }
    }
    Ok(())
}

/// Drains the log in its turns, each time that a text more was received, and once at the end.
fn cuts<C: SeatCalls, R: Wait>(
    rt: &R,
    alloc: Global,
    calls: &mut C,
    shared: &Shared,
    own: u64,
) -> Vec<Cut> {
    let mut cuts = Vec::new(alloc);
    for _ in rt.forever() {
        let last = shared.over.load(Ordering::SeqCst) != 0;
        if last || shared.turn.load(Ordering::SeqCst) == own {
            let seen = shared.received.load(Ordering::SeqCst);
            if cuts.reserve(1).is_ok() {
                if let Ok(cut) = calls.cut_log(0) {
                    cuts.push_reserved(cut);
                }
            }
            if last {
                return cuts;
            }
            await_received(rt, shared, seen.saturating_add(1));
            shared.turn.store(own ^ 1, Ordering::SeqCst);
        }
        spin_loop();
    }
    cuts
}

/// Signals to the others that all is over, where it is.
fn ends<C: SeatCalls>(calls: &mut C, shared: &Shared, done: Result<(), Errno>) {
    if done.is_err() {
        // A removal wakes the waiters.
        if let Ok(id) = queue(calls, 7) {
            let _ = calls.remove(id);
        }
        shared.over.store(1, Ordering::SeqCst);
    } else if shared.received.load(Ordering::SeqCst) >= QUEUES * TEXTS {
        shared.over.store(1, Ordering::SeqCst);
    }
}

impl<'a> Work for Role<'a> {
    type Answer = Result<Vec<Cut>, Errno>;

    fn work<C: SeatCalls, R: Wait>(
        self,
        rt: &R,
        alloc: Global,
        calls: &mut C,
    ) -> Result<Vec<Cut>, Errno> {
        let (shared, done) = match self {
            Role::Send(shared) => (shared, sends(rt, calls, shared)),
            Role::Receive(shared) => (shared, receives(rt, calls, shared)),
            Role::Cut(shared, own) => return Ok(cuts(rt, alloc, calls, shared, own)),
        };
        ends(calls, shared, done);
        match done {
            Ok(()) => Ok(Vec::new(alloc)),
            Err(errno) => Err(errno),
        }
    }
}

fn roles(alloc: Global, shared: &Shared) -> Result<Vec<By<Role<'_>>>, AllocError> {
    let mut roles = Vec::new(alloc);
    for role in [
        Role::Cut(shared, 0),
        Role::Send(shared),
        Role::Receive(shared),
        Role::Cut(shared, 1),
    ] {
        roles.push(By(role))?;
    }
    Ok(roles)
}

/// Runs the four, and once more where none has begun for lack of memory.
fn worked<R: Threads + Wait + Clock + Sync>(
    rt: &R,
    alloc: Global,
    shared: &Shared,
) -> Worked<Vec<Result<Vec<Cut>, Errno>>> {
    for _ in 0..2 {
        let Ok(roles) = roles(alloc, shared) else {
            continue;
        };
        let worked = work_all(rt, alloc, SIZE, roles);
        if !wanted_memory(&worked) {
            return worked;
        }
    }
    Err(WorkersError::Memory)
}

/// What the four drained, joined with what was kept: so many texts in so many queues.
fn checked(alloc: Global, ended: Ended<Vec<Result<Vec<Cut>, Errno>>>) -> Result<(), Flaw> {
    let handed = handed_of(alloc, ended.answer)?;
    let Some(slot) = ended.slots.first() else {
        return Err(Flaw::Gap(0));
    };
    let counts = join(alloc, handed.as_slice(), slot)?;
    if counts.0 == QUEUES && counts.1 == QUEUES * TEXTS && counts.2 == QUEUES * TEXTS {
        Ok(())
    } else {
        Err(Flaw::Counts(counts))
    }
}

/// What the calls of each of them returned.
fn handed_of(alloc: Global, answers: Vec<Result<Vec<Cut>, Errno>>) -> Result<Vec<Vec<Cut>>, Flaw> {
    let mut handed = Vec::new(alloc);
    for answer in answers {
        match answer {
            Ok(cuts) => {
                if handed.push(cuts).is_err() {
                    return Err(Flaw::Memory);
                }
            }
            Err(errno) => return Err(Flaw::Call(errno)),
        }
    }
    Ok(handed)
}

#[test]
fn two_cutters_leave_no_gap(rt: HostRuntime) {
    let shared = Shared {
        turn: AtomicU64::new(0),
        received: AtomicU64::new(0),
        over: AtomicU64::new(0),
    };
    let ended = ended_of(&rt, worked(&rt, rt.alloc(), &shared));
    if let Err(flaw) = checked(rt.alloc(), ended) {
        panic!(rt; "{flaw:?}");
    }
}
