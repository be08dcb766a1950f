//! A slot whose queues are made and removed under concurrent users, and one under contention.

use crate::calls::{Nothing, queue, receive, remove, send};
use crate::is_same;
use crate::watch::in_time;
use mq::{
    Caller, ClosedSlot, Config, Ended, Errno, Event, Id, Names, Seat, SendFlags, System, Worker,
    WorkersError, with_workers,
};
use std::alloc::{AllocError, Global};
use std::hint::spin_loop;
use std::process::Abort;
use std::sync::Wait;
use std::sync::atomic::{AtomicU32, Ordering};
use std::thread::Threads;
use std::time::Clock;

/// One slot for ten queues.
const ONE: Config = Config {
    height: 2,
    slots: 1,
    seats: 4,
    last_seq: 9,
};

/// How often a sender tries an id, and how often the maker polls for a message.
const TRIES: u32 = 100_000_000;

const LOOKS: u32 = 1000;

/// How many messages each worker sends or receives, and how many are pending before the first is
/// received: so many that a worker that fails to acquire the slot's lock backs off for long.
const PASSED: u32 = 2000;

const PLENTY: u64 = 64;

/// How often the worker that removes a queue under a receiver polls it before, which takes some
/// milliseconds: the receiver is parked by then, and the next queue has its message before it
/// checks again.
const LONG: u32 = 500_000;

/// What a worker does.
#[derive(Clone, Copy, Drop)]
enum Part<'a> {
    /// Makes and removes ten queues, each once it has seen a message in it, or has polled often.
    Makes,
    /// Sends empty texts to each of the ten until it is removed.
    Sends,
    /// Waits for a message of type 5 in the first queue, and says before that it is there.
    Waits(&'a AtomicU32),
    /// Once that is said, removes the queue, makes another in its slot and sends type 5 to it.
    MakesAgain(&'a AtomicU32),
    /// Sends `PASSED` empty texts.
    Passes,
    /// Once `PLENTY` are pending, receives as many.
    Takes,
}

/// How many messages a worker sent, and the sum of their entries.
type Done = Result<(u64, u64), Errno>;

fn makes<N: Names, R: Wait>(rt: &R, system: &System<Nothing, N>, seat: &mut Seat<N>) -> Done {
    for _queue in 0..10u8 {
        let id = queue(rt, system, seat, 1)?;
        for _look in 0..LOOKS {
            if matches!(system.stat(seat, id), Ok(shown) if shown.qnum > 0) {
                break;
            }
            spin_loop();
        }
        remove(rt, system, seat, id)?;
    }
    Ok((0, 0))
}

/// Sends one empty text, and does not wait.
fn send_one<N: Names, R: Wait>(
    rt: &R,
    system: &System<Nothing, N>,
    seat: &mut Seat<N>,
    id: Id,
) -> Result<u64, Errno> {
    let text = match system.draft(rt, 0) {
        Ok(text) => text,
        Err(error) => return Err(error.errno()),
    };
    match system.msgsnd(rt, seat, id, 1, 0, text, SendFlags { nowait: true }, 2) {
        Ok(entry) => Ok(entry),
        Err(refusal) => {
            let (refused, text) = refusal.into_text();
            system.spend(rt, text);
            Err(refused.errno)
        }
    }
}

fn sends<N: Names, R: Wait>(rt: &R, system: &System<Nothing, N>, seat: &mut Seat<N>) -> Done {
    let mut sent = 0u64;
    let mut entries = 0u64;
    for seq in 0..10u32 {
        for _try in 0..TRIES {
            match send_one(rt, system, seat, Id::of(0, seq)) {
                Ok(entry) => {
                    sent = sent.wrapping_add(1);
                    entries = entries.wrapping_add(entry);
                }
                Err(Errno::EIDRM) => break,
                Err(Errno::EINVAL | Errno::EAGAIN | Errno::ENOMEM) => spin_loop(),
                Err(errno) => return Err(errno),
            }
        }
    }
    Ok((sent, entries))
}

fn waits<N: Names, R: Wait>(
    rt: &R,
    system: &System<Nothing, N>,
    seat: &mut Seat<N>,
    ready: &AtomicU32,
) -> Done {
    let first = queue(rt, system, seat, 1);
    ready.store(1, Ordering::SeqCst);
    let (_, length) = receive(rt, system, seat, first?, 10, 5)?;
    Ok((1, length))
}

fn makes_again<N: Names, R: Wait>(
    rt: &R,
    system: &System<Nothing, N>,
    seat: &mut Seat<N>,
    ready: &AtomicU32,
) -> Done {
    for _ in rt.forever() {
        if ready.load(Ordering::SeqCst) == 1 {
            break;
        }
        spin_loop();
    }
    let first = queue(rt, system, seat, 1)?;
    for _look in 0..LONG {
        let _shown = system.stat(seat, first);
    }
    remove(rt, system, seat, first)?;
    let second = queue(rt, system, seat, 1)?;
    send(rt, system, seat, second, 5, 3)?;
    Ok((u64::from(second.seq()), 3))
}

fn passes<N: Names, R: Wait>(rt: &R, system: &System<Nothing, N>, seat: &mut Seat<N>) -> Done {
    let id = queue(rt, system, seat, 1)?;
    for _text in 0..PASSED {
        send(rt, system, seat, id, 1, 0)?;
    }
    Ok((0, 0))
}

fn takes<N: Names, R: Wait>(rt: &R, system: &System<Nothing, N>, seat: &mut Seat<N>) -> Done {
    let id = queue(rt, system, seat, 1)?;
    for _ in rt.forever() {
        if system.stat(seat, id)?.qnum >= PLENTY {
            break;
        }
        spin_loop();
    }
    for _text in 0..PASSED {
        receive(rt, system, seat, id, 0, 0)?;
    }
    Ok((0, 0))
}

impl<'a> Worker<Nothing> for Part<'a> {
    type Answer = Done;

    fn work<N: Names, R: Wait + Clock>(self, caller: &mut Caller<'_, Nothing, N, R>) -> Done {
        let (rt, system) = (caller.rt, caller.system);
        let seat = &mut caller.seat;
        match self {
            Part::Makes => makes(rt, system, seat),
            Part::Sends => sends(rt, system, seat),
            Part::Waits(ready) => waits(rt, system, seat, ready),
            Part::MakesAgain(ready) => makes_again(rt, system, seat, ready),
            Part::Passes => passes(rt, system, seat),
            Part::Takes => takes(rt, system, seat),
        }
    }
}

/// Plays the parts, once more where no thread had begun for lack of memory.
fn played<R: Threads + Wait + Clock + Sync>(
    rt: &R,
    alloc: Global,
    parts: &[Part<'_>],
) -> Result<Ended<Vec<Done>>, WorkersError> {
    for _ in 0..2 {
        let Ok(copied) = parts.to_vec(alloc) else {
            continue;
        };
        match with_workers(rt, alloc, ONE, copied) {
            Err(WorkersError::Memory | WorkersError::Thread) => (),
            ended => return ended,
        }
    }
    Err(WorkersError::Memory)
}

/// Plays the parts. Where they do not end in time, the test fails with this text.
fn ended<R: Abort + Threads + Wait + Clock + Sync>(
    rt: &R,
    alloc: Global,
    what: &str,
    parts: &[Part<'_>],
) -> Ended<Vec<Done>> {
    match in_time(rt, what, || played(rt, alloc, parts)) {
        Ok(ended) => ended,
        Err(error) => panic!(rt; "{error}"),
    }
}

/// How many messages the seat sent by the slot list, and the sum of their entries.
fn sent_by(slot: &ClosedSlot, by: u16) -> (u64, u64) {
    let mut sent = 0u64;
    let mut entries = 0u64;
    let mut entry = 0u64;
    for event in slot.past.iter() {
        if matches!(event, Event::Sent { seat, .. } if *seat == by) {
            sent = sent.wrapping_add(1);
            entries = entries.wrapping_add(entry);
        }
        entry = entry.wrapping_add(1);
    }
    (sent, entries)
}

/// Checks that what each sender says is what the slot lists. How many messages were sent.
fn all_sent(rt: &impl Abort, slot: &ClosedSlot, answers: &[Done]) -> u64 {
    let mut all = 0u64;
    let mut seat = 1u16;
    for done in answers {
        let told = sent_by(slot, seat);
        assert!(rt; *done == Ok(told), "seat {seat}");
        all = all.wrapping_add(told.0);
        seat = seat.wrapping_add(1);
    }
    all
}

/// Checks so many entries of the queues before and of the last, so many messages left, and all
/// pages free.
fn leaves(rt: &impl Abort, ended: &Ended<Vec<Done>>, past: u64, last: u64, left: u64) {
    let Some(slot) = ended.slots.first() else {
        panic!(rt; "no slot");
    };
    is_same(rt, slot.past.len() as u64, past, "entries before");
    is_same(rt, slot.last.len() as u64, last, "last entries");
    is_same(rt, slot.left, left, "messages left");
    is_same(rt, u64::from(ended.free_pages), 4, "free pages");
}

#[test]
fn ten_queues_come_and_go_under_three_senders(rt: HostRuntime) {
    let parts = [Part::Makes, Part::Sends, Part::Sends, Part::Sends];
    let ended = ended(&rt, rt.alloc(), "queues come and go", &parts);
    let Some(slot) = ended.slots.first() else {
        panic!(rt; "no slot");
    };
    let sent = all_sent(&rt, slot, ended.answer.as_slice());
    leaves(&rt, &ended, sent.wrapping_add(20), 0, 0);
}

#[test]
fn a_wait_in_a_removed_queue_does_not_get_the_next_ones_message(rt: HostRuntime) {
    let ready = AtomicU32::new(0);
    let parts = [Part::Waits(&ready), Part::MakesAgain(&ready)];
    let ended = ended(&rt, rt.alloc(), "a removal wakes a receiver", &parts);
    let answers = [Err(Errno::EIDRM), Ok((1, 3))];
    holds!(rt; ended.answer.as_slice() == answers.as_slice());
    leaves(&rt, &ended, 2, 2, 1);
}

#[test]
fn plenty_passes_through_a_queue_between_four_threads(rt: HostRuntime) {
    let parts = [Part::Passes, Part::Takes, Part::Passes, Part::Takes];
    let ended = ended(&rt, rt.alloc(), "all are sent and received", &parts);
    let answers = [Ok((0, 0)); 4];
    holds!(rt; ended.answer.as_slice() == answers.as_slice());
    // The making, and a sending and a receipt of each.
    leaves(&rt, &ended, 0, 1 + 4 * u64::from(PASSED), 0);
}
