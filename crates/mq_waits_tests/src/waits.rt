//! Which change wakes which waiter: each test names the wake without which it does not end, and
//! fails with this name where it is lost. Workers report their progress to one another by messages
//! on a queue of their own. The worker that makes the change polls the queue for a while first, so
//! that all waiters are parked by then. The queue is not in the first slot.

use crate::calls::{Nothing, queue, receive, remove, send, set};
use crate::is_same;
use crate::watch::in_time;
use mq::{
    Caller, Config, Ended, Errno, Id, MSGMNB, Names, Seat, System, Worker, WorkersError,
    with_workers,
};
use std::alloc::Global;
use std::process::Abort;
use std::sync::Wait;
use std::thread::Threads;
use std::time::Clock;

const SIZE: Config = Config {
    height: 8,
    slots: 4,
    seats: 7,
    last_seq: 9,
};

/// How often a worker polls the queue before it changes it.
const LOOKS: u32 = 200_000;

/// What a worker does next.
#[derive(Clone, Copy, Drop)]
enum Step {
    /// Says this word, so many times.
    Says(i64, u8),
    /// Waits until this word is said so many times.
    Hears(i64, u8),
    Looks,
    /// Sends a message of this type and so many bytes, and waits for room.
    Sends(i64, u64),
    /// Receives a message of this type, of up to so many bytes, and waits for one.
    Receives(i64, u64),
    /// Waits for a message that has more bytes.
    Misses(u64),
    Sets(u64),
    Removes,
}

use Step::{Hears, Looks, Misses, Receives, Removes, Says, Sends, Sets};

/// What a worker does, step by step.
#[derive(Clone, Copy, Drop)]
struct Part<'a> {
    steps: &'a [Step],
}

/// How many bytes a worker received, or why a call of it was refused.
type Done = Result<u64, Errno>;

/// The two queues, at a seat: the one in which all wait, and the one on which words are said.
#[derive(Drop)]
struct At<'a, N: Names, R: Wait> {
    rt: &'a R,
    seat: &'a mut Seat<N>,
    here: Id,
    said: Id,
}

impl<'a, N: Names, R: Wait> At<'a, N, R> {
    fn says(&mut self, system: &System<Nothing, N>, word: i64, count: u8) -> Done {
        for _ in 0..count {
            send(self.rt, system, self.seat, self.said, word, 0)?;
        }
        Ok(0)
    }

    fn hears(&mut self, system: &System<Nothing, N>, word: i64, count: u8) -> Done {
        for _ in 0..count {
            receive(self.rt, system, self.seat, self.said, 0, word)?;
        }
        Ok(0)
    }

    fn looks(&mut self, system: &System<Nothing, N>) -> Done {
        for _ in 0..LOOKS {
            system.stat(self.seat, self.here)?;
        }
        Ok(0)
    }

    fn misses(&mut self, system: &System<Nothing, N>, size: u64) -> Done {
        match receive(self.rt, system, self.seat, self.here, size, 0) {
            Err(Errno::E2BIG) => Ok(0),
            Err(errno) => Err(errno),
            Ok(_) => Err(Errno::EINVAL),
        }
    }

    fn does(&mut self, system: &System<Nothing, N>, step: Step) -> Done {
        match step {
            Step::Says(word, count) => return self.says(system, word, count),
            Step::Hears(word, count) => return self.hears(system, word, count),
            Step::Looks => return self.looks(system),
            Step::Misses(size) => return self.misses(system, size),
            Step::Sends(mtype, len) => send(self.rt, system, self.seat, self.here, mtype, len)?,
            Step::Sets(qbytes) => set(self.rt, system, self.seat, self.here, qbytes)?,
            Step::Removes => remove(self.rt, system, self.seat, self.here)?,
            Step::Receives(msgtyp, size) => {
                let (_, length) = receive(self.rt, system, self.seat, self.here, size, msgtyp)?;
                return Ok(length);
            }
        }
        Ok(0)
    }

    fn plays(&mut self, system: &System<Nothing, N>, steps: &[Step]) -> Done {
        let mut bytes = 0u64;
        for step in steps {
            bytes = bytes.saturating_add(self.does(system, *step)?);
        }
        Ok(bytes)
    }
}

impl<'a> Worker<Nothing> for Part<'a> {
    type Answer = Done;

    fn work<N: Names, R: Wait + Clock>(self, caller: &mut Caller<'_, Nothing, N, R>) -> Done {
        let (rt, system) = (caller.rt, caller.system);
        let seat = &mut caller.seat;
        let said = queue(rt, system, seat, 1)?;
        let here = queue(rt, system, seat, 2)?;
        let mut at = At {
            rt,
            seat,
            here,
            said,
        };
        at.plays(system, self.steps)
    }
}

/// Plays the parts, once more where no thread had begun for lack of memory.
fn played<R: Threads + Wait + Clock + Sync>(
    rt: &R,
    alloc: Global,
    parts: &[Part<'_>],
) -> Result<Ended<Vec<Done>>, WorkersError> {
    for _ in 0..2 {
        let Ok(copied) = parts.to_vec(alloc) else {
            continue;
        };
        match with_workers(rt, alloc, SIZE, copied) {
            Err(WorkersError::Memory | WorkersError::Thread) => (),
            ended => return ended,
        }
    }
    Err(WorkersError::Memory)
}

/// Plays the parts, which end by this wake, and expects these answers, so many messages left, and
/// all pages free.
fn wakes<R: Abort + Threads + Wait + Clock + Sync>(
    rt: &R,
    alloc: Global,
    wake: &str,
    parts: &[Part<'_>],
    answers: &[Done],
    left: u64,
) {
    match in_time(rt, wake, || played(rt, alloc, parts)) {
        Ok(ended) => {
            holds!(rt; ended.answer.as_slice() == answers, "other answers");
            let is_left = matches!(ended.slots.get(1), Some(slot) if slot.left == left);
            assert!(rt; is_left, "other than {left} messages are left");
            is_same(rt, u64::from(ended.free_pages), 256, "free pages");
        }
        Err(error) => panic!(rt; "{error}"),
    }
}

#[test]
fn a_send_wakes_a_receiver_beside_others_of_another_type(rt: HostRuntime) {
    let first = [Says(1, 1), Receives(1, 9)];
    let second = [Hears(1, 1), Looks, Says(2, 1), Receives(2, 9), Says(5, 1)];
    let third = [Hears(2, 1), Looks, Says(3, 1), Receives(3, 9), Says(4, 1)];
    let sender = [
        Hears(3, 1),
        Looks,
        Sends(3, 5),
        Hears(4, 1),
        Sends(2, 4),
        Hears(5, 1),
        Sends(1, 3),
    ];
    let parts = [
        Part { steps: &first },
        Part { steps: &second },
        Part { steps: &third },
        Part { steps: &sender },
    ];
    let answers = [Ok(3), Ok(4), Ok(5), Ok(0)];
    wakes(
        &rt,
        rt.alloc(),
        "a send wakes all receivers",
        &parts,
        &answers,
        0,
    );
}

#[test]
fn a_woken_receiver_with_too_little_room_leaves_the_message_for_another(rt: HostRuntime) {
    let misses = [Says(1, 1), Misses(1), Says(2, 1)];
    let sender = [
        Hears(1, 1),
        Looks,
        Sends(1, 5),
        Hears(2, 1),
        Receives(0, 10),
    ];
    let parts = [Part { steps: &misses }, Part { steps: &sender }];
    let answers = [Ok(0), Ok(5)];
    wakes(
        &rt,
        rt.alloc(),
        "a send wakes who has no room for it",
        &parts,
        &answers,
        0,
    );
}

#[test]
fn a_receipt_wakes_a_sender_beside_one_whose_text_is_too_long(rt: HostRuntime) {
    let long = [Hears(1, 1), Says(2, 1), Sends(1, 10), Says(5, 1)];
    let short = [Hears(2, 1), Looks, Says(3, 1), Sends(2, 3), Says(4, 1)];
    let receiver = [
        Sets(10),
        Sends(7, 7),
        Sends(3, 3),
        Says(1, 1),
        Hears(3, 1),
        Looks,
        Receives(3, 9),
        Hears(4, 1),
        Receives(7, 9),
        Receives(2, 9),
        Hears(5, 1),
        Receives(1, 10),
    ];
    let parts = [
        Part { steps: &long },
        Part { steps: &short },
        Part { steps: &receiver },
    ];
    let answers = [Ok(0), Ok(0), Ok(23)];
    wakes(
        &rt,
        rt.alloc(),
        "a receipt wakes all senders",
        &parts,
        &answers,
        0,
    );
}

#[test]
fn a_receipt_wakes_all_senders_that_then_have_room(rt: HostRuntime) {
    let sender = [Hears(1, 1), Says(2, 1), Sends(1, 3), Says(3, 1)];
    let receiver = [
        Sets(9),
        Sends(7, 9),
        Says(1, 3),
        Hears(2, 3),
        Looks,
        Receives(7, 9),
        Hears(3, 3),
    ];
    let part = Part { steps: &sender };
    let parts = [part, part, part, Part { steps: &receiver }];
    let answers = [Ok(0), Ok(0), Ok(0), Ok(9)];
    wakes(
        &rt,
        rt.alloc(),
        "a receipt wakes all three senders",
        &parts,
        &answers,
        3,
    );
}

#[test]
fn a_receipt_of_an_empty_message_wakes_a_sender_of_one(rt: HostRuntime) {
    let sender = [Hears(1, 1), Says(2, 1), Sends(1, 0), Says(3, 1)];
    // Of empty messages a quota of one byte has room for one.
    let receiver = [
        Sets(1),
        Sends(7, 0),
        Says(1, 1),
        Hears(2, 1),
        Looks,
        Receives(7, 9),
        Hears(3, 1),
    ];
    let parts = [Part { steps: &sender }, Part { steps: &receiver }];
    let answers = [Ok(0), Ok(0)];
    wakes(
        &rt,
        rt.alloc(),
        "a receipt of an empty message wakes a sender",
        &parts,
        &answers,
        1,
    );
}

/// Three senders wait for room, until the quota is set to this.
fn a_quota_wakes<R: Abort + Threads + Wait + Clock + Sync>(rt: &R, alloc: Global, qbytes: u64) {
    let sender = [Hears(1, 1), Says(2, 1), Sends(1, 3), Says(3, 1)];
    let setter = [
        Sets(2),
        Says(1, 3),
        Hears(2, 3),
        Looks,
        Sets(qbytes),
        Hears(3, 3),
    ];
    let part = Part { steps: &sender };
    let parts = [part, part, part, Part { steps: &setter }];
    let answers = [Ok(0), Ok(0), Ok(0), Ok(0)];
    let wake = "a higher quota wakes all three senders";
    wakes(rt, alloc, wake, &parts, &answers, 3);
}

#[test]
fn a_higher_quota_wakes_all_senders_that_then_have_room(rt: HostRuntime) {
    a_quota_wakes(&rt, rt.alloc(), 9);
}

#[test]
fn a_quota_of_msgmnb_wakes_all_senders_that_then_have_room(rt: HostRuntime) {
    a_quota_wakes(&rt, rt.alloc(), MSGMNB);
}

#[test]
fn a_removal_wakes_all_receivers(rt: HostRuntime) {
    let receiver = [Says(1, 1), Receives(9, 9)];
    let remover = [Hears(1, 3), Looks, Removes];
    let part = Part { steps: &receiver };
    let parts = [part, part, part, Part { steps: &remover }];
    let gone = Err(Errno::EIDRM);
    let answers = [gone, gone, gone, Ok(0)];
    wakes(
        &rt,
        rt.alloc(),
        "a removal wakes all three receivers",
        &parts,
        &answers,
        0,
    );
}

#[test]
fn a_removal_wakes_all_senders(rt: HostRuntime) {
    let sender = [Hears(1, 1), Says(2, 1), Sends(1, 3)];
    let remover = [Sets(2), Says(1, 3), Hears(2, 3), Looks, Removes];
    let part = Part { steps: &sender };
    let parts = [part, part, part, Part { steps: &remover }];
    let gone = Err(Errno::EIDRM);
    let answers = [gone, gone, gone, Ok(0)];
    wakes(
        &rt,
        rt.alloc(),
        "a removal wakes all three senders",
        &parts,
        &answers,
        0,
    );
}

#[test]
fn a_removal_wakes_senders_beside_receivers(rt: HostRuntime) {
    let receiver = [Says(2, 1), Receives(9, 9)];
    let sender = [Hears(1, 1), Says(2, 1), Sends(1, 3)];
    let remover = [Sets(2), Says(1, 3), Hears(2, 6), Looks, Removes];
    let receives = Part { steps: &receiver };
    let sends = Part { steps: &sender };
    let parts = [
        receives,
        sends,
        receives,
        sends,
        receives,
        sends,
        Part { steps: &remover },
    ];
    let gone = Err(Errno::EIDRM);
    let answers = [gone, gone, gone, gone, gone, gone, Ok(0)];
    wakes(
        &rt,
        rt.alloc(),
        "a removal wakes receivers and senders",
        &parts,
        &answers,
        0,
    );
}
