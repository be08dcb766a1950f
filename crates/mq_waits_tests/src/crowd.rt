//! Eight threads whose waits all have deadlines, most of which do not pass: no message is lost or
//! received twice.

use crate::calls::{Nothing, ended_of};
use crate::watch::Watch;
use mq::{
    Caller, ClosedSlot, Config, Errno, Id, Message, Names, ReceiveOptions, Selection, Until,
    Worker, WorkersError, with_workers,
};
use std::alloc::{AllocError, Global};
use std::process::Abort;
use std::sync::Wait;
use std::sync::atomic::{AtomicU64, Ordering};
use std::thread::join;
use std::time::{Clock, Duration};

const SIZE: Config = Config {
    height: 0,
    slots: 1,
    seats: 8,
    last_seq: 0,
};

/// How many messages are pending at most.
const ROOM: u64 = 64;

/// How many a sender sends.
const EACH: u64 = 12_500;

/// How many four senders send.
const ALL: u64 = 50_000;

/// What all workers have done: the tags are 1 to `ALL`, each once.
#[derive(Drop)]
struct Sums {
    received: AtomicU64,
    tags: AtomicU64,
    squares: AtomicU64,
    /// How many waits timed out.
    ended: AtomicU64,
    /// How many workers gave up.
    failed: AtomicU64,
}

impl Sums {
    fn new() -> Sums {
        Sums {
            received: AtomicU64::new(0),
            tags: AtomicU64::new(0),
            squares: AtomicU64::new(0),
            ended: AtomicU64::new(0),
            failed: AtomicU64::new(0),
        }
    }

    fn is_over(&self) -> bool {
        self.received.load(Ordering::SeqCst) == ALL || self.failed.load(Ordering::SeqCst) > 0
    }

    /// Checks the sums of the numbers up to 50,000, and of their squares.
    fn are_right(&self, rt: &impl Abort) {
        holds!(rt; self.received.load(Ordering::SeqCst) == ALL, "other sums");
        holds!(rt; self.tags.load(Ordering::SeqCst) == 1_250_025_000, "other sums");
        holds!(rt;
            self.squares.load(Ordering::SeqCst) == 41_667_916_675_000,
            "other sums"
        );
        holds!(rt;
            self.ended.load(Ordering::SeqCst) > 0,
            "no wait has ended by its time"
        );
    }
}

/// A sender, which sends the tags from the one after `first`, or a receiver.
#[derive(Clone, Copy, Drop)]
enum Part {
    Sends(u64),
    Receives,
}

#[derive(Drop)]
struct InACrowd<'a, C: Clock> {
    clock: &'a C,
    sums: &'a Sums,
    part: Part,
}

impl<'a, C: Clock> InACrowd<'a, C> {
    /// The deadline of a call: none, or one or two milliseconds from now.
    fn end(&self, turn: u64) -> Until<'a, C> {
        Until::within(self.clock, Duration::from_millis(turn % 3))
    }

    fn sends<N: Names, R: Wait + Clock>(
        &self,
        caller: &mut Caller<'_, Nothing, N, R>,
        id: Id,
        first: u64,
    ) -> Result<(), Errno> {
        let mut sent = 0u64;
        for turn in 0..u64::MAX {
            if sent == EACH || self.sums.is_over() {
                break;
            }
            let tag = first.wrapping_add(sent).wrapping_add(1);
            let mut end = self.end(turn);
            match caller.send_within(id, Message::new(1, b"").tagged(tag), &mut end) {
                Ok(_) => sent = sent.wrapping_add(1),
                Err(Errno::EAGAIN) => {
                    self.sums.ended.fetch_add(1, Ordering::SeqCst);
                }
                Err(Errno::ENOMEM) => (),
                Err(errno) => return Err(errno),
            }
        }
        Ok(())
    }

    fn receives<N: Names, R: Wait + Clock>(
        &self,
        caller: &mut Caller<'_, Nothing, N, R>,
        id: Id,
    ) -> Result<(), Errno> {
        for turn in 0..u64::MAX {
            if self.sums.is_over() {
                break;
            }
            let mut end = self.end(turn);
            let none = ReceiveOptions::new().up_to(0);
            match caller.receive_within(id, Selection::Any, none, &mut end) {
                Ok(delivered) => {
                    let tag = delivered.tag;
                    self.sums.tags.fetch_add(tag, Ordering::SeqCst);
                    self.sums
                        .squares
                        .fetch_add(tag.wrapping_mul(tag), Ordering::SeqCst);
                    self.sums.received.fetch_add(1, Ordering::SeqCst);
                }
                Err(Errno::ENOMSG) => {
                    self.sums.ended.fetch_add(1, Ordering::SeqCst);
                }
                Err(Errno::ENOMEM) => (),
                Err(errno) => return Err(errno),
            }
        }
        Ok(())
    }
}

impl<'a, C: Clock> Worker<Nothing> for InACrowd<'a, C> {
    type Answer = Result<(), Errno>;

    fn work<N: Names, R: Wait + Clock>(
        self,
        caller: &mut Caller<'_, Nothing, N, R>,
    ) -> Result<(), Errno> {
        let done = match caller.queue(1) {
            Ok(id) => match (caller.set(id, ROOM), self.part) {
                (Ok(_), Part::Sends(first)) => self.sends(caller, id, first),
                (Ok(_), Part::Receives) => self.receives(caller, id),
                (Err(errno), _) => Err(errno),
            },
            Err(errno) => Err(errno),
        };
        if done.is_err() {
            self.sums.failed.fetch_add(1, Ordering::SeqCst);
        }
        done
    }
}

fn crowd<'a, C: Clock>(
    alloc: Global,
    clock: &'a C,
    sums: &'a Sums,
) -> Result<Vec<InACrowd<'a, C>>, AllocError> {
    let mut workers = Vec::new(alloc);
    for sender in 0..4u64 {
        for part in [Part::Sends(sender.wrapping_mul(EACH)), Part::Receives] {
            workers.push(InACrowd { clock, sums, part })?;
        }
    }
    Ok(workers)
}

/// Checks that no call of a worker is refused.
fn all_done(rt: &impl Abort, answers: &[Result<(), Errno>]) {
    for done in answers {
        match *done {
            Ok(()) => (),
            Err(Errno::ENOMEM) => panic!(rt; "out of memory"),
            Err(_) => panic!(rt; "another refusal"),
        }
    }
}

/// Checks for the making, a quota of each worker, and a sending and a receipt of each message.
fn is_logged(rt: &impl Abort, slots: &[ClosedSlot]) {
    match slots.first() {
        Some(slot) => holds!(rt; slot.last.len() as u64 == 100_009, "other events"),
        None => panic!(rt; "no slot"),
    }
}

#[test]
fn calls_whose_waits_end_lose_no_message(rt: HostRuntime) {
    let watch = Watch::new();
    let sums = Sums::new();
    let ((), ended) = join(
        &rt,
        || watch.keeps_on(&rt, &sums.received, "all messages are received"),
        || {
            let ended = match crowd(rt.alloc(), &rt, &sums) {
                Ok(workers) => with_workers(&rt, rt.alloc(), SIZE, workers),
                Err(_) => Err(WorkersError::Memory),
            };
            watch.ends();
            ended
        },
    );
    let ended = ended_of(&rt, ended, 1);
    all_done(&rt, ended.answer.as_slice());
    sums.are_right(&rt);
    is_logged(&rt, ended.slots.as_slice());
}
