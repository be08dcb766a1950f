//! What the tests share.
ghost use Rattle.std.specs.Prelude.{⊤};

use crate::seat_calls::{By, Work};
use mq::{ClosedSlot, Config, Ended, Pledge, WorkersError, with_two, with_workers};
use std::alloc::Global;
use std::process::Abort;
use std::sync::Wait;
use std::thread::Threads;
use std::time::Clock;

pub(crate) const SMALL: Config = Config {
    height: 5,
    slots: 4,
    seats: 3,
    last_seq: 9,
};

/// Pages for four texts of the greatest length, of which two fill a queue.
pub(crate) const ROOMY: Config = Config { height: 8, ..SMALL };

/// Nothing is pledged.
pub(crate) struct Nothing;

impl Pledge for Nothing {
    ghost kept = { λ _ _ _ _. ⊤ };
}

/// What workers have answered, or why none has begun.
pub(crate) type Worked<T> = Result<Ended<T>, WorkersError>;

/// Whether no worker has begun, for lack of memory.
pub(crate) fn wanted_memory<T>(worked: &Worked<T>) -> bool {
    matches!(worked, Err(WorkersError::Memory | WorkersError::Thread))
}

/// Runs all at once.
pub(crate) fn work_all<W: Work + Send, R: Threads + Wait + Clock + Sync>(
    rt: &R,
    alloc: Global,
    config: Config,
    workers: Vec<By<W>>,
) -> Worked<Vec<W::Answer>> {
    with_workers(rt, alloc, config, workers)
}

/// Runs both at once, and once more where none has begun for lack of memory.
pub(crate) fn work_both<
    A: Work + Copy + Send,
    B: Work + Copy + Send,
    R: Threads + Wait + Clock + Sync,
>(rt: &R, alloc: Global, config: Config, one: A, other: B) -> Worked<(A::Answer, B::Answer)> {
    for _ in 0..2 {
        let worked = with_two(rt, alloc, config, By(one), By(other));
        if !wanted_memory(&worked) {
            return worked;
        }
    }
    Err(WorkersError::Memory)
}

/// What has ended.
pub(crate) fn ended_of<T: Drop>(rt: &impl Abort, worked: Worked<T>) -> Ended<T> {
    match worked {
        Ok(ended) => ended,
        Err(error) => panic!(rt; "{error}"),
    }
}

/// What the slot of this number left.
pub(crate) fn slot_of<'a>(
    rt: &impl Abort,
    slots: &'a [ClosedSlot],
    number: usize,
) -> &'a ClosedSlot {
    match slots.get(number) {
        Some(slot) => slot,
        None => panic!(rt; "no slot of this number"),
    }
}
