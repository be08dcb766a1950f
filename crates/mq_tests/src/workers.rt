//! Each worker runs once, at a seat of its own, and the answers are in the order of the workers.
//! Too many workers, or a size out of its limits, are refused before any worker runs.

use crate::runs::{SMALL, Worked, ended_of, wanted_memory, work_all};
use crate::seat_calls::{By, SeatCalls, Work};
use mq::{Config, WorkersError};
use std::alloc::{AllocError, Global};
use std::process::Abort;
use std::sync::Wait;
use std::sync::atomic::{AtomicU64, Ordering};
use std::thread::Threads;
use std::time::Clock;

/// Counts its runs, and answers its name and the number of its seat.
#[derive(Drop)]
struct Named<'a> {
    name: u16,
    runs: &'a AtomicU64,
}

impl<'a> Work for Named<'a> {
    type Answer = (u16, u16);

    fn work<C: SeatCalls, R: Wait>(self, _rt: &R, _alloc: Global, calls: &mut C) -> (u16, u16) {
        self.runs.fetch_add(1, Ordering::SeqCst);
        (self.name, calls.number())
    }
}

fn so_many(alloc: Global, count: u16, runs: &AtomicU64) -> Result<Vec<By<Named<'_>>>, AllocError> {
    let mut workers = Vec::new(alloc);
    for name in 0..count {
        workers.push(By(Named { name, runs }))?;
    }
    Ok(workers)
}

/// Runs so many workers, and once more where none has begun for lack of memory.
fn worked<R: Threads + Wait + Clock + Sync>(
    rt: &R,
    alloc: Global,
    config: Config,
    count: u16,
    runs: &AtomicU64,
) -> Worked<Vec<(u16, u16)>> {
    for _ in 0..2 {
        let Ok(workers) = so_many(alloc, count, runs) else {
            continue;
        };
        let worked = work_all(rt, alloc, config, workers);
        if !wanted_memory(&worked) {
            return worked;
        }
    }
    Err(WorkersError::Memory)
}

/// Whether there are so many answers, each at the place of its name and of the seat after it.
fn are_of(answers: &[(u16, u16)], count: u16) -> bool {
    let mut place = 0u16;
    for (name, seat) in answers {
        if *name != place || *seat != place.wrapping_add(1) {
            return false;
        }
        place = place.wrapping_add(1);
    }
    place == count
}

#[test]
fn each_worker_answers_at_its_place_and_at_its_seat(rt: HostRuntime) {
    for count in 0..4u16 {
        let runs = AtomicU64::new(0);
        let ended = ended_of(&rt, worked(&rt, rt.alloc(), SMALL, count, &runs));
        holds!(rt; are_of(ended.answer.as_slice(), count));
        holds!(rt; ended.slots.len() == 4);
        holds!(rt; ended.free_pages == 32);
        holds!(rt; runs.load(Ordering::SeqCst) == count as u64);
    }
}

/// Four workers are refused with this, and none begins.
fn are_refused<R: Abort + Threads + Wait + Clock + Sync>(
    rt: &R,
    alloc: Global,
    config: Config,
    wanted: WorkersError,
) {
    let runs = AtomicU64::new(0);
    match worked(rt, alloc, config, 4, &runs) {
        Err(error) => holds!(rt; error == wanted),
        Ok(_) => panic!(rt; "four workers have begun"),
    }
    holds!(rt; runs.load(Ordering::SeqCst) == 0);
}

#[test]
fn more_workers_than_seats_are_refused_before_one_begins(rt: HostRuntime) {
    are_refused(&rt, rt.alloc(), SMALL, WorkersError::TooManyWorkers);
}

#[test]
fn a_size_out_of_its_limits_is_refused_before_a_worker_begins(rt: HostRuntime) {
    let config = Config { slots: 0, ..SMALL };
    are_refused(&rt, rt.alloc(), config, WorkersError::Config);
}
