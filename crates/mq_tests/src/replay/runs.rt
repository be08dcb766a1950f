//! Sixteen threads that call at once.

use crate::replay::asks::Nothing;
use crate::replay::calls::{Kept, SLOTS, Told};
use crate::replay::chooser::NEVER;
use crate::replay::printed::print_round;
use crate::replay::worker::{ALL, Asker};
use mq::{Config, Ended, WorkersError, with_workers};
use std::alloc::{AllocError, Global};
use std::process::Abort;
use std::sync::Wait;
use std::sync::atomic::AtomicU32;
use std::thread::Threads;
use std::time::Clock;
use std::{env, io};

const SEATS: u16 = 16;

/// So many pages that a text seldom finds none, and ids enough for all calls.
const CONFIG: Config = Config {
    height: 10,
    slots: SLOTS as u8,
    seats: SEATS,
    last_seq: NEVER - 1,
};

/// How often sixteen threads begin, each time with other choices.
const ROUNDS: u16 = 4;

/// One worker for each seat, with room for all that it will keep.
fn askers<'a>(
    alloc: Global,
    through: &'a AtomicU32,
    round: u16,
) -> Result<Vec<Asker<'a>>, AllocError> {
    let mut askers = Vec::new(alloc);
    for seat in 0..SEATS {
        askers.push(Asker {
            seed: u64::from(round)
                .wrapping_mul(100)
                .wrapping_add(u64::from(seat)),
            all: u32::from(SEATS),
            through,
            kept: Kept::with_capacity(alloc, ALL as usize + 20)?,
        })?;
    }
    Ok(askers)
}

/// Sixteen threads call. All of them end, and no page is lost.
fn replays<R: Abort + Threads + Wait + Clock + Sync>(
    rt: &R,
    alloc: Global,
    round: u16,
) -> Ended<Vec<Told>> {
    let through = AtomicU32::new(0);
    let Ok(askers) = askers(alloc, &through, round) else {
        panic!(rt; "out of memory");
    };
    let ended = match with_workers(rt, alloc, CONFIG, askers) {
        Ok(ended) => ended,
        Err(WorkersError::Memory | WorkersError::Thread) => panic!(rt; "out of memory"),
        Err(error) => panic!(rt; "{error}"),
    };
    let workers = ended.answer.len();
    assert!(rt;
        workers == SEATS as usize,
        "round {round}: {workers} workers ended"
    );
    assert!(rt; ended.free_pages == 1024, "round {round}: a page is lost");
    ended
}

/// With the number of a round behind this test's name only that round is run, and all its calls are
/// printed with their answers, which `tests/replay.py` judges.
#[test]
fn each_reply_is_that_of_the_slots_list(rt: HostRuntime) -> io::Result<()> {
    if let Some(word) = env::args(&rt)?.nth(2) {
        let round = word.parse().unwrap_or(ROUNDS);
        return print_round(&rt, &replays(&rt, rt.alloc(), round));
    }
    for round in 0..ROUNDS {
        let _ = replays(&rt, rt.alloc(), round);
    }
    Ok(())
}
