//! Four threads allocate texts of a page concurrently until ENOMEM: together they get all pages.

use crate::calls::{Nothing, queue, receive, send};
use crate::is_same;
use mq::{Caller, Config, Errno, Id, Names, Seat, System, Worker, WorkersError, with_workers};
use std::alloc::{AllocError, Global};
use std::hint::spin_loop;
use std::sync::Wait;
use std::sync::atomic::{AtomicU32, Ordering};
use std::time::Clock;

/// Four pages for as many threads.
const FOUR: Config = Config {
    height: 2,
    slots: 4,
    seats: 4,
    last_seq: 0,
};

/// Sends texts of a page to itself until no page is left, and receives them once all keepers have
/// done so.
#[derive(Drop)]
struct Keeper<'a> {
    key: i32,
    /// How many keepers have sent all that they could.
    done: &'a AtomicU32,
}

impl<'a> Worker<Nothing> for Keeper<'a> {
    /// How many pages it kept.
    type Answer = Result<u32, Errno>;

    fn work<N: Names, R: Wait + Clock>(
        self,
        caller: &mut Caller<'_, Nothing, N, R>,
    ) -> Result<u32, Errno> {
        let (rt, system) = (caller.rt, caller.system);
        let seat = &mut caller.seat;
        let kept = keep(rt, system, seat, self.key);
        self.done.fetch_add(1, Ordering::SeqCst);
        for _ in rt.forever() {
            if self.done.load(Ordering::SeqCst) == 4 {
                break;
            }
            spin_loop();
        }
        let (id, pages) = kept?;
        for _ in 0..pages {
            receive(rt, system, seat, id, 1024, 0)?;
        }
        Ok(pages)
    }
}

/// Fills the queue with texts of a page until there is none. An allocation fails once at most, so
/// ENOMEM means that no page is free.
fn keep<N: Names, R: Wait>(
    rt: &R,
    system: &System<Nothing, N>,
    seat: &mut Seat<N>,
    key: i32,
) -> Result<(Id, u32), Errno> {
    let id = queue(rt, system, seat, key)?;
    for pages in 0..5u32 {
        match send(rt, system, seat, id, 1, 1024) {
            Ok(()) => (),
            Err(Errno::ENOMEM) => return Ok((id, pages)),
            Err(errno) => return Err(errno),
        }
    }
    Err(Errno::E2BIG)
}

fn keepers(alloc: Global, done: &AtomicU32) -> Result<Vec<Keeper<'_>>, AllocError> {
    let mut workers = Vec::new(alloc);
    for key in 1..5 {
        workers.push(Keeper { key, done })?;
    }
    Ok(workers)
}

#[test]
fn four_threads_that_keep_all_pages_have_four(rt: HostRuntime) {
    for _ in 0..2 {
        let done = AtomicU32::new(0);
        let Ok(workers) = keepers(rt.alloc(), &done) else {
            continue;
        };
        match with_workers(&rt, rt.alloc(), FOUR, workers) {
            Ok(ended) => {
                let mut all = 0u32;
                for kept in ended.answer.iter() {
                    all = all.wrapping_add(kept.unwrap_or(100));
                }
                is_same(&rt, u64::from(all), 4, "pages kept");
                is_same(&rt, u64::from(ended.free_pages), 4, "free pages");
                return;
            }
            Err(WorkersError::Memory | WorkersError::Thread) => (),
            Err(error) => panic!(rt; "{error}"),
        }
    }
    panic!(rt; "out of memory");
}
