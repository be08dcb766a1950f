//! A seat that asks for the figures of a queue while others send to it and receive from it.

use crate::system::{Anything, queue, receive, send};
use crate::words::Words;
use anyhow::Result;
use mq::{Caller, DEFAULTS, Errno, Names, Seat, System, Worker, with_workers};
use std::alloc::Global;
use std::sync::Wait;
use std::sync::atomic::{AtomicBool, Ordering};
use std::thread::Threads;
use std::time::Clock;

/// What one seat does: how often it asks, or what it sends and receives by turns until all has been
/// asked.
#[derive(Drop)]
enum Part<'a> {
    Asks(u32, &'a AtomicBool),
    Sends(&'a [u8], &'a AtomicBool),
}

/// Asks so often; how many of the figures have a quota.
fn ask<N: Names, R: Wait>(
    rt: &R,
    system: &System<Anything, N>,
    seat: &mut Seat<N>,
    count: u32,
) -> Result<u64, Errno> {
    let mut seen = 0u64;
    if let Some(id) = queue(rt, system, seat, Some(1))? {
        for _ in 0..count {
            let figures = system.stat(seat, id)?;
            seen = seen.wrapping_add(u64::from(figures.qbytes > 0));
        }
    }
    Ok(seen)
}

/// Sends before it receives, so none of those that do so waits forever.
fn send_until<N: Names, R: Wait>(
    rt: &R,
    system: &System<Anything, N>,
    seat: &mut Seat<N>,
    bytes: &[u8],
    done: &AtomicBool,
) -> Result<u64, Errno> {
    if let Some(id) = queue(rt, system, seat, Some(1))? {
        for _ in rt.forever() {
            if done.load(Ordering::SeqCst) {
                break;
            }
            send(rt, system, seat, id, 1, bytes)?;
            receive(rt, system, seat, id, 0)?;
        }
    }
    Ok(0)
}

impl<'a> Worker<Anything> for Part<'a> {
    type Answer = Result<u64, Errno>;

    fn work<N: Names, R: Wait + Clock>(
        self,
        caller: &mut Caller<'_, Anything, N, R>,
    ) -> Result<u64, Errno> {
        let (rt, system) = (caller.rt, caller.system);
        let seat = &mut caller.seat;
        match self {
            Part::Asks(count, done) => {
                let seen = ask(rt, system, seat, count);
                done.store(true, Ordering::SeqCst);
                seen
            }
            Part::Sends(bytes, done) => send_until(rt, system, seat, bytes, done),
        }
    }
}

/// `stat COUNT SENDERS`: asks so many times, beside so many that send texts of 16 bytes.
pub(crate) fn run(
    rt: &(impl Print + Threads + Wait + Clock + Sync),
    alloc: Global,
    words: &Words,
) -> Result<()> {
    let done = AtomicBool::new(false);
    let mut parts = vec![in alloc; Part::Asks(words.number(1, 10)?, &done)]?;
    for _ in 0..words.number(2, 2)? {
        parts.push(Part::Sends(b"sixteen letters.", &done))?;
    }
    let ended = with_workers(rt, alloc, DEFAULTS, parts)?;
    let mut seen = 0u64;
    for answer in ended.answer {
        seen = seen.wrapping_add(answer?);
    }
    println!(rt; "{seen} figures seen")?;
    Ok(())
}
