//! A waiter is parked, and takes no processor time meanwhile.

use crate::calls::{Nothing, queue, receive, send};
use crate::watch::Watch;
use mq::{Caller, Config, Errno, Names, Worker, WorkersError, with_workers};
use std::fs;
use std::fs::Files;
use std::sync::Wait;
use std::thread::{join, sleep};
use std::time::{Clock, Duration};

const SIZE: Config = Config {
    height: 0,
    slots: 1,
    seats: 2,
    last_seq: 0,
};

/// For how many seconds the waiters are observed.
const SECONDS: u32 = 5;

/// The ticks of a processor, of which a second has 100, that two threads which wait may take in
/// that time: one that does not sleep takes 100 a second where no other needs the processor, and
/// some where others do.
const MOST: u64 = 5;

/// What a worker does once it has its queue.
#[derive(Clone, Copy, Drop)]
enum Part<'a> {
    /// Says so, and waits for a message.
    Receives(&'a Watch),
    /// Waits until that is said, and sends one.
    Sends(&'a Watch),
}

impl<'a> Worker<Nothing> for Part<'a> {
    type Answer = Result<(), Errno>;

    fn work<N: Names, R: Wait + Clock>(
        self,
        caller: &mut Caller<'_, Nothing, N, R>,
    ) -> Result<(), Errno> {
        let (rt, system) = (caller.rt, caller.system);
        let seat = &mut caller.seat;
        let id = queue(rt, system, seat, 1)?;
        match self {
            Part::Receives(waits) => {
                waits.ends();
                receive(rt, system, seat, id, 0, 0)?;
                Ok(())
            }
            Part::Sends(measured) => {
                measured.is_over(rt);
                send(rt, system, seat, id, 1, 0)
            }
        }
    }
}

/// How many ticks of a processor this process has taken, as Linux reports it.
fn ticks<R: Files + Alloc>(rt: &R) -> Option<u64> {
    let said = fs::read_to_string(rt, "/proc/self/stat").ok()?;
    let mut taken = 0u64;
    for word in said.split_whitespace().skip(13).take(2) {
        let some: u64 = word.parse().ok()?;
        taken = taken.saturating_add(some);
    }
    Some(taken)
}

/// How many it takes in these seconds, of which the first is enough where it takes none.
fn ticks_in_seconds<R: Clock + Files + Alloc>(rt: &R) -> Option<u64> {
    let before = ticks(rt)?;
    let mut taken = 0;
    for _second in 0..SECONDS {
        sleep(rt, Duration::from_secs(1));
        taken = ticks(rt)?.saturating_sub(before);
        if taken == 0 {
            break;
        }
    }
    Some(taken)
}

#[test]
fn a_waiter_takes_no_processor(rt: HostRuntime) {
    let (waits, measured) = (Watch::new(), Watch::new());
    let (taken, ended) = join(
        &rt,
        || {
            waits.is_over(&rt);
            let taken = ticks_in_seconds(&rt);
            measured.ends();
            taken
        },
        || {
            let parts = [Part::Receives(&waits), Part::Sends(&measured)];
            let ended = match parts.to_vec(rt.alloc()) {
                Ok(parts) => with_workers(&rt, rt.alloc(), SIZE, parts),
                Err(_) => Err(WorkersError::Memory),
            };
            // Where no worker has begun, none says so.
            waits.ends();
            ended
        },
    );
    match ended {
        Ok(ended) => {
            let answers = [Ok(()), Ok(())];
            holds!(rt;
                ended.answer.as_slice() == answers.as_slice(),
                "other answers"
            );
        }
        Err(WorkersError::Memory | WorkersError::Thread) => panic!(rt; "out of memory"),
        Err(error) => panic!(rt; "{error}"),
    }
    let Some(taken) = taken else {
        panic!(rt; "out of memory");
    };
    assert!(rt;
        taken < MOST,
        "{taken} ticks of a processor in {SECONDS} seconds"
    );
}
