//! IPC_NOWAIT and MSG_NOERROR of msgop(2): a call that would wait fails at once, and a text that is
//! too long for the receiver is truncated.

use crate::runs::{ROOMY, ended_of, slot_of, wanted_memory, work_all};
use crate::seat_calls::{By, SeatCalls, Work};
use mq::{Delivered, Errno, RecvFlags, SendFlags};
use std::alloc::Global;
use std::process::Abort;
use std::sync::Wait;
use std::thread::Threads;
use std::time::Clock;

const AT_ONCE: RecvFlags = RecvFlags {
    nowait: true,
    noerror: false,
    except: false,
};

const CUT: RecvFlags = RecvFlags {
    noerror: true,
    ..AT_ONCE
};

/// What the calls of a worker answered that is alone at a queue.
#[derive(Clone, Copy)]
struct Met {
    empty: Option<Errno>,
    full: Option<Errno>,
    long: Option<Errno>,
    cut: (usize, u64),
}

impl Met {
    /// Whether a call that was to be refused was out of memory instead.
    fn found_none(&self) -> bool {
        let refusals = [self.empty, self.full, self.long];
        refusals.contains(&Some(Errno::ENOMEM))
    }
}

#[derive(Drop)]
struct Alone;

impl Work for Alone {
    type Answer = Result<Met, Errno>;

    fn work<C: SeatCalls, R: Wait>(
        self,
        _rt: &R,
        alloc: Global,
        calls: &mut C,
    ) -> Result<Met, Errno> {
        let Ok(bytes) = vec![in alloc; 3; 65_536] else {
            return Err(Errno::ENOMEM);
        };
        let text = bytes.as_slice();
        let id = calls.queue(7)?;
        let empty = calls.receive_flagged(id, 1, 0, AT_ONCE).err();
        for tag in 1..3 {
            calls.send(id, 1, tag, text)?;
        }
        let full = calls
            .send_with(id, 1, 3, text, SendFlags { nowait: true })
            .err();
        let long = calls.receive(id, 65_535, 0).err();
        let Delivered { length, text, .. } = calls.receive_flagged(id, 10, 0, CUT)?;
        Ok(Met {
            empty,
            full,
            long,
            cut: (text.len(), length),
        })
    }
}

/// What the worker's calls answered, whose text is left in the queue; ENOMEM when out of memory.
fn answered<R: Abort + Threads + Wait + Clock + Sync>(rt: &R, alloc: Global) -> Result<Met, Errno> {
    let mut workers = Vec::new(alloc);
    if workers.push(By(Alone)).is_err() {
        return Err(Errno::ENOMEM);
    }
    let worked = work_all(rt, alloc, ROOMY, workers);
    if wanted_memory(&worked) {
        return Err(Errno::ENOMEM);
    }
    let ended = ended_of(rt, worked);
    let answer = first_of(ended.answer.as_slice());
    if answer.is_ok() {
        holds!(rt; slot_of(rt, ended.slots.as_slice(), 0).left == 1);
        holds!(rt; ended.free_pages == 256);
    }
    answer
}

/// What the first worker's calls answered; ENOMEM where one was out of memory instead.
fn first_of(answers: &[Result<Met, Errno>]) -> Result<Met, Errno> {
    match answers.first() {
        Some(Ok(met)) if met.found_none() => Err(Errno::ENOMEM),
        Some(answer) => *answer,
        None => Err(Errno::ENOMEM),
    }
}

#[test]
fn a_call_with_flags_does_not_wait_and_cuts(rt: HostRuntime) {
    let mut answer = answered(&rt, rt.alloc());
    if matches!(answer, Err(Errno::ENOMEM)) {
        answer = answered(&rt, rt.alloc());
    }
    match answer {
        Ok(met) => {
            holds!(rt; met.empty == Some(Errno::ENOMSG));
            holds!(rt; met.full == Some(Errno::EAGAIN));
            holds!(rt; met.long == Some(Errno::E2BIG));
            holds!(rt; met.cut.0 == 10 && met.cut.1 == 65_536);
        }
        Err(errno) => panic!(rt; "{errno}"),
    }
}
