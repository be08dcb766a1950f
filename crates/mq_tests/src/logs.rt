//! A system that is set up to drain its logs.

use crate::runs::{SMALL, slot_of};
use mq::{
    Caller, Clock, Config, Errno, Message, Names, NoPledge, Selection, Setup, SystemProgram, Wait,
    Worker,
};

/// How many entries are kept of a log before they are drained.
const LIMIT: u64 = 10;

/// The most that are kept where the last drain was out of memory.
const MOST: u64 = LIMIT + 1;

/// How many messages wait while others pass through the queue.
const WAITING: u64 = 5;

const PASSING: u64 = 100;

/// Sends messages of type 1 that wait, then sends and receives others, and at the end receives
/// those that waited. How many of these are in their order.
fn passes<N: Names, R: Wait + Clock>(
    caller: &mut Caller<'_, NoPledge, N, R>,
) -> Result<u64, Errno> {
    let id = caller.queue(5)?;
    for tag in 0..WAITING {
        caller.send(id, Message::new(1, b"stays").tagged(tag))?;
    }
    for tag in 0..PASSING {
        caller.send(id, Message::new(2, b"passes").tagged(tag))?;
        caller.receive(id, Selection::Exact(2))?;
    }
    let mut in_order = 0u64;
    for tag in 0..WAITING {
        let received = caller.receive(id, Selection::Any)?;
        if received.tag == tag && received.text.as_slice() == b"stays".as_slice() {
            in_order = in_order.saturating_add(1);
        }
    }
    Ok(in_order)
}

#[derive(Clone, Copy, Drop)]
struct PassesAll;

impl SystemProgram<NoPledge> for PassesAll {
    type Answer = Result<u64, Errno>;

    fn run<N: Names, R: Wait + Clock>(
        self,
        _config: Config,
        callers: &mut [Caller<'_, NoPledge, N, R>],
    ) -> Result<u64, Errno> {
        match callers.first_mut() {
            Some(caller) => passes(caller),
            None => Err(Errno::EINVAL),
        }
    }
}

impl Worker<NoPledge> for PassesAll {
    type Answer = Result<u64, Errno>;

    fn work<N: Names, R: Wait + Clock>(
        self,
        caller: &mut Caller<'_, NoPledge, N, R>,
    ) -> Result<u64, Errno> {
        passes(caller)
    }
}

/// The entries that one caller makes.
const ENTRIES: u64 = 1 + 2 * WAITING + 2 * PASSING;

/// Those that are kept after the last drain.
const KEPT: u64 = ENTRIES % LIMIT;

#[test]
fn a_log_that_is_limited_keeps_no_more_and_loses_no_message(rt: HostRuntime) {
    let setup = Setup::from(SMALL).cut_logs_after(LIMIT);
    let Ok(ended) = setup.with_system(&rt, rt.alloc(), PassesAll) else {
        panic!(rt; "ENOMEM");
    };
    match ended.answer {
        Ok(in_order) => holds!(rt; in_order == WAITING),
        Err(errno) => panic!(rt; "{errno}"),
    }
    let left = slot_of(&rt, &ended.slots, 0);
    holds!(rt; left.past.is_empty() && left.left == 0);
    let kept = left.last.len() as u64;
    holds!(rt; kept <= MOST);
    holds!(rt; left.first.saturating_add(kept) == ENTRIES);
    // Where no drain was out of memory, each was made as soon as so many entries were kept.
    if kept != KEPT {
        panic!(rt; "ENOMEM");
    }
}

#[test]
fn a_system_that_is_set_up_without_a_limit_keeps_its_logs(rt: HostRuntime) {
    let setup = Setup::new(SMALL);
    let Ok(ended) = setup.with_two(&rt, rt.alloc(), Alone::Works, Alone::Rests) else {
        panic!(rt; "ENOMEM");
    };
    match ended.answer {
        (Ok(in_order), Ok(_)) => holds!(rt; in_order == WAITING),
        (Err(errno), _) | (_, Err(errno)) => panic!(rt; "{errno}"),
    }
    let left = slot_of(&rt, &ended.slots, 0);
    holds!(rt; left.first == 0 && left.last.len() as u64 == ENTRIES);
}

/// How many messages wait in a log that has more of them than its limit.
const MANY: u64 = 25;

/// Sends messages that stay. How many.
#[derive(Clone, Copy, Drop)]
struct LeavesMany;

impl SystemProgram<NoPledge> for LeavesMany {
    type Answer = Result<u64, Errno>;

    fn run<N: Names, R: Wait + Clock>(
        self,
        _config: Config,
        callers: &mut [Caller<'_, NoPledge, N, R>],
    ) -> Result<u64, Errno> {
        let Some(caller) = callers.first_mut() else {
            return Err(Errno::EINVAL);
        };
        let id = caller.queue(5)?;
        for tag in 0..MANY {
            caller.send(id, Message::new(1, b"stays").tagged(tag))?;
        }
        Ok(MANY)
    }
}

#[test]
fn a_log_is_cut_only_once_it_has_as_many_entries_as_messages_wait(rt: HostRuntime) {
    let setup = Setup::from(SMALL).cut_logs_after(LIMIT);
    let Ok(ended) = setup.with_system(&rt, rt.alloc(), LeavesMany) else {
        panic!(rt; "ENOMEM");
    };
    match ended.answer {
        Ok(sent) => holds!(rt; sent == MANY),
        Err(errno) => panic!(rt; "{errno}"),
    }
    let left = slot_of(&rt, &ended.slots, 0);
    holds!(rt; left.left == MANY);
    // The making and nine messages were drained; since then more wait than there are entries.
    if left.first != LIMIT {
        panic!(rt; "ENOMEM");
    }
    holds!(rt; left.last.len() as u64 == MANY + 1 - LIMIT);
}

/// A worker that passes messages, beside one that makes no call.
#[derive(Clone, Copy, Drop)]
enum Alone {
    Works,
    Rests,
}

impl Worker<NoPledge> for Alone {
    type Answer = Result<u64, Errno>;

    fn work<N: Names, R: Wait + Clock>(
        self,
        caller: &mut Caller<'_, NoPledge, N, R>,
    ) -> Result<u64, Errno> {
        match self {
            Alone::Works => passes(caller),
            Alone::Rests => Ok(0),
        }
    }
}

#[test]
fn a_worker_alone_has_its_logs_cut(rt: HostRuntime) {
    let Ok(workers) = vec![in rt.alloc(); PassesAll] else {
        panic!(rt; "ENOMEM");
    };
    let setup = Setup::new(SMALL).cut_logs_after(LIMIT);
    let Ok(ended) = setup.with_workers(&rt, rt.alloc(), workers) else {
        panic!(rt; "ENOMEM");
    };
    match ended.answer.first() {
        Some(Ok(in_order)) => holds!(rt; *in_order == WAITING),
        Some(Err(errno)) => panic!(rt; "{errno}"),
        None => panic!(rt; "no answer"),
    }
    let left = slot_of(&rt, &ended.slots, 0);
    holds!(rt; left.last.len() as u64 <= MOST && left.first > 0);
}
