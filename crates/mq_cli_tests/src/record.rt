//! Tests of runs that are recorded.

use crate::sizes::ONE_PAGE;
use mq_calls::Errno;
use mq_cli::{Cause, Recorded, RunFault, SCRIPT_DEFAULTS, record_serial, record_threads};
use mq_trace::{CallName, Refusal};
use std::test::Fail;

const SERIAL: &str = "get 0 c\nrcv 0 9 0\nseat 3\nsnd 0 5 =hello\ncut 0\nstat 64\ncut 63\n\
                      rcv 0 9 0\nrm 0\nget 7 c";

/// No worker waits for the other, which may have found no memory.
const THREADS: &str = "get 7\nget 0 c\nset 0 200000\nworker\nput 0 1 3 10\ntake 0 1 3\n\
                       worker\nput 0 2 1 0\n";

fn refusal(moment: u64, seat: u16, call: CallName, id: Option<u32>, errno: Errno) -> Refusal {
    Refusal {
        moment,
        seat,
        call,
        id,
        errno,
    }
}

/// Whether the entries that the slot keeps are so many of removed queues and so many of a live one.
fn keeps(recorded: &Recorded, slot: usize, past: usize, last: usize) -> bool {
    match recorded.slots.get(slot) {
        Some(slot) => slot.first == 0 && slot.past.len() == past && slot.last.len() == last,
        None => false,
    }
}

#[test]
fn a_recorded_run_keeps_its_refusals_and_whole_logs(rt: HostRuntime) -> Result<(), Fail> {
    let ended = record_serial(rt.alloc(), &mut SERIAL.as_bytes(), ONE_PAGE);
    holds!(rt; !matches!(ended, Err(RunFault::Memory)), "out of memory");
    let Ok(recorded) = ended else {
        holds!(rt; false, "the run ends well");
        return Ok(());
    };
    holds!(rt; recorded.slots.len() == 16);
    holds!(rt; keeps(&recorded, 0, 4, 1));
    holds!(rt; keeps(&recorded, 1, 0, 0));
    let wanted = [
        refusal(2, 1, CallName::Receive, Some(0), Errno::ENOMSG),
        refusal(6, 3, CallName::Stat, Some(64), Errno::EINVAL),
        refusal(7, 3, CallName::Cut, None, Errno::EINVAL),
    ];
    holds!(rt; recorded.refusals.as_slice() == wanted.as_slice());
    Ok(())
}

#[test]
fn nothing_is_recorded_of_a_script_with_a_bad_line(rt: HostRuntime) -> Result<(), Fail> {
    let ended = record_serial(rt.alloc(), &mut "get 0 c\n\nget\n".as_bytes(), ONE_PAGE);
    holds!(rt; !matches!(ended, Err(RunFault::Memory)), "out of memory");
    let words = Cause::Words;
    holds!(rt; matches!(ended, Err(RunFault::Script { line: 3, cause }) if cause == words));
    Ok(())
}

#[test]
fn a_recorded_threads_script_keeps_the_refusals_of_its_main_part(
    rt: HostRuntime,
) -> Result<(), Fail> {
    let ended = record_threads(&rt, rt.alloc(), &mut THREADS.as_bytes(), SCRIPT_DEFAULTS);
    let memory = matches!(ended, Err(RunFault::Memory | RunFault::Thread));
    holds!(rt; !memory, "out of memory");
    let Ok(recorded) = ended else {
        holds!(rt; false, "the run ends well");
        return Ok(());
    };
    // A worker without memory ends early.
    holds!(rt; keeps(&recorded, 0, 0, 8), "an entry is missing, or a worker found no memory");
    let wanted = [
        refusal(1, 1, CallName::Get, None, Errno::ENOENT),
        refusal(3, 1, CallName::Set, Some(0), Errno::EPERM),
    ];
    holds!(rt; recorded.refusals.as_slice() == wanted.as_slice());
    Ok(())
}
