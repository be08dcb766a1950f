//! What no clause can say of a writer. The first test finds out a flush that is left out, one that
//! is left out after a line that is not well formed, and a failed flush that is answered `Ok`; the
//! second a failed write that is tried again. Each of these bodies is proved, and was tried.

use crate::fakes::{FailsOnce, Flushed};
use crate::sizes::ONE_PAGE;
use mq_cli::{Cause, RunFault, run_serial};
use std::io::ErrorKind;
use std::test::Fail;

/// A script, what it writes, and how it ends where no write and no flush fails.
type Case = (&'static str, &'static str, Result<(), RunFault>);

const CASES: [Case; 3] = [
    ("", "", Ok(())),
    (
        "get 0 c\nget 0 c\nrm 0\n",
        "id 0\nid 1\nat 1 events 2\n",
        Ok(()),
    ),
    (
        "get 0 c\nget\nget 0 c\n",
        "id 0\n",
        Err(RunFault::Script {
            line: 2,
            cause: Cause::Words,
        }),
    ),
];

/// After the last answer, whether a line was not well formed or not.
#[test]
fn a_run_flushes_once_after_all_it_writes(rt: HostRuntime) -> Result<(), Fail> {
    for fails in [false, true] {
        for (script, output, usual) in CASES {
            let mut writer = Flushed {
                taken: Vec::with_capacity(rt.alloc(), output.len())?,
                flushes: 0,
                flushed: 0,
                fails,
            };
            let ended = run_serial(rt.alloc(), &mut script.as_bytes(), &mut writer, ONE_PAGE);
            let expected = if fails { Err(RunFault::Write) } else { usual };
            holds!(rt; ended != Err(RunFault::Memory), "out of memory");
            assert!(rt; ended == expected, "{script}");
            // A flush that fails hides that memory ran out before it.
            if fails {
                holds!(rt; writer.taken.len() == output.len(), "out of memory");
            }
            assert!(rt; writer.taken.as_slice() == output.as_bytes(), "{script}");
            assert!(rt; writer.flushes == 1, "{script}");
            assert!(rt; writer.flushed == output.len(), "{script}");
        }
    }
    Ok(())
}

/// Each of the three answers is one write, of which one fails: the answers before it were written,
/// and no other write follows, also where the failure is one that std's `write_all` passes over.
#[test]
fn a_write_that_failed_is_not_tried_again(rt: HostRuntime) -> Result<(), Fail> {
    let script = "get 0 c\nget 0 c\nrm 0\n";
    for kind in [ErrorKind::Other, ErrorKind::Interrupted] {
        for (fails_at, output) in [(1, ""), (2, "id 0\n"), (3, "id 0\nid 1\n")] {
            let mut writer = FailsOnce {
                taken: Vec::with_capacity(rt.alloc(), output.len())?,
                calls: 0,
                fails_at,
                kind,
            };
            let ended = run_serial(rt.alloc(), &mut script.as_bytes(), &mut writer, ONE_PAGE);
            holds!(rt; ended != Err(RunFault::Memory), "out of memory");
            assert!(rt; ended == Err(RunFault::Write), "at {fails_at}");
            assert!(rt;
                writer.taken.as_slice() == output.as_bytes(),
                "at {fails_at}"
            );
            assert!(rt; writer.calls == fails_at, "at {fails_at}");
        }
    }
    Ok(())
}
