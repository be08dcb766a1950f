//! I/O errors of `run_threads`: a failed read leaves nothing written, a failed write leaves a
//! prefix of the output, and a failed flush ends the run. A script over the limit is not run.

use crate::fakes::{Narrow, Trickle};
use crate::threads::fakes::Flushing;
use crate::threads::scripts::{OWN, OWN_TOLD, TWO_PAIRS};
use mq_cli::{RunFault, SCRIPT_DEFAULTS, SCRIPT_LIMIT, run_threads};
use std::test::Fail;

/// One call for each byte, and one that finds the end.
#[test]
fn a_reader_that_fails_leaves_nothing_written(rt: HostRuntime) -> Result<(), Fail> {
    let calls = TWO_PAIRS.len() as u64 + 1;
    for fails_at in 1..=calls {
        let mut reader = Trickle {
            rest: TWO_PAIRS.as_bytes(),
            calls: 0,
            fails_at,
        };
        let mut written = Vec::new(rt.alloc());
        let ended = run_threads(&rt, rt.alloc(), &mut reader, &mut written, SCRIPT_DEFAULTS);
        holds!(rt; ended != Err(RunFault::Memory), "out of memory");
        assert!(rt; ended == Err(RunFault::Read), "at {fails_at}");
        assert!(rt; written.is_empty(), "at {fails_at}");
    }
    Ok(())
}

/// A writer that has room for k bytes takes the first k, for every k.
#[test]
fn a_writer_that_fails_has_the_first_bytes(rt: HostRuntime) -> Result<(), Fail> {
    for fails in [true, false] {
        for room in 0..=OWN_TOLD.len() {
            let narrow = Narrow {
                taken: Vec::with_capacity(rt.alloc(), OWN_TOLD.len())?,
                room,
                fails,
            };
            let mut writer = Flushing::new(narrow, 0);
            let ended = run_threads(
                &rt,
                rt.alloc(),
                &mut OWN.as_bytes(),
                &mut writer,
                SCRIPT_DEFAULTS,
            );
            let expected = if room < OWN_TOLD.len() {
                Err(RunFault::Write)
            } else {
                Ok(())
            };
            holds!(rt; !writer.lacked_memory(ended), "out of memory");
            assert!(rt; ended == expected, "with room for {room}");
            assert!(rt;
                writer.narrow.taken.as_slice() == &OWN_TOLD.as_bytes()[..room],
                "with room for {room}"
            );
        }
    }
    Ok(())
}

/// The main part is flushed before the workers start, and all at the end.
#[test]
fn a_flush_that_fails_is_a_failed_write(rt: HostRuntime) -> Result<(), Fail> {
    for (fails_at_flush, told, end) in [
        (1, "id 0\n", Err(RunFault::Write)),
        (2, OWN_TOLD, Err(RunFault::Write)),
        (3, OWN_TOLD, Ok(())),
    ] {
        let narrow = Narrow {
            taken: Vec::with_capacity(rt.alloc(), OWN_TOLD.len())?,
            room: 1000,
            fails: true,
        };
        let mut writer = Flushing::new(narrow, fails_at_flush);
        let ended = run_threads(
            &rt,
            rt.alloc(),
            &mut OWN.as_bytes(),
            &mut writer,
            SCRIPT_DEFAULTS,
        );
        // A flush that fails hides that a run was out of memory, which only a shorter text shows.
        holds!(rt; writer.narrow.taken.len() >= told.len(), "out of memory");
        holds!(rt; !writer.lacked_memory(ended), "out of memory");
        assert!(rt; ended == end, "at {fails_at_flush}");
        assert!(rt;
            writer.narrow.taken.as_slice() == told.as_bytes(),
            "at {fails_at_flush}"
        );
    }
    Ok(())
}

#[test]
fn a_script_over_the_limit_is_not_run(rt: HostRuntime) -> Result<(), Fail> {
    let script = vec![in rt.alloc(); b'#'; SCRIPT_LIMIT + 1]?;
    let mut written = Vec::new(rt.alloc());
    let ended = run_threads(
        &rt,
        rt.alloc(),
        &mut script.as_slice(),
        &mut written,
        SCRIPT_DEFAULTS,
    );
    holds!(rt; ended != Err(RunFault::Memory), "out of memory");
    holds!(rt; ended == Err(RunFault::Size));
    holds!(rt; written.is_empty());
    Ok(())
}
