//! I/O errors of `run_serial`: a failed read leaves nothing written, and a failed write leaves a
//! prefix of the output. A script over the limit is not run.

use crate::fakes::{Narrow, Trickle};
use crate::sizes::ONE_PAGE;
use mq_cli::{RunFault, SCRIPT_LIMIT, run_serial};
use std::test::Fail;

const SCRIPT: &str = "get 0 c\nsnd 0 5 =hello\nrcv 0 100 0\nrcv 0 100 0\n";

const OUTPUT: &str = "id 0\nat 1\nmsg 5 seat 1 tag 2 len 5 =hello\nENOMSG\n";

#[test]
fn a_reader_that_fails_leaves_nothing_written(rt: HostRuntime) -> Result<(), Fail> {
    for fails_at in 1..50u64 {
        let mut reader = Trickle {
            rest: SCRIPT.as_bytes(),
            calls: 0,
            fails_at,
        };
        let mut written = Vec::with_capacity(rt.alloc(), OUTPUT.len())?;
        let ended = run_serial(rt.alloc(), &mut reader, &mut written, ONE_PAGE);
        // One call for each byte, and one that finds the end.
        if fails_at <= 48 {
            holds!(rt; ended != Err(RunFault::Memory), "out of memory");
            assert!(rt; ended == Err(RunFault::Read), "at {fails_at}");
            assert!(rt; written.is_empty(), "at {fails_at}");
        } else {
            holds!(rt; ended != Err(RunFault::Memory), "out of memory");
            assert!(rt; ended == Ok(()), "at {fails_at}");
            assert!(rt; written.as_slice() == OUTPUT.as_bytes(), "at {fails_at}");
        }
    }
    Ok(())
}

#[test]
fn a_writer_that_fails_has_a_prefix_of_the_answers(rt: HostRuntime) -> Result<(), Fail> {
    for fails in [true, false] {
        for room in 0..=OUTPUT.len() {
            let mut writer = Narrow {
                taken: Vec::with_capacity(rt.alloc(), OUTPUT.len())?,
                room,
                fails,
            };
            let ended = run_serial(rt.alloc(), &mut SCRIPT.as_bytes(), &mut writer, ONE_PAGE);
            let expected = if room < OUTPUT.len() {
                Err(RunFault::Write)
            } else {
                Ok(())
            };
            holds!(rt; ended != Err(RunFault::Memory), "out of memory");
            assert!(rt; ended == expected, "with room for {room}");
            assert!(rt;
                writer.taken.as_slice() == &OUTPUT.as_bytes()[..room],
                "with room for {room}"
            );
        }
    }
    Ok(())
}

/// 256 lines of 4,095 `#` and an LF are as long as a script may be.
#[test]
fn a_script_is_too_long_past_its_limit(rt: HostRuntime) -> Result<(), Fail> {
    let mut script = vec![in rt.alloc(); b'#'; SCRIPT_LIMIT]?;
    for line in 0..256usize {
        if let Some(end) = script.get_mut(line * 4096 + 4095) {
            *end = b'\n';
        }
    }
    let mut reader = Trickle {
        rest: script.as_slice(),
        calls: 0,
        fails_at: 0,
    };
    let mut written = Vec::new(rt.alloc());
    let ended = run_serial(rt.alloc(), &mut reader, &mut written, ONE_PAGE);
    holds!(rt; ended != Err(RunFault::Memory), "out of memory");
    holds!(rt; ended == Ok(()));
    holds!(rt; written.is_empty());
    holds!(rt; reader.calls == 1_048_577);

    script.push(b'#')?;
    let ended = run_serial(rt.alloc(), &mut script.as_slice(), &mut written, ONE_PAGE);
    holds!(rt; ended != Err(RunFault::Memory), "out of memory");
    holds!(rt; ended == Err(RunFault::Size));
    holds!(rt; written.is_empty());
    Ok(())
}
