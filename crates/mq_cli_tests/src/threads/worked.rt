//! Scripts of several threads, each with its whole output and the end of its run: timeouts,
//! removals, page shortages, refusals, and the errors of the parser.

use crate::threads::scripts::{OWN, OWN_TOLD, TWO_PAIRS, TWO_PAIRS_TOLD, lacks_memory};
use mq_cli::{Cause, RunFault, SCRIPT_DEFAULTS, run_threads};
use std::process::Abort;
use std::sync::Wait;
use std::test::Fail;
use std::thread::Threads;
use std::time::Clock;

/// A script, what it writes, and how it ends.
type Case = (&'static str, &'static str, Result<(), RunFault>);

/// Runs the script, which must write this and end so.
fn is_told<R: AllocGlobal + Abort + Threads + Wait + Clock + Sync>(
    rt: &R,
    case: Case,
) -> Result<(), Fail> {
    let (script, told, end) = case;
    let mut written = Vec::with_capacity(rt.alloc(), 1000)?;
    let ended = run(rt, script.as_bytes(), &mut written);
    holds!(rt; !lacks_memory(ended, &written), "out of memory");
    assert!(rt; ended == end, "{script}");
    assert!(rt; written.as_slice() == told.as_bytes(), "{script}");
    Ok(())
}

fn run<R: AllocGlobal + Threads + Wait + Clock + Sync>(
    rt: &R,
    mut script: &[u8],
    written: &mut Vec<u8>,
) -> Result<(), RunFault> {
    run_threads(rt, rt.alloc(), &mut script, written, SCRIPT_DEFAULTS)
}

#[test]
fn two_pairs_of_workers_hand_on_all(rt: HostRuntime) -> Result<(), Fail> {
    is_told(&rt, (TWO_PAIRS, TWO_PAIRS_TOLD, Ok(())))?;
    Ok(())
}

#[test]
fn each_worker_takes_what_it_sent(rt: HostRuntime) -> Result<(), Fail> {
    is_told(&rt, (OWN, OWN_TOLD, Ok(())))?;
    Ok(())
}

const REMOVED: &str = "\
get 0 c
set 0 0
worker
take 0 5 1
worker
put 0 1 1 10
worker
rm 0
";

const REMOVED_TOLD: &str = "\
id 0
at 1
worker 2 sent 0 received 0 order yes end EIDRM
worker 3 sent 0 received 0 order yes end EIDRM
worker 4 sent 0 received 0 order yes end done
slot 0 events 3 sent 0 received 0 left 0
pages 64 free 64
";

/// Both wait, or call after the removal: either way they answer EIDRM.
#[test]
fn a_removal_ends_a_wait(rt: HostRuntime) -> Result<(), Fail> {
    is_told(&rt, (REMOVED, REMOVED_TOLD, Ok(())))?;
    Ok(())
}

const ENDED: &str = "\
get 0 c
set 0 0
worker
take 0 1 5 within 20
rm 0
worker
put 0 1 5 10 within 20
rm 0
worker
take 0 2 1 within 0
rm 0
worker
put 0 2 1 0 within 0
rm 0
";

const ENDED_TOLD: &str = "\
id 0
at 1
worker 2 sent 0 received 0 order yes end ENOMSG
worker 3 sent 0 received 0 order yes end EAGAIN
worker 4 sent 0 received 0 order yes end ENOMSG
worker 5 sent 0 received 0 order yes end EAGAIN
slot 0 events 2 sent 0 received 0 left 0
pages 64 free 64
";

const PART: &str = "\
get 0 c
worker
put 0 1 3 10 within 0
take 0 1 5 within 20
";

const PART_TOLD: &str = "\
id 0
worker 2 sent 3 received 3 order yes end ENOMSG
slot 0 events 7 sent 3 received 3 left 0
pages 64 free 64
";

/// A queue without room, and one with three messages where five are asked for.
#[test]
fn a_step_ends_where_its_waits_do(rt: HostRuntime) -> Result<(), Fail> {
    is_told(&rt, (ENDED, ENDED_TOLD, Ok(())))?;
    is_told(&rt, (PART, PART_TOLD, Ok(())))?;
    Ok(())
}

const SERVED: &str = "\
get 0 c
worker
put 0 1 50 65536 within 100000
worker
take 0 1 50 within 100000
";

const SERVED_TOLD: &str = "\
id 0
worker 2 sent 50 received 0 order yes end done
worker 3 sent 0 received 50 order yes end done
slot 0 events 101 sent 50 received 50 left 0
pages 64 free 64
";

/// Each text takes all pages, for which the next one waits.
#[test]
fn a_step_that_is_served_before_its_end_is_done(rt: HostRuntime) -> Result<(), Fail> {
    is_told(&rt, (SERVED, SERVED_TOLD, Ok(())))?;
    Ok(())
}

const REMOVED_WITHIN: &str = "\
get 0 c
set 0 0
worker
take 0 5 1 within 100000
worker
put 0 1 1 10 within 100000
worker
rm 0
";

#[test]
fn a_removal_ends_a_wait_with_a_timeout(rt: HostRuntime) -> Result<(), Fail> {
    is_told(&rt, (REMOVED_WITHIN, REMOVED_TOLD, Ok(())))?;
    Ok(())
}

const FULL: &str = "\
get 0 c
set 0 131072
worker
put 0 1 1 65536
put 0 1 1 8192
rm 0
";

const FULL_TOLD: &str = "\
id 0
at 1
worker 2 sent 1 received 0 order yes end ENOMEM
slot 0 events 3 sent 1 received 0 left 1
pages 64 free 64
";

/// The first text takes all pages, and is never received.
#[test]
fn a_put_without_an_end_does_not_wait_for_pages(rt: HostRuntime) -> Result<(), Fail> {
    let mut written = Vec::with_capacity(rt.alloc(), 1000)?;
    let ended = run(&rt, FULL.as_bytes(), &mut written);
    let is_told = written.as_slice() == FULL_TOLD.as_bytes();
    holds!(rt; is_told || !lacks_memory(ended, &written), "out of memory");
    holds!(rt; ended == Ok(()), "another end");
    holds!(rt; is_told, "something else is told");
    Ok(())
}

const LONG_SECTION_TOLD: &str = "\
id 0
worker 2 sent 1000 received 1000 order yes end done
slot 0 events 2001 sent 1000 received 1000 left 0
pages 64 free 64
";

#[test]
fn a_section_of_two_thousand_lines_is_run(rt: HostRuntime) -> Result<(), Fail> {
    let mut script = Vec::with_capacity(rt.alloc(), 30_000)?;
    script.extend_from_slice(b"get 0 c\nworker\n")?;
    for _ in 0..1000 {
        script.extend_from_slice(b"put 0 1 1 0\ntake 0 1 1\n")?;
    }
    let mut written = Vec::with_capacity(rt.alloc(), 1000)?;
    let ended = run(&rt, &script, &mut written);
    holds!(rt; !lacks_memory(ended, &written), "out of memory");
    holds!(rt; ended == Ok(()), "another end");
    holds!(rt; written.as_slice() == LONG_SECTION_TOLD.as_bytes(), "something else is told");
    Ok(())
}

#[test]
fn an_empty_script_reports_the_pages(rt: HostRuntime) -> Result<(), Fail> {
    for script in ["", "\n", "# nothing\n\n", "\r\n"] {
        is_told(&rt, (script, "pages 64 free 64\n", Ok(())))?;
    }
    Ok(())
}

const LONGEST: &str = "get 0 c\nworker\nput 0 1 1 65536\ntake 0 1 1\n";

const LONGEST_TOLD: &str = "\
id 0
worker 2 sent 1 received 1 order yes end done
slot 0 events 3 sent 1 received 1 left 0
pages 64 free 64
";

const TOO_LONG: &str = "get 0 c\nworker\nput 0 1 1 65537\n";

const TOO_LONG_TOLD: &str = "\
id 0
worker 2 sent 0 received 0 order yes end EINVAL
slot 0 events 1 sent 0 received 0 left 0
pages 64 free 64
";

const LEFT: &str = "get 0 c\nworker\nput 0 3 2 1025\n";

const LEFT_TOLD: &str = "\
id 0
worker 2 sent 2 received 0 order yes end done
slot 0 events 3 sent 2 received 0 left 2
pages 64 free 64
";

/// A text of the greatest length is sent and received, and a longer one ends its worker; texts that
/// are left are counted, and their pages are free.
#[test]
fn a_worker_ends_at_a_refusal_or_done(rt: HostRuntime) -> Result<(), Fail> {
    is_told(&rt, (LONGEST, LONGEST_TOLD, Ok(())))?;
    is_told(&rt, (TOO_LONG, TOO_LONG_TOLD, Ok(())))?;
    is_told(&rt, (LEFT, LEFT_TOLD, Ok(())))?;
    Ok(())
}

const MAIN: &str = "\
get 7 c
get 7 cx
get 8
set 0 131073
set 0 5
set 1 5
get 0
worker
worker
rm 64
";

const MAIN_TOLD: &str = "\
id 0
EEXIST
ENOENT
EPERM
at 1
EINVAL
id 1
worker 2 sent 0 received 0 order yes end done
worker 3 sent 0 received 0 order yes end EINVAL
slot 0 events 2 sent 0 received 0 left 0
slot 1 events 1 sent 0 received 0 left 0
pages 64 free 64
";

/// A refused call of the main part is answered, and the run continues; a section may be empty;
/// slots in which no queue was made have no line.
#[test]
fn the_main_part_answers_as_a_serial_script(rt: HostRuntime) -> Result<(), Fail> {
    is_told(&rt, (MAIN, MAIN_TOLD, Ok(())))?;
    Ok(())
}

/// The line of this number is not well formed, and nothing is written.
fn at(line: u64, cause: Cause) -> Result<(), RunFault> {
    Err(RunFault::Script { line, cause })
}

const FIFTEEN: &str = "\
worker\nworker\nworker\nworker\nworker\nworker\nworker\nworker\nworker\nworker\nworker\nworker
worker\nworker\nworker\n";

const SIXTEEN: &str = "\
worker\nworker\nworker\nworker\nworker\nworker\nworker\nworker\nworker\nworker\nworker\nworker
worker\nworker\nworker\nworker\n";

#[test]
fn a_line_of_another_part_is_words(rt: HostRuntime) -> Result<(), Fail> {
    for script in [
        "put 0 1 1 1",
        "take 0 1 1\n",
        "rm 0",
        "rm x",
        "arena",
        "worker 1",
        "put",
    ] {
        is_told(&rt, (script, "", at(1, Cause::Words)))?;
    }
    for script in [
        "get 0 c\nworker\nget 0 c\n",
        "get 0 c\nworker\nset 0 1\n",
        "\nworker\nsnd 0 1 =a\n",
        "get 0\nworker\nseat 1\n",
        "get 0\nworker\n worker\n",
    ] {
        is_told(&rt, (script, "", at(3, Cause::Words)))?;
    }
    Ok(())
}

#[test]
fn a_sixteenth_worker_is_words(rt: HostRuntime) -> Result<(), Fail> {
    is_told(&rt, (SIXTEEN, "", at(16, Cause::Words)))?;
    let mut written = Vec::with_capacity(rt.alloc(), 2000)?;
    let ended = run_threads(
        &rt,
        rt.alloc(),
        &mut FIFTEEN.as_bytes(),
        &mut written,
        SCRIPT_DEFAULTS,
    );
    holds!(rt; !lacks_memory(ended, &written), "out of memory");
    holds!(rt; ended == Ok(()));
    let last = b"worker 16 sent 0 received 0 order yes end done\npages 64 free 64\n";
    holds!(rt; written.ends_with(last.as_slice()));
    Ok(())
}

#[test]
fn causes_come_in_their_order(rt: HostRuntime) -> Result<(), Fail> {
    for (line, cause) in [
        ("put 0 1 100001 1", Cause::Number),
        ("put 0 1 01 1", Cause::Number),
        ("put 4294967296 1 1 1", Cause::Number),
        ("put 0 9223372036854775808 1 1", Cause::Number),
        ("put 0 1 1 18446744073709551616", Cause::Number),
        ("take 0 1 100001", Cause::Number),
        ("take 0 -0 1", Cause::Number),
        ("rm -1", Cause::Number),
        ("put 0 1 1", Cause::Words),
        ("put 0 1 1 1 1", Cause::Words),
        ("take 0 1", Cause::Words),
        ("take 0 1 1 n", Cause::Words),
        ("rm 0 0", Cause::Words),
        ("put 0 1 1 1 within 1000001", Cause::Number),
        ("take 0 1 1 within 1000001", Cause::Number),
        ("take 0 1 1 within 05", Cause::Number),
        ("take 0 1 1 within -1", Cause::Number),
        ("put 0 1 100001 1 within 5", Cause::Number),
        ("put 0 1 1 1 within", Cause::Words),
        ("put x 1 1 1 within 5 5", Cause::Words),
        ("take 0 1 1 for 5", Cause::Words),
        ("take 0 1 within 5 1", Cause::Words),
        ("rm 0 within 5", Cause::Words),
        ("put x  1 1", Cause::Words),
        ("put\t0 x", Cause::Byte),
    ] {
        let script = format!(in rt.alloc(); "worker\n{line}\n")?;
        let mut written = Vec::new(rt.alloc());
        let ended = run_threads(
            &rt,
            rt.alloc(),
            &mut script.as_bytes(),
            &mut written,
            SCRIPT_DEFAULTS,
        );
        holds!(rt; ended != Err(RunFault::Memory), "out of memory");
        assert!(rt; ended == at(2, cause), "{line}");
        assert!(rt; written.is_empty(), "{line}");
    }
    Ok(())
}
