//! Answers and runs of great length. They find out these bodies, each of which is proved and was
//! tried: `Memory` for an answer of over 1,000 bytes or past 100,000 events, `Write` for an answer
//! of over 8,000 bytes.

use crate::sizes::DEFAULTS;
use mq_cli::{RunFault, SCRIPT_LIMIT, run_serial};
use std::io::Write;
use std::test::Fail;

/// The longest text, of which the answer line has 65,536 bytes and some more.
#[test]
fn the_longest_text_is_answered_whole(rt: HostRuntime) -> Result<(), Fail> {
    for size in [65_535u64, 65_536, 70_000] {
        let script = format!(in rt.alloc(); "get 0 c\nsnd 0 1 *65536\nrcv 0 {size} 0 n\n")?;
        let mut expected = Vec::new(rt.alloc());
        write!(expected, "id 0\nat 1\nmsg 1 seat 1 tag 2 len 65536 =")?;
        for place in 0..size.min(65_536) {
            expected.push(b'a' + (place % 26) as u8)?;
        }
        expected.push(b'\n')?;
        let mut written = Vec::with_capacity(rt.alloc(), expected.len())?;
        let ended = run_serial(rt.alloc(), &mut script.as_bytes(), &mut written, DEFAULTS);
        holds!(rt; ended != Err(RunFault::Memory), "out of memory");
        assert!(rt; ended == Ok(()), "{size}");
        assert!(rt; written == expected, "{size}");
    }
    Ok(())
}

/// A script of nearly the greatest length, whose queue has 104,801 events: each pair of its lines
/// sends and receives an empty text.
#[test]
fn a_long_run_is_answered_whole(rt: HostRuntime) -> Result<(), Fail> {
    let mut script = Vec::with_capacity(rt.alloc(), SCRIPT_LIMIT)?;
    let mut expected = Vec::with_capacity(rt.alloc(), 4 * SCRIPT_LIMIT)?;
    script.extend_from_slice(b"get 0 c\n")?;
    expected.extend_from_slice(b"id 0\n")?;
    for pair in 1..=52_400u64 {
        script.extend_from_slice(b"snd 0 1 =\nrcv 0 0 0\n")?;
        let tag = 2 * pair;
        writeln!(expected, "at {}\nmsg 1 seat 1 tag {tag} len 0 =", tag - 1)?;
    }
    script.extend_from_slice(b"rm 0\n")?;
    expected.extend_from_slice(b"at 104801 events 104802\n")?;
    let mut written = Vec::with_capacity(rt.alloc(), 4 * SCRIPT_LIMIT)?;
    let ended = run_serial(rt.alloc(), &mut script.as_slice(), &mut written, DEFAULTS);
    holds!(rt; ended != Err(RunFault::Memory), "out of memory");
    holds!(rt; ended == Ok(()));
    holds!(rt; written == expected);
    Ok(())
}
