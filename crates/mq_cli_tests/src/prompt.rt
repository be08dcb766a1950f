//! Lines that are answered as they are typed.

use crate::fakes::{Flushed, Narrow};
use crate::sizes::ONE_PAGE;
use mq_cli::{RunFault, run_prompt, run_serial};
use std::io::{BufRead, ErrorKind, Read, Result, Write};
use std::sync::atomic::{AtomicU64, Ordering};
use std::test::Fail;

const TYPED: &str = "get 0 c\nsnd 0 5 =hello\n\nrcv 0 100\nrcv 0 100 0x\r\nrcv 0 100 0\r\nstatt";

const ANSWERS: &str = "id 0\nat 1\nline 4: words\nline 5: number\n\
    msg 5 seat 1 tag 2 len 5 =hello\nline 7: words\n";

#[test]
fn each_line_is_answered_and_a_wrong_one_is_named(
    rt: HostRuntime,
) -> std::result::Result<(), Fail> {
    let mut answers = Vec::with_capacity(rt.alloc(), 1000)?;
    let mut prompts = Vec::with_capacity(rt.alloc(), 100)?;
    let mut typed = TYPED.as_bytes();
    let ended = run_prompt(rt.alloc(), &mut typed, &mut answers, &mut prompts, ONE_PAGE);
    holds!(rt; ended != Err(RunFault::Memory), "out of memory");
    holds!(rt; ended == Ok(()), "another end");
    holds!(rt; typed.is_empty(), "not all was read");
    holds!(rt; answers.as_slice() == ANSWERS.as_bytes(), "other answers");
    // One before each of the seven lines, and one before the end.
    holds!(rt;
        prompts.as_slice() == b"> > > > > > > > ".as_slice(),
        "other prompts"
    );
    Ok(())
}

#[test]
fn lines_without_a_fault_are_answered_as_a_script_is(
    rt: HostRuntime,
) -> std::result::Result<(), Fail> {
    let script = "get 7 cx\nseat 2\nsnd 0 3 *9\nipcs\nipcs -q\nipcs -q x\nipcs -l\n\
                  rcv 0 4 3 n\nstat 0\nrm 0\ncut 0\narena\n#\n";
    let mut expected = Vec::with_capacity(rt.alloc(), 4000)?;
    let ran = run_serial(rt.alloc(), &mut script.as_bytes(), &mut expected, ONE_PAGE);
    holds!(rt; ran != Err(RunFault::Memory), "out of memory");
    let mut answers = Vec::with_capacity(rt.alloc(), 4000)?;
    let mut prompts = Vec::with_capacity(rt.alloc(), 100)?;
    let mut typed = script.as_bytes();
    let ended = run_prompt(rt.alloc(), &mut typed, &mut answers, &mut prompts, ONE_PAGE);
    holds!(rt; ended != Err(RunFault::Memory), "out of memory");
    holds!(rt; ran == Ok(()) && ended == Ok(()), "another end");
    holds!(rt; answers.as_slice() == expected.as_slice(), "other answers");
    Ok(())
}

/// One line of 200,000 bytes, 100,001 that are empty, and one that is answered.
#[test]
fn typed_lines_have_no_limit(rt: HostRuntime) -> std::result::Result<(), Fail> {
    let mut typed = Vec::with_capacity(rt.alloc(), 400_000)?;
    typed.resize(200_000, b'x')?;
    typed.resize(300_002, b'\n')?;
    typed.extend_from_slice(b"arena\n")?;
    let mut answers = Vec::with_capacity(rt.alloc(), 1000)?;
    let prompts = AtomicU64::new(0);
    let ended = run_prompt(
        rt.alloc(),
        &mut typed.as_slice(),
        &mut answers,
        &mut Counted(&prompts),
        ONE_PAGE,
    );
    holds!(rt; ended != Err(RunFault::Memory), "out of memory");
    holds!(rt; ended == Ok(()), "another end");
    holds!(rt;
        answers.as_slice() == b"line 1: long\npages 1 free 1 largest 0\n".as_slice(),
        "other answers"
    );
    holds!(rt; prompts.load(Ordering::SeqCst) == 100_004, "other prompts");
    Ok(())
}

#[test]
fn answers_that_are_not_taken_end_the_run(rt: HostRuntime) -> std::result::Result<(), Fail> {
    for room in 0..=ANSWERS.len() {
        let mut writer = Narrow {
            taken: Vec::with_capacity(rt.alloc(), ANSWERS.len())?,
            room,
            fails: true,
        };
        let mut prompts = Vec::with_capacity(rt.alloc(), 100)?;
        let mut typed = TYPED.as_bytes();
        let ended = run_prompt(rt.alloc(), &mut typed, &mut writer, &mut prompts, ONE_PAGE);
        let expected = if room < ANSWERS.len() {
            Err(RunFault::Write)
        } else {
            Ok(())
        };
        holds!(rt; ended != Err(RunFault::Memory), "out of memory");
        assert!(rt; ended == expected, "with room for {room}");
        assert!(rt;
            writer.taken.as_slice() == &ANSWERS.as_bytes()[..room],
            "with room for {room}"
        );
    }
    Ok(())
}

#[test]
fn an_answer_is_flushed_before_the_next_line_is_read(
    rt: HostRuntime,
) -> std::result::Result<(), Fail> {
    for (fails, flushes, expected) in [(false, 7u64, Ok(())), (true, 1, Err(RunFault::Write))] {
        let mut writer = Flushed {
            taken: Vec::with_capacity(rt.alloc(), ANSWERS.len())?,
            flushes: 0,
            flushed: 0,
            fails,
        };
        let mut prompts = Vec::with_capacity(rt.alloc(), 100)?;
        let mut typed = TYPED.as_bytes();
        let ended = run_prompt(rt.alloc(), &mut typed, &mut writer, &mut prompts, ONE_PAGE);
        holds!(rt; ended != Err(RunFault::Memory), "out of memory");
        holds!(rt; ended == expected, "another end");
        holds!(rt; writer.flushes == flushes, "other flushes");
        holds!(rt; writer.flushed == writer.taken.len(), "not all is flushed");
    }
    Ok(())
}

/// A user who types one line of `get`, reads what is shown, and types the next.
#[derive(Drop)]
struct Typist<'a> {
    lines: u64,
    left: usize,
    answers: &'a AtomicU64,
    prompts: &'a AtomicU64,
    /// How many lines were asked for without a prompt, or before the line before was answered.
    early: u64,
    fails_at: u64,
}

const LINE: &[u8] = b"get 0 c\n";

impl Read for Typist<'_> {
    fn read(&mut self, _buf: &mut [u8]) -> Result<usize> {
        Err(ErrorKind::Unsupported.into())
    }
}

impl BufRead for Typist<'_> {
    fn fill_buf(&mut self) -> Result<&[u8]> {
        if self.left == 0 {
            if self.lines == self.fails_at {
                return Err(ErrorKind::Other.into());
            }
            let shown = self.answers.load(Ordering::SeqCst);
            let asked = self.prompts.load(Ordering::SeqCst);
            if shown != self.lines || asked != self.lines.wrapping_add(1) {
                self.early = self.early.saturating_add(1);
            }
            self.lines = self.lines.saturating_add(1);
            self.left = LINE.len();
        }
        Ok(&LINE[LINE.len() - self.left.min(LINE.len())..])
    }

    fn consume(&mut self, amount: usize) {
        self.left = self.left.saturating_sub(amount);
    }
}

/// A writer that counts its calls.
#[derive(Drop)]
struct Counted<'a>(&'a AtomicU64);

impl Write for Counted<'_> {
    fn write(&mut self, buf: &[u8]) -> Result<usize> {
        if !buf.is_empty() {
            self.0.fetch_add(1, Ordering::SeqCst);
        }
        Ok(buf.len())
    }

    fn flush(&mut self) -> Result<()> {
        Ok(())
    }
}

#[test]
fn a_line_is_answered_before_the_next_is_read(rt: HostRuntime) {
    let answers = AtomicU64::new(0);
    let prompts = AtomicU64::new(0);
    let mut typist = Typist {
        lines: 0,
        left: 0,
        answers: &answers,
        prompts: &prompts,
        early: 0,
        fails_at: 20,
    };
    let ended = run_prompt(
        rt.alloc(),
        &mut typist,
        &mut Counted(&answers),
        &mut Counted(&prompts),
        ONE_PAGE,
    );
    holds!(rt; ended != Err(RunFault::Memory), "out of memory");
    holds!(rt; ended == Err(RunFault::Read), "another end");
    holds!(rt; typist.lines == 20, "other lines");
    holds!(rt; typist.early == 0, "a line was read too early");
}
