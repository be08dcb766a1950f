//! Tests that the two halves of a text are written by two threads at once.
ghost use Rattle.std.specs.Prelude.{◌≤◌, length};
ghost use Rattle.mq_arena.specs.Bytes.{AreWhole};

use crate::day::{Day, lives, opened};
use crate::lender::Lender;
use crate::taking::drafted;
use crate::texts::home;
use mq_arena::{LEDGER_PARTS, PAGE_LEN, Page, Text, Unopened, fill};
use std::fs;
use std::fs::Files;
use std::marker::Brand;
use std::process::Abort;
use std::sync::Arc;
use std::sync::atomic::{AtomicBool, Ordering};
use std::sync::ledger::{Blank, Ledger};
use std::test::Fail;
use std::thread::{Threads, spawn, yield_now};

// How often a half polls for the other one before it fails.
const TURNS: u32 = 1_000_000;

// How often the halves are filled before a test fails that polls for the second thread.
const FILLS: u32 = 100_000;

// Raises a flag and waits for the other one. Whether it is raised.
fn meets(own: &AtomicBool, other: &AtomicBool) -> bool {
    own.store(true, Ordering::SeqCst);
    for _ in 0..TURNS {
        if other.load(Ordering::SeqCst) {
            return true;
        }
        yield_now();
    }
    false
}

// Fills the first page, once the other half is being written too, or else raises the third flag.
fn written(own: &AtomicBool, other: &AtomicBool, alone: &AtomicBool, pages: &mut [Page], letter: u8)
    requires whole { AreWhole pages.old }
    requires some { 1 ≤ length pages.old }
    ensures whole { AreWhole pages.new }
{
    if !meets(own, other) {
        alone.store(true, Ordering::SeqCst);
    }
    fill(pages, &[letter; PAGE_LEN]);
}

/// Writes the first page of each half of a text's block, which are split at page `i`, while the
/// other half is written too.
pub(crate) fn write_both<L: Ledger, R: Abort + Threads>(rt: &R, text: &mut Text<L>, i: usize) {
    let Some(order) = text.order() else {
        panic!(rt; "no block");
    };
    holds!(rt; 1 <= i);
    holds!(rt; i <= text.count());
    holds!(rt; i < 1usize << order);
    let front = AtomicBool::new(false);
    let back = AtomicBool::new(false);
    let alone = AtomicBool::new(false);
    text.write_halves(
        rt,
        i,
        |pages: &mut [Page]| written(&front, &back, &alone, pages, b'A'),
        |pages: &mut [Page]| written(&back, &front, &alone, pages, b'B'),
    );
    let is_alone = alone.load(Ordering::SeqCst);
    holds!(rt;
        !is_alone,
        "one half is written after the other, or there is no memory for a thread"
    );
}

struct HalvesMeet;

impl Day for HalvesMeet {
    fn spend<A: Lender, R: Abort + Threads>(&self, rt: &R, arena: &mut A) {
        for (len, i) in [(2 * PAGE_LEN, 1), (4 * PAGE_LEN, 2)] {
            let mut text = drafted(rt, arena, len);
            arena.write_both(rt, &mut text, i);
            arena.repeats(rt, &text, 0, PAGE_LEN, b'A');
            arena.repeats(rt, &text, i, PAGE_LEN, b'B');
            home(rt, arena, text);
        }
    }
}

#[test]
fn each_half_is_written_while_the_other_is(rt: HostRuntime) -> Result<(), Fail> {
    lives(&rt, rt.alloc(), 2, &HalvesMeet)
}

// How many threads a process has by this status.
fn threads_in(status: &str) -> Option<u32> {
    let line = status.lines().find(|line| line.starts_with("Threads:"))?;
    line.trim_start_matches("Threads:").trim().parse().ok()
}

// How many threads this process has, as Linux reports it.
fn thread_count<R: Files + Alloc>(rt: &R) -> Option<u32> {
    let status = fs::read_to_string(rt, "/proc/self/status").ok()?;
    threads_in(&status)
}

// Raises the flag once there are more threads than that.
fn looks_for_more<R: Files + Alloc>(rt: &R, most: u32, seen: &AtomicBool) {
    for _ in 0..TURNS {
        if thread_count(rt).unwrap_or(0) > most {
            seen.store(true, Ordering::SeqCst);
            return;
        }
    }
}

// Fills the halves again and again, until the flag is raised.
fn fills_on<A: Lender, R: Abort + Threads>(
    rt: &R,
    arena: &A,
    text: &mut A::Text,
    seen: &AtomicBool,
) {
    for _ in 0..FILLS {
        if seen.load(Ordering::SeqCst) {
            return;
        }
        arena.fill_halves(rt, text, 1, &[b'A'; PAGE_LEN], &[b'B'; PAGE_LEN]);
    }
    panic!(rt; "the halves are filled one after the other");
}

/// The halves of a text are filled until the flag is raised.
#[derive(Drop)]
struct Fills<'t> {
    seen: &'t AtomicBool,
}

impl<'t> Day for Fills<'t> {
    fn spend<A: Lender, R: Abort + Threads>(&self, rt: &R, arena: &mut A) {
        let mut text = drafted(rt, arena, 2 * PAGE_LEN);
        fills_on(rt, arena, &mut text, self.seen);
        home(rt, arena, text);
    }
}

// One thread fills, and another one polls for the third, which is there while both halves are
// filled at once.
#[test]
fn each_half_is_filled_by_a_thread_of_its_own(rt: HostRuntime) -> Result<(), Fail> {
    let unopened = Unopened::new(rt.alloc(), 1)?;
    let before = thread_count(&rt).expect(&rt, "no memory for the count of threads");
    let seen = Arc::new(rt.alloc(), AtomicBool::new(false)).expect(&rt, "no memory for a flag");
    let raised = Arc::try_clone(&seen)?;
    let most = before.saturating_add(1);
    let watch = spawn(&rt, move || looks_for_more(&rt, most, &raised)).expect(
        &rt,
        "no memory for a thread",
    );
    let day = Fills { seen: &seen };
    opened::<Brand, Fills<'_>, HostRuntime>(&rt, unopened, Blank::new(LEDGER_PARTS), &day);
    watch.join(&rt);
    Ok(())
}
