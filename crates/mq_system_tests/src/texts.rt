//! Texts that go through two queues, that are left at the end, and for which there is no memory.

use crate::calls::{CREATE, draft, first};
use crate::day::{Day, config, left_by};
use crate::system::Calls;
use crate::{granted, holds};
use mq_arena::Homecoming;
use mq_system::{ClosedSlot, DraftError};
use std::alloc::{AllocError, Global};
use std::process::Abort;
use std::sync::Wait;
use std::test::Fail;
use std::thread::Threads;

/// So many bytes, of which no two pages have the same.
fn letters(alloc: Global, len: usize) -> Result<Vec<u8>, AllocError> {
    let mut letters = vec![in alloc; 0; len]?;
    for (place, letter) in letters.iter_mut().enumerate() {
        *letter = (place % 251) as u8;
    }
    Ok(letters)
}

/// What a text is filled with by two threads, one of which takes the pages below `at`.
#[derive(Clone, Copy)]
struct Halves<'t> {
    bytes: &'t [u8],
    at: usize,
    /// How many pages the bytes need.
    count: usize,
}

fn filled<S: Calls, R: Abort + Threads + Wait>(rt: &R, system: &S, halves: Halves<'_>) -> S::Text {
    let Halves { bytes, at, count } = halves;
    let Ok(mut text) = draft(rt, system, bytes.len() as u64) else {
        panic!(rt; "a text is refused twice");
    };
    holds(rt, system.is_zero(&text), "a draft is zero");
    let shape = system.shape(&text);
    holds(rt, shape.len == bytes.len() as u64, "its length");
    holds(rt, shape.pages == count, "its pages");
    system.fill_halves(rt, &mut text, at, bytes);
    text
}

fn goes_home<S: Calls, R: Abort + Wait>(rt: &R, system: &S, text: S::Text) {
    holds(
        rt,
        system.spend(rt, text) == Homecoming::Home,
        "a text comes home",
    );
}

/// The text as it was received, after it was sent by seat 1 to this queue.
fn through<S: Calls, R: Abort + Wait>(
    rt: &R,
    system: &S,
    seats: &mut [S::Seat],
    id: u32,
    text: S::Text,
    bytes: &[u8],
) -> S::Text {
    let start = system.shape(&text).start;
    let entry = granted::sent(rt, system, seats, id, 3, text, 5);
    holds(rt, entry == 1, "it is sent by entry 1");
    let length = bytes.len() as u64;
    let delivered = granted::received(rt, system, seats, id, first(length), 6);
    let text = granted::text_of(rt, delivered, 2, 3, length);
    holds(rt, system.shows(&text, bytes), "its bytes are as they were");
    holds(
        rt,
        system.shape(&text).start == start,
        "its pages are where they were",
    );
    text
}

#[derive(Drop)]
struct TwoQueues<'t> {
    halves: Halves<'t>,
}

impl<'t> Day for TwoQueues<'t> {
    fn spend<S: Calls, R: Abort + Threads + Wait>(
        &self,
        rt: &R,
        system: &S,
        seats: &mut [S::Seat],
    ) {
        for key in 5..7i32 {
            granted::got(rt, system, seats, key, CREATE, 4);
        }
        let text = filled(rt, system, self.halves);
        let text = through(rt, system, seats, 0, text, self.halves.bytes);
        let text = through(rt, system, seats, 1, text, self.halves.bytes);
        goes_home(rt, system, text);
    }
}

/// A text of three pages, and the greatest one, of all 64.
#[test]
fn a_text_goes_through_two_queues_and_stays_where_it_is(rt: HostRuntime) -> Result<(), Fail> {
    for (len, at, count) in [(2050usize, 1, 3), (65_536, 32, 64)] {
        let letters = letters(rt.alloc(), len)?;
        let bytes = letters.as_slice();
        let halves = Halves { bytes, at, count };
        let left = left_by(&rt, rt.alloc(), config(6, 2, 9), &TwoQueues { halves });
        holds(&rt, left.free_pages == 64, "all pages are home");
    }
    Ok(())
}

/// Texts of more than half of the 16 pages are drafted.
#[derive(Drop)]
struct Drafts<'t> {
    bytes: &'t [u8],
}

/// Drafts a text of so many bytes, or of these ones.
fn drafted<S: Calls, R: Wait>(
    rt: &R,
    system: &S,
    bytes: &[u8],
    of_bytes: bool,
) -> Result<S::Text, DraftError> {
    if of_bytes {
        system.draft_of(rt, bytes)
    } else {
        system.draft(rt, bytes.len() as u64)
    }
}

/// All 16 pages are free: each half of them is a block that allocates no memory. While one is lent,
/// no run is free for these bytes, and no memory is allocated.
fn all_are_free<S: Calls, R: Abort + Wait>(rt: &R, system: &S, bytes: &[u8], of_bytes: bool) {
    let one = granted::zeros(rt, system, 8192);
    match drafted(rt, system, bytes, of_bytes) {
        Err(refusal) => holds(rt, refusal == DraftError::NoRun, "no run is free"),
        Ok(_text) => panic!(rt; "a lent page is lent again"),
    }
    let other = granted::zeros(rt, system, 8192);
    goes_home(rt, system, one);
    goes_home(rt, system, other);
}

/// A draft, made once more where there was no memory.
fn drafted_again<S: Calls, R: Abort + Wait>(
    rt: &R,
    system: &S,
    bytes: &[u8],
    of_bytes: bool,
) -> S::Text {
    match drafted(rt, system, bytes, of_bytes) {
        Ok(text) => text,
        Err(refusal) => {
            holds(rt, refusal == DraftError::Memory, "all pages are free");
            all_are_free(rt, system, bytes, of_bytes);
            match drafted(rt, system, bytes, of_bytes) {
                Ok(text) => text,
                Err(_refusal) => panic!(rt; "a text is refused though all pages are free"),
            }
        }
    }
}

/// A draft of these bytes, or of as many zeros, has nine pages.
fn is_whole<S: Calls, R: Abort>(rt: &R, system: &S, text: &S::Text, bytes: &[u8], of_bytes: bool) {
    let whole = if of_bytes {
        system.shows(text, bytes)
    } else {
        system.is_zero(text)
    };
    holds(rt, whole, "its bytes");
    holds(rt, system.shape(text).pages == 9, "nine pages");
}

impl<'t> Day for Drafts<'t> {
    fn spend<S: Calls, R: Abort + Threads + Wait>(
        &self,
        rt: &R,
        system: &S,
        _seats: &mut [S::Seat],
    ) {
        for of_bytes in [false, true] {
            let text = drafted_again(rt, system, self.bytes, of_bytes);
            is_whole(rt, system, &text, self.bytes, of_bytes);
            goes_home(rt, system, text);
            all_are_free(rt, system, self.bytes, of_bytes);
        }
    }
}

#[test]
fn a_draft_that_found_no_memory_took_no_page_and_can_be_made_again(
    rt: HostRuntime,
) -> Result<(), Fail> {
    let letters = letters(rt.alloc(), 8193)?;
    let bytes = letters.as_slice();
    let left = left_by(&rt, rt.alloc(), config(4, 1, 9), &Drafts { bytes });
    holds(&rt, left.free_pages == 16, "all pages are home");
    Ok(())
}

/// Texts are pending at the removal of a queue and at the end.
#[derive(Drop)]
struct Leaves;

fn waits<S: Calls, R: Abort + Wait>(
    rt: &R,
    system: &S,
    seats: &mut [S::Seat],
    id: u32,
    bytes: &[u8],
) {
    let text = granted::drafted(rt, system, bytes);
    granted::sent(rt, system, seats, id, 1, text, 5);
}

impl Day for Leaves {
    fn spend<S: Calls, R: Abort + Threads + Wait>(
        &self,
        rt: &R,
        system: &S,
        seats: &mut [S::Seat],
    ) {
        granted::got(rt, system, seats, 5, CREATE, 4);
        waits(rt, system, seats, 0, b"gone");
        granted::gone(rt, system, seats, 0, 6);
        let whole = granted::zeros(rt, system, 8192);
        goes_home(rt, system, whole);
        for key in 5..8i32 {
            granted::got(rt, system, seats, key, CREATE, 4);
        }
        granted::gone(rt, system, seats, 1, 6);
        waits(rt, system, seats, 64, b"one");
        waits(rt, system, seats, 64, b"two");
        waits(rt, system, seats, 2, b"four");
    }
}

/// The slot returns its whole list, has so many events of removed queues and of its last one, and
/// left so many messages.
fn slot_leaves(rt: &impl Abort, slot: &ClosedSlot, past: usize, last: usize, waited: u64) {
    holds(
        rt,
        slot.first == 0 && slot.made == 0,
        "nothing was cut off before",
    );
    holds(rt, slot.base.is_none(), "nothing waited before");
    holds(
        rt,
        slot.past.len() == past,
        "the events of the removed queues",
    );
    holds(rt, slot.last.len() == last, "the events of the live queue");
    holds(rt, slot.left == waited, "as many messages waited");
}

fn slots_leave(rt: &impl Abort, slots: &[ClosedSlot]) {
    match slots {
        [first, second, third, fourth] => {
            slot_leaves(rt, first, 3, 3, 2);
            slot_leaves(rt, second, 2, 0, 0);
            slot_leaves(rt, third, 0, 2, 1);
            slot_leaves(rt, fourth, 0, 0, 0);
        }
        _ => panic!(rt; "there were other than four slots"),
    }
}

#[test]
fn texts_pending_at_the_end_are_freed(rt: HostRuntime) {
    let left = left_by(&rt, rt.alloc(), config(3, 4, 9), &Leaves);
    holds(&rt, left.free_pages == 8, "all pages are home");
    slots_leave(&rt, left.slots.as_slice());
}
