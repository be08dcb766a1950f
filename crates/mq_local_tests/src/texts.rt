//! Texts that are drafted, sent, received and spent.

use crate::calls::{CREATE, Wanted, delivered, drafted, first, get, send, spent, taken, written};
use crate::day::{Day, config, lives};
use crate::holds;
use crate::system::Calls;
use mq_calls::{DraftError, SendRefused};
use std::process::Abort;

/// No text of this length is drafted, for this reason.
fn not_drafted<S: Calls>(rt: &impl Abort, system: &mut S, len: u64, reason: DraftError) {
    match system.draft(len) {
        Ok(_text) => panic!(rt; "a text was drafted"),
        Err(refusal) => holds(rt, refusal == reason, "refused for another reason"),
    }
}

/// So many pages are free, and the greatest order that fits is this one.
fn is_free<S: Calls>(rt: &impl Abort, system: &S, pages: u32, largest: Option<u8>) {
    holds(rt, system.free_pages() == pages, "other pages are free");
    holds(rt, system.largest() == largest, "another order fits");
}

/// The text has so many of this letter, in as many pages as these take, and begins at this page.
fn is<S: Calls>(
    rt: &impl Abort,
    system: &S,
    text: &S::Text,
    len: u64,
    letter: u8,
    start: Option<u32>,
) {
    let shape = system.shape(text);
    holds(rt, shape.len == len, "another length");
    holds(rt, shape.pages as u64 == len.div_ceil(1024), "other pages");
    holds(rt, shape.start == start, "it begins elsewhere");
    holds(rt, system.is_all(text, letter), "other bytes");
}

/// A draft, which is zero, and begins at this page.
fn zeros<S: Calls>(rt: &impl Abort, system: &mut S, len: u64, start: Option<u32>) -> S::Text {
    let text = drafted(rt, system, len);
    is(rt, system, &text, len, 0, start);
    text
}

/// The length of a text, what is free beside it, and where it begins.
type Beside = (u64, u32, Option<u8>, Option<u32>);

const LENGTHS: [Beside; 15] = [
    (0, 64, Some(6), None),
    (1, 63, Some(5), Some(0)),
    (1024, 63, Some(5), Some(0)),
    (1025, 62, Some(5), Some(0)),
    (2048, 62, Some(5), Some(0)),
    (2049, 60, Some(5), Some(0)),
    (4096, 60, Some(5), Some(0)),
    (4097, 56, Some(5), Some(0)),
    (8192, 56, Some(5), Some(0)),
    (8193, 48, Some(5), Some(0)),
    (16_384, 48, Some(5), Some(0)),
    (16_385, 32, Some(5), Some(0)),
    (32_768, 32, Some(5), Some(0)),
    (32_769, 0, None, Some(0)),
    (65_536, 0, None, Some(0)),
];

#[derive(Drop)]
struct EachLength;

impl Day for EachLength {
    fn spend<S: Calls, R: Abort>(&self, rt: &R, system: &mut S) {
        for (len, free, largest, start) in LENGTHS {
            let text = zeros(rt, system, len, start);
            is_free(rt, system, free, largest);
            spent(rt, system, text);
            is_free(rt, system, 64, Some(6));
        }
    }
}

#[test]
fn a_draft_is_zero_and_takes_the_smallest_block(rt: HostRuntime) {
    lives(&rt, rt.alloc(), config(6, 1, 9), &EachLength);
}

/// Drafts that are refused, in an arena of this height and of so many bytes.
#[derive(Drop)]
struct Refusals {
    height: u8,
    bytes: u64,
}

impl Day for Refusals {
    fn spend<S: Calls, R: Abort>(&self, rt: &R, system: &mut S) {
        let page = zeros(rt, system, 1, Some(0));
        not_drafted(rt, system, self.bytes, DraftError::NoRun);
        not_drafted(rt, system, self.bytes / 2 + 1, DraftError::NoRun);
        not_drafted(rt, system, 65_537, DraftError::TooLong);
        spent(rt, system, page);
        let whole = zeros(rt, system, self.bytes, Some(0));
        is_free(rt, system, 0, None);
        for len in [1, 8193, 65_536] {
            not_drafted(rt, system, len, DraftError::NoRun);
        }
        for len in [65_537, u64::MAX] {
            not_drafted(rt, system, len, DraftError::TooLong);
        }
        // The empty text needs no page.
        let empty = zeros(rt, system, 0, None);
        spent(rt, system, empty);
        spent(rt, system, whole);
        holds(rt, system.largest() == Some(self.height), "not all is free");
    }
}

#[test]
fn a_draft_is_refused_where_it_is_too_long_or_no_run_is_free(rt: HostRuntime) {
    let short = Refusals {
        height: 3,
        bytes: 8192,
    };
    lives(&rt, rt.alloc(), config(3, 1, 9), &short);
    let long = Refusals {
        height: 6,
        bytes: 65_536,
    };
    lives(&rt, rt.alloc(), config(6, 1, 9), &long);
}

/// Beside a page of 64 a text of half their bytes has a run, and one of a quarter beside both.
#[derive(Drop)]
struct LongRefusals;

impl Day for LongRefusals {
    fn spend<S: Calls, R: Abort>(&self, rt: &R, system: &mut S) {
        let page = zeros(rt, system, 1, Some(0));
        let half = zeros(rt, system, 32_768, Some(32));
        not_drafted(rt, system, 16_385, DraftError::NoRun);
        let quarter = zeros(rt, system, 8193, Some(16));
        not_drafted(rt, system, 8193, DraftError::NoRun);
        is_free(rt, system, 15, Some(3));
        spent(rt, system, page);
        spent(rt, system, quarter);
        spent(rt, system, half);
    }
}

#[test]
fn a_long_draft_is_refused_just_where_no_run_is_free(rt: HostRuntime) {
    lives(&rt, rt.alloc(), config(6, 1, 9), &LongRefusals);
}

/// A text of 8,193 letters, made once more where there was no memory: all pages are free then.
fn long_written<S: Calls>(rt: &impl Abort, system: &mut S) -> S::Text {
    match system.draft_of(&[b'a'; 8193]) {
        Ok(text) => return text,
        Err(refusal) => holds(rt, refusal == DraftError::Memory, "not drafted"),
    }
    is_free(rt, system, 64, Some(6));
    match system.draft_of(&[b'a'; 8193]) {
        Ok(text) => text,
        Err(_) => panic!(rt; "not drafted"),
    }
}

#[derive(Drop)]
struct LongText;

impl Day for LongText {
    fn spend<S: Calls, R: Abort>(&self, rt: &R, system: &mut S) {
        let text = long_written(rt, system);
        is(rt, system, &text, 8193, b'a', Some(0));
        is_free(rt, system, 48, Some(5));
        spent(rt, system, text);
        is_free(rt, system, 64, Some(6));
    }
}

/// Run with each allocation refused in turn, which is where memory for a draft is refused.
#[test]
fn a_draft_without_memory_leaves_all_pages_free_and_is_then_made(rt: HostRuntime) {
    lives(&rt, rt.alloc(), config(6, 1, 9), &LongText);
}

/// A text that is sent with type 0 is returned.
fn handed_back<S: Calls>(rt: &impl Abort, system: &mut S, text: S::Text) -> S::Text {
    match send(system, 0, 0, text, 5) {
        Ok(_) => panic!(rt; "type 0 was sent"),
        Err(SendRefused { refused: _, text }) => text,
    }
}

/// These are the bytes of the text, which begins at the second page of two, of which one is free.
fn is_second<S: Calls>(rt: &impl Abort, system: &S, text: &S::Text, bytes: &[u8]) {
    holds(rt, system.has(text, bytes), "other bytes");
    let start = system.shape(text).start;
    holds(rt, start == Some(1), "it begins elsewhere");
    is_free(rt, system, 1, Some(0));
}

#[derive(Drop)]
struct HelloCut;

impl Day for HelloCut {
    fn spend<S: Calls, R: Abort>(&self, rt: &R, system: &mut S) {
        holds(rt, get(system, 9, CREATE, 4).is_ok(), "no queue");
        let before = written(rt, system, b"before");
        let text = written(rt, system, b"hello");
        spent(rt, system, before);
        let text = handed_back(rt, system, text);
        is_second(rt, system, &text, b"hello");
        taken(rt, system, 0, 3, text);
        let cut = Wanted {
            noerror: true,
            ..first(2)
        };
        let text = delivered(rt, system, 0, cut).text;
        is_second(rt, system, &text, b"he");
        spent(rt, system, text);
    }
}

#[test]
fn a_text_is_cut_by_noerror_and_keeps_its_block(rt: HostRuntime) {
    lives(&rt, rt.alloc(), config(1, 1, 9), &HelloCut);
}
