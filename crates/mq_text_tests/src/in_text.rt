//! What is written into a text, and what it shows then.
ghost use Rattle.std.specs.Prelude.{◌≡◌, ◌<◌, length};
ghost use Rattle.mq_arena.specs.Text.{count_of};

use crate::bytes::{after, are_all};
use mq_arena::{MAX_PAGES, PAGE_LEN, Page, Text, fill};
use mq_message::Body;
use std::process::Abort;
use std::sync::ledger::Ledger;
use std::thread::Threads;

pub(crate) fn repeats<L: Ledger>(
    rt: &impl Abort,
    text: &Text<L>,
    i: usize,
    len: usize,
    letter: u8,
) {
    holds!(rt; i < text.count());
    let part = text.part(i);
    holds!(rt; part.len() == len);
    are_all(rt, part, letter);
}

/// This is the part of the text at that place.
fn is_part<L: Ledger>(rt: &impl Abort, text: &Text<L>, i: usize, part: &[u8]) {
    holds!(rt; i < text.count());
    holds!(rt; part == text.part(i));
}

pub(crate) fn shows<L: Ledger>(rt: &impl Abort, text: &Text<L>, bytes: &[u8]) {
    let mut rest = bytes;
    let mut i: usize = 0;
    for part in text.parts() {
        rest = after(rt, part, rest);
        is_part(rt, text, i, part);
        i = i.saturating_add(1);
    }
    holds!(rt; rest.is_empty());
    holds!(rt; i == text.count());
}

pub(crate) fn is_zero<L: Ledger>(rt: &impl Abort, text: &Text<L>) {
    for part in text.parts() {
        are_all(rt, part, 0);
    }
}

#[tactic(auto, using(mq_arena::proofs::Loans::left_length))]
pub(crate) fn fill_part<L: Ledger>(text: &mut Text<L>, i: usize, letter: u8)
    requires { i < count_of (length text.old.bytes) }
{
    text.part_mut(i).fill(letter);
}

pub(crate) fn fill_halves<L: Ledger, R: Abort + Threads>(
    rt: &R,
    text: &mut Text<L>,
    i: usize,
    front: &[u8],
    back: &[u8],
) {
    let len = front.len().saturating_add(back.len());
    holds!(rt; text.len() == len as u64);
    holds!(rt; i <= text.count());
    holds!(rt; i <= MAX_PAGES);
    holds!(rt; front.len() == len.min(PAGE_LEN * i));
    text.fill_halves(rt, i, front, back);
}

/// Writes these bytes over pages of the text's block by two threads, one of which is lent those
/// below `i`.
pub(crate) fn write_halves<L: Ledger, R: Abort + Threads>(
    rt: &R,
    text: &mut Text<L>,
    i: usize,
    front: &[u8],
    back: &[u8],
) {
    let Some(order) = text.order() else {
        panic!(rt; "no block");
    };
    let pages = 1usize << order;
    holds!(rt; i <= text.count());
    holds!(rt; i <= pages);
    holds!(rt; front.len() <= PAGE_LEN * i);
    holds!(rt; back.len() <= PAGE_LEN * (pages - i));
    text.write_halves(
        rt,
        i,
        |pages: &mut [Page]| fill(pages, front),
        |pages: &mut [Page]| fill(pages, back),
    );
}

pub(crate) fn cut_to<B: Body>(rt: &impl Abort, body: &mut B, n: u64) {
    let len = body.len();
    body.cut(n);
    holds!(rt; body.len() == len.min(n));
}
