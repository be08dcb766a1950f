//! Tests of what no clause says: that calls succeed, and what a text shows at last.
ghost use Rattle.std.specs.Prelude.{◌≡◌, ◌≤◌, length, IfOk};

use crate::day::{Day, lives};
use crate::in_text;
use crate::lender::Lender;
use crate::taking::{drafted, order_of, taken, text_of};
use mq_arena::{Homecoming, PAGE_LEN, TEXT_LEN};
use mq_message::VecBody;
use std::alloc::{AllocError, Global};
use std::process::Abort;
use std::test::Fail;
use std::thread::Threads;

pub(crate) fn home<A: Lender, R: Abort>(rt: &R, arena: &mut A, text: A::Text) {
    match arena.into_block(text) {
        Some(block) => holds!(rt; arena.put(block) == Homecoming::Home),
        None => panic!(rt; "no block"),
    }
    holds!(rt; arena.lent_pages() == 0);
}

/// The parts of a text, each by its place and its length, are such a letter and no other.
fn each_repeats<A: Lender, R: Abort>(
    rt: &R,
    arena: &A,
    text: &A::Text,
    parts: &[(usize, usize, u8)],
) {
    for (i, len, letter) in parts {
        arena.repeats(rt, text, *i, *len, *letter);
    }
}

/// Fills a text by two threads, one of which has the parts below `i`.
fn filled_at<A: Lender, R: Abort + Threads>(
    rt: &R,
    arena: &A,
    text: &mut A::Text,
    i: usize,
    bytes: &[u8],
) {
    let (front, back) = bytes.split_at(bytes.len().min(PAGE_LEN.saturating_mul(i)));
    arena.fill_halves(rt, text, i, front, back);
    arena.shows(rt, text, bytes);
}

/// Fills a text of 2,050 bytes by halves that begin at each of its parts.
fn halves_filled<A: Lender, R: Abort + Threads>(
    rt: &R,
    arena: &A,
    text: &mut A::Text,
    letters: &[u8],
) {
    filled_at(rt, arena, text, 1, letters);
    let parts = [(0, 1024, b'A'), (1, 1024, b'B'), (2, 2, b'B')];
    each_repeats(rt, arena, text, &parts);
    filled_at(rt, arena, text, 0, &[b'C'; 2050]);
    filled_at(rt, arena, text, 3, letters);
}

/// Fills the last part of that text and then the first one with one letter.
fn parts_filled<A: Lender, R: Abort>(rt: &R, arena: &A, text: &mut A::Text) {
    arena.fill_part(rt, text, 2, b'D');
    each_repeats(rt, arena, text, &[(2, 2, b'D'), (1, 1024, b'B')]);
    arena.fill_part(rt, text, 0, b'D');
    each_repeats(rt, arena, text, &[(0, 1024, b'D'), (1, 1024, b'B')]);
}

/// A text in the second block of its order, which two threads fill.
#[derive(Drop)]
struct TwoHalves<'t> {
    letters: &'t [u8],
}

impl<'t> Day for TwoHalves<'t> {
    fn spend<A: Lender, R: Abort + Threads>(&self, rt: &R, arena: &mut A) {
        let before = taken(rt, arena, 2);
        let mut text = drafted(rt, arena, 2050);
        arena.put(before);
        holds!(rt; arena.shape(&text).len == 2050);
        holds!(rt; arena.shape(&text).start == Some(4));
        arena.shows(rt, &text, &[0; 2050]);
        halves_filled(rt, arena, &mut text, self.letters);
        parts_filled(rt, arena, &mut text);
        holds!(rt; arena.shape(&text).start == Some(4));
        home(rt, arena, text);
    }
}

/// So many letters, of which the first ones are another one than the rest.
fn two_letters(alloc: Global, len: usize, first: usize) -> Result<Vec<u8>, AllocError>
    requires { first ≤ len }
{
    let mut letters = vec![in alloc; b'B'; len]?;
    letters.as_mut_slice()[..first].fill(b'A');
    Ok(letters)
}

#[test]
fn two_threads_fill_the_two_halves(rt: HostRuntime) -> Result<(), Fail> {
    let letters = two_letters(rt.alloc(), 2050, 1024)?;
    let letters = letters.as_slice();
    lives(&rt, rt.alloc(), 3, &TwoHalves { letters })
}

/// Fills the longest text: its first half with one letter, and the rest with another.
fn most_filled<A: Lender, R: Abort + Threads>(
    rt: &R,
    arena: &A,
    text: &mut A::Text,
    letters: &[u8],
) {
    filled_at(rt, arena, text, 32, letters);
    each_repeats(rt, arena, text, &[(31, 1024, b'A'), (32, 1024, b'B')]);
    for i in [0, 63, 64] {
        filled_at(rt, arena, text, i, letters);
    }
}

/// Fills the first part and the last one of that text with one letter.
fn ends_filled<A: Lender, R: Abort>(rt: &R, arena: &A, text: &mut A::Text) {
    arena.fill_part(rt, text, 0, b'D');
    arena.fill_part(rt, text, 63, b'D');
    let parts = [
        (0, 1024, b'D'),
        (1, 1024, b'A'),
        (62, 1024, b'B'),
        (63, 1024, b'D'),
    ];
    each_repeats(rt, arena, text, &parts);
}

/// The longest text in the second block of its order, which two threads fill.
#[derive(Drop)]
struct Longest<'t> {
    letters: &'t [u8],
}

impl<'t> Day for Longest<'t> {
    fn spend<A: Lender, R: Abort + Threads>(&self, rt: &R, arena: &mut A) {
        let before = taken(rt, arena, 6);
        let mut text = drafted(rt, arena, TEXT_LEN);
        arena.put(before);
        holds!(rt; arena.shape(&text).count == 64);
        holds!(rt; arena.shape(&text).start == Some(64));
        arena.text_is_zero(rt, &text);
        most_filled(rt, arena, &mut text, self.letters);
        ends_filled(rt, arena, &mut text);
        holds!(rt; arena.shape(&text).start == Some(64));
        holds!(rt; arena.lent_pages() == 64);
        home(rt, arena, text);
    }
}

#[test]
fn two_threads_fill_the_64_parts_of_the_longest_text(rt: HostRuntime) -> Result<(), Fail> {
    let letters = two_letters(rt.alloc(), TEXT_LEN, TEXT_LEN / 2)?;
    let letters = letters.as_slice();
    lives(&rt, rt.alloc(), 7, &Longest { letters })
}

/// The pages of a text are lent to two threads, one of which has those below `i`.
#[derive(Drop)]
struct PagesLent<'t> {
    len: usize,
    i: usize,
    front: &'t [u8],
    back: &'t [u8],
    /// The place, the length and the letter of parts that are seen then.
    parts: &'t [(usize, usize, u8)],
}

impl<'t> Day for PagesLent<'t> {
    fn spend<A: Lender, R: Abort + Threads>(&self, rt: &R, arena: &mut A) {
        let mut text = drafted(rt, arena, self.len);
        let len = self.len as u64;
        holds!(rt; arena.shape(&text).len == len);
        arena.write_halves(rt, &mut text, self.i, self.front, self.back);
        holds!(rt; arena.shape(&text).len == len);
        each_repeats(rt, arena, &text, self.parts);
        home(rt, arena, text);
    }
}

#[test]
fn two_threads_write_the_pages_of_the_two_halves(rt: HostRuntime) -> Result<(), Fail> {
    let day = PagesLent {
        len: 1030,
        i: 1,
        front: &[b'A'; 1024],
        back: &[b'B'; 1024],
        parts: &[(0, 1024, b'A'), (1, 6, b'B')],
    };
    lives(&rt, rt.alloc(), 1, &day)
}

#[test]
fn two_threads_write_the_pages_of_a_text_of_64_parts(rt: HostRuntime) -> Result<(), Fail> {
    let front = vec![in rt.alloc(); b'A'; 32_768]?;
    let back = vec![in rt.alloc(); b'B'; 32_768]?;
    let day = PagesLent {
        len: 65_530,
        i: 32,
        front: front.as_slice(),
        back: back.as_slice(),
        parts: &[
            (0, 1024, b'A'),
            (31, 1024, b'A'),
            (32, 1024, b'B'),
            (63, 1018, b'B'),
        ],
    };
    lives(&rt, rt.alloc(), 6, &day)
}

/// A text that is zero at first and is filled with these letters.
fn filled<A: Lender, R: Abort>(rt: &R, arena: &mut A, letters: &[u8], count: usize) {
    let mut text = drafted(rt, arena, letters.len());
    holds!(rt; arena.shape(&text).count == count);
    arena.text_is_zero(rt, &text);
    holds!(rt; arena.shape(&text).len == letters.len() as u64);
    arena.fill(rt, &mut text, letters);
    arena.shows(rt, &text, letters);
    home(rt, arena, text);
}

/// A text that has these letters from the start.
fn made<A: Lender, R: Abort>(rt: &R, arena: &mut A, letters: &[u8], order: u8) {
    let text = text_of(rt, arena, letters);
    holds!(rt; arena.shape(&text).order == Some(order));
    arena.shows(rt, &text, letters);
    home(rt, arena, text);
}

/// Texts of these letters, of which there are enough for the longest.
#[derive(Drop)]
struct EachSize<'t> {
    letters: &'t [u8],
}

impl<'t> Day for EachSize<'t> {
    fn spend<A: Lender, R: Abort + Threads>(&self, rt: &R, arena: &mut A) {
        for (len, order, count) in [
            (1, 0, 1),
            (1023, 0, 1),
            (1024, 0, 1),
            (1025, 1, 2),
            (2049, 2, 3),
            (8191, 3, 8),
            (8192, 3, 8),
            (8193, 4, 9),
            (16_384, 4, 16),
            (16_385, 5, 17),
            (32_768, 5, 32),
            (32_769, 6, 33),
            (65_535, 6, 64),
            (65_536, 6, 64),
        ] {
            holds!(rt; len <= self.letters.len());
            let (letters, _) = self.letters.split_at(len);
            holds!(rt; order_of(rt, len) == order);
            filled(rt, arena, letters, count);
            made(rt, arena, letters, order);
        }
    }
}

#[test]
fn a_drafted_text_is_zero_and_can_be_filled(rt: HostRuntime) -> Result<(), Fail> {
    let letters = vec![in rt.alloc(); b'E'; TEXT_LEN]?;
    let letters = letters.as_slice();
    lives(&rt, rt.alloc(), 6, &EachSize { letters })
}

struct CutAndSpent;

impl Day for CutAndSpent {
    fn spend<A: Lender, R: Abort + Threads>(&self, rt: &R, arena: &mut A) {
        let mut text = drafted(rt, arena, 2050);
        for (len, count) in [(3000, 3), (2048, 2)] {
            arena.cut_to(rt, &mut text, len);
            holds!(rt; arena.shape(&text).count == count);
        }
        arena.cut_to(rt, &mut text, 0);
        arena.shows(rt, &text, &[]);
        holds!(rt; arena.shape(&text).start == Some(0));
        holds!(rt; arena.lent_pages() == 4);
        home(rt, arena, text);
    }
}

#[test]
fn a_cut_text_keeps_its_block(rt: HostRuntime) -> Result<(), Fail> {
    lives(&rt, rt.alloc(), 2, &CutAndSpent)
}

struct LongestCut;

impl Day for LongestCut {
    fn spend<A: Lender, R: Abort + Threads>(&self, rt: &R, arena: &mut A) {
        let mut text = drafted(rt, arena, TEXT_LEN);
        for (len, count) in [
            (65_537, 64),
            (65_535, 64),
            (64_513, 64),
            (64_512, 63),
            (8193, 9),
            (8192, 8),
            (1, 1),
            (0, 0),
        ] {
            arena.cut_to(rt, &mut text, len);
            holds!(rt; arena.shape(&text).count == count);
            holds!(rt; arena.shape(&text).order == Some(6));
        }
        arena.shows(rt, &text, &[]);
        holds!(rt; arena.shape(&text).start == Some(0));
        holds!(rt; arena.lent_pages() == 64);
        home(rt, arena, text);
    }
}

#[test]
fn the_longest_text_keeps_its_block_where_it_is_cut(rt: HostRuntime) -> Result<(), Fail> {
    lives(&rt, rt.alloc(), 6, &LongestCut)
}

struct HasNothing;

impl Day for HasNothing {
    fn spend<A: Lender, R: Abort + Threads>(&self, rt: &R, arena: &mut A) {
        let mut text = arena.no_text();
        filled_at(rt, arena, &mut text, 0, &[]);
        arena.fill(rt, &mut text, &[]);
        arena.cut_to(rt, &mut text, 5);
        holds!(rt; arena.shape(&text).count == 0);
        holds!(rt; arena.shape(&text).start == None);
        if let Some(block) = arena.into_block(text) {
            arena.put(block);
            panic!(rt; "a block");
        }
    }
}

#[test]
fn the_empty_text_has_no_block_and_no_part(rt: HostRuntime) -> Result<(), Fail> {
    lives(&rt, rt.alloc(), 0, &HasNothing)
}

#[test]
fn a_vector_is_a_body(rt: HostRuntime) -> Result<(), Fail> {
    let mut body = VecBody::from_slice(rt.alloc(), b"hello")?;
    in_text::cut_to(&rt, &mut body, 4);
    holds!(rt; body.bytes() == b"hell".as_slice());
    let body = VecBody::from_vec(vec![in rt.alloc(); b'x'; 3]?);
    holds!(rt; body.bytes() == b"xxx".as_slice());
    Ok(())
}
