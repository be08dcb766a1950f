//! Tests of what no clause says: that calls succeed, and what a block shows at last.

use crate::day::{Day, lives};
use crate::lender::Lender;
use crate::taking::{asked, taken, taken_filled};
use mq_arena::{Homecoming, INLINE_ORDER, MAX_ORDER, PAGE_LEN, TakeError, Unopened};
use mq_tree::TreeError;
use std::alloc::Global;
use std::process::Abort;
use std::test::Fail;
use std::thread::Threads;

fn taken_at<A: Lender, R: Abort>(rt: &R, arena: &mut A, order: u8, start: u32) -> A::Block {
    let block = taken(rt, arena, order);
    holds!(rt; arena.start(&block) == start);
    block
}

fn given<A: Lender, R: Abort>(rt: &R, arena: &mut A, block: A::Block) {
    holds!(rt; arena.put(block) == Homecoming::Home);
}

/// Whether a block of that order fits, which is then freed.
fn fits<A: Lender, R: Abort>(rt: &R, arena: &mut A, order: u8) -> bool {
    match asked(rt, arena, order) {
        Ok(block) => {
            given(rt, arena, block);
            true
        }
        Err(refusal) => {
            holds!(rt; refusal == TakeError::NoRun);
            false
        }
    }
}

/// Blocks of each order up to that one fit, and none of an order over it; where it is `None`, none
/// at all.
fn fits_to<A: Lender, R: Abort>(rt: &R, arena: &mut A, most: Option<u8>) {
    holds!(rt; arena.largest() == most);
    for order in 0..=MAX_ORDER {
        let is_within = Some(order) <= most;
        assert!(rt; fits(rt, arena, order) == is_within, "the order {order}");
    }
}

/// The one block of an arena of that order is filled and taken again, twice.
#[derive(Drop)]
struct UsedAgain<'t> {
    order: u8,
    letters: &'t [u8],
}

fn written<A: Lender, R: Abort>(rt: &R, arena: &mut A, used: &UsedAgain<'_>) {
    let mut block = taken_at(rt, arena, used.order, 0);
    arena.write_block(rt, &mut block, used.letters);
    given(rt, arena, block);
}

fn zero_again<A: Lender, R: Abort>(rt: &R, arena: &mut A, order: u8) {
    let block = taken_at(rt, arena, order, 0);
    arena.block_is_zero(rt, &block);
    given(rt, arena, block);
}

fn filled_again<A: Lender, R: Abort>(rt: &R, arena: &mut A, order: u8) {
    let block = taken_filled(rt, arena, order, &[5; 1500]);
    holds!(rt; arena.start(&block) == 0);
    arena.block_is_filled(rt, &block);
    given(rt, arena, block);
}

impl<'t> Day for UsedAgain<'t> {
    fn spend<A: Lender, R: Abort + Threads>(&self, rt: &R, arena: &mut A) {
        written(rt, arena, self);
        zero_again(rt, arena, self.order);
        written(rt, arena, self);
        filled_again(rt, arena, self.order);
        zero_again(rt, arena, self.order);
    }
}

/// So many letters as a block of that order has bytes.
fn letters(alloc: Global, order: u8, letter: u8) -> Result<Vec<u8>, Fail> {
    Ok(vec![in alloc; letter; PAGE_LEN.wrapping_shl(u32::from(order))]?)
}

#[test]
fn a_page_is_zero_after_it_was_used(rt: HostRuntime) -> Result<(), Fail> {
    for order in [1, 3, 4, 5, 6] {
        let letters = letters(rt.alloc(), order, 7)?;
        let letters = letters.as_slice();
        lives(&rt, rt.alloc(), order, &UsedAgain { order, letters })?;
    }
    Ok(())
}

struct FillsUp;

impl Day for FillsUp {
    fn spend<A: Lender, R: Abort + Threads>(&self, rt: &R, arena: &mut A) {
        holds!(rt; arena.pages() == 4);
        fits_to(rt, arena, Some(2));
        let mut pair = taken_at(rt, arena, 1, 0);
        let one = taken_at(rt, arena, 0, 2);
        fits_to(rt, arena, Some(0));
        holds!(rt; arena.free_pages() == 1);
        holds!(rt; arena.lent_pages() == 3);

        arena.account(&mut pair);
        given(rt, arena, pair);
        fits_to(rt, arena, Some(1));
        given(rt, arena, one);
        fits_to(rt, arena, Some(2));
        holds!(rt; arena.lent_pages() == 0);
    }
}

#[test]
fn take_answers_no_run_where_nothing_fits(rt: HostRuntime) -> Result<(), Fail> {
    lives(&rt, rt.alloc(), 2, &FillsUp)
}

/// Blocks that halve what is free, from a whole arena of 64 pages down to four.
struct Halved;

impl Day for Halved {
    fn spend<A: Lender, R: Abort + Threads>(&self, rt: &R, arena: &mut A) {
        fits_to(rt, arena, Some(6));
        let whole = taken_at(rt, arena, 6, 0);
        fits_to(rt, arena, None);
        given(rt, arena, whole);
        let page = taken_at(rt, arena, 0, 0);
        fits_to(rt, arena, Some(5));
        let half = taken_at(rt, arena, 5, 32);
        fits_to(rt, arena, Some(4));
        let quarter = taken_at(rt, arena, 4, 16);
        fits_to(rt, arena, Some(3));
        let eighth = taken_at(rt, arena, 3, 8);
        fits_to(rt, arena, Some(2));

        given(rt, arena, quarter);
        fits_to(rt, arena, Some(4));
        given(rt, arena, half);
        fits_to(rt, arena, Some(5));
        given(rt, arena, page);
        fits_to(rt, arena, Some(5));
        given(rt, arena, eighth);
        fits_to(rt, arena, Some(6));
    }
}

#[test]
fn no_run_is_returned_exactly_where_no_large_block_fits(rt: HostRuntime) -> Result<(), Fail> {
    lives(&rt, rt.alloc(), 6, &Halved)
}

/// The whole of an arena of that height fits while nothing is lent, its half beside a page, and
/// nothing beside all its pages.
#[derive(Drop)]
struct FitsWithin {
    height: u8,
}

impl Day for FitsWithin {
    fn spend<A: Lender, R: Abort + Threads>(&self, rt: &R, arena: &mut A) {
        fits_to(rt, arena, Some(self.height));
        let page = taken_at(rt, arena, 0, 0);
        fits_to(rt, arena, self.height.checked_sub(1));
        given(rt, arena, page);
        let whole = taken_at(rt, arena, self.height, 0);
        fits_to(rt, arena, None);
        given(rt, arena, whole);
    }
}

#[test]
fn no_block_is_larger_than_its_arena(rt: HostRuntime) -> Result<(), Fail> {
    for height in 0..=MAX_ORDER {
        lives(&rt, rt.alloc(), height, &FitsWithin { height })?;
    }
    Ok(())
}

/// Nothing of an arena of 64 pages is lent.
fn is_whole<A: Lender>(rt: &impl Abort, arena: &A) {
    holds!(rt; arena.free_pages() == 64);
    holds!(rt; arena.largest() == Some(6));
}

/// A block of that order from an arena of 64 pages, at the second try where its memory was refused.
fn taken_at_last<A: Lender, R: Abort>(rt: &R, arena: &mut A, order: u8) {
    is_whole(rt, arena);
    let block = taken_at(rt, arena, order, 0);
    holds!(rt; arena.lent_pages() == 1u32.wrapping_shl(u32::from(order)));
    given(rt, arena, block);
    is_whole(rt, arena);
}

struct EachTakenAtLast;

impl Day for EachTakenAtLast {
    fn spend<A: Lender, R: Abort + Threads>(&self, rt: &R, arena: &mut A) {
        for order in INLINE_ORDER + 1..=MAX_ORDER {
            taken_at_last(rt, arena, order);
        }
    }
}

/// Run with each allocation refused in turn, which is where a block's memory is refused.
#[test]
fn a_large_block_whose_memory_is_refused_leaves_all_pages_free_and_is_then_taken(
    rt: HostRuntime,
) -> Result<(), Fail> {
    lives(&rt, rt.alloc(), 6, &EachTakenAtLast)
}

/// The halves of a block of that order from an arena of 64 pages are written, split where they may
/// be.
#[derive(Drop)]
struct Halves<'t> {
    order: u8,
    first: &'t [u8],
    second: &'t [u8],
}

impl<'t> Day for Halves<'t> {
    fn spend<A: Lender, R: Abort + Threads>(&self, rt: &R, arena: &mut A) {
        let mut block = taken_at(rt, arena, self.order, 0);
        let count = 1usize.wrapping_shl(u32::from(self.order));
        for i in [0, 1, count / 2, count] {
            arena.write_block_at(rt, &mut block, i, self.first, self.second);
        }
        holds!(rt; arena.order(&block) == self.order);
        given(rt, arena, block);
    }
}

#[test]
fn two_threads_write_the_two_halves(rt: HostRuntime) -> Result<(), Fail> {
    for order in [2, 4, 5, 6] {
        let first = letters(rt.alloc(), order, b'A')?;
        let second = letters(rt.alloc(), order, b'B')?;
        let day = Halves {
            order,
            first: first.as_slice(),
            second: second.as_slice(),
        };
        lives(&rt, rt.alloc(), 6, &day)?;
    }
    Ok(())
}

#[test]
fn an_arena_is_refused_by_height_and_by_memory_alone(rt: HostRuntime) {
    match Unopened::new(rt.alloc(), 11) {
        Ok(_) => panic!(rt; "a height of 11"),
        Err(refused) => holds!(rt; refused == TreeError::Height),
    }
    if let Err(refused) = Unopened::new(rt.alloc(), 2) {
        holds!(rt; refused == TreeError::Memory);
    }
}
