//! The buddy tree of an arena (Knowlton), compared with a plain set of pages over all runs of six
//! steps on up to eight pages; and the largest tree.

use mq_tree::{MAX_HEIGHT, OrderTree, TreeError};
use std::alloc::Global;
use std::process::Abort;

// A tree, made again where memory for it was refused once.
fn tree_of(rt: &impl Abort, alloc: Global, height: u8) -> OrderTree {
    match OrderTree::new(alloc, height) {
        Ok(tree) => tree,
        Err(e) => {
            holds!(rt; e == TreeError::Memory);
            OrderTree::new(alloc, height).expect(rt, "memory is refused once at most")
        }
    }
}

// What is lent of up to eight pages: the pages, one bit each, and the order of each block by its
// start.
#[derive(Drop)]
struct Plain {
    height: u8,
    pages: u8,
    orders: [Option<u8>; 8],
}

// The pages of a block, which starts below 8.
fn pages_of(start: u32, order: u8) -> u8 {
    let first = match order {
        0 => 0b1u8,
        1 => 0b11,
        2 => 0b1111,
        _ => 0b1111_1111,
    };
    first.wrapping_shl(start)
}

impl Plain {
    fn first_fit(&self, order: u8) -> Option<u32> {
        if order > self.height || self.height > 3 {
            return None;
        }
        let low_bits = (1u32 << order).wrapping_sub(1);
        for start in 0..1u32 << self.height {
            if start & low_bits == 0 && self.pages & pages_of(start, order) == 0 {
                return Some(start);
            }
        }
        None
    }

    fn lend(&mut self, order: u8) -> Option<u32> {
        let start = self.first_fit(order)?;
        self.pages |= pages_of(start, order);
        self.orders[start as usize % 8] = Some(order);
        Some(start)
    }

    fn give(&mut self, start: u32, order: u8) -> bool {
        if self.orders[start as usize % 8] != Some(order) {
            return false;
        }
        self.orders[start as usize % 8] = None;
        self.pages &= !pages_of(start, order);
        true
    }

    // Whether that choice is one to try: a lend, or the give of a block that is there.
    fn allows(&self, choice: u32) -> bool {
        if choice <= self.height as u32 {
            return true;
        }
        let n = choice - self.height as u32 - 1;
        let count = self.lent_count();
        if n < 3 { n < count } else { count > 3 }
    }

    // How many blocks are lent.
    fn lent_count(&self) -> u32 {
        let mut count = 0u32;
        for order in &self.orders {
            if order.is_some() {
                count = count.saturating_add(1);
            }
        }
        count
    }

    // The start of the n-th block that is lent, or of the last one for n from 3 on.
    fn lent_start(&self, n: u32) -> u32 {
        let mut before = n;
        let mut last = 0;
        for start in 0..8u32 {
            if self.orders[start as usize].is_some() {
                last = start;
                if before == 0 {
                    return start;
                }
                before -= if n < 3 { 1 } else { 0 };
            }
        }
        last
    }

    fn largest(&self) -> Option<u8> {
        let mut largest = None;
        for order in 0..4u8 {
            if self.first_fit(order).is_some() {
                largest = Some(order);
            }
        }
        largest
    }

    fn free_pages(&self) -> u32 {
        let within = match self.height {
            0 => 0b1u32,
            1 => 0b11,
            2 => 0b1111,
            _ => 0b1111_1111,
        };
        (within & !(self.pages as u32)).count_ones()
    }
}

// Gives the n-th block that is lent, as `Plain::lent_start` counts, after some that are not.
fn give(rt: &impl Abort, tree: &mut OrderTree, plain: &mut Plain, n: u32) {
    let start = plain.lent_start(n);
    let order = plain.orders[start as usize % 8].unwrap_or(0);
    holds!(rt; !tree.give(start, order ^ 1), "another order at that start");
    holds!(rt; !tree.give(start ^ 8, order), "another start of that order");
    holds!(rt; tree.give(start, order) == plain.give(start, order));
    holds!(rt; !tree.give(start, order), "given twice");
}

// One lend or give on both. The choices up to the height lend that order; the four above it give
// the first, second, third or last block that is lent.
fn step(rt: &impl Abort, tree: &mut OrderTree, plain: &mut Plain, choice: u32) {
    if choice <= plain.height as u32 {
        let order = choice as u8;
        holds!(rt; tree.lend(order) == plain.lend(order));
    } else {
        give(rt, tree, plain, choice - plain.height as u32 - 1);
    }
    holds!(rt; tree.largest() == plain.largest());
    holds!(rt; tree.free_pages() == plain.free_pages());
}

#[test]
fn a_height_over_ten_is_refused(rt: HostRuntime) {
    for height in [MAX_HEIGHT + 1, 12, 32, 255] {
        holds!(rt; matches!(OrderTree::new(rt.alloc(), height), Err(TreeError::Height)));
    }
    let said = format!(in rt.alloc(); "{}", TreeError::Height).expect(&rt, "memory");
    holds!(rt; said.as_str() == "the height is over 10");
}

#[test]
fn blocks_are_allocated_at_the_least_start_and_buddies_merge(rt: HostRuntime) {
    let mut tree = tree_of(&rt, rt.alloc(), 3);
    for (order, start) in [(0, 0), (1, 2), (2, 4), (0, 1)] {
        holds!(rt; tree.lend(order) == Some(start));
    }
    holds!(rt; tree.lend(0) == None);
    holds!(rt; tree.largest() == None);
    for (start, order) in [(0, 0), (1, 0), (2, 1)] {
        holds!(rt; tree.give(start, order));
    }
    holds!(rt; tree.lend(2) == Some(0));
    holds!(rt; !tree.give(1, 0));
}

// Six steps, by the digits of `run`, whose first is worth `first`. Answers how many runs from this
// one on begin with the same steps, where the last of these gives what is not there, or else 1.
fn play(rt: &impl Abort, alloc: Global, height: u8, choices: u32, first: u32, run: u32) -> u32 {
    let mut tree = tree_of(rt, alloc, height);
    let mut plain = Plain {
        height,
        pages: 0,
        orders: [None; 8],
    };
    let mut rest = run;
    let mut worth = first;
    for _ in 0..6 {
        let choice = rest / worth.max(1);
        if !plain.allows(choice) {
            return worth.max(1);
        }
        step(rt, &mut tree, &mut plain, choice);
        rest %= worth.max(1);
        worth /= choices.max(1);
    }
    1
}

#[test]
fn each_short_run_answers_as_a_plain_set_of_pages(rt: HostRuntime) {
    for (height, choices, runs) in [
        (0u8, 5u32, 15_625u32),
        (1, 6, 46_656),
        (2, 7, 117_649),
        (3, 8, 262_144),
    ] {
        let mut next = 0u32;
        for run in 0..runs {
            if run >= next {
                next = run.saturating_add(play(
                    &rt,
                    rt.alloc(),
                    height,
                    choices,
                    runs / choices.max(1),
                    run,
                ));
            }
        }
    }
}

#[test]
fn the_largest_arena_lends_each_page_once(rt: HostRuntime) {
    let mut tree = tree_of(&rt, rt.alloc(), MAX_HEIGHT);
    holds!(rt; tree.pages() == 1024);
    for page in 0..1024u32 {
        holds!(rt; tree.lend(0) == Some(page));
    }
    holds!(rt; tree.lend(0) == None);
    holds!(rt; tree.free_pages() == 0);
    for page in 0..1024u32 {
        holds!(rt; tree.give(page ^ 0b1010101010, 0));
    }
    holds!(rt; tree.lend(MAX_HEIGHT) == Some(0));
}
