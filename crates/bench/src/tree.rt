//! The buddy system: one page that is allocated and freed again and again.

use crate::words::Words;
use anyhow::Result;
use mq_tree::OrderTree;
use std::alloc::Global;

// Allocates every page, and frees each second one.
fn half_full(tree: &mut OrderTree) {
    for _ in 0..tree.pages() {
        tree.lend(0);
    }
    for page in 0..tree.pages() {
        if page % 2 == 0 {
            tree.give(page, 0);
        }
    }
}

// Allocates every page, and frees the last one.
fn all_but_last(tree: &mut OrderTree) {
    for _ in 0..tree.pages() {
        tree.lend(0);
    }
    if let Some(last) = tree.pages().checked_sub(1) {
        tree.give(last, 0);
    }
}

// Allocates what the word says; every second page where it says nothing else.
fn lend_before(tree: &mut OrderTree, state: &str) {
    match state {
        "empty" => {}
        "last" => all_but_last(tree),
        _ => half_full(tree),
    }
}

// Allocates and frees one page so many times; how often both succeeded.
fn pairs(tree: &mut OrderTree, count: u32) -> u32 {
    let mut met = 0u32;
    for _ in 0..count {
        if let Some(start) = tree.lend(0) {
            if tree.give(start, 0) {
                met = met.wrapping_add(1);
            }
        }
    }
    met
}

/// `tree HEIGHT PAIRS STATE`, in an arena that is `half` full before, `empty`, or full but for its
/// `last` page: counts the pages that were allocated and freed.
pub(crate) fn run(rt: &impl Print, alloc: Global, words: &Words) -> Result<()> {
    let height = words.number(1, 3)?;
    let count = words.number(2, 10)?;
    let mut tree = OrderTree::new(alloc, u8::try_from(height)?)?;
    lend_before(&mut tree, words.word(3));
    let met = pairs(&mut tree, count);
    println!(rt;
        "{met} of {count} pairs met, {} pages free",
        tree.free_pages()
    )?;
    Ok(())
}
