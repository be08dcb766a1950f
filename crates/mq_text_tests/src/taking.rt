//! Blocks and texts that are allocated, at the second try where memory for them was refused. No
//! failure here prints that word: a run with a refused allocation would count as one that was
//! out of it.

use crate::lender::Lender;
use mq_arena::{INLINE_LEN, INLINE_ORDER, TEXT_LEN, TakeError, order_for};
use std::process::Abort;

/// How many pages an arena has lent, and the largest order that fits.
fn shown<A: Lender>(arena: &A) -> (u32, Option<u8>) {
    (arena.lent_pages(), arena.largest())
}

/// Memory for a block was refused: it is a large one, and no page was lent for it.
fn is_refused<A: Lender>(rt: &impl Abort, arena: &A, is_large: bool, before: (u32, Option<u8>)) {
    holds!(rt; is_large, "a small block is refused");
    holds!(rt; shown(arena) == before, "pages are lent for a refused block");
}

/// What the arena answers for a block of that order. Where memory for the block was refused, the
/// block is over the inline order and no page was lent for it.
pub(crate) fn asked<A: Lender, R: Abort>(
    rt: &R,
    arena: &mut A,
    order: u8,
) -> Result<A::Block, TakeError> {
    let before = shown(arena);
    match arena.take(rt, order) {
        Err(TakeError::Memory) => {
            is_refused(rt, arena, order > INLINE_ORDER, before);
            arena.take(rt, order)
        }
        answer => answer,
    }
}

/// A block of that order, which fits.
pub(crate) fn taken<A: Lender, R: Abort>(rt: &R, arena: &mut A, order: u8) -> A::Block {
    match asked(rt, arena, order) {
        Ok(block) => block,
        Err(_) => panic!(rt; "no block"),
    }
}

/// A block of that order, which fits, with these bytes in its first ones.
pub(crate) fn taken_filled<A: Lender, R: Abort>(
    rt: &R,
    arena: &mut A,
    order: u8,
    bytes: &[u8],
) -> A::Block {
    let before = shown(arena);
    let answer = match arena.take_filled(rt, order, bytes) {
        Err(TakeError::Memory) => {
            is_refused(rt, arena, order > INLINE_ORDER, before);
            arena.take_filled(rt, order, bytes)
        }
        answer => answer,
    };
    match answer {
        Ok(block) => block,
        Err(_) => panic!(rt; "no block"),
    }
}

/// The order of the block for that many bytes.
pub(crate) fn order_of(rt: &impl Abort, len: usize) -> u8 {
    holds!(rt; len <= TEXT_LEN);
    order_for(len)
}

/// A text of that many zero bytes.
pub(crate) fn drafted<A: Lender, R: Abort>(rt: &R, arena: &mut A, len: usize) -> A::Text {
    let block = taken(rt, arena, order_of(rt, len));
    arena.text_of(rt, block, len)
}

/// A text of these bytes.
pub(crate) fn text_of<A: Lender, R: Abort>(rt: &R, arena: &mut A, bytes: &[u8]) -> A::Text {
    let before = shown(arena);
    let answer = match arena.text_of_bytes(rt, bytes) {
        Err(TakeError::Memory) => {
            is_refused(rt, arena, bytes.len() > INLINE_LEN, before);
            arena.text_of_bytes(rt, bytes)
        }
        answer => answer,
    };
    match answer {
        Ok(text) => text,
        Err(_) => panic!(rt; "no block"),
    }
}
