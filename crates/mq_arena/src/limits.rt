//! The size limits of blocks, and the parts of an arena's ledger.

use mq_tree::MAX_HEIGHT;

/// The greatest order of a block.
pub const MAX_ORDER: u8 = 6;

/// How many pages a block of the greatest order has.
pub const MAX_PAGES: usize = 1 << MAX_ORDER;

/// The greatest order of a block that is allocated without the heap: the arena has places for its
/// pages.
pub const INLINE_ORDER: u8 = 3;

/// How many pages a block of that order has.
pub const INLINE_PAGES: usize = 1 << INLINE_ORDER;

/// The parts of an arena's ledger: more than the highest arena has pages.
pub const LEDGER_PARTS: u64 = (1 << MAX_HEIGHT) + 1;
