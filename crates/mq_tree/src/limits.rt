//! The size limit of a tree, and so of an arena.

/// The greatest height of an arena, of 1,024 pages.
pub const MAX_HEIGHT: u8 = 10;
