//! The result of freeing a block.

/// What became of a block that was given to an arena to be freed.
#[derive(Clone, Copy, PartialEq, Eq, Debug)]
pub enum Homecoming {
    /// Its pages are free again.
    Home,
    /// The arena has not allocated that block: it is dropped; its pages stay counted as allocated.
    Stray,
}
