//! The error of allocating a block.
use thiserror::Error;

/// Why an arena allocates no block, in the order in which the reasons are checked.
#[derive(Clone, Copy, PartialEq, Eq, Debug, Error)]
pub enum TakeError {
    /// No run of free pages has room for it.
    #[error("no run of pages is free")]
    NoRun,
    /// Out of memory for the places of its pages. A block of an order up to `INLINE_ORDER` needs
    /// none.
    #[error("out of memory")]
    Memory,
}
