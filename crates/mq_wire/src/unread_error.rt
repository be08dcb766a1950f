//! The errors of `Wire::read`.

use thiserror::Error;

/// Why no value was read.
#[derive(Clone, Copy, PartialEq, Eq, Debug, Drop, Error)]
pub enum UnreadError {
    /// Out of memory: a value may be there.
    #[error("out of memory")]
    NoMemory,
    /// The bytes do not begin with those of a value.
    #[error("no value")]
    NoValue,
}
