//! The error of making a tree, which the constructor of an arena passes on.

use crate::limits::MAX_HEIGHT;
use thiserror::Error;

/// Why an `OrderTree` could not be made, in the order of the tests.
#[derive(Clone, Copy, PartialEq, Eq, Debug, Drop, Error)]
pub enum TreeError {
    #[error("the height is over {}", MAX_HEIGHT)]
    Height,
    #[error("out of memory")]
    Memory,
}
