//! The error of a run of several threads.

use thiserror::Error;

/// Why no worker has begun, in the order of the tests.
#[derive(Clone, Copy, Debug, PartialEq, Eq, Error)]
pub enum WorkersError {
    #[error("a value of the configuration is out of its limits")]
    Config,
    #[error("there are more workers than seats")]
    TooManyWorkers,
    #[error("out of memory")]
    Memory,
    #[error("a thread cannot be made")]
    Thread,
}
