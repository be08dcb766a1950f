//! The error of `run_jobs`.

use thiserror::Error;

/// Why no job has begun.
#[derive(Clone, Copy, Debug, PartialEq, Eq, Error)]
pub enum JobsError {
    #[error("out of memory")]
    Memory,
    #[error("a thread cannot be made")]
    Thread,
}
