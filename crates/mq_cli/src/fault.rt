//! The errors of a line and of a run.

use thiserror::Error;

/// Why a line is not well formed, in the order in which the causes are checked.
#[derive(Clone, Copy, Debug, PartialEq, Eq, Error)]
pub enum Cause {
    /// The line has more than [`LINE_LIMIT`](crate::LINE_LIMIT) bytes.
    #[error("long")]
    Long,
    /// A byte is below the space or above the tilde.
    #[error("byte")]
    Byte,
    /// A word is empty or unknown, or there are too few or too many.
    #[error("words")]
    Words,
    /// A number is not spelled in the one way, or is out of its range.
    #[error("number")]
    Number,
}

/// What ends a run before the end of its script.
#[derive(Clone, Copy, Debug, PartialEq, Eq, Error)]
pub enum RunFault {
    /// The first line that is not well formed, counted from 1. The lines before have been run.
    #[error("line {line}: {cause}")]
    Script { line: u64, cause: Cause },
    /// The script has more than [`SCRIPT_LIMIT`](crate::SCRIPT_LIMIT) bytes, or more lines are
    /// typed than a `u64` counts.
    #[error("script too long")]
    Size,
    #[error("read failed")]
    Read,
    #[error("write failed")]
    Write,
    #[error("out of memory")]
    Memory,
    /// A worker's thread could not be made, so no worker made a call.
    #[error("thread not started")]
    Thread,
}
