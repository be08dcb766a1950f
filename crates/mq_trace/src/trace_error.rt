//! The error of a trace or a picture.

use thiserror::Error;

/// Why a trace was not written to its end.
#[derive(Clone, Copy, Debug, PartialEq, Eq, Error)]
pub enum TraceError {
    /// A write failed, or took nothing.
    #[error("write failed")]
    Write,
    #[error("out of memory")]
    Memory,
}
