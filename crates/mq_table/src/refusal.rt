//! The errors of the lookup of an id: EINVAL and EIDRM (msgop(2)).

use thiserror::Error;

/// Why an id names no queue.
#[derive(Clone, Copy, Debug, PartialEq, Eq, Error)]
pub enum IdRefusal {
    /// No queue was given this id: `EINVAL`.
    #[error("the id was never given")]
    Never,
    /// The queue was removed: `EIDRM`.
    #[error("the queue was removed")]
    Removed,
}
