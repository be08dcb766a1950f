//! The errors of a queue's calls, with the errno that msgop(2) or msgctl(2) has for each.

use thiserror::Error;

/// Why a queue refuses a call, in the order in which the reasons are checked.
#[derive(Clone, Copy, Debug, PartialEq, Eq, Error)]
pub enum QueueError {
    /// The message's type is below 1: `EINVAL`.
    #[error("the type is below 1")]
    TypeInvalid,
    /// The text is longer than [`MSGMAX`](crate::MSGMAX): `EINVAL`.
    #[error("the text is too long for a message")]
    TooLong,
    /// The bytes or the count of the messages would pass the queue's quota: `EAGAIN`.
    #[error("the queue is full")]
    Full,
    /// No eligible message is pending: `ENOMSG`.
    #[error("no message waits")]
    NoMessage,
    /// The text is longer than the receiver's size, and may not be truncated: `E2BIG`.
    #[error("the text is longer than the size")]
    TooBig,
    /// The quota is above [`MSGMNB`](crate::MSGMNB): `EPERM`.
    #[error("the quota is above its limit")]
    OverLimit,
    /// Out of memory: `ENOMEM`.
    #[error("out of memory")]
    Memory,
}
