//! The error of drafting a text, and its errno.

ghost use Rattle.std.specs.Prelude.{◌≡◌};
ghost use Rattle.mq_calls.specs.Texts.{by_take, draft_errno};

use crate::Errno;
use mq_arena::TakeError;
use thiserror::Error;

/// Why a text is not drafted, in the order in which the reasons are checked.
#[derive(Clone, Copy, Debug, PartialEq, Eq, Error)]
pub enum DraftError {
    /// The text would be longer than a message's: `EINVAL`.
    #[error("the text is too long for a message")]
    TooLong,
    /// No run of free pages has room for it: `ENOMEM`.
    #[error("no run of pages is free")]
    NoRun,
    /// Out of memory for the handles of its pages, which a text of over `INLINE_LEN` bytes needs:
    /// `ENOMEM`.
    #[error("out of memory")]
    Memory,
}

impl From<TakeError> for DraftError {
    ghost from_gives = { λ refusal error. error ≡ by_take refusal };

    fn from(refusal: TakeError) -> DraftError {
        match refusal {
            TakeError::NoRun => DraftError::NoRun,
            TakeError::Memory => DraftError::Memory,
        }
    }
}

impl DraftError {
    pub fn errno(self) -> Errno
        ensures { result ≡ draft_errno self }
    {
        match self {
            DraftError::TooLong => Errno::EINVAL,
            DraftError::NoRun | DraftError::Memory => Errno::ENOMEM,
        }
    }
}
