//! The errors of calls by the manual's names (errno(3)), with the numbers and messages of Linux.

ghost use Rattle.std.specs.Prelude.{◌≡◌};
ghost use Rattle.mq_calls.specs.Answer.{errno_of, errno_of_id};
ghost use Rattle.mq_calls.specs.Names.{errno_message, errno_name, errno_number};
ghost use Rattle.mq_calls.specs.Texts.{draft_errno};

use crate::{DraftError, Refused, SendRefused};
use mq_queue::QueueError;
use mq_table::IdRefusal;
use std::error::Error;
use std::fmt;

/// The manual's names of the refusals (errno(3)). It is shown as its name.
#[derive(Clone, Copy, Debug, PartialEq, Eq)]
pub enum Errno {
    EINVAL,
    EIDRM,
    EAGAIN,
    ENOMEM,
    ENOMSG,
    E2BIG,
    EPERM,
    EEXIST,
    ENOENT,
    ENOSPC,
}

impl Errno {
    /// Its letters, as the manual writes them.
    pub fn name(self) -> &'static str
        ensures { result.now ≡ errno_name self }
    {
        match self {
            Errno::EINVAL => "EINVAL",
            Errno::EIDRM => "EIDRM",
            Errno::EAGAIN => "EAGAIN",
            Errno::ENOMEM => "ENOMEM",
            Errno::ENOMSG => "ENOMSG",
            Errno::E2BIG => "E2BIG",
            Errno::EPERM => "EPERM",
            Errno::EEXIST => "EEXIST",
            Errno::ENOENT => "ENOENT",
            Errno::ENOSPC => "ENOSPC",
        }
    }

    /// The number that Linux has for it.
    pub fn number(self) -> i32
        ensures { result ≡ errno_number self }
    {
        match self {
            Errno::EPERM => 1,
            Errno::ENOENT => 2,
            Errno::E2BIG => 7,
            Errno::EAGAIN => 11,
            Errno::ENOMEM => 12,
            Errno::EEXIST => 17,
            Errno::EINVAL => 22,
            Errno::ENOSPC => 28,
            Errno::ENOMSG => 42,
            Errno::EIDRM => 43,
        }
    }

    /// The words that the C library of Linux has for it (strerror(3)).
    pub fn message(self) -> &'static str
        ensures { result.now ≡ errno_message self }
    {
        match self {
            Errno::EPERM => "Operation not permitted",
            Errno::ENOENT => "No such file or directory",
            Errno::E2BIG => "Argument list too long",
            Errno::EAGAIN => "Resource temporarily unavailable",
            Errno::ENOMEM => "Cannot allocate memory",
            Errno::EEXIST => "File exists",
            Errno::EINVAL => "Invalid argument",
            Errno::ENOSPC => "No space left on device",
            Errno::ENOMSG => "No message of desired type",
            Errno::EIDRM => "Identifier removed",
        }
    }
}

impl fmt::Display for Errno {
    fn fmt<W: fmt::Write>(&self, f: &mut fmt::Formatter<W>) -> fmt::Result {
        f.write_str(self.name())
    }
}

impl Error for Errno {}

impl From<QueueError> for Errno {
    ghost from_gives = { λ refusal errno. errno ≡ errno_of refusal };

    fn from(refusal: QueueError) -> Errno {
        match refusal {
            QueueError::TypeInvalid | QueueError::TooLong => Errno::EINVAL,
            QueueError::Full => Errno::EAGAIN,
            QueueError::NoMessage => Errno::ENOMSG,
            QueueError::TooBig => Errno::E2BIG,
            QueueError::OverLimit => Errno::EPERM,
            QueueError::Memory => Errno::ENOMEM,
        }
    }
}

impl From<IdRefusal> for Errno {
    ghost from_gives = { λ refusal errno. errno ≡ errno_of_id refusal };

    fn from(refusal: IdRefusal) -> Errno {
        match refusal {
            IdRefusal::Never => Errno::EINVAL,
            IdRefusal::Removed => Errno::EIDRM,
        }
    }
}

impl From<DraftError> for Errno {
    ghost from_gives = { λ refusal errno. errno ≡ draft_errno refusal };

    fn from(refusal: DraftError) -> Errno {
        refusal.errno()
    }
}

impl From<Refused> for Errno {
    ghost from_gives = { λ refused errno. errno ≡ refused.errno };

    fn from(refused: Refused) -> Errno {
        refused.errno
    }
}

/// The text is dropped.
impl<B: Drop> From<SendRefused<B>> for Errno {
    ghost from_gives = { λ unsent errno. errno ≡ unsent.refused.errno };

    fn from(unsent: SendRefused<B>) -> Errno {
        unsent.refused.errno
    }
}
