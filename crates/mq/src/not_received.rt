//! The error of a receive of a value. A value that was received without memory to read it is not
//! lost: its bytes are returned.

ghost use Rattle.std.specs.Prelude.{◌≡◌};
ghost use Rattle.mq.specs.Values.{errno_of};

use mq_calls::{Delivered, Errno};

/// Why no value was received.
#[derive(Drop)]
pub enum NotReceived {
    /// The call was refused, and the message, if there is one, stays.
    Refused(Errno),
    /// The message was received, and there was no memory for its value: here are its bytes.
    NoMemory(Delivered<Vec<u8>>),
}

impl NotReceived {
    /// The refusal, or ENOMEM.
    pub fn errno(&self) -> Errno
        ensures { result ≡ errno_of self.now }
    {
        match self {
            NotReceived::Refused(errno) => *errno,
            NotReceived::NoMemory(_) => Errno::ENOMEM,
        }
    }
}

/// The refusal, or ENOMEM: the bytes are dropped.
impl From<NotReceived> for Errno {
    ghost from_gives = { λ refusal errno. errno ≡ errno_of refusal };

    fn from(refusal: NotReceived) -> Errno {
        refusal.errno()
    }
}
