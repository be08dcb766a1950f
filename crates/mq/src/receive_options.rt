//! The msgsz argument and the MSG_NOERROR flag of msgrcv (msgop(2)), as a builder.

ghost use Rattle.std.specs.Prelude.{◌≡◌, true, false};
ghost use Rattle.mq_queue.specs.declared.limits.TheConstants.{MSGMAX};

use mq_message::Selection;
use mq_queue::MSGMAX;
use mq_table::Id;

/// Which messages a receive takes, by their length (msgop(2), msgrcv).
#[derive(Clone, Copy, Debug, PartialEq, Eq)]
pub struct ReceiveOptions {
    /// The most bytes that are returned.
    pub size: u64,
    /// Whether a longer text is truncated (MSG_NOERROR), and not refused with E2BIG.
    pub noerror: bool,
}

impl ReceiveOptions {
    /// A message of any length.
    pub fn new() -> ReceiveOptions
        ensures size { result.size ≡ MSGMAX }
        ensures noerror { result.noerror ≡ false }
    {
        ReceiveOptions {
            size: MSGMAX,
            noerror: false,
        }
    }

    /// One of at most `size` bytes; a longer one stays, with E2BIG.
    pub fn up_to(self, size: u64) -> ReceiveOptions
        ensures size { result.size ≡ size }
        ensures noerror { result.noerror ≡ self.noerror }
    {
        ReceiveOptions { size, ..self }
    }

    /// A longer one too, which is truncated.
    pub fn cut(self) -> ReceiveOptions
        ensures size { result.size ≡ self.size }
        ensures noerror { result.noerror ≡ true }
    {
        ReceiveOptions {
            noerror: true,
            ..self
        }
    }
}

impl Default for ReceiveOptions {
    fn default() -> ReceiveOptions
        ensures size { result.size ≡ MSGMAX }
        ensures noerror { result.noerror ≡ false }
    {
        ReceiveOptions::new()
    }
}

/// A receive: the queue, which of its messages, and when it is made.
#[derive(Clone, Copy)]
pub(crate) struct ReceiveCall {
    pub id: Id,
    pub selection: Selection,
    pub options: ReceiveOptions,
    pub moment: u64,
}
