//! The results of calls: what msgget(2), msgrcv (msgop(2)) and IPC_RMID (msgctl(2)) return, and the
//! errors of calls.

ghost use Rattle.std.specs.Prelude.{◌≡◌};

use crate::Errno;
use mq_queue::{Log, Received};
use mq_table::Id;

/// The flags of msgget: IPC_CREAT and IPC_EXCL, of which the second says nothing alone.
#[derive(Clone, Copy, Debug, PartialEq, Eq)]
pub struct GetFlags {
    pub create: bool,
    pub exclusive: bool,
}

/// What msgget returns. An entry is the index of an event in its slot's list, from 0.
#[derive(Clone, Copy, Debug, PartialEq, Eq)]
pub struct Got {
    pub id: Id,
    /// The entry of its making, where this call made the queue.
    pub made: Option<u64>,
}

/// What msgrcv returns.
#[derive(Drop)]
pub struct Delivered<B> {
    /// The entry of the receipt.
    pub entry: u64,
    pub mtype: i64,
    /// The sender's own number of the message.
    pub tag: u64,
    /// The number of bytes that were sent.
    pub length: u64,
    /// The text, truncated to the receiver's size.
    pub text: B,
    /// The sender's seat.
    pub sender: u16,
}

impl<B> Delivered<B> {
    /// What is returned of a received message.
    pub fn of(received: Received<B>) -> Delivered<B>
        ensures { result ≡ record {
          entry = received.entry;
          mtype = received.mtype;
          sender = received.sender;
          tag = received.tag;
          length = received.length;
          text = received.body;
        } }
    {
        let Received {
            entry,
            place: _,
            mtype,
            sender,
            tag,
            length,
            body,
        } = received;
        Delivered {
            entry,
            mtype,
            sender,
            tag,
            length,
            text: body,
        }
    }
}

/// A queue that was removed.
#[derive(Drop)]
pub struct Removal {
    /// The entry of the removal.
    pub entry: u64,
    /// The queue's own log.
    pub log: Log,
}

/// A call that is refused.
#[derive(Clone, Copy, Debug, PartialEq, Eq)]
pub struct Refused {
    pub errno: Errno,
    /// The number of entries of the slot after which this was decided; `None` where the type or
    /// the slot's number alone decides.
    pub entry: Option<u64>,
}

/// A text that is not sent: it is returned to the sender.
#[derive(Drop)]
pub struct SendRefused<B> {
    pub refused: Refused,
    pub text: B,
}
