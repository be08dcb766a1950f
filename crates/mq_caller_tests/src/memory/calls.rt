//! The calls of a queue system, whichever it is.

use mq::{DraftError, Errno, Id};

/// The moment of each call, and the tag of all that is sent.
pub(crate) const MOST: u64 = u64::MAX;

/// Calls at seats, which are counted from 0. None waits.
pub(crate) trait Calls {
    /// The greatest size that a receiver asks for.
    fn most(&self) -> u64;

    /// The queue with this key, made where it is not there.
    fn queue(&mut self, seat: u16, key: i32) -> Result<Id, Errno>;

    /// Drafts a text of so many bytes, and spends it.
    fn draft(&mut self, len: u64) -> Result<(), DraftError>;

    fn send(&mut self, seat: u16, id: Id, mtype: i64, bytes: &[u8]) -> Result<(), Errno>;

    /// Receives the first message of this type, or of any where that is 0, and answers its length.
    fn receive(&mut self, seat: u16, id: Id, size: u64, msgtyp: i64) -> Result<u64, Errno>;

    fn set(&mut self, seat: u16, id: Id, qbytes: u64) -> Result<(), Errno>;

    /// How many messages are pending.
    fn waiting(&mut self, seat: u16, id: Id) -> Result<u64, Errno>;

    fn cut(&mut self, seat: u16, slot: u8) -> Result<(), Errno>;

    fn remove(&mut self, seat: u16, id: Id) -> Result<(), Errno>;
}
