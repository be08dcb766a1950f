//! An entry of a slot's list, with what it says of its queue.

use mq_message::Header;
use mq_queue::Event;

/// An entry of a slot's list, and what it says of its queue.
#[derive(Clone, Copy, Debug, PartialEq, Eq)]
pub struct Step {
    /// The entry's position in the slot's list, from 0.
    pub entry: u64,
    /// The id of its queue.
    pub id: u32,
    pub event: Event,
    /// The message that it sends or receives, where it is known. A receipt's is not known only
    /// where no queue could have such a log.
    pub message: Option<Header>,
    /// How many messages wait after it.
    pub qnum: u64,
    /// How many bytes wait after it.
    pub cbytes: u64,
}
