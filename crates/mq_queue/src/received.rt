//! The result of a receive: the message, with the places of its send and its receipt in the log.

/// What a receiver gets.
#[derive(Drop)]
pub struct Received<B> {
    /// The place of this receipt in the queue's log, or its entry in the slot list where a slot
    /// answers.
    pub entry: u64,
    /// The place at which the message was sent.
    pub place: u64,
    pub mtype: i64,
    /// The sender's own number of the message.
    pub tag: u64,
    /// The number of bytes that were sent, of which `body` has no more than the receiver's size.
    pub length: u64,
    pub body: B,
    /// The number of the sender's seat.
    pub sender: u16,
}
