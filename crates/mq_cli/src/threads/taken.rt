//! A received message, as a worker records it.

/// A message without its text, which is spent.
#[derive(Clone, Copy, Debug, PartialEq, Eq)]
pub struct Taken {
    /// The number of the sender's seat.
    pub sender: u16,
    pub tag: u64,
    pub mtype: i64,
    /// The length of the whole text, in bytes.
    pub length: u64,
}
