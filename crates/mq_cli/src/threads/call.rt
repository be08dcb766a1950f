//! The calls that a step of a worker's plan repeats.

use mq_table::Id;

/// A call that sends a message. Each time it has a tag of its own.
#[derive(Clone, Copy)]
pub struct PutCall {
    pub id: Id,
    pub mtype: i64,
    /// Of the message, in bytes.
    pub length: u64,
    /// Whether it waits for pages too, and not for room alone.
    pub pages: bool,
    pub moment: u64,
}

/// A call that receives a message, or several.
#[derive(Clone, Copy)]
pub struct TakeCall {
    pub id: Id,
    pub msgtyp: i64,
    pub moment: u64,
}
