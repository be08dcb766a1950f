//! A step of a worker's plan.

use mq_table::Id;

/// A line of a worker's section. The moment of each of its calls is the number of the line.
/// `within` milliseconds is one timeout for all its calls, from when one of them first has to wait.
#[derive(Clone, Copy, Debug, PartialEq, Eq)]
pub enum Step {
    /// Sends `count` messages of this type and length, and blocks while the queue is full; with a
    /// timeout it waits for pages too.
    Put {
        id: Id,
        mtype: i64,
        count: u32,
        length: u64,
        within: Option<u64>,
        moment: u64,
    },
    /// Receives `count` messages, and blocks while none matches.
    Take {
        id: Id,
        msgtyp: i64,
        count: u32,
        within: Option<u64>,
        moment: u64,
    },
    /// IPC_RMID.
    Remove {
        id: Id,
        moment: u64,
    },
}
