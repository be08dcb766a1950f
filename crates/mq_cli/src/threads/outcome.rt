//! The outcome of a worker's plan.

use mq_calls::Errno;

/// What became of a worker's plan.
#[derive(Clone, Copy, Debug, PartialEq, Eq)]
pub struct Outcome {
    pub sent: u64,
    pub received: u64,
    /// Whether the tags that were received of one queue, one sender and one type always rose.
    pub ordered: bool,
    /// The refusal at which the plan ended; none where all of it was done.
    pub end: Option<Errno>,
}
