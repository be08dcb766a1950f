//! The trait of what `run_jobs` runs, with its precondition and its postcondition.

use std::sync::Wait;

/// What is done once, on a thread of its own. What must hold of it before is `before`, and what is
/// known of its answer is `after`; a job that asks or promises nothing leaves them out.
pub trait Job: Drop {
    /// The data that all jobs of a run share.
    type Shared;

    type Answer: Drop + Send;

    ghost before: { Self → Type 0 } = { λ _. Unit {0} };

    ghost after: { Self → Self.Answer → Type 0 } = { λ _ _. Unit {0} };

    fn run<R: Wait>(self, rt: &R, shared: &Self::Shared) -> Self::Answer
        requires before { before self }
        ensures after { after self result };
}
