//! The trait of what `with_workers` and `with_two` run on a thread.

ghost use Rattle.mq_system.specs.Seat.{SeatState};

use crate::Caller;
use mq_system::{Names, Pledge};
use std::sync::Wait;
use std::time::Clock;

/// What one thread does, by a caller at a seat of its own. Its postcondition, of its answer and of
/// the seat at the end, is `after`; a worker that promises nothing leaves it out.
pub trait Worker<P: Pledge>: Drop {
    type Answer: Drop + Send;

    ghost after: { Self → SeatState → Self.Answer → Type 0 } = { λ _ _ _. Unit {0} };

    /// Runs once, beside the others' work.
    fn work<N: Names, R: Wait + Clock>(self, caller: &mut Caller<'_, P, N, R>) -> Self::Answer
        ensures after { after self caller.new.seat result };
}
