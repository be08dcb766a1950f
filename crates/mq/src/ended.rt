//! The result of a run, once its queue system is closed.

ghost use Rattle.std.specs.Prelude.{◌≡◌};
ghost use Rattle.mq_tree.specs.LentSet.{free_pages};

use mq_calls::{Closed, ClosedSlot};
use std::sync::ledger::Ledger;

/// The answer of a program, and what its queues left.
#[derive(Drop)]
pub struct Ended<A> {
    pub answer: A,
    /// What each slot left, in the order of their numbers.
    pub slots: Vec<ClosedSlot>,
    /// How many pages are free once the pending texts are freed.
    pub free_pages: u32,
}

impl<A> Ended<A> {
    /// The answer, and what the system that was closed after it left.
    pub(crate) fn of<L: Ledger>(answer: A, closed: Closed<L>) -> Ended<A>
        ensures answer { result.answer ≡ answer }
        ensures slots { result.slots ≡ closed.slots }
        ensures pages { result.free_pages
            ≡ free_pages closed.arena.height closed.arena.lent }
    {
        let Closed { slots, arena } = closed;
        Ended {
            answer,
            slots,
            free_pages: arena.free_pages(),
        }
    }
}
