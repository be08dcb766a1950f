//! What one of a board's two copies holds: a snapshot of the board's history.

ghost use Rattle.std.specs.Prelude.{◌≡◌, ◌≤◌, ◌↔◌, length, IsTrue};
ghost use mathlib.Core.List.{IsPrefix};
ghost use Rattle.mq_queue.specs.Row.{row};

use crate::history_law::Reached;
use crate::naming::Naming;
use crossbeam_utils::rule::{Outcome, Protocol};
use left_right::Absorb;
use mq_queue::BoardRow;
use std::alloc::AllocError;
use std::marker::{Model, PhantomData};

/// A prefix of a board's history, as its row and its count, with the board's number. Proofs know
/// which events it has.
#[derive(Drop)]
pub struct Snapshot {
    pub(crate) board_row: BoardRow,
    /// The number of events.
    pub(crate) count: u64,
    /// The board's number. It stands behind the words, so that copies of them are aligned.
    pub(crate) number: u8,
    pub(crate) seen: Reached,
}

impl Model for Snapshot {
    ghost use Rattle.std.specs.Prelude.{◌≡◌, length};
    ghost use Rattle.mq_queue.specs.Row.{row};
    ghost use Rattle.mq_board.specs.Histories.{events_of};
    ghost use Rattle.mq_board.specs.Snapshots.{SnapshotState, snapshot_of};

    ghost Value = { SnapshotState };

    ghost view = { λ s. snapshot_of s.number s.seen.book (events_of s.seen.log) };

    ghost invariant = { λ s. (s.board_row ≡ row (events_of s.seen.log))
        × (s.count ≡ length (events_of s.seen.log)) };
}

impl Snapshot {
    pub(crate) fn number(&self) -> u8
        ensures { result ≡ self.now.board }
    {
        self.number
    }

    pub(crate) fn row(&self) -> BoardRow
        ensures { result ≡ row self.now.events }
    {
        self.board_row
    }

    /// The number of events.
    pub(crate) fn count(&self) -> u64
        ensures { result ≡ length self.now.events }
    {
        self.count
    }

    /// A copy, which allocates nothing.
    pub(crate) fn duplicate(&self) -> Snapshot
        ensures { result ≡ self.now }
    {
        Snapshot {
            number: self.number,
            board_row: self.row(),
            count: self.count,
            seen: self.seen.again(),
        }
    }

    /// Whether another prefix of this history is at least as long: it then begins with this one.
    pub(crate) fn is_prefix_of(&self, other: &Snapshot) -> bool
        requires { other.now.book ≡ self.now.book }
        ensures longer { IsTrue result ↔ (length self.now.events ≤ length other.now.events) }
        ensures prefix { IsTrue result → IsPrefix self.now.events other.now.events }
    {
        let mut both = self.seen.again();
        both.learn(&other.seen);
        self.count <= other.count
    }
}

/// The next snapshot replaces the one before.
impl Absorb<Snapshot> for Snapshot {
    type State = Snapshot;

    ghost state = { λ s. s };

    ghost applied = { λ _ next. next };

    ghost never_fails = { Unit {0} };

    fn absorb_first(&mut self, operation: &Snapshot, _other: &Snapshot) -> Result<(), AllocError> {
        self.number = operation.number;
        self.board_row = operation.board_row;
        self.count = operation.count;
        self.seen = operation.seen.again();
        Ok(())
    }

    fn absorb_second(&mut self, operation: Snapshot, _other: &Snapshot) -> Result<(), Snapshot> {
        *self = operation;
        Ok(())
    }
}

/// The rule of a board: what its copies hold is of its history.
pub struct BoardLaw<J: Naming> {
    of: PhantomData<J>,
}

impl<J: Naming> Protocol<Snapshot, ()> for BoardLaw<J> {
    ghost use Rattle.std.specs.Prelude.{◌≡◌};

    ghost holds = { λ s _. s.book ≡ J.board s.board };

    ghost first = { tt };
}

/// The step at which a copy is entered or published, which is of the board.
pub(crate) struct OfBoard<J: Naming> {
    of: PhantomData<J>,
}

impl<J: Naming> Outcome<Snapshot, ()> for OfBoard<J> {
    ghost use Rattle.std.specs.Prelude.{◌≡◌};

    ghost then = { λ _ before after _. after.book ≡ J.board after.board };
}
