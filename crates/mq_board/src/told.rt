//! A prefix of a board's history, for a reader to learn.

ghost use Rattle.std.specs.Prelude.{◌≡◌, ◌≤◌, ◌↔◌, length, IsTrue};
ghost use mathlib.Core.List.{IsPrefix};
ghost use Rattle.mq_queue.specs.Row.{row};
ghost use Rattle.mq_board.specs.Histories.{history};

use crate::naming::Naming;
use crate::snapshot::Snapshot;
use mq_queue::BoardRow;
use std::marker::{Model, PhantomData};

/// A prefix of a board's published list. In memory it is the row and the number of its events, and
/// the board's number.
#[derive(Drop)]
pub struct ToldList<J: Naming> {
    pub(crate) snapshot: Snapshot,
    pub(crate) of: PhantomData<J>,
}

impl<J: Naming> Model for ToldList<J> {
    ghost use Rattle.std.specs.Prelude.{◌≡◌};
    ghost use Rattle.mq_board.specs.Histories.{History, history};

    ghost Value = { History };

    ghost view = { λ t. history t.snapshot.board t.snapshot.events };

    ghost invariant = { λ t. t.snapshot.book ≡ J.board t.snapshot.board };
}

impl<J: Naming> ToldList<J> {
    pub(crate) fn new(snapshot: Snapshot) -> ToldList<J>
        requires { snapshot.book ≡ J.board snapshot.board }
        ensures { result ≡ history snapshot.board snapshot.events }
    {
        ToldList {
            snapshot,
            of: PhantomData,
        }
    }

    pub fn board(&self) -> u8
        ensures { result ≡ self.now.board }
    {
        self.snapshot.number()
    }

    /// The row of its list.
    pub fn row(&self) -> BoardRow
        ensures { result ≡ row self.now.events }
    {
        self.snapshot.row()
    }

    /// The number of its events.
    pub(crate) fn count(&self) -> u64
        ensures { result ≡ length self.now.events }
    {
        self.snapshot.count()
    }

    /// A copy, which allocates nothing.
    pub(crate) fn duplicate(&self) -> ToldList<J>
        ensures { result ≡ self.now }
    {
        ToldList::new(self.snapshot.duplicate())
    }

    /// Whether another of this board is at least as long: it then begins with this one.
    pub(crate) fn is_prefix_of(&self, other: &ToldList<J>) -> bool
        requires { other.now.board ≡ self.now.board }
        ensures longer { IsTrue result ↔ (length self.now.events ≤ length other.now.events) }
        ensures prefix { IsTrue result → IsPrefix self.now.events other.now.events }
    {
        self.snapshot.is_prefix_of(&other.snapshot)
    }
}
