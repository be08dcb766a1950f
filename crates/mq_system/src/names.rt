//! The type-level brand of a system, and the types of its parts under that brand.

ghost use Rattle.std.specs.Prelude.{ℕ, ◌+◌};

use mq_arena::{OfHeight, Text};
use mq_board::Naming;
use mq_select::IndexWaiting;
use mq_table::Slot;
use std::marker::{Brand, PhantomData};
use std::sync::ledger::Ledger;

/// The brand of the parts of one system, and the sizes that they share. None of
/// it exists at run time.
pub trait Names: Naming {
    /// The ledger of the arena's pages, and its parts.
    ghost pages: { ℕ };

    ghost page_parts: { ℕ };

    /// The arena has `2 ^ height` pages.
    ghost height: { ℕ };

    /// The ledger of the entries, with a part for each slot and for each seat.
    ghost entries: { ℕ };

    ghost slots: { ℕ };

    ghost seats: { ℕ };

    /// The last generation of a slot, after which it is retired.
    ghost last_seq: { ℕ };
}

impl Names for Brand {
    ghost pages = { 0 };

    ghost page_parts = { 0 };

    ghost height = { 0 };

    ghost entries = { 0 };

    ghost slots = { 0 };

    ghost seats = { 0 };

    ghost last_seq = { 0 };
}

/// The ledger of a system's pages.
pub struct Pages<N: Names> {
    names: PhantomData<N>,
}

impl<N: Names> Ledger for Pages<N> {
    ghost name = { N.pages };

    ghost parts = { N.page_parts };
}

impl<N: Names> OfHeight for Pages<N> {
    ghost height = { N.height };
}

/// The ledger of the entries that a system's slots have and that its seats may still make.
pub struct Entries<N: Names> {
    names: PhantomData<N>,
}

impl<N: Names> Ledger for Entries<N> {
    ghost name = { N.entries };

    ghost parts = { N.slots + N.seats };
}

/// A text of a system.
pub type TextOf<N> = Text<Pages<N>>;

/// The pending messages of a queue of a system.
pub type WaitingOf<N> = IndexWaiting<TextOf<N>>;

/// A slot of a system.
pub type SlotOf<N> = Slot<TextOf<N>, WaitingOf<N>>;
