//! Checkpoints of drained logs: a replay of the events after a drain starts from one.

ghost use Rattle.std.specs.Prelude.{◌≡◌, ◌<◌, ◌^◌, [], length, slice_get, IfOk};
ghost use Rattle.mq_queue.specs.Base.{base_of};

use crate::{BaseEntry, Figures, NO_FIGURES};
use std::alloc::{AllocError, Global};
use std::marker::Model;

/// The messages that were pending where a log was drained, in the order of sending.
#[derive(Drop)]
pub struct BaseEntries {
    entries: Vec<BaseEntry>,
}

impl Model for BaseEntries {
    ghost use Rattle.std.specs.Prelude.{List};
    ghost use Rattle.mq_message.specs.declared.header.Header.{Header};

    ghost Value = { List Header };

    ghost view = { λ w. w.entries.items };
}

impl BaseEntries {
    /// The list of these entries. It allocates nothing.
    pub fn of(entries: Vec<BaseEntry>) -> BaseEntries
        ensures { result ≡ entries.items }
    {
        BaseEntries { entries }
    }

    /// How many messages were pending.
    pub fn len(&self) -> u64
        ensures value { result ≡ length self.now }
        ensures small { result < 2 ^ 63 }
    {
        self.entries.len() as u64
    }

    /// The message at an index, or `None` past the end of the list.
    pub fn get(&self, i: u64) -> Option<BaseEntry>
        ensures { result ≡ slice_get self.now i }
    {
        self.entries.get(i as usize).copied()
    }

    /// A copy of the list. `Err` means out of memory.
    pub(crate) fn copied(&self, alloc: Global) -> Result<BaseEntries, AllocError>
        ensures { IfOk result (λ entries. entries ≡ self.now) }
    {
        let entries = Vec::from_slice(alloc, &self.entries)?;
        Ok(BaseEntries { entries })
    }
}

/// What is known of the drained events of a log: how many they are, and the figures and the pending
/// messages that they leave.
#[derive(Drop)]
pub struct Base {
    /// How many events were drained, so that the place of the next one is known.
    pub places: u64,
    /// The figures after them, all 0 where none was drained.
    pub figures: Figures,
    /// The messages that were pending after them.
    pub waiting: BaseEntries,
}

impl Base {
    /// The base of a log of which nothing was drained.
    pub(crate) fn empty(alloc: Global) -> Base
        ensures { result ≡ base_of [] }
    {
        Base {
            places: 0,
            figures: NO_FIGURES,
            waiting: BaseEntries::of(Vec::new(alloc)),
        }
    }

    /// A copy of it. `Err` means out of memory.
    pub fn copied(&self, alloc: Global) -> Result<Base, AllocError>
        ensures { IfOk result (λ base. base ≡ self.now) }
    {
        let waiting = self.waiting.copied(alloc)?;
        Ok(Base {
            places: self.places,
            figures: self.figures,
            waiting,
        })
    }
}
