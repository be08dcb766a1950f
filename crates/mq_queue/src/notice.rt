//! The interface by which a queue publishes its events, for example to a board.

ghost use Rattle.std.specs.Prelude.{◌≡◌, OnOk, OnErr, IsOk};

use crate::{Event, Figures};
use std::alloc::AllocError;

/// An observer of a queue's events. It is given each event before it happens, with the figures that
/// the queue has after it.
pub trait Notice {
    ghost use Rattle.mq_queue.specs.declared.event.Event.{Event};
    ghost use Rattle.mq_queue.specs.declared.figures.Figures.{Figures};

    /// How it records an event: what it was before, the event, the figures, and what it is then.
    ghost takes: { Self → Event → Figures → Self → Type 0 };

    /// Records the event. `Err` means out of memory.
    fn prepare(&mut self, event: Event, after: Figures) -> Result<(), AllocError>
        ensures taken { OnOk result (takes self.old event after self.new) }
        ensures unchanged { OnErr result (self.new ≡ self.old) };
}

/// A notice that ignores the events, and allocates nothing.
#[derive(Clone, Copy)]
pub struct NoNotice;

impl Notice for NoNotice {
    ghost use Rattle.std.specs.Prelude.{◌≡◌};

    ghost takes = { λ old event after new. new ≡ old };

    fn prepare(&mut self, _event: Event, _after: Figures) -> Result<(), AllocError>
        ensures taken { self.new ≡ self.old }
        ensures always { IsOk result }
    {
        Ok(())
    }
}
