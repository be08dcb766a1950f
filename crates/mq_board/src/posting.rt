//! The buffer of a board's writer: an event between its `prepare` and its `publish`.

use mq_queue::{Event, Figures, NO_FIGURES};

/// An event that is to be published, and the figures of its slot's queue after it. The figures,
/// whose size is a multiple of eight bytes, come first: the other order costs 8 ns an event.
#[derive(Clone, Copy, Debug, PartialEq, Eq)]
pub struct Posting {
    pub after: Figures,
    pub event: Event,
}

/// What the buffer holds where no event is pending.
pub(crate) const NOTHING: Posting = Posting {
    after: NO_FIGURES,
    event: Event::Removed { seat: 0, moment: 0 },
};
