//! Bars: what a picture shows of a message, from its sending to what became of it.

use mq_message::Header;

/// An entry's position in its slot's list, and the moment that its caller named.
#[derive(Clone, Copy, Debug, PartialEq, Eq)]
pub(crate) struct Stamp {
    pub entry: u64,
    pub moment: u64,
}

/// What became of a message.
#[derive(Clone, Copy, Debug, PartialEq, Eq)]
pub(crate) enum Until {
    /// It was received, by this seat.
    Received { seat: u16, at: Stamp },
    /// Its queue was removed.
    Removed { at: Stamp },
    /// It waits after the last entry.
    Waiting,
}

impl Until {
    /// The entry that ended its wait, if there is one.
    pub(crate) fn stamp(self) -> Option<Stamp> {
        match self {
            Until::Received { at, .. } | Until::Removed { at } => Some(at),
            Until::Waiting => None,
        }
    }
}

/// A message, when it was sent and what became of it.
#[derive(Clone, Copy, Debug, PartialEq, Eq)]
pub(crate) struct Bar {
    pub message: Header,
    /// Its send, or `None` where that was drained.
    pub sent: Option<Stamp>,
    pub until: Until,
}
