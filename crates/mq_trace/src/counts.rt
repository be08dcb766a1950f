//! How many messages and bytes are pending, as a trace counts them.

ghost use Rattle.std.specs.Prelude.{◌≡◌};
ghost use Rattle.mq_trace.specs.Steps.{counts_after};

use mq_message::Header;
use mq_queue::Event;

/// How many messages and bytes wait in a queue, within a `u64`.
#[derive(Clone, Copy, Debug, PartialEq, Eq)]
pub(crate) struct Counts {
    pub(crate) messages: u64,
    pub(crate) bytes: u64,
}

/// Where nothing waits.
pub(crate) const NO_COUNTS: Counts = Counts {
    messages: 0,
    bytes: 0,
};

impl Counts {
    /// The pending messages after an event, which sends or receives this message.
    pub(crate) fn after(self, event: Event, message: Option<Header>) -> Counts
        ensures { result ≡ counts_after self event message }
    {
        match (event, message) {
            (Event::Made { .. } | Event::Removed { .. }, _) => NO_COUNTS,
            (Event::Sent { length, .. }, _) => Counts {
                messages: self.messages.saturating_add(1),
                bytes: self.bytes.saturating_add(length),
            },
            (Event::Received { .. }, Some(message)) => Counts {
                messages: self.messages.saturating_sub(1),
                bytes: self.bytes.saturating_sub(message.length),
            },
            (Event::Received { .. }, None) | (Event::Changed { .. }, _) => self,
        }
    }
}
