//! What is in use, of all slots together.

ghost use Rattle.std.specs.Prelude.{◌≡◌};
ghost use Rattle.mq_calls.specs.Usages.{no_usage, plus, used};

use mq_queue::BoardRow;

/// What is in use, and of how much (msgctl(2), IPC_INFO and MSG_INFO). Its sums saturate.
#[derive(Clone, Copy, Debug, PartialEq, Eq)]
pub struct Usage {
    pub queues: u64,
    pub messages: u64,
    pub bytes: u64,
    /// The greatest slot in use, or 0.
    pub greatest: u8,
    pub slots: u8,
    pub pages: u32,
}

impl Usage {
    /// Of so many slots and pages, none in use.
    pub fn none(slots: u8, pages: u32) -> Usage
        ensures { result ≡ no_usage slots pages }
    {
        Usage {
            queues: 0,
            messages: 0,
            bytes: 0,
            greatest: 0,
            slots,
            pages,
        }
    }

    /// The same with one slot more, of which this row is shown.
    pub fn with_slot(self, slot: u8, row: BoardRow) -> Usage
        ensures { result ≡ used self slot row }
    {
        if !row.live {
            return self;
        }
        Usage {
            queues: self.queues.saturating_add(1),
            messages: self.messages.saturating_add(row.figures.qnum),
            bytes: self.bytes.saturating_add(row.figures.cbytes),
            greatest: slot,
            ..self
        }
    }
}
