//! The results of calls, and their layout as the numbers that C reads.

ghost use Rattle.std.specs.Prelude.{◌≡◌};
ghost use Rattle.mq_face.specs.Answers.{changed, done_numbers, received_numbers};
ghost use Rattle.mq_face.specs.Answers.{refusal_numbers, shown_kind, shown_numbers};

use crate::{Refusal, Wait};
use mq_arena::{PAGE_LEN, Text};
use mq_calls::Usage;
use mq_message::Body;
use mq_queue::{Figures, MSGMAX, MSGMNB};
use std::sync::ledger::Ledger;

/// How many numbers an answer has, before what is shown and the bytes of a text.
pub const ANSWER_NUMBERS: usize = 8;

/// How many numbers follow an answer that shows something.
pub const SHOWN_NUMBERS: usize = 8;

/// What a call shows beside the number that it returns.
#[derive(Clone, Copy, Debug, PartialEq, Eq)]
pub enum ControlShown {
    Nothing,
    Queue(Figures),
    Usage(Usage),
}

/// What a call that is done answers.
#[derive(Clone, Copy, Debug, PartialEq, Eq)]
pub struct Done {
    /// What it returns.
    pub value: u64,
    /// The slot of which it speaks.
    pub slot: u8,
    /// The entry of what it changed there.
    pub entry: Option<u64>,
    pub shown: ControlShown,
}

/// A message that is received. The call returns the length of its text.
#[derive(Drop)]
pub struct ReceivedMessage<B> {
    pub slot: u8,
    /// The entry of the receipt.
    pub entry: u64,
    pub mtype: i64,
    pub text: B,
}

impl ControlShown {
    /// The number of its kind, of which 0 says that nothing is shown.
    fn kind(self) -> u64
        ensures { result ≡ shown_kind self }
    {
        match self {
            ControlShown::Nothing => 0,
            ControlShown::Queue(_) => 1,
            ControlShown::Usage(_) => 2,
        }
    }

    /// The numbers that are shown, in the order of the fields.
    pub fn numbers(self) -> [u64; SHOWN_NUMBERS]
        ensures { result ≡ shown_numbers self }
    {
        match self {
            ControlShown::Nothing => [0; SHOWN_NUMBERS],
            ControlShown::Queue(figures) => [
                figures.qnum,
                figures.cbytes,
                figures.qbytes,
                figures.stime,
                figures.rtime,
                figures.ctime,
                u64::from(figures.lspid),
                u64::from(figures.lrpid),
            ],
            ControlShown::Usage(usage) => [
                usage.queues,
                usage.messages,
                usage.bytes,
                u64::from(usage.slots),
                u64::from(usage.pages),
                MSGMAX,
                MSGMNB,
                PAGE_LEN as u64,
            ],
        }
    }
}

impl Done {
    /// A call that changed a slot, and returns 0.
    pub(crate) fn changed(slot: u8, entry: u64) -> Done
        ensures { result ≡ changed slot entry }
    {
        Done {
            value: 0,
            slot,
            entry: Some(entry),
            shown: ControlShown::Nothing,
        }
    }

    /// Its numbers.
    pub fn numbers(self) -> [u64; ANSWER_NUMBERS]
        ensures { result ≡ done_numbers self }
    {
        [
            self.value,
            0,
            0,
            u64::from(self.slot),
            u64::from(self.entry.is_some()),
            0,
            0,
            self.shown.kind(),
        ]
    }
}

impl Refusal {
    /// Its numbers: the call returns -1.
    pub fn numbers(self) -> [u64; ANSWER_NUMBERS]
        ensures { result ≡ refusal_numbers self }
    {
        let (wait, slot) = match self.wait {
            Wait::No => (0, 0),
            Wait::Change(slot) => (1, u64::from(slot)),
            Wait::Pages => (2, 0),
        };
        [
            u64::MAX,
            u64::from(self.errno.cast_unsigned()),
            wait,
            slot,
            0,
            0,
            0,
            0,
        ]
    }
}

impl<L: Ledger> ReceivedMessage<Text<L>> {
    /// Its numbers, which the bytes of the text follow.
    pub fn numbers(&self) -> [u64; ANSWER_NUMBERS]
        ensures { result ≡ received_numbers self.now }
    {
        let length = self.text.len();
        [
            length,
            0,
            0,
            u64::from(self.slot),
            1,
            self.mtype.cast_unsigned(),
            length,
            0,
        ]
    }
}
