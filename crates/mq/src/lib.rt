//! System V message queues: the public API; `with_queues`, which runs one thread;
//! `with_workers` and `with_two`, which run several; and `with_system`, one at all seats.

#![tactic(auto)]

mod at_seat;
mod batches;
mod bytes;
mod caller;
mod carries;
mod delivered;
mod either;
mod ended;
pub mod laws;
mod local_batches;
mod local_caller;
mod local_messages;
mod local_queues;
mod local_texts;
mod message;
mod moments;
mod msgtyp;
mod no_pledge;
mod not_received;
mod program;
mod receive;
mod receive_options;
mod send;
mod setup;
mod system_program;
mod texts;
mod two;
mod value_batches;
mod values;
mod worker;
mod workers;
mod workers_error;

pub use batches::BatchReceived;
pub use caller::Caller;
pub use carries::{Carries, ValuePledge, Vow};
pub use ended::Ended;
pub use local_caller::LocalCaller;
pub use local_queues::LocalQueues;
pub use message::Message;
pub use moments::Moments;
pub use mq_arena::{
    ArenaState, Block, Homecoming, INLINE_LEN, INLINE_ORDER, INLINE_PAGES, LEDGER_PARTS, MAX_ORDER,
    PAGE_LEN, Page, Parts, TakeError, Text,
};
pub use mq_calls::{
    Closed, ClosedSlot, Config, ConfigError, DEFAULTS, Delivered, DraftError, Errno, GetFlags, Got,
    MAX_SEATS, Refused, Removal, SendRefused, SysError, Usage,
};
pub use mq_local::OneThread;
pub use mq_message::{Body, Selection};
pub use mq_queue::{
    Base, BaseEntries, BaseEntry, BoardRow, Event, Figures, Log, MSGMAX, MSGMNB, Received,
};
pub use mq_system::{
    BatchSent, Blanks, Forever, Letter, MAX_BATCH, Names, NoWait, Pages, Patience, Pledge,
    ReceiveRequest, RecvFlags, Seat, SendFlags, System, TextOf, Until,
};
pub use mq_table::{Cut, Id, MAX_SEQ, MAX_SLOTS};
pub use mq_tree::MAX_HEIGHT;
pub use mq_wire::{Bytes, UnreadError, Wire};
pub use no_pledge::NoPledge;
pub use not_received::NotReceived;
pub use program::{QueueProgram, with_queues};
pub use receive_options::ReceiveOptions;
pub use setup::Setup;
pub use std::sync::Wait;
pub use std::sync::ledger::{Blank, Ledger};
pub use std::time::{Clock, Duration, Instant};
pub use system_program::{SystemProgram, with_system};
pub use two::with_two;
pub use value_batches::{ValuesReceived, ValuesSent};
pub use worker::Worker;
pub use workers::with_workers;
pub use workers_error::WorkersError;
