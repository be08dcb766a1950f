//! The calls of C: numbers as a C program gives them become a call of `OneThread`, and its result
//! becomes numbers: return value, errno, and what is shown. No call blocks: one that would returns
//! what it waits for, and is retried.

#![tactic(auto)]

mod answer;
mod bytes;
mod call;
mod command;
mod control_call;
mod get_call;
pub mod laws;
mod log;
mod manual;
mod receive_call;
mod refusal;
mod send_call;
pub mod worked;

pub use answer::{ANSWER_NUMBERS, ControlShown, Done, ReceivedMessage, SHOWN_NUMBERS};
pub use bytes::{EIGHT_BYTES, from_bytes, to_bytes};
pub use call::{CALL_NUMBERS, Call, CallKind};
pub use command::ControlCommand;
pub use control_call::control;
pub use get_call::get;
pub use log::{LOG_BOUND, cut_where_due, spend_received};
pub use manual::{
    EFAULT, ENOSYS, IPC_CREAT, IPC_EXCL, IPC_INFO, IPC_NOWAIT, IPC_RMID, IPC_SET, IPC_STAT,
    MSG_COPY, MSG_EXCEPT, MSG_INFO, MSG_NOERROR, MSG_STAT, MSG_STAT_ANY, SEAT, SSIZE_MAX,
};
pub use receive_call::receive;
pub use refusal::{Refusal, Wait, unknown};
pub use send_call::{draft, send};
