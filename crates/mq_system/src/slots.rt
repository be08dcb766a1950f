//! A slot and its lock: how a call enters a slot and waits for another call there, and what it does
//! in a slot that it has locked.

mod calls;
mod making;
mod monitor;
mod slot;
mod turns;
mod waiters;

pub use calls::ReceiveRequest;
pub(crate) use making::NewQueue;
pub(crate) use monitor::SlotMonitor;
pub use slot::{SharedSlot, SlotParts};
pub use waiters::Waiters;
