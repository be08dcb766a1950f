//! A queue system for one thread: keys, ids, slots and texts by the calls of the manual.

#![tactic(auto)]

mod close;
mod control;
mod cut;
mod get;
mod many;
mod messages;
mod one_thread;

pub use one_thread::OneThread;
