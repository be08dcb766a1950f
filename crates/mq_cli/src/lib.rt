//! Scripts of message queue calls: a reader's bytes in, one answer line for each call out.
//! `serial` has the scripts of one thread, `threads` those of several; the other modules serve
//! both.

#![tactic(auto)]

mod command;
mod draft;
mod fault;
mod form;
mod laws;
mod limits;
mod lines;
mod listing;
mod number;
mod output;
mod parts;
mod recorded;
mod refusal;
mod reply;
mod script;
mod serial;
mod threads;
mod words;

pub use fault::{Cause, RunFault};
pub use laws::{
    a_command_is_spelled_one_way, a_cut_changes_no_other_line, a_spelled_command_is_read_back,
    a_spelled_threads_line_is_read_back, a_threads_line_is_spelled_one_way,
};
pub use limits::{LINE_LIMIT, SCRIPT_DEFAULTS, SCRIPT_LIMIT, the_limits};
pub use recorded::Recorded;
pub use serial::{record_serial, run_prompt, run_serial};
pub use threads::{
    Letters, Outcome, Port, PutCall, Step, SystemPort, TakeCall, Taken, letters_of_ports,
    record_threads, run_threads, run_workers, work, worked,
};
