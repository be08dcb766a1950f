//! The history of a run: the entries of its slots' logs as steps; a trace of them in the Trace
//! Event Format; a picture of them; and the tables of ipcs(1).

#![tactic(auto)]

mod added;
mod counts;
mod entries;
pub mod ipcs;
mod kept;
pub mod laws;
mod output;
mod part;
mod picture;
mod record;
mod refusal;
mod refused;
mod scale;
mod sheet;
mod step;
mod steps;
mod trace;
mod trace_error;
mod trail;
pub mod worked;

pub use entries::SlotEntries;
pub use picture::write_picture;
pub use refusal::{CallName, Refusal};
pub use scale::TimeScale;
pub use step::Step;
pub use steps::Steps;
pub use trace::write_trace;
pub use trace_error::TraceError;
