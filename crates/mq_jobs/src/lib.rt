//! Jobs, each on a thread of its own, none of which begins before there is a thread for each.

#![tactic(auto)]

mod gate;
mod job;
mod jobs;
mod jobs_error;

pub use job::Job;
pub use jobs::run_jobs;
pub use jobs_error::JobsError;
