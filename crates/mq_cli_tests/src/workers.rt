//! Tests of workers that run plans, over ports with given answers, of the ports of a system, and of
//! jobs.

mod batches;
mod ends;
mod jobs;
mod meeting;
mod order;
mod plans;
mod refusals;
mod seats;
