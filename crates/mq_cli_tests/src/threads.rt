//! Tests of `run_threads`: worked scripts with all that they write; failing readers and writers.

mod fakes;
mod faults;
mod scripts;
mod worked;
