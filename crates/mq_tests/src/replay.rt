//! Many calls of sixteen threads, whose results `tests/replay.py` checks against the slots' final
//! logs.

mod asks;
mod batch_chooser;
mod batches;
mod calls;
mod chooser;
mod printed;
mod runs;
mod worker;
