//! Tests that no call is out of memory while there is enough: lists of calls over the queues of one
//! thread, over a system at its seats, and by callers.

mod callers;
mod calls;
mod lists;
mod one;
mod runs;
mod seats;
