//! The line at a terminal that shows how long a run has taken.

use std::sync::{Condvar, Mutex, Wait};
use std::time::{Clock, Duration};

/// A run, of which a line shows once a second that it continues.
#[derive(Drop)]
pub struct Ticker {
    is_over: Mutex<bool>,
    ended: Condvar,
}

impl Ticker {
    pub fn new() -> Ticker {
        Ticker {
            is_over: Mutex::new(false),
            ended: Condvar::new(),
        }
    }

    /// Says that the run has ended.
    pub fn ends<R: Wait>(&self, rt: &R) {
        *self.is_over.lock(rt) = true;
        self.ended.notify_all();
    }

    /// Shows on standard error how long the run has taken, until it has ended. What is written
    /// next to the terminal begins where the line does, and is longer; at the end it is taken away.
    pub fn shows<R: Eprint + Wait + Clock>(&self, rt: &R) {
        let mut seconds: u64 = 0;
        for _ in rt.forever() {
            let (second, is_over) = (Duration::from_secs(1), self.is_over.lock(rt));
            let (guard, waited) = self
                .ended
                .wait_timeout_while(rt, is_over, second, |is_over| !*is_over);
            drop(guard);
            if !waited.timed_out() {
                break;
            }
            seconds = seconds.saturating_add(1);
            let _ = eprint!(rt; "mqsim: running for {seconds} s\r");
        }
        if seconds > 0 {
            // As long as the longest line.
            let _ = eprint!(rt; "{:40}\r", "");
        }
    }
}
