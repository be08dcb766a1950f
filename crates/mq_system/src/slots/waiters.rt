//! Poll, then park: an eventcount over a condition variable, by which a call waits for a change of
//! one kind. A wake without waiters writes nothing.

use crossbeam_utils::Backoff;
use std::sync::atomic::{AtomicBool, Ordering};
use std::sync::{Condvar, Wait};
use std::time::Duration;

/// How often a call that waits polls for a change before it parks.
const SPIN_LIMIT: u32 = 60;

/// How often it polls where the timeout is short. Each poll beyond these yields the processor, on a
/// busy machine for milliseconds.
const SHORT_SPIN_LIMIT: u32 = 8;

/// A timeout of fewer milliseconds is short.
const SHORT_TIMEOUT_MS: u64 = 250;

/// The waiters for one kind of change.
#[derive(Drop)]
pub struct Waiters {
    changes: Condvar,
    /// Whether any registered since all were last woken.
    any: AtomicBool,
}

impl Waiters {
    pub const fn new() -> Waiters {
        Waiters {
            changes: Condvar::new(),
            any: AtomicBool::new(false),
        }
    }

    /// Wakes all waiters, once the change is made and its lock is released, and returns whether any
    /// registered since they were last woken. Where none did, this writes nothing: one that
    /// registers later finds the change.
    pub fn wake(&self) -> bool {
        let any = self.any.load(Ordering::SeqCst) && self.any.swap(false, Ordering::SeqCst);
        if any {
            self.changes.notify_all();
        }
        any
    }

    /// Registers the caller, and returns what `wait` is given. Each change from now on wakes it: it
    /// registers with the lock held under which it has checked, or checks once more.
    pub fn register(&self) -> u64 {
        self.announce(self.changes.notifications())
    }

    /// Sets the flag for a waiter that has read this count. Were the count read later, a wake
    /// between would clear the flag, and the waiter would sleep past the next.
    fn announce(&self, seen: u64) -> u64 {
        self.any.store(true, Ordering::SeqCst);
        seen
    }

    /// Waits, for no longer than this, until all are woken after the caller registered. It polls
    /// for a while before it parks, and may return with no change.
    pub fn wait<R: Wait>(&self, rt: &R, seen: u64, longest: Duration) {
        let backoff = Backoff::new();
        let is_short = longest < Duration::from_millis(SHORT_TIMEOUT_MS);
        let polls = if is_short {
            SHORT_SPIN_LIMIT
        } else {
            SPIN_LIMIT
        };
        for _poll in 0..polls {
            if self.changes.notifications() != seen {
                return;
            }
            backoff.snooze();
        }
        self.changes.sleep(rt, seen, longest);
    }
}
