//! A bound on the time of a test whose threads wait for one another.

use std::process::Abort;
use std::sync::atomic::{AtomicBool, AtomicU64, Ordering};
use std::sync::{Condvar, Wait};
use std::thread::{Threads, join};
use std::time::{Clock, Duration};

/// The seconds after which a test that has not come to its end counts as one that never does.
const SECONDS: u32 = 50;

/// Whether a test has come to its end.
#[derive(Drop)]
pub(crate) struct Watch {
    over: AtomicBool,
    ended: Condvar,
}

impl Watch {
    pub(crate) fn new() -> Watch {
        Watch {
            over: AtomicBool::new(false),
            ended: Condvar::new(),
        }
    }

    /// Says that the test has come to its end.
    pub(crate) fn ends(&self) {
        self.over.store(true, Ordering::SeqCst);
        self.ended.notify_all();
    }

    /// Whether this was said.
    pub(crate) fn is_said(&self) -> bool {
        self.over.load(Ordering::SeqCst)
    }

    /// Waits until the test says that it has come to its end; whether it has in time.
    pub(crate) fn is_over<R: Wait>(&self, rt: &R) -> bool {
        for _second in 0..SECONDS {
            let seen = self.ended.notifications();
            if self.over.load(Ordering::SeqCst) {
                return true;
            }
            self.ended.sleep(rt, seen, Duration::from_secs(1));
        }
        self.over.load(Ordering::SeqCst)
    }

    /// Waits until the test has ended, however long it runs. Where this count stands still for so
    /// long, the test fails, and names what it missed.
    pub(crate) fn keeps_on<R: Abort + Wait>(&self, rt: &R, done: &AtomicU64, what: &str) {
        for _ in rt.forever() {
            let before = done.load(Ordering::SeqCst);
            if self.is_over(rt) {
                return;
            }
            let stands = done.load(Ordering::SeqCst) == before;
            assert!(rt; !stands, "not come in time: {what}, after {before}");
        }
    }

    /// Waits until the test has ended. Where it does not in time, the test fails, and names what it
    /// missed.
    pub(crate) fn keeps<R: Abort + Wait>(&self, rt: &R, what: &str) {
        assert!(rt; self.is_over(rt), "not come in time: {what}");
    }
}

/// What this answers, whose threads wait for one another. Where it does not end in time, the test
/// fails, and names what it missed.
pub(crate) fn in_time<R: Abort + Threads + Wait + Clock + Sync, T: Send, F: FnOnce() -> T + Send>(
    rt: &R,
    what: &str,
    run: F,
) -> T
    requires { F.IsAlwaysCallable run }
{
    let watch = Watch::new();
    let ((), answer) = join(
        rt,
        || watch.keeps(rt, what),
        || {
            let answer = run();
            watch.ends();
            answer
        },
    );
    answer
}
