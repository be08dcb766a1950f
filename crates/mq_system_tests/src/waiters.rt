//! Waiters and timeout policies, without a system.

use crate::holds;
use mq_system::{Forever, NoWait, Patience, Until, Waiters};
use std::io;
use std::process::Abort;
use std::sync::Wait;
use std::sync::atomic::{AtomicU64, Ordering};
use std::test::Fail;
use std::time::{Clock, Duration, Instant};

/// A clock that reads a millisecond more each time.
#[derive(Drop)]
struct Ticks {
    reads: AtomicU64,
}

impl Ticks {
    /// It reads so many milliseconds first.
    fn from(first: u64) -> Ticks {
        Ticks {
            reads: AtomicU64::new(first),
        }
    }
}

impl Clock for Ticks {
    fn monotonic(&self) -> io::Result<Duration> {
        let read = self.reads.fetch_add(1, Ordering::SeqCst);
        Ok(Duration::from_millis(read))
    }

    fn since_1970(&self) -> io::Result<Duration> {
        Err(io::Error::from(io::ErrorKind::Other))
    }
}

#[test]
fn a_wait_that_timed_out_is_not_woken_twice(rt: HostRuntime) {
    let waiters = Waiters::new();
    holds(&rt, !waiters.wake(), "none registered");
    for _ in 0..2 {
        let seen = waiters.register();
        waiters.wait(&rt, seen, Duration::from_millis(1));
        holds(&rt, waiters.wake(), "one registered");
        holds(&rt, !waiters.wake(), "it has gone");
    }
}

#[test]
fn a_waiter_woken_before_it_parks_does_not_park(rt: HostRuntime) {
    let waiters = Waiters::new();
    let seen = waiters.register();
    waiters.wake();
    // It would sleep for a day.
    waiters.wait(&rt, seen, Duration::from_secs(86400));
}

#[test]
fn a_patience_says_how_long_it_waits(rt: HostRuntime) {
    let minute = Duration::from_secs(60);
    let Ok(now) = Instant::now(&rt) else {
        panic!(rt; "no clock");
    };
    is_left(&rt, NoWait.left(), None, "no wait");
    is_left(&rt, Forever.left(), Some(Duration::MAX), "for ever");
    let mut within = Until::within(&rt, minute);
    let first = within.left();
    is_left(
        &rt,
        first,
        Some(minute),
        "the time begins at the first wait",
    );
    holds(&rt, within.left() <= Some(minute), "and goes on");
    let come = Until::at(&rt, now).left();
    is_left(&rt, come, None, "that time has come");
    let none = Until::within(&rt, Duration::ZERO).left();
    is_left(&rt, none, None, "no time");
    let far = Until::within(&rt, Duration::MAX).left();
    is_left(&rt, far, Some(Duration::MAX), "a time that does not come");
}

#[test]
fn a_wait_has_left_what_its_clock_says(rt: HostRuntime) {
    let (clock, later) = (Ticks::from(7), Ticks::from(13));
    let mut within = Until::within(&clock, Duration::from_millis(3));
    for left in [3u64, 2, 1] {
        let wanted = Some(Duration::from_millis(left));
        is_left(&rt, within.left(), wanted, "all until its end");
    }
    is_left(&rt, within.left(), None, "its end has come");
    let Ok(end) = Instant::now(&later) else {
        panic!(rt; "no clock");
    };
    let mut at = Until::at(&clock, end);
    is_left(&rt, at.left(), Some(Duration::from_millis(2)), "until then");
    is_left(&rt, at.left(), Some(Duration::from_millis(1)), "until then");
    is_left(&rt, at.left(), None, "that time has come");
}

/// How long a wait of three seconds takes.
fn waited<R: Abort + Clock + Wait>(rt: &R) -> Duration {
    let waiters = Waiters::new();
    let Ok(began) = Instant::now(rt) else {
        panic!(rt; "no clock");
    };
    let seen = waiters.register();
    waiters.wait(rt, seen, Duration::from_secs(3));
    let Ok(took) = began.elapsed(rt) else {
        panic!(rt; "no clock");
    };
    took
}

/// A busy machine delays one wait; a wait that is made twice is too long at each of three tries.
#[test]
fn a_wait_does_not_take_twice_its_time(rt: HostRuntime) {
    for _ in 0..3 {
        if waited(&rt) < Duration::from_millis(5500) {
            return;
        }
    }
    panic!(rt; "twice its time");
}

/// A patience has so much time left, or none.
fn is_left(rt: &impl Abort, left: Option<Duration>, wanted: Option<Duration>, what: &str) {
    holds(rt, left == wanted, what);
}
