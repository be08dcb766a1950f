//! Steps whose waits have a deadline: which timeouts their calls get, by a clock of the tests.

ghost use Rattle.std.specs.Prelude.{◌≡◌};
ghost use Rattle.mq_cli.specs.Plans.{puts_of, takes_of};

use crate::workers::plans::{Call, REMOVE, Wanting, put, put_call, remove, take};
use mq_calls::Errno;
use mq_cli::{Outcome, Step, work};
use mq_table::Id;
use std::alloc::Global;
use std::io;
use std::sync::Wait;
use std::sync::atomic::{AtomicU64, Ordering};
use std::time::{Clock, Duration};

/// A clock that advances by a millisecond each time that it is read.
#[derive(Drop)]
struct Ticking(AtomicU64);

impl Clock for Ticking {
    fn monotonic(&self) -> io::Result<Duration> {
        Ok(Duration::from_millis(self.0.fetch_add(1, Ordering::SeqCst)))
    }

    fn since_1970(&self) -> io::Result<Duration> {
        Ok(Duration::ZERO)
    }
}

/// So many messages within so many milliseconds, and the call that sends the one with this tag.
fn put_within(count: u32, span: u64) -> Step
    ensures { (puts_of result ≡ count) × (takes_of result ≡ 0) }
{
    Step::Put {
        id: Id::from_number(65),
        mtype: 7,
        count,
        length: 10,
        within: Some(span),
        moment: 4,
    }
}

fn put_call_within(tag: u64, left: Option<Duration>) -> Call {
    Call::Put {
        id: 65,
        mtype: 7,
        tag,
        length: 10,
        pages: true,
        left,
        moment: 4,
    }
}

fn take_within(count: u32, span: u64) -> Step
    ensures { (puts_of result ≡ 0) × (takes_of result ≡ count) }
{
    Step::Take {
        id: Id::from_number(129),
        msgtyp: -7,
        count,
        within: Some(span),
        moment: 6,
    }
}

fn take_call(left: Option<Duration>, most: usize) -> Call {
    Call::Take {
        id: 129,
        msgtyp: -7,
        left,
        most,
        moment: 6,
    }
}

fn millis(count: u64) -> Option<Duration> {
    Some(Duration::from_millis(count))
}

/// Each call reads the clock once.
fn wanted() -> [Call; 9] {
    [
        put_call_within(1, millis(100)),
        put_call_within(2, millis(99)),
        take_call(millis(1_000_000), 1),
        take_call(millis(999_999), 2),
        take_call(millis(999_998), 1),
        put_call(3),
        crate::workers::plans::take_call(1),
        put_call_within(4, None),
        REMOVE,
    ]
}

/// The same where the calls succeed, and one message is pending at a time: steps with a deadline,
/// without one, and with one that has passed.
fn outcome<R: Wait>(rt: &R, alloc: Global) -> (Outcome, u64) {
    let wanted = wanted();
    let plan = [
        put_within(2, 100),
        take_within(3, 1_000_000),
        put(1),
        take(1),
        put_within(1, 0),
        remove(),
    ];
    let clock = Ticking(AtomicU64::new(77));
    let mut port = Wanting::new(&wanted, 9, 1);
    let outcome = work(rt, &clock, alloc, &(), &mut port, &plan);
    (outcome, port.calls)
}

/// The end begins where a call of the step first has to wait, and holds for all its calls.
#[test]
fn one_end_holds_for_all_calls_of_a_step(rt: HostRuntime) {
    let (first, calls) = outcome(&rt, rt.alloc());
    let (outcome, calls) = if first.end == Some(Errno::ENOMEM) {
        outcome(&rt, rt.alloc())
    } else {
        (first, calls)
    };
    holds!(rt; outcome.end == None, "done");
    holds!(rt; calls == 9, "each call once");
    holds!(rt; outcome.sent == 4 && outcome.received == 4, "all");
}
