//! A worker's plan ends at the first call that is refused. Each number of calls that succeed is
//! tried, over a port that checks each call.

use crate::workers::plans::{
    Call, REMOVE, Stopped, Wanting, long_put, long_put_call, put, put_call, remove, take, take_call,
};
use mq_calls::Errno;
use mq_cli::{Outcome, work};
use std::alloc::Global;
use std::sync::Wait;

/// The calls of the plan below, in their order: the tags rise from 1 over all that is sent. Behind
/// a message without bytes as many are asked for as are left.
fn wanted() -> [Call; 6] {
    [
        put_call(1),
        put_call(2),
        long_put_call(3),
        take_call(1),
        take_call(2),
        REMOVE,
    ]
}

/// What becomes of two messages sent, one more, three received and a removal, where so many calls
/// succeed.
fn outcome<R: Wait>(rt: &R, alloc: Global, lets: u64) -> (Outcome, u64) {
    let wanted = wanted();
    let plan = [put(2), long_put(1), take(3), remove()];
    let mut port = Wanting::new(&wanted, lets, 9);
    let first = work(rt, &Stopped, alloc, &(), &mut port, &plan);
    if first.end != Some(Errno::ENOMEM) {
        return (first, port.calls);
    }
    let mut port = Wanting::new(&wanted, lets, 9);
    let second = work(rt, &Stopped, alloc, &(), &mut port, &plan);
    (second, port.calls)
}

#[test]
fn a_plan_ends_at_the_first_call_that_is_refused(rt: HostRuntime) {
    for lets in 0..7u64 {
        let (outcome, calls) = outcome(&rt, rt.alloc(), lets);
        holds!(rt;
            outcome.end != Some(Errno::EEXIST),
            "a call that is not in the plan"
        );
        holds!(rt; outcome.end == Some(Errno::EPERM), "the refusal");
        holds!(rt; calls == lets, "a call after the refusal");
        holds!(rt; outcome.sent == lets.min(3), "sent");
        holds!(rt;
            outcome.received == lets.saturating_sub(3).min(3),
            "received"
        );
        holds!(rt; outcome.ordered, "in order");
    }
}

#[test]
fn a_plan_that_is_not_refused_is_done(rt: HostRuntime) {
    for lets in 7..9u64 {
        let (outcome, calls) = outcome(&rt, rt.alloc(), lets);
        holds!(rt; outcome.end == None, "done");
        holds!(rt; calls == 7, "each call once");
        holds!(rt; outcome.sent == 3 && outcome.received == 3, "all");
    }
}

#[test]
fn an_empty_plan_makes_no_call(rt: HostRuntime) {
    let mut port = Wanting::new(&[], 9, 9);
    let outcome = work(&rt, &Stopped, rt.alloc(), &(), &mut port, &[]);
    holds!(rt; outcome.end == None && outcome.ordered, "done");
    holds!(rt;
        outcome.sent == 0 && outcome.received == 0 && port.calls == 0,
        "nothing"
    );
}
