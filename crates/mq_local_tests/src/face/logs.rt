//! Logs that are drained after each so many entries.

use crate::face::calls::{call, control_again, get_again, receiving, send_again, sending};
use crate::face::system::{FaceCalls, FaceDay, lives};
use crate::holds;
use mq_calls::Errno;
use mq_face::{Call, CallKind, IPC_CREAT, IPC_SET, LOG_BOUND};
use std::process::Abort;

/// How many entries are drained where the entry's log was drained; before there were so many.
fn cut_off_by(is_cut: bool, entry: u64, before: u64) -> u64 {
    if is_cut {
        entry.saturating_add(1)
    } else {
        before
    }
}

fn sends<S: FaceCalls>(rt: &impl Abort, queues: &mut S, slot: u8, before: u64) -> u64 {
    match send_again(queues, sending(i32::from(slot), 0, 1, 1), b"x") {
        Ok(done) => {
            let entry = done.entry.unwrap_or(0);
            let is_cut = queues.cut_where_due(done.slot, Some(entry));
            cut_off_by(is_cut, entry, before)
        }
        Err(refusal) => panic!(rt; "not sent: {}", refusal.errno),
    }
}

fn receives<S: FaceCalls>(rt: &impl Abort, queues: &mut S, slot: u8, before: u64) -> u64 {
    let receipt = receiving(i32::from(slot), 0, 1);
    let received = match queues.receive_and_cut(receipt) {
        Err(refusal) if refusal.errno == Errno::ENOMEM.number() => queues.receive_and_cut(receipt),
        answer => answer,
    };
    match received {
        Ok((entry, is_cut)) => cut_off_by(is_cut, entry, before),
        Err(refusal) => panic!(rt; "not received: {}", refusal.errno),
    }
}

/// As many entries are drained as are known: after each so many, or where a drain was once out of
/// memory, as many less.
fn are_due(rt: &impl Abort, off: u64, found: u64) {
    holds(
        rt,
        off == 2 * LOG_BOUND || off == LOG_BOUND,
        "cut off elsewhere",
    );
    holds(rt, found == off, "as much was not cut off");
}

/// Makes twice as many entries in a slot as a log keeps.
fn reach_two_bounds<S: FaceCalls, R: Abort>(rt: &R, queues: &mut S, slot: u8) {
    let mut off = 0;
    for _ in 0..LOG_BOUND {
        let sent = sends(rt, queues, slot, off);
        off = receives(rt, queues, slot, sent);
    }
    are_due(rt, off, queues.cut_off(rt, slot));
}

#[derive(Drop)]
struct Rounds;

impl FaceDay for Rounds {
    fn spend<S: FaceCalls, R: Abort>(&self, rt: &R, queues: &mut S) {
        for _slot in 0..2u8 {
            let made = get_again(queues, call(CallKind::Get, 0, IPC_CREAT)).is_ok();
            holds(rt, made, "no queue");
        }
        // In slot 0 the last of as many entries is a send, and in slot 1 a receipt.
        let quota = Call {
            size: 10,
            ..call(CallKind::Control, 1, IPC_SET)
        };
        holds(rt, control_again(queues, quota).is_ok(), "no quota");
        for slot in 0..2u8 {
            reach_two_bounds(rt, queues, slot);
        }
        let early = queues.cut_where_due(0, None);
        holds(rt, !early, "cut off after no entry");
        let other = queues.cut_where_due(7, Some(LOG_BOUND - 1));
        holds(rt, !other, "a slot that is not there is cut");
    }
}

#[test]
fn a_log_is_drained_after_as_many_entries(rt: HostRuntime) {
    lives(&rt, rt.alloc(), 0, 2, &Rounds);
}
