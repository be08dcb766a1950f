//! The calls of C over a system for a test, each made once more where there was no memory.

use crate::face::system::{FaceCalls, Received};
use crate::holds;
use mq_calls::Errno;
use mq_face::{Call, CallKind, Done, Refusal};
use std::process::Abort;

/// A call with a buffer, at moment 3, of which all else is 0.
pub(crate) fn call(kind: CallKind, number: i32, flags: u32) -> Call {
    Call {
        kind,
        number,
        flags,
        mtype: 0,
        size: 0,
        moment: 3,
        waited: false,
        buffer: true,
    }
}

/// A send of so many bytes with this type.
pub(crate) fn sending(id: i32, flags: u32, mtype: i64, size: u64) -> Call {
    Call {
        mtype,
        size,
        ..call(CallKind::Send, id, flags)
    }
}

/// A receipt of the first message, of up to so many bytes.
pub(crate) fn receiving(id: i32, flags: u32, size: u64) -> Call {
    Call {
        size,
        ..call(CallKind::Receive, id, flags)
    }
}

/// Whether a refusal is that of a call out of memory.
fn is_memory(refusal: Refusal) -> bool {
    refusal.errno == Errno::ENOMEM.number()
}

pub(crate) fn get_again<S: FaceCalls>(queues: &mut S, call: Call) -> Result<Done, Refusal> {
    match queues.get(call) {
        Err(refusal) if is_memory(refusal) => queues.get(call),
        answer => answer,
    }
}

pub(crate) fn control_again<S: FaceCalls>(queues: &mut S, call: Call) -> Result<Done, Refusal> {
    match queues.control(call) {
        Err(refusal) if is_memory(refusal) => queues.control(call),
        answer => answer,
    }
}

pub(crate) fn send_again<S: FaceCalls>(
    queues: &mut S,
    call: Call,
    bytes: &[u8],
) -> Result<Done, Refusal> {
    match queues.send(call, bytes) {
        Err(refusal) if is_memory(refusal) => queues.send(call, bytes),
        answer => answer,
    }
}

pub(crate) fn receive_again<S: FaceCalls>(
    queues: &mut S,
    call: Call,
    wanted: &[u8],
) -> Result<Received, Refusal> {
    match queues.receive(call, wanted) {
        Err(refusal) if is_memory(refusal) => queues.receive(call, wanted),
        answer => answer,
    }
}

/// A call has this answer.
pub(crate) fn is(
    rt: &impl Abort,
    answer: Result<Done, Refusal>,
    wanted: Result<Done, Refusal>,
    what: &str,
) {
    holds(rt, answer == wanted, what);
}

/// The message was received with these bytes in one part, and its text was freed.
pub(crate) fn is_whole(rt: &impl Abort, received: Received) {
    holds(rt, received.same, "other bytes");
    holds(rt, received.home, "a text does not come home");
}
