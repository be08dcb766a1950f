//! The refusals by the manual's numbers, and which of them wait.

use crate::face::calls::{
    call, control_again, get_again, is, receive_again, receiving, send_again, sending,
};
use crate::face::system::{FaceCalls, FaceDay, lives};
use crate::holds;
use mq_face::{
    Call, CallKind, IPC_CREAT, IPC_EXCL, IPC_INFO, IPC_NOWAIT, IPC_RMID, IPC_SET, IPC_STAT,
    MSG_COPY, MSG_EXCEPT, MSG_STAT, Refusal, Wait,
};
use std::process::Abort;

const EPERM: i32 = 1;

const ENOENT: i32 = 2;

const E2BIG: i32 = 7;

const EAGAIN: i32 = 11;

const ENOMEM: i32 = 12;

const EFAULT: i32 = 14;

const EEXIST: i32 = 17;

const EINVAL: i32 = 22;

const ENOSPC: i32 = 28;

const ENOSYS: i32 = 38;

const ENOMSG: i32 = 42;

const EIDRM: i32 = 43;

/// A refusal that waits for nothing.
fn by(errno: i32) -> Refusal {
    Refusal {
        errno,
        wait: Wait::No,
    }
}

fn without_buffer(call: Call) -> Call {
    Call {
        buffer: false,
        ..call
    }
}

fn waits(errno: i32, wait: Wait) -> Refusal {
    Refusal { errno, wait }
}

fn gets<S: FaceCalls>(rt: &impl Abort, queues: &mut S, call: Call, refusal: Refusal) {
    is(
        rt,
        get_again(queues, call),
        Err(refusal),
        "another answer to msgget",
    );
}

fn sends<S: FaceCalls>(rt: &impl Abort, queues: &mut S, call: Call, refusal: Refusal) {
    is(
        rt,
        send_again(queues, call, b""),
        Err(refusal),
        "another answer to msgsnd",
    );
}

fn receives<S: FaceCalls>(rt: &impl Abort, queues: &mut S, call: Call, refusal: Refusal) {
    match receive_again(queues, call, b"") {
        Ok(_) => panic!(rt; "received"),
        Err(answer) => holds(rt, answer == refusal, "another answer to msgrcv"),
    }
}

fn controls<S: FaceCalls>(rt: &impl Abort, queues: &mut S, call: Call, refusal: Refusal) {
    is(
        rt,
        control_again(queues, call),
        Err(refusal),
        "another answer to msgctl",
    );
}

fn gets_all<S: FaceCalls>(rt: &impl Abort, queues: &mut S) {
    gets(rt, queues, call(CallKind::Get, 9, 0), by(ENOENT));
    let made = get_again(queues, call(CallKind::Get, 9, IPC_CREAT)).is_ok();
    holds(rt, made, "no queue");
    gets(
        rt,
        queues,
        call(CallKind::Get, 9, IPC_CREAT | IPC_EXCL),
        by(EEXIST),
    );
    gets(rt, queues, call(CallKind::Get, 0, 0), by(ENOSPC));
}

/// Of queue 0 with no message, in an arena of one page.
fn sends_early<S: FaceCalls>(rt: &impl Abort, queues: &mut S) {
    for (call, errno) in [
        (without_buffer(sending(0, 0, 1, 1)), EFAULT),
        (sending(-1, 0, 1, 1), EINVAL),
        (sending(1, 0, 1, 1), EINVAL),
        (sending(0, 0, 0, 1), EINVAL),
        (sending(0, 0, 1, 65537), EINVAL),
        (sending(0, 0, 1, 1025), ENOMEM),
    ] {
        sends(rt, queues, call, by(errno));
    }
    let sent = send_again(queues, sending(0, 0, 1, 10), b"").is_ok();
    holds(rt, sent, "not sent");
}

/// Of queue 0 with a message, which takes the only page.
fn sends_late<S: FaceCalls>(rt: &impl Abort, queues: &mut S) {
    sends(rt, queues, sending(0, 0, 1, 10), waits(ENOMEM, Wait::Pages));
    sends(rt, queues, sending(0, IPC_NOWAIT, 1, 10), by(ENOMEM));
    sends(rt, queues, sending(1, 0, 1, 10), by(EINVAL));
}

/// Of queue 0 with a message of ten bytes.
fn receives_all<S: FaceCalls>(rt: &impl Abort, queues: &mut S) {
    let other = Call {
        mtype: 2,
        ..receiving(0, 0, 9)
    };
    let other_now = Call {
        flags: IPC_NOWAIT,
        ..other
    };
    for (call, errno) in [
        (receiving(-1, 0, 1), EINVAL),
        (receiving(1, 0, 1), EINVAL),
        (receiving(0, 0, 1 << 63), EINVAL),
        (receiving(0, MSG_COPY, 1), EINVAL),
        (receiving(0, MSG_COPY | MSG_EXCEPT | IPC_NOWAIT, 1), EINVAL),
        (receiving(0, MSG_COPY | IPC_NOWAIT, 1), ENOSYS),
        (without_buffer(receiving(0, 0, 1)), EFAULT),
        (receiving(0, 0, 9), E2BIG),
        (other_now, ENOMSG),
    ] {
        receives(rt, queues, call, by(errno));
    }
    receives(rt, queues, other, waits(ENOMSG, Wait::Change(0)));
}

fn command(number: i32, flags: u32) -> Call {
    call(CallKind::Control, number, flags)
}

fn controls_all<S: FaceCalls>(rt: &impl Abort, queues: &mut S) {
    let over = Call {
        size: 131_073,
        ..command(0, IPC_SET)
    };
    for (call, errno) in [
        (command(-1, IPC_STAT), EINVAL),
        (command(1, IPC_RMID), EINVAL),
        (command(0, 99), EINVAL),
        (command(1, MSG_STAT), EINVAL),
        (command(300, MSG_STAT), EINVAL),
        (without_buffer(command(0, IPC_STAT)), EFAULT),
        (without_buffer(command(0, IPC_SET)), EFAULT),
        (without_buffer(command(0, MSG_STAT)), EFAULT),
        (without_buffer(command(0, IPC_INFO)), EFAULT),
        (over, EPERM),
    ] {
        controls(rt, queues, call, by(errno));
    }
}

/// A command that changes queue 0.
fn changes<S: FaceCalls>(rt: &impl Abort, queues: &mut S, flags: u32) {
    let changed = control_again(queues, command(0, flags)).is_ok();
    holds(rt, changed, "a command is refused");
}

/// A full queue, which is then removed: the answer shows whether the call has waited.
fn is_full_and_gone<S: FaceCalls>(rt: &impl Abort, queues: &mut S) {
    let empty = sending(0, 0, 1, 0);
    let at_once = Call {
        flags: IPC_NOWAIT,
        ..empty
    };
    let waited = Call {
        waited: true,
        ..empty
    };
    changes(rt, queues, IPC_SET);
    sends(rt, queues, empty, waits(EAGAIN, Wait::Change(0)));
    sends(rt, queues, at_once, by(EAGAIN));
    changes(rt, queues, IPC_RMID);
    sends(rt, queues, empty, by(EINVAL));
    receives(rt, queues, receiving(0, 0, 1), by(EINVAL));
    sends(rt, queues, waited, by(EIDRM));
}

#[derive(Drop)]
struct Refusals;

impl FaceDay for Refusals {
    fn spend<S: FaceCalls, R: Abort>(&self, rt: &R, queues: &mut S) {
        gets_all(rt, queues);
        sends_early(rt, queues);
        sends_late(rt, queues);
        receives_all(rt, queues);
        controls_all(rt, queues);
        is_full_and_gone(rt, queues);
    }
}

#[test]
fn each_refusal_has_the_manuals_number(rt: HostRuntime) {
    lives(&rt, rt.alloc(), 0, 1, &Refusals);
}
