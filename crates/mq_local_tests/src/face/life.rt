//! A queue from its making to its removal, by each call once.

use crate::face::calls::{
    call, control_again, get_again, is, is_whole, receive_again, receiving, send_again, sending,
};
use crate::face::system::{FaceCalls, FaceDay, lives};
use crate::holds;
use mq_calls::Usage;
use mq_face::{
    Call, CallKind, ControlShown, Done, IPC_CREAT, IPC_INFO, IPC_RMID, IPC_SET, IPC_STAT,
    MSG_EXCEPT, MSG_NOERROR, MSG_STAT,
};
use mq_queue::Figures;
use std::process::Abort;

/// A call that changed slot 1.
fn changed(entry: u64) -> Done {
    Done {
        value: 0,
        slot: 1,
        entry: Some(entry),
        shown: ControlShown::Nothing,
    }
}

/// The queue with key 9 is made in slot 0, and one without a key in slot 1.
fn gets<S: FaceCalls>(rt: &impl Abort, queues: &mut S) {
    let first = Done {
        slot: 0,
        ..changed(0)
    };
    let making = call(CallKind::Get, 9, IPC_CREAT | 0o600);
    is(rt, get_again(queues, making), Ok(first), "the first queue");
    let second = Done {
        value: 1,
        ..changed(0)
    };
    let private = call(CallKind::Get, 0, IPC_CREAT);
    is(
        rt,
        get_again(queues, private),
        Ok(second),
        "the second queue",
    );
}

fn sends<S: FaceCalls>(rt: &impl Abort, queues: &mut S) {
    let sent = send_again(queues, sending(1, 0, 7, 5), b"hello");
    is(rt, sent, Ok(changed(1)), "the first message");
    let sent = send_again(queues, sending(1, 0, 2, 3), b"abc");
    is(rt, sent, Ok(changed(2)), "the second message");
}

/// The figures of the queue in slot 1, once both messages are pending.
fn both() -> Done {
    Done {
        value: 0,
        slot: 1,
        entry: None,
        shown: ControlShown::Queue(Figures {
            qnum: 2,
            cbytes: 8,
            qbytes: 131_072,
            stime: 3,
            rtime: 0,
            ctime: 3,
            lspid: 1,
            lrpid: 0,
        }),
    }
}

/// What is in use then.
fn all() -> Done {
    Done {
        value: 1,
        slot: 0,
        entry: None,
        shown: ControlShown::Usage(Usage {
            queues: 2,
            messages: 2,
            bytes: 8,
            greatest: 1,
            slots: 4,
            pages: 4,
        }),
    }
}

/// A command answers so.
fn commands<S: FaceCalls>(
    rt: &impl Abort,
    queues: &mut S,
    number: i32,
    command: u32,
    wanted: Done,
) {
    let answer = control_again(queues, call(CallKind::Control, number, command));
    is(rt, answer, Ok(wanted), "a command");
}

fn shows<S: FaceCalls>(rt: &impl Abort, queues: &mut S) {
    commands(rt, queues, 1, IPC_STAT, both());
    let by_slot = Done { value: 1, ..both() };
    commands(rt, queues, 1, MSG_STAT, by_slot);
    commands(rt, queues, 0, IPC_INFO, all());
    let numbers = all().shown.numbers() == [2, 2, 8, 4, 4, 65_536, 131_072, 1024];
    holds(rt, numbers, "other numbers are shown");
}

fn receives<S: FaceCalls>(
    rt: &impl Abort,
    queues: &mut S,
    call: Call,
    numbers: [u64; 8],
    wanted: &[u8],
) {
    match receive_again(queues, call, wanted) {
        Ok(received) => {
            holds(rt, received.numbers == numbers, "other numbers");
            is_whole(rt, received);
        }
        Err(refusal) => panic!(rt; "not received: {}", refusal.errno),
    }
}

/// Both messages are received: the one of another type than 7, and four bytes of the other one.
fn receives_both<S: FaceCalls>(rt: &impl Abort, queues: &mut S) {
    let other_than_7 = Call {
        mtype: 7,
        ..receiving(1, MSG_EXCEPT, 10)
    };
    receives(rt, queues, other_than_7, [3, 0, 0, 1, 1, 2, 3, 0], b"abc");
    let cut = receiving(1, MSG_NOERROR, 4);
    receives(rt, queues, cut, [4, 0, 0, 1, 1, 7, 4, 0], b"hell");
}

#[derive(Drop)]
struct OneLife;

impl FaceDay for OneLife {
    fn spend<S: FaceCalls, R: Abort>(&self, rt: &R, queues: &mut S) {
        gets(rt, queues);
        sends(rt, queues);
        shows(rt, queues);
        receives_both(rt, queues);
        let quota = Call {
            size: 10,
            ..call(CallKind::Control, 1, IPC_SET)
        };
        is(rt, control_again(queues, quota), Ok(changed(5)), "a quota");
        commands(rt, queues, 1, IPC_RMID, changed(6));
    }
}

#[test]
fn a_queue_is_made_filled_shown_and_removed(rt: HostRuntime) {
    lives(&rt, rt.alloc(), 2, 4, &OneLife);
}
