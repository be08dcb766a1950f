//! The numbers of calls and answers, as the structs of face/civdrax.c have them.

use mq_face::{
    Call, CallKind, ControlCommand, ControlShown, Done, IPC_CREAT, IPC_EXCL, IPC_INFO, IPC_NOWAIT,
    IPC_RMID, IPC_SET, IPC_STAT, MSG_COPY, MSG_EXCEPT, MSG_INFO, MSG_NOERROR, MSG_STAT,
    MSG_STAT_ANY, Refusal, Wait, from_bytes, to_bytes, unknown,
};
use mq_queue::Figures;

#[test]
fn a_call_has_the_numbers_of_the_struct(rt: HostRuntime) {
    let call = Call {
        kind: CallKind::Receive,
        number: -2,
        flags: 0o24000,
        mtype: -5,
        size: 9,
        moment: 1_700_000_000,
        waited: true,
        buffer: false,
    };
    let numbers = [
        3,
        0xffff_fffe,
        10240,
        0xffff_ffff_ffff_fffb,
        9,
        1_700_000_000,
        1,
        0,
    ];
    holds!(rt; call.numbers() == numbers);
    holds!(rt; Call::read(numbers) == call);
    let bytes = to_bytes(numbers);
    holds!(rt; bytes[..9] == [3, 0, 0, 0, 0, 0, 0, 0, 0xfe] && bytes[32..34] == [9, 0]);
    holds!(rt; from_bytes(&bytes) == numbers);
    let filled = [u64::MAX; 8];
    let read = Call::read(filled);
    holds!(rt; read.kind == CallKind::Unknown && read.number == -1 && read.flags == u32::MAX);
    holds!(rt; read.mtype == -1 && read.size == u64::MAX && read.waited && read.buffer);
    for kind in [
        CallKind::Get,
        CallKind::Send,
        CallKind::Receive,
        CallKind::Control,
        CallKind::Unknown,
    ] {
        holds!(rt; CallKind::of(kind.number()) == kind);
    }
}

#[test]
fn the_flags_and_commands_are_those_of_linux(rt: HostRuntime) {
    let flags = [
        IPC_CREAT,
        IPC_EXCL,
        IPC_NOWAIT,
        MSG_NOERROR,
        MSG_EXCEPT,
        MSG_COPY,
    ];
    holds!(rt; flags == [0x200, 0x400, 0x800, 0x1000, 0x2000, 0x4000]);
    let commands = [
        IPC_RMID,
        IPC_SET,
        IPC_STAT,
        IPC_INFO,
        MSG_STAT,
        MSG_INFO,
        MSG_STAT_ANY,
    ];
    holds!(rt; commands == [0, 1, 2, 3, 11, 12, 13]);
    holds!(rt; ControlCommand::of(0) == Some(ControlCommand::Remove));
    holds!(rt; ControlCommand::of(1) == Some(ControlCommand::Set));
    holds!(rt; ControlCommand::of(2) == Some(ControlCommand::Stat));
    for number in [3, 12] {
        assert!(rt;
            ControlCommand::of(number) == Some(ControlCommand::Info),
            "{number}"
        );
    }
    for number in [11, 13] {
        assert!(rt;
            ControlCommand::of(number) == Some(ControlCommand::StatSlot),
            "{number}"
        );
    }
    for number in [4, 10, 14, 258, u32::MAX] {
        assert!(rt; ControlCommand::of(number).is_none(), "{number}");
    }
}

#[test]
fn an_answer_has_the_numbers_of_the_struct(rt: HostRuntime) {
    let figures = Figures {
        qnum: 1,
        cbytes: 2,
        qbytes: 3,
        stime: 4,
        rtime: 5,
        ctime: 6,
        lspid: 7,
        lrpid: 8,
    };
    let done = Done {
        value: 130,
        slot: 2,
        entry: None,
        shown: ControlShown::Queue(figures),
    };
    holds!(rt; done.numbers() == [130, 0, 0, 2, 0, 0, 0, 1]);
    holds!(rt; done.shown.numbers() == [1, 2, 3, 4, 5, 6, 7, 8]);
    holds!(rt; ControlShown::Nothing.numbers() == [0; 8]);
    let waits = Refusal {
        errno: 11,
        wait: Wait::Change(63),
    };
    holds!(rt; waits.numbers() == [u64::MAX, 11, 1, 63, 0, 0, 0, 0]);
    holds!(rt; unknown().numbers() == [u64::MAX, 38, 0, 0, 0, 0, 0, 0]);
}
