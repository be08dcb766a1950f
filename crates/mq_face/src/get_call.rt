//! msgget(2) for C: its flags as `GetFlags`, its result as `Done`.

ghost use Rattle.std.specs.Prelude.{◌≡◌, OnErr};
ghost use Rattle.mq_face.specs.Turns.{AnswersTurn, WantsMemory, get_turn, got};
ghost use Rattle.mq_face.specs.Flags.{get_flags};

use crate::manual::{IPC_CREAT, IPC_EXCL, SEAT};
use crate::{Call, ControlShown, Done, Refusal};
use mq_calls::{GetFlags, Got};
use mq_local::OneThread;
use std::sync::ledger::Ledger;

/// The id of the queue with this key, or of a new queue (msgget(2)).
pub fn get<L: Ledger>(queues: &mut OneThread<L>, call: Call) -> Result<Done, Refusal>
    ensures answer { AnswersTurn (get_turn queues.old call) queues.old queues.new result }
    ensures memory { OnErr result (WantsMemory (get_turn queues.old call)) }
{
    match queues.msgget(SEAT, call.number, get_flags(call), call.moment) {
        Ok(found) => Ok(got(found)),
        Err(errno) => Err(Refusal::of(errno)),
    }
}

fn get_flags(call: Call) -> GetFlags
    ensures { result ≡ get_flags call.flags }
{
    GetFlags {
        create: call.has(IPC_CREAT),
        exclusive: call.has(IPC_EXCL),
    }
}

fn got(found: Got) -> Done
    ensures { result ≡ got found }
{
    Done {
        value: u64::from(found.id.number()),
        slot: found.id.slot(),
        entry: found.made,
        shown: ControlShown::Nothing,
    }
}
