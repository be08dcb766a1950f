//! msgrcv of msgop(2) for C: the faults of its arguments, then a call of `OneThread`.

ghost use Rattle.std.specs.Prelude.{◌≡◌};
ghost use Rattle.mq_face.specs.Turns.{AnswersTurn, receive_turn, received_message};
ghost use Rattle.mq_face.specs.Refusals.{copy_fault, receive_fault};

use crate::manual::{
    EFAULT, ENOSYS, IPC_NOWAIT, MSG_COPY, MSG_EXCEPT, MSG_NOERROR, SEAT, SSIZE_MAX,
};
use crate::refusal::{blocked, id_of};
use crate::{Call, ReceivedMessage, Refusal};
use mq_arena::Text;
use mq_calls::{Delivered, Errno};
use mq_local::OneThread;
use mq_table::Id;
use std::sync::ledger::Ledger;

/// Receives a message (msgop(2), msgrcv). The caller copies its text once, and spends it.
pub fn receive<L: Ledger>(
    queues: &mut OneThread<L>,
    call: Call,
) -> Result<ReceivedMessage<Text<L>>, Refusal>
    ensures answer { AnswersTurn (receive_turn queues.old call) queues.old queues.new result }
{
    let id = id_of(call.number)?;
    if let Some(errno) = receive_fault(call) {
        return Err(Refusal::fault(errno));
    }
    let except = call.has(MSG_EXCEPT);
    let noerror = call.has(MSG_NOERROR);
    match queues.msgrcv(
        SEAT,
        id,
        call.size,
        call.mtype,
        except,
        noerror,
        call.moment,
    ) {
        Ok(delivered) => Ok(received(id, delivered)),
        Err(refused) => Err(blocked(call, id, refused.errno)),
    }
}

/// The number of the refusal that the call's own numbers decide: a room over SSIZE_MAX; MSG_COPY,
/// as a kernel answers that is built without checkpoints; no buffer.
fn receive_fault(call: Call) -> Option<i32>
    ensures { result ≡ receive_fault call }
{
    if call.size > SSIZE_MAX {
        return Some(Errno::EINVAL.number());
    }
    if call.has(MSG_COPY) {
        return Some(copy_fault(call));
    }
    if call.buffer { None } else { Some(EFAULT) }
}

fn copy_fault(call: Call) -> i32
    ensures { result ≡ copy_fault call }
{
    if call.has(MSG_EXCEPT) || !call.has(IPC_NOWAIT) {
        Errno::EINVAL.number()
    } else {
        ENOSYS
    }
}

fn received<L: Ledger>(id: Id, delivered: Delivered<Text<L>>) -> ReceivedMessage<Text<L>>
    ensures { result ≡ received_message id delivered }
{
    let Delivered {
        entry,
        mtype,
        sender: _,
        tag: _,
        length: _,
        text,
    } = delivered;
    ReceivedMessage {
        slot: id.slot(),
        entry,
        mtype,
        text,
    }
}
