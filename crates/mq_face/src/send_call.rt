//! msgsnd of msgop(2) for C, in two steps: a text is drafted, which the caller writes in place, and
//! then it is sent.

ghost use Rattle.std.specs.Prelude.{◌≡◌, ◌<◌, OnErr, OnOk};
ghost use Rattle.mq_arena.specs.declared.order.TheConstants.{INLINE_LEN};
ghost use Rattle.mq_calls.specs.Calls.{stat as stat_answer};
ghost use Rattle.mq_calls.specs.Texts.{text_spent};
ghost use Rattle.mq_face.specs.Turns.{AnswersTurn, draft_turn, never_fits};
ghost use Rattle.mq_face.specs.Turns.{send_turn, without_pages};

use crate::manual::{EFAULT, IPC_NOWAIT, SEAT};
use crate::refusal::{blocked, gone, id_of};
use crate::{Call, Done, Refusal, Wait};
use mq_arena::{PAGE_LEN, Text};
use mq_calls::{DraftError, Errno, SendRefused};
use mq_local::OneThread;
use mq_table::Id;
use std::sync::ledger::Ledger;

/// The text of a message that is to be sent (msgop(2), msgsnd), of as many zeros as it has bytes:
/// the caller writes them in place, once, and sends it.
pub fn draft<L: Ledger>(queues: &mut OneThread<L>, call: Call) -> Result<Text<L>, Refusal>
    ensures answer { AnswersTurn (draft_turn queues.old call) queues.old queues.new result }
    ensures memory { OnErr result (OnOk (draft_turn queues.old call) (INLINE_LEN < call.size)) }
{
    if !call.buffer {
        return Err(Refusal::fault(EFAULT));
    }
    let id = id_of(call.number)?;
    if call.mtype < 1 {
        return Err(Refusal::of(Errno::EINVAL));
    }
    match queues.draft(call.size) {
        Ok(text) => Ok(text),
        Err(DraftError::NoRun) => Err(without_pages(queues, call, id)),
        Err(error) => Err(Refusal::of(error.errno())),
    }
}

/// Why a text for which no pages are free is not drafted: the error of the id is returned first,
/// and a text that is longer than all pages does not wait.
fn without_pages<L: Ledger>(queues: &OneThread<L>, call: Call, id: Id) -> Refusal
    ensures { result ≡ without_pages queues.now call (stat_answer queues.now id) }
{
    match queues.stat(id) {
        Err(errno) => gone(call, errno),
        Ok(_) if call.has(IPC_NOWAIT) || never_fits(queues, call.size) => {
            Refusal::of(Errno::ENOMEM)
        }
        Ok(_) => Refusal {
            errno: Errno::ENOMEM.number(),
            wait: Wait::Pages,
        },
    }
}

/// Whether a text is longer than all pages are.
fn never_fits<L: Ledger>(queues: &OneThread<L>, size: u64) -> bool
    ensures { result ≡ never_fits queues.now size }
{
    u64::from(queues.pages()) * (PAGE_LEN as u64) < size
}

/// Sends a text that was drafted for this call (msgop(2), msgsnd). Where it is refused, its pages
/// are freed.
pub fn send<L: Ledger>(
    queues: &mut OneThread<L>,
    call: Call,
    text: Text<L>,
) -> Result<Done, Refusal>
    ensures answer { AnswersTurn (send_turn queues.old call text) (text_spent text queues.old)
        queues.new result }
{
    let id = match id_of(call.number) {
        Ok(id) => id,
        Err(refusal) => {
            queues.spend(text);
            return Err(refusal);
        }
    };
    match queues.msgsnd(SEAT, id, call.mtype, 0, text, call.moment) {
        Ok(entry) => Ok(Done::changed(id.slot(), entry)),
        Err(refusal) => {
            let SendRefused { refused, text } = refusal;
            queues.spend(text);
            Err(blocked(call, id, refused.errno))
        }
    }
}
