//! Sends and receives of bytes by copy: a text is drafted from a slice, and copied out to a vector.

ghost use Rattle.std.specs.Prelude.{◌≡◌, ◌+◌, ◌≤◌, ◌++◌, length};
ghost use Rattle.std.specs.Prelude.{vec_len, vec_capacity};
ghost use Rattle.mq_calls.specs.Look.{refused_at};
ghost use Rattle.mq.specs.Bytes.{AnswersBytes, MayLackMemory, sends_bytes};

use crate::Message;
use mq_arena::Text;
use mq_calls::{Errno, SendRefused};
use mq_local::OneThread;
use mq_table::Id;
use std::sync::ledger::Ledger;

/// The size of the buffer of a first receive: a longer text makes it grow.
pub(crate) const FIRST_ROOM: u64 = 256;

/// Drafts a text with a message's bytes and sends it, or spends it where it is refused. EINVAL and
/// ENOMEM of the draft, then the refusals of `OneThread::msgsnd`: a draft that finds no memory
/// returns ENOMEM, whatever the send would have returned.
#[tactic(auto, using(crate::proofs::SendLemmas::sends_drafted))]
pub(crate) fn send_bytes<L: Ledger>(
    queues: &mut OneThread<L>,
    seat: u16,
    id: Id,
    message: Message<'_>,
    moment: u64,
) -> Result<u64, Errno>
    ensures answer { AnswersBytes result (λ entry. entry)
        (sends_bytes queues.old seat id message.entry.mtype message.entry.tag
        message.entry.bytes.now moment)
        (refused_at queues.old id Errno.ENOMEM)
        (MayLackMemory queues.old message.entry.bytes.now)
        queues.old queues.new }
{
    let Message { mtype, tag, bytes } = message;
    let text = match queues.draft_of(bytes) {
        Ok(text) => text,
        Err(error) => return Err(error.errno()),
    };
    match queues.msgsnd(seat, id, mtype, tag, text, moment) {
        Ok(entry) => Ok(entry),
        Err(refusal) => {
            let SendRefused { refused, text } = refusal;
            queues.spend(text);
            Err(refused.errno)
        }
    }
}

/// Copies a text's bytes into a vector that has room for them.
pub(crate) fn copy_out<L: Ledger>(text: &Text<L>, bytes: &mut Vec<u8>)
    requires { vec_len bytes.old + length text.now.bytes ≤ vec_capacity bytes.old }
    ensures items { bytes.new.items ≡ bytes.old.items ++ text.now.bytes }
    ensures capacity { vec_capacity bytes.old ≤ vec_capacity bytes.new }
{
    for part in text.parts() {
        match bytes.extend_from_slice(part) {
            Ok(()) => (),
            Err(_) => unreachable!(),
        }
    }
}
