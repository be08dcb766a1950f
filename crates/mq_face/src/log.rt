//! The bound on the logs behind C, which has no call to drain them.

ghost use Rattle.std.specs.Prelude.{Some};
ghost use Rattle.mq_calls.specs.Texts.{text_spent};
ghost use Rattle.mq_face.specs.Logs.{CutsWhereDue};

use crate::ReceivedMessage;
use mq_arena::Text;
use mq_local::OneThread;
use std::alloc::AllocError;
use std::sync::ledger::Ledger;

/// After how many entries a slot's log is drained: no call of C does it.
pub const LOG_BOUND: u64 = 1024;

/// Drains a slot's log where the entry is the last of as many, and returns whether it is. An `Err`
/// means that memory ran out: the log stays, and is drained at the next.
pub fn cut_where_due<L: Ledger>(
    queues: &mut OneThread<L>,
    slot: u8,
    entry: Option<u64>,
) -> Result<bool, AllocError>
    ensures { CutsWhereDue queues.old slot entry queues.new result }
{
    match entry {
        Some(entry) if entry % LOG_BOUND == LOG_BOUND - 1 && slot < queues.slots() => {
            match queues.cut_log(slot) {
                Ok(_) => Ok(true),
                Err(_) => Err(AllocError),
            }
        }
        _ => Ok(false),
    }
}

/// Spends the text of a message that was received, and drains the slot's log where the receipt is
/// the last of as many entries.
pub fn spend_received<L: Ledger>(
    queues: &mut OneThread<L>,
    message: ReceivedMessage<Text<L>>,
) -> Result<bool, AllocError>
    ensures { CutsWhereDue (text_spent message.text queues.old) message.slot (Some message.entry)
        queues.new result }
{
    let ReceivedMessage {
        slot,
        entry,
        mtype: _,
        text,
    } = message;
    queues.spend(text);
    cut_where_due(queues, slot, Some(entry))
}
