//! msgctl(2) for C: each command as a call of `OneThread`.

ghost use Rattle.std.specs.Prelude.{◌≡◌, ◌<◌, ◌≤◌, ◌+◌, OnErr};
ghost use Rattle.mq_table.specs.declared.limits.TheConstants.{MAX_SEQ, MAX_SLOTS};
ghost use Rattle.mq_calls.specs.Calls.{stat as stat_answer};
ghost use Rattle.mq_face.specs.Turns.{AnswersTurn, WantsMemory, control_turn, remove_turn, set_turn};
ghost use Rattle.mq_face.specs.Commands.{info_reply, row_reply, show, slot_reply, stat_reply};

use crate::manual::{EFAULT, SEAT};
use crate::refusal::{gone, id_of};
use crate::{Call, ControlCommand, ControlShown, Done, Refusal};
use mq_calls::{Errno, Removal};
use mq_local::OneThread;
use mq_queue::BoardRow;
use mq_table::{Id, MAX_SEQ, MAX_SLOTS};
use std::sync::ledger::Ledger;

/// Does what the command says (msgctl(2)).
pub fn control<L: Ledger>(queues: &mut OneThread<L>, call: Call) -> Result<Done, Refusal>
    ensures answer { AnswersTurn (control_turn queues.old call) queues.old queues.new result }
    ensures memory { OnErr result (WantsMemory (control_turn queues.old call)) }
{
    let id = id_of(call.number)?;
    match ControlCommand::of(call.flags) {
        Some(ControlCommand::Remove) => remove(queues, call, id),
        Some(ControlCommand::Set) => set(queues, call, id),
        Some(ControlCommand::Stat) => stat(queues, call, id),
        Some(ControlCommand::StatSlot) => stat_slot(queues, call, id),
        Some(ControlCommand::Info) => info(queues, call),
        None => Err(Refusal::of(Errno::EINVAL)),
    }
}

fn remove<L: Ledger>(queues: &mut OneThread<L>, call: Call, id: Id) -> Result<Done, Refusal>
    ensures answer { AnswersTurn (remove_turn queues.old call id) queues.old queues.new result }
{
    match queues.rmid(SEAT, id, call.moment) {
        Ok(Removal { entry, log: _ }) => Ok(Done::changed(id.slot(), entry)),
        Err(refused) => Err(gone(call, refused.errno)),
    }
}

fn set<L: Ledger>(queues: &mut OneThread<L>, call: Call, id: Id) -> Result<Done, Refusal>
    ensures answer { AnswersTurn (set_turn queues.old call id) queues.old queues.new result }
{
    if !call.buffer {
        return Err(Refusal::fault(EFAULT));
    }
    match queues.set(SEAT, id, call.size, call.moment) {
        Ok(entry) => Ok(Done::changed(id.slot(), entry)),
        Err(refused) => Err(gone(call, refused.errno)),
    }
}

/// What is shown, where there is a buffer for it.
fn show(call: Call, value: u64, slot: u8, shown: ControlShown) -> Result<Done, Refusal>
    ensures { result ≡ show call value slot shown }
{
    if !call.buffer {
        return Err(Refusal::fault(EFAULT));
    }
    Ok(Done {
        value,
        slot,
        entry: None,
        shown,
    })
}

fn stat<L: Ledger>(queues: &OneThread<L>, call: Call, id: Id) -> Result<Done, Refusal>
    ensures { result ≡ stat_reply call id (stat_answer queues.now id) }
{
    match queues.stat(id) {
        Ok(figures) => show(call, 0, id.slot(), ControlShown::Queue(figures)),
        Err(errno) => Err(gone(call, errno)),
    }
}

/// What a slot shows by its number.
fn stat_slot<L: Ledger>(queues: &OneThread<L>, call: Call, number: Id) -> Result<Done, Refusal>
    ensures { result ≡ slot_reply queues.now call number }
{
    let number = number.number();
    if number >= u32::from(queues.slots()) {
        return Err(Refusal::of(Errno::EINVAL));
    }
    let slot = number as u8;
    stat_row(call, slot, queues.row(slot))
}

/// What is shown of a slot's queue by its row. EINVAL where the slot has none.
fn stat_row(call: Call, slot: u8, row: BoardRow) -> Result<Done, Refusal>
    requires slot { slot < MAX_SLOTS }
    requires made { row.made ≤ MAX_SEQ + 1 }
    ensures { result ≡ row_reply call slot row }
{
    if !row.live {
        return Err(Refusal::of(Errno::EINVAL));
    }
    let id = Id::of(slot, row.made.saturating_sub(1));
    show(
        call,
        u64::from(id.number()),
        slot,
        ControlShown::Queue(row.figures),
    )
}

/// All queues together; it returns the greatest slot in use.
fn info<L: Ledger>(queues: &OneThread<L>, call: Call) -> Result<Done, Refusal>
    ensures { result ≡ info_reply queues.now call }
{
    let usage = queues.info();
    show(
        call,
        u64::from(usage.greatest),
        0,
        ControlShown::Usage(usage),
    )
}
