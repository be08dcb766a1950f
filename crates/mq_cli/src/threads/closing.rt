//! The summary of a run of workers.

ghost use Rattle.std.specs.Prelude.{◌≡◌, ◌++◌, IfOk, OnOk};
ghost use Rattle.mq_calls.specs.Closed.{entries_at_end};
ghost use Rattle.mq_cli.specs.Closing.{closing, counts_told, end_name as name_of_end, end_told};
ghost use Rattle.mq_cli.specs.Closing.{page_line, received_in, sent_in, slot_line};
ghost use Rattle.mq_cli.specs.Closing.{slot_lines, slot_told, worker_line, worker_lines};
ghost use Rattle.mq_cli.specs.Closing.{yes_or_no as name_of_answer};

use crate::Outcome;
use crate::reply::{write_field, write_last};
use mq_calls::{ClosedSlot, Errno};
use mq_queue::Event;
use std::alloc::{AllocError, Global};

/// The lines of the workers, of the slots in which a queue was ever made, and of the pages.
pub(crate) fn closing_text(
    alloc: Global,
    outcomes: &[Outcome],
    slots: &[ClosedSlot],
    pages: u32,
    free: u32,
) -> Result<Vec<u8>, AllocError>
    ensures { IfOk result (λ text. text.items ≡ closing outcomes.now slots.now pages free) }
{
    let mut out = Vec::new(alloc);
    write_workers(&mut out, outcomes)?;
    write_slots(&mut out, slots)?;
    write_pages(&mut out, pages, free)?;
    Ok(out)
}

/// A line for each worker, in the order of their seats.
fn write_workers(out: &mut Vec<u8>, outcomes: &[Outcome]) -> Result<(), AllocError>
    ensures { OnOk result (out.new.items ≡ out.old.items ++ worker_lines 2 outcomes.now) }
{
    for (place, outcome) in outcomes.iter().enumerate() {
        write_worker(out, place + 2, *outcome)?;
    }
    Ok(())
}

/// `worker S sent A received B order O end W`
fn write_worker(out: &mut Vec<u8>, seat: usize, outcome: Outcome) -> Result<(), AllocError>
    ensures { OnOk result (out.new.items ≡ out.old.items ++ worker_line seat outcome) }
{
    write_counts(out, seat, outcome)?;
    write_end(out, outcome)?;
    out.push(b'\n')?;
    Ok(())
}

#[tactic(auto, unfolding(crate::specs::Closing::counts_told))]
fn write_counts(out: &mut Vec<u8>, seat: usize, outcome: Outcome) -> Result<(), AllocError>
    ensures { OnOk result (out.new.items ≡ out.old.items ++ counts_told seat outcome) }
{
    write_field(out, b"worker ", seat)?;
    write_field(out, b" sent ", outcome.sent)?;
    write_field(out, b" received ", outcome.received)
}

#[tactic(auto, unfolding(crate::specs::Closing::end_told))]
fn write_end(out: &mut Vec<u8>, outcome: Outcome) -> Result<(), AllocError>
    ensures { OnOk result (out.new.items ≡ out.old.items ++ end_told outcome) }
{
    out.extend_from_slice(b" order ")?;
    out.extend_from_slice(yes_or_no(outcome.ordered).as_bytes())?;
    out.extend_from_slice(b" end ")?;
    out.extend_from_slice(end_name(outcome.end).as_bytes())
}

fn yes_or_no(answer: bool) -> &'static str
    ensures { result.now ≡ name_of_answer answer }
{
    if answer { "yes" } else { "no" }
}

/// `done`, or the manual's name of a refusal.
fn end_name(end: Option<Errno>) -> &'static str
    ensures { result.now ≡ name_of_end end }
{
    match end {
        None => "done",
        Some(errno) => errno.name(),
    }
}

/// A line for each slot in which a queue was ever made.
fn write_slots(out: &mut Vec<u8>, slots: &[ClosedSlot]) -> Result<(), AllocError>
    ensures { OnOk result (out.new.items ≡ out.old.items ++ slot_lines 0 slots.now) }
{
    for (number, slot) in slots.iter().enumerate() {
        write_slot(out, number, slot)?;
    }
    Ok(())
}

/// `slot K events N sent A received B left C`
fn write_slot(out: &mut Vec<u8>, number: usize, slot: &ClosedSlot) -> Result<(), AllocError>
    ensures { OnOk result (out.new.items ≡ out.old.items ++ slot_line number slot.now) }
{
    let events = count_events(slot);
    if events == 0 {
        return Ok(());
    }
    write_told(
        out,
        number,
        events,
        count_sent(&slot.past) + count_sent(&slot.last),
        count_received(&slot.past) + count_received(&slot.last),
        slot.left,
    )
}

#[tactic(auto, unfolding(crate::specs::Closing::slot_told))]
fn write_told(
    out: &mut Vec<u8>,
    number: usize,
    events: u128,
    sent: usize,
    received: usize,
    left: u64,
) -> Result<(), AllocError>
    ensures { OnOk result (out.new.items
        ≡ out.old.items ++ slot_told number events sent received left) }
{
    write_field(out, b"slot ", number)?;
    write_field(out, b" events ", events)?;
    write_field(out, b" sent ", sent)?;
    write_field(out, b" received ", received)?;
    write_last(out, b" left ", left)
}

/// How many entries a slot had: up to `u64::MAX` were drained, and others are left.
fn count_events(slot: &ClosedSlot) -> u128
    ensures { result ≡ entries_at_end slot.now }
{
    slot.first as u128 + slot.past.len() as u128 + slot.last.len() as u128
}

/// How many messages were sent.
fn count_sent(events: &[Event]) -> usize
    ensures { result ≡ sent_in events.now }
{
    events
        .iter()
        .filter(|event| matches!(event, Event::Sent { .. }))
        .count()
}

/// How many messages were received.
fn count_received(events: &[Event]) -> usize
    ensures { result ≡ received_in events.now }
{
    events
        .iter()
        .filter(|event| matches!(event, Event::Received { .. }))
        .count()
}

/// `pages P free F`
#[tactic(auto, unfolding(crate::specs::Closing::page_line))]
fn write_pages(out: &mut Vec<u8>, pages: u32, free: u32) -> Result<(), AllocError>
    ensures { OnOk result (out.new.items ≡ out.old.items ++ page_line pages free) }
{
    write_field(out, b"pages ", pages)?;
    write_last(out, b" free ", free)
}
