//! A trace in the Trace Event Format, in its form as a JSON object.

ghost use Rattle.std.specs.Prelude.{◌≡◌, ◌∷◌, ◌++◌, [], map, IfOk, OnOk, false, true};
ghost use Rattle.mq_trace.specs.Records.{refusal_record};
ghost use Rattle.mq_trace.specs.Steps.{steps_of};
ghost use Rattle.mq_trace.specs.Trace.{records_of, refusal_records, slot_records, slots_records};
ghost use Rattle.mq_trace.specs.Trace.{step_records};
ghost use Rattle.mq_trace.specs.Trace.{trace_end, trace_head, trace_of};
ghost use Rattle.mq_trace.specs.Written.{Writes, WritesRecords};

use crate::output::{WriteFailed, write_bytes};
use crate::sheet::Sheet;
use crate::{Refusal, SlotEntries, Step, TimeScale, TraceError};
use std::alloc::{AllocError, Global};
use std::io::Write;

/// Writes the trace of these entries, slot after slot, and of the calls that were refused: each
/// queue is a process and each seat a thread, a message is a slice from its send to its receipt,
/// and counters show the pending messages. A refused call is at its moment by either scale. The
/// buffer takes a few pages of memory, however long the trace is. The writer is not flushed.
pub fn write_trace<W: Write>(
    alloc: Global,
    writer: &mut W,
    slots: &[SlotEntries<'_>],
    refusals: &[Refusal],
    scale: TimeScale,
) -> Result<(), TraceError>
    ensures { Writes (W.contents writer.old) (W.contents writer.new)
        (trace_of slots.now refusals.now scale) result }
{
    let Ok(mut sheet) = first_sheet(alloc) else {
        return Err(TraceError::Memory);
    };
    if let Err(error) = write_records(&mut sheet, writer, slots, refusals, scale) {
        return Err(error);
    }
    write_end(&mut sheet, writer)
}

/// What stands before the records.
#[tactic(auto, unfolding(crate::specs::Trace::trace_head))]
fn first_sheet(alloc: Global) -> Result<Sheet, AllocError>
    ensures text { IfOk result (λ sheet. sheet.text.items ≡ trace_head) }
    ensures begun { IfOk result (λ sheet. sheet.begun ≡ false) }
{
    let text = Vec::from_slice(alloc, b"{\"displayTimeUnit\":\"ms\",\"traceEvents\":[")?;
    Ok(Sheet { text, begun: false })
}

/// What stands after them, which ends the trace.
fn write_end<W: Write>(sheet: &mut Sheet, writer: &mut W) -> Result<(), TraceError>
    ensures { Writes (W.contents writer.old) (W.contents writer.new)
        (sheet.old.text.items ++ trace_end) result }
{
    if let Err(AllocError) = add_end(&mut sheet.text) {
        return Err(TraceError::Memory);
    }
    match write_bytes(writer, &sheet.text) {
        Ok(()) => Ok(()),
        Err(WriteFailed) => Err(TraceError::Write),
    }
}

#[tactic(auto, unfolding(crate::specs::Trace::trace_end))]
fn add_end(out: &mut Vec<u8>) -> Result<(), AllocError>
    ensures { OnOk result (out.new.items ≡ out.old.items ++ trace_end) }
{
    out.extend_from_slice(b"]}\n")
}

/// All records.
fn write_records<W: Write>(
    sheet: &mut Sheet,
    writer: &mut W,
    slots: &[SlotEntries<'_>],
    refusals: &[Refusal],
    scale: TimeScale,
) -> Result<(), TraceError>
    ensures { WritesRecords (W.contents writer.old) (W.contents writer.new) sheet.old sheet.new
        (records_of slots.now refusals.now scale) result }
{
    if let Err(error) = write_slots(sheet, writer, slots, scale) {
        return Err(error);
    }
    write_refusals(sheet, writer, refusals)
}

/// The records of all slots.
fn write_slots<W: Write>(
    sheet: &mut Sheet,
    writer: &mut W,
    slots: &[SlotEntries<'_>],
    scale: TimeScale,
) -> Result<(), TraceError>
    ensures { WritesRecords (W.contents writer.old) (W.contents writer.new) sheet.old sheet.new
        (slots_records scale slots.now) result }
{
    for slot in slots {
        if let Err(error) = write_slot(sheet, writer, *slot, scale) {
            return Err(error);
        }
    }
    Ok(())
}

/// The records of a slot's entries.
fn write_slot<W: Write>(
    sheet: &mut Sheet,
    writer: &mut W,
    slot: SlotEntries<'_>,
    scale: TimeScale,
) -> Result<(), TraceError>
    ensures { WritesRecords (W.contents writer.old) (W.contents writer.new) sheet.old sheet.new
        (slot_records scale true (steps_of slot.entry)) result }
{
    let mut first = true;
    for step in slot.steps() {
        if let Err(error) = write_step(sheet, writer, scale, first, step) {
            return Err(error);
        }
        first = false;
    }
    Ok(())
}

/// The records of a step.
fn write_step<W: Write>(
    sheet: &mut Sheet,
    writer: &mut W,
    scale: TimeScale,
    first: bool,
    step: Step,
) -> Result<(), TraceError>
    ensures { WritesRecords (W.contents writer.old) (W.contents writer.new) sheet.old sheet.new
        (step_records scale first step) result }
{
    if let Err(AllocError) = sheet.add_step(scale, first, step) {
        return Err(TraceError::Memory);
    }
    sheet.write_if_long(writer)
}

/// The records of the refused calls.
fn write_refusals<W: Write>(
    sheet: &mut Sheet,
    writer: &mut W,
    refusals: &[Refusal],
) -> Result<(), TraceError>
    ensures { WritesRecords (W.contents writer.old) (W.contents writer.new) sheet.old sheet.new
        (refusal_records refusals.now) result }
{
    if refusals.is_empty() {
        return Ok(());
    }
    if let Err(AllocError) = sheet.add_refused_process() {
        return Err(TraceError::Memory);
    }
    write_each(sheet, writer, refusals)
}

/// The record of each of them.
fn write_each<W: Write>(
    sheet: &mut Sheet,
    writer: &mut W,
    refusals: &[Refusal],
) -> Result<(), TraceError>
    ensures { WritesRecords (W.contents writer.old) (W.contents writer.new) sheet.old sheet.new
        (map refusal_record refusals.now) result }
{
    for refusal in refusals {
        if let Err(error) = write_refusal(sheet, writer, *refusal) {
            return Err(error);
        }
    }
    Ok(())
}

fn write_refusal<W: Write>(
    sheet: &mut Sheet,
    writer: &mut W,
    refusal: Refusal,
) -> Result<(), TraceError>
    ensures { WritesRecords (W.contents writer.old) (W.contents writer.new) sheet.old sheet.new
        (refusal_record refusal ∷ []) result }
{
    if let Err(AllocError) = sheet.add_refusal(refusal) {
        return Err(TraceError::Memory);
    }
    sheet.write_if_long(writer)
}
