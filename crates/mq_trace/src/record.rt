//! The records of a trace, in the Trace Event Format.

ghost use Rattle.std.specs.Prelude.{◌≡◌, ◌+◌, ◌++◌, OnOk};
ghost use Rattle.mq_message.specs.Shown.{selection_text};
ghost use Rattle.mq_queue.specs.Shown.{bool_text};
ghost use Rattle.mq_trace.specs.Records.{args_head, counter_record, event_args, event_head};
ghost use Rattle.mq_trace.specs.Records.{event_record, instant_head, key_name, message_name};
ghost use Rattle.mq_trace.specs.Records.{moment_of as moment_told, process_record, receipt_args};
ghost use Rattle.mq_trace.specs.Records.{seat_of as seat_told, slice_head, stamp};
ghost use Rattle.mq_trace.specs.Records.{time_of as time_told};

use crate::{Step, TimeScale};
use itoa::{Buffer, Integer};
use mq_message::{Header, Selection};
use mq_queue::Event;
use std::alloc::AllocError;

/// Appends a word and the number behind it.
#[inline(always)]
pub(crate) fn write_field<I: Integer>(
    out: &mut Vec<u8>,
    word: &[u8],
    number: I,
) -> Result<(), AllocError>
    ensures { OnOk result (out.new.items ≡ out.old.items ++ word.now ++ I.text number) }
{
    let mut digits = Buffer::new();
    out.extend_from_slice(word)?;
    out.extend_from_slice(digits.format(number).as_bytes())
}

/// The seat that called.
fn seat_of(event: Event) -> u16
    ensures { result ≡ seat_told event }
{
    match event {
        Event::Made { seat, .. }
        | Event::Sent { seat, .. }
        | Event::Received { seat, .. }
        | Event::Changed { seat, .. }
        | Event::Removed { seat, .. } => seat,
    }
}

/// The moment that the caller named.
fn moment_of(event: Event) -> u64
    ensures { result ≡ moment_told event }
{
    match event {
        Event::Made { moment, .. }
        | Event::Sent { moment, .. }
        | Event::Received { moment, .. }
        | Event::Changed { moment, .. }
        | Event::Removed { moment, .. } => moment,
    }
}

/// The process of a queue.
fn pid_of(id: u32) -> u64
    ensures { result ≡ id + 1 }
{
    u64::from(id) + 1
}

/// Yes or no, as JSON has it.
fn bool_name(is: bool) -> &'static str
    ensures { result.now ≡ bool_text is }
{
    if is { "true" } else { "false" }
}

/// The time of a step.
fn time_of(scale: TimeScale, step: Step) -> u64
    ensures { result ≡ time_told scale step }
{
    match scale {
        TimeScale::Moments | TimeScale::Lines => moment_of(step.event),
        TimeScale::Entries => step.entry,
    }
}

/// The record that names a queue's process.
#[tactic(auto, unfolding(crate::specs::Records::process_record))]
pub(crate) fn write_process(out: &mut Vec<u8>, id: u32, key: Option<i32>) -> Result<(), AllocError>
    ensures { OnOk result (out.new.items ≡ out.old.items ++ process_record id key) }
{
    write_field(
        out,
        b"{\"ph\":\"M\",\"name\":\"process_name\",\"pid\":",
        pid_of(id),
    )?;
    write_field(out, b",\"args\":{\"name\":\"queue ", id)?;
    write_key(out, key)?;
    out.extend_from_slice(b"\"}}")?;
    Ok(())
}

fn write_key(out: &mut Vec<u8>, key: Option<i32>) -> Result<(), AllocError>
    ensures { OnOk result (out.new.items ≡ out.old.items ++ key_name key) }
{
    match key {
        Some(key) => write_field(out, b" key ", key),
        None => Ok(()),
    }
}

/// An instant, up to its process.
#[tactic(auto, unfolding(crate::specs::Records::instant_head))]
pub(crate) fn write_instant(out: &mut Vec<u8>, name: &[u8]) -> Result<(), AllocError>
    ensures { OnOk result (out.new.items ≡ out.old.items ++ instant_head name.now) }
{
    out.extend_from_slice(b"{\"ph\":\"i\",\"s\":\"p\",\"name\":\"")?;
    out.extend_from_slice(name)?;
    out.extend_from_slice(b"\"")
}

/// Where a message begins or ends to wait, up to its process.
#[tactic(auto, unfolding(crate::specs::Records::slice_head))]
fn write_slice(
    out: &mut Vec<u8>,
    ph: &[u8],
    id: u32,
    place: u64,
    message: Option<Header>,
) -> Result<(), AllocError>
    ensures { OnOk result (out.new.items ≡ out.old.items ++ slice_head ph.now id place message) }
{
    out.extend_from_slice(b"{\"ph\":\"")?;
    out.extend_from_slice(ph)?;
    write_field(out, b"\",\"cat\":\"message\",\"id\":\"", id)?;
    write_field(out, b".", place)?;
    out.extend_from_slice(b"\",\"name\":\"")?;
    write_name(out, message)?;
    out.extend_from_slice(b"\"")?;
    Ok(())
}

fn write_name(out: &mut Vec<u8>, message: Option<Header>) -> Result<(), AllocError>
    ensures { OnOk result (out.new.items ≡ out.old.items ++ message_name message) }
{
    match message {
        Some(message) => write_field(out, b"type ", message.mtype),
        None => out.extend_from_slice(b"unknown"),
    }
}

/// The record of an event, up to its process.
fn write_head(
    out: &mut Vec<u8>,
    id: u32,
    event: Event,
    message: Option<Header>,
) -> Result<(), AllocError>
    ensures { OnOk result (out.new.items ≡ out.old.items ++ event_head id event message) }
{
    match event {
        Event::Made { .. } => write_instant(out, b"made"),
        Event::Sent { .. } => {
            let place = message.map_or(0, |message| message.place);
            write_slice(out, b"b", id, place, message)
        }
        Event::Received { place, .. } => write_slice(out, b"e", id, place, message),
        Event::Changed { .. } => write_instant(out, b"quota"),
        Event::Removed { .. } => write_instant(out, b"removed"),
    }
}

/// The queue as a process, the seat as a thread, and the time.
#[tactic(auto, unfolding(crate::specs::Records::stamp))]
fn write_stamp(out: &mut Vec<u8>, id: u32, seat: u16, time: u64) -> Result<(), AllocError>
    ensures { OnOk result (out.new.items ≡ out.old.items ++ stamp id seat time) }
{
    write_field(out, b",\"pid\":", pid_of(id))?;
    write_field(out, b",\"tid\":", seat)?;
    write_field(out, b",\"ts\":", time)
}

/// The arguments that each event has.
#[tactic(auto, unfolding(crate::specs::Records::args_head))]
fn write_args_head(out: &mut Vec<u8>, entry: u64, seat: u16) -> Result<(), AllocError>
    ensures { OnOk result (out.new.items ≡ out.old.items ++ args_head entry seat) }
{
    write_field(out, b",\"args\":{\"entry\":", entry)?;
    write_field(out, b",\"seat\":", seat)?;
    Ok(())
}

/// The arguments of an event.
fn write_args(out: &mut Vec<u8>, event: Event) -> Result<(), AllocError>
    ensures { OnOk result (out.new.items ≡ out.old.items ++ event_args event) }
{
    match event {
        Event::Made { key, .. } => write_field(out, b",\"key\":", key),
        Event::Sent { length, tag, .. } => {
            write_field(out, b",\"length\":", length)?;
            write_field(out, b",\"tag\":", tag)
        }
        Event::Received {
            place,
            size,
            noerror,
            selection,
            ..
        } => write_receipt(out, place, size, noerror, selection),
        Event::Changed { qbytes, .. } => write_field(out, b",\"qbytes\":", qbytes),
        Event::Removed { .. } => Ok(()),
    }
}

/// What a receipt asked for.
#[tactic(auto, unfolding(crate::specs::Records::receipt_args))]
fn write_receipt(
    out: &mut Vec<u8>,
    place: u64,
    size: u64,
    noerror: bool,
    selection: Selection,
) -> Result<(), AllocError>
    ensures { OnOk result
        (out.new.items ≡ out.old.items ++ receipt_args place size noerror selection) }
{
    write_field(out, b",\"place\":", place)?;
    write_field(out, b",\"size\":", size)?;
    out.extend_from_slice(b",\"noerror\":")?;
    out.extend_from_slice(bool_name(noerror).as_bytes())?;
    out.extend_from_slice(b",\"selection\":\"")?;
    write_selection(out, selection)?;
    out.extend_from_slice(b"\"")?;
    Ok(())
}

/// A selection in words.
fn write_selection(out: &mut Vec<u8>, selection: Selection) -> Result<(), AllocError>
    ensures { OnOk result (out.new.items ≡ out.old.items ++ selection_text selection) }
{
    match selection {
        Selection::Any => out.extend_from_slice(b"any"),
        Selection::Exact(mtype) => write_field(out, b"type ", mtype),
        Selection::Except(mtype) => write_field(out, b"not type ", mtype),
        Selection::UpTo(bound) => write_field(out, b"up to ", bound),
    }
}

/// The record of an event.
#[tactic(auto, unfolding(crate::specs::Records::event_record))]
pub(crate) fn write_event(out: &mut Vec<u8>, scale: TimeScale, step: Step) -> Result<(), AllocError>
    ensures { OnOk result (out.new.items ≡ out.old.items ++ event_record scale step) }
{
    let seat = seat_of(step.event);
    write_head(out, step.id, step.event, step.message)?;
    write_stamp(out, step.id, seat, time_of(scale, step))?;
    write_args_head(out, step.entry, seat)?;
    write_args(out, step.event)?;
    out.extend_from_slice(b"}}")
}

/// How many messages and bytes wait after a step.
#[tactic(auto, unfolding(crate::specs::Records::counter_record))]
pub(crate) fn write_counter(
    out: &mut Vec<u8>,
    scale: TimeScale,
    step: Step,
) -> Result<(), AllocError>
    ensures { OnOk result (out.new.items ≡ out.old.items ++ counter_record scale step) }
{
    write_field(
        out,
        b"{\"ph\":\"C\",\"name\":\"waiting\",\"pid\":",
        pid_of(step.id),
    )?;
    write_field(out, b",\"ts\":", time_of(scale, step))?;
    write_field(out, b",\"args\":{\"messages\":", step.qnum)?;
    write_field(out, b",\"bytes\":", step.cbytes)?;
    out.extend_from_slice(b"}}")?;
    Ok(())
}
