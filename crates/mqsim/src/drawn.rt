//! A run of which what happened is written: a picture or a trace.

ghost use Rattle.mq_cli.specs.Input.{IsRunSize};
ghost use Rattle.mqsim.specs.Runs.{RanKind};

use crate::command_line::{Kind, Output, Task};
use crate::serial::OUTPUT_LEN;
use mq_calls::{ClosedSlot, Config};
use mq_cli::{Recorded, RunFault, record_serial, record_threads};
use mq_trace::{SlotEntries, TimeScale, TraceError, write_picture, write_trace};
use std::alloc::{AllocError, Global};
use std::io::{BufWriter, Read, Write};
use std::sync::Wait;
use std::thread::Threads;
use std::time::Clock;

/// Runs the script of the reader, and writes to the writer what happened, many lines at a time.
/// Nothing is written before the run has ended.
#[tactic(auto, using(crate::proofs::RunLemmas::drawn, crate::proofs::RunLemmas::undrawn_memory, crate::proofs::RunLemmas::undrawn_write, crate::proofs::RunLemmas::unrecorded))]
pub fn draw<T: Threads + Wait + Clock + Sync, R: Read, W: Write + Drop>(
    rt: &T,
    alloc: Global,
    task: Task,
    reader: &mut R,
    writer: W,
) -> Result<(), RunFault>
    requires { IsRunSize task.config }
    ensures ran { RanKind task.kind task.config (R.remaining reader.old) (R.remaining reader.new)
        result }
{
    let recorded = match recorded(rt, alloc, task.kind, reader, task.config) {
        Ok(recorded) => recorded,
        Err(fault) => return Err(fault),
    };
    let Ok(mut buffered) = BufWriter::with_capacity(alloc, OUTPUT_LEN, writer) else {
        return Err(RunFault::Memory);
    };
    match written(alloc, &mut buffered, task, &recorded) {
        Ok(()) => Ok(()),
        Err(TraceError::Write) => Err(RunFault::Write),
        Err(TraceError::Memory) => Err(RunFault::Memory),
    }
}

/// Runs the script, and returns what is left of the run.
#[tactic(auto, using(crate::proofs::RunLemmas::recorded_serial, crate::proofs::RunLemmas::recorded_threads))]
fn recorded<T: Threads + Wait + Clock + Sync, R: Read>(
    rt: &T,
    alloc: Global,
    kind: Kind,
    reader: &mut R,
    config: Config,
) -> Result<Recorded, RunFault>
    requires { IsRunSize config }
    ensures ran { RanKind kind config (R.remaining reader.old) (R.remaining reader.new) result }
{
    match kind {
        Kind::Serial => record_serial(alloc, reader, config),
        Kind::Threads => record_threads(rt, alloc, reader, config),
    }
}

/// Writes the trace of a task's run, and flushes the writer. The time of a serial script is its
/// lines. Sections run concurrently, so that their lines have no order: the time of a threads
/// script is the entries of each slot.
fn written<W: Write>(
    alloc: Global,
    writer: &mut W,
    task: Task,
    recorded: &Recorded,
) -> Result<(), TraceError> {
    let Ok(entries) = entries_of(alloc, &recorded.slots) else {
        return Err(TraceError::Memory);
    };
    let scale = match task.kind {
        Kind::Serial => TimeScale::Lines,
        Kind::Threads => TimeScale::Entries,
    };
    match task.output {
        Output::Trace => write_trace(alloc, writer, &entries, &recorded.refusals, scale)?,
        Output::Picture | Output::Answers => {
            write_picture(alloc, writer, &entries, &recorded.refusals, scale)?;
        }
    }
    match writer.flush() {
        Ok(()) => Ok(()),
        Err(_) => Err(TraceError::Write),
    }
}

/// The entries of each slot.
fn entries_of<'a>(
    alloc: Global,
    slots: &'a [ClosedSlot],
) -> Result<Vec<SlotEntries<'a>>, AllocError> {
    let mut entries = Vec::with_capacity(alloc, slots.len())?;
    let mut number: u8 = 0;
    for slot in slots {
        entries.push(SlotEntries::of_closed(number, slot))?;
        number = number.saturating_add(1);
    }
    Ok(entries)
}
