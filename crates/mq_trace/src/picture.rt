//! A picture of a run as an SVG: for each queue a band with its messages as bars, and how many
//! wait.

mod ahead;
mod axis;
mod band;
mod bars;
mod clock;
mod frame;
mod lanes;
mod marks;
mod pen;
mod refusals;
mod scenes;
mod step_line;
mod style;
mod survey;

use crate::output::{WriteFailed, write_bytes};
use crate::{Refusal, SlotEntries, TimeScale, TraceError};
use frame::{write_foot, write_head};
use mq_queue::Event;
use pen::Pen;
use refusals::Row;
use scenes::{Scenes, kept_bar};
use std::alloc::{AllocError, Global};
use std::io::Write;
use survey::Survey;

/// The length in bytes from which on what was drawn is written.
const SHEET_LEN: usize = 32768;

/// Writes what was drawn so far, and empties the buffer.
fn pour<W: Write>(writer: &mut W, out: &mut String) -> Result<(), TraceError> {
    match write_bytes(writer, out.as_bytes()) {
        Ok(()) => {
            out.clear();
            Ok(())
        }
        Err(WriteFailed) => Err(TraceError::Write),
    }
}

/// Draws what waited where a slot's entries begin.
fn draw_kept(pen: &mut Pen, out: &mut String, slot: SlotEntries<'_>) -> Result<(), AllocError> {
    let Some(base) = slot.base else {
        return Ok(());
    };
    for i in 0..8 {
        if let Some(message) = base.waiting.get(i) {
            pen.kept(out, slot.first, kept_bar(slot, message))?;
        }
    }
    Ok(())
}

/// Draws the bands of a slot's queues, of which the first has this number. Answers the number of
/// the next.
fn draw_slot<W: Write>(
    writer: &mut W,
    out: &mut String,
    pen: &mut Pen,
    run: &Run<'_>,
    slot: SlotEntries<'_>,
    first: usize,
) -> Result<usize, TraceError> {
    let mut next = first;
    pen.rest();
    for scene in Scenes::new(slot) {
        let is_made = matches!(scene.step.event, Event::Made { .. });
        if is_made || pen.is_idle() {
            pen.finish(out, run.refusals)?;
            pour(writer, out)?;
            let Some(band) = run.survey.bands.get(next) else {
                return Ok(next);
            };
            pen.begin(out, *band)?;
            if !is_made {
                draw_kept(pen, out, slot)?;
            }
            next = next.saturating_add(1);
        }
        pen.step(out, &scene)?;
        if out.len() >= SHEET_LEN {
            pour(writer, out)?;
        }
    }
    pen.finish(out, run.refusals)?;
    pour(writer, out)?;
    Ok(next)
}

/// A run, and what was found in it.
#[derive(Drop)]
struct Run<'a> {
    survey: Survey,
    refusals: &'a [Refusal],
}

/// Draws the refusals that name no queue with a band.
fn draw_others(out: &mut String, run: &Run<'_>) -> Result<(), AllocError> {
    let survey = &run.survey;
    if !survey.has_others {
        return Ok(());
    }
    let y = survey.bottom.saturating_sub(12);
    writeln!(out, "<text class='i' x='16' y='{y}'>other refusals</text>")?;
    let mut row = Row::new(survey.axis(), survey.scale, y);
    for refusal in run.refusals {
        if !survey.has_band(refusal.id) {
            row.put(out, refusal)?;
        }
    }
    row.finish(out)
}

/// Writes an SVG that shows a run, 1,200 pixels wide. Its first 64 queues have a band each, with
/// at most 8 bars at a time. What falls into one column of pixels is drawn as one, so that the
/// picture does not grow with the run beyond what its width has room for, nor does the memory.
pub fn write_picture<W: Write>(
    alloc: Global,
    writer: &mut W,
    slots: &[SlotEntries<'_>],
    refusals: &[Refusal],
    scale: TimeScale,
) -> Result<(), TraceError> {
    let survey = Survey::of(alloc, slots, refusals, scale)?;
    let mut pen = Pen::new(alloc, survey.axis(), scale);
    let run = Run { survey, refusals };
    let mut out = String::new(alloc);
    write_head(&mut out, &run.survey)?;
    pour(writer, &mut out)?;
    let mut next = 0;
    for slot in slots {
        next = draw_slot(writer, &mut out, &mut pen, &run, *slot, next)?;
    }
    draw_others(&mut out, &run)?;
    write_foot(&mut out, &run.survey)?;
    pour(writer, &mut out)
}

impl From<AllocError> for TraceError {
    fn from(_error: AllocError) -> TraceError {
        TraceError::Memory
    }
}
