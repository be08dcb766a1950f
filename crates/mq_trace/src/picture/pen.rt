//! What draws a band, step by step.

use super::axis::{Axis, RIGHT};
use super::band::{Band, PLOT_HEIGHT};
use super::bars::Bar;
use super::clock::Clock;
use super::lanes::{Lanes, Stroke};
use super::marks::Marks;
use super::refusals::Row;
use super::scenes::Scene;
use super::step_line::StepLine;
use crate::{Refusal, TimeScale};
use std::alloc::{AllocError, Global};

/// A band that is drawn from left to right. Its bars are written as they come, lines and marks
/// when it ends.
#[derive(Drop)]
pub(crate) struct Pen {
    axis: Axis,
    scale: TimeScale,
    clock: Clock,
    band: Option<Band>,
    lanes: Lanes,
    messages: StepLine,
    bytes: StepLine,
    marks: Marks,
}

impl Pen {
    pub(crate) fn new(alloc: Global, axis: Axis, scale: TimeScale) -> Pen {
        Pen {
            axis,
            scale,
            clock: Clock::new(scale),
            band: None,
            lanes: Lanes::new(scale),
            messages: StepLine::new(alloc),
            bytes: StepLine::new(alloc),
            marks: Marks::new(alloc),
        }
    }

    /// Begins with a slot.
    pub(crate) fn rest(&mut self) {
        self.clock = Clock::new(self.scale);
        self.band = None;
    }

    /// Whether no band is begun.
    pub(crate) fn is_idle(&self) -> bool {
        self.band.is_none()
    }

    /// Begins with a band: its label, and from when to when its queue was there.
    pub(crate) fn begin(&mut self, out: &mut String, band: Band) -> Result<(), AllocError> {
        let x = self.axis.column(band.begin);
        let foot = band.plot_top() + PLOT_HEIGHT;
        self.lanes = Lanes::new(self.scale);
        self.marks.clear();
        self.messages.begin(x, foot, band.most, band.kept)?;
        self.bytes.begin(x, foot, band.most_bytes, band.kept_bytes)?;
        self.band = Some(band);
        write_label(out, band, x, band.end_column(self.axis))
    }

    /// Draws a step.
    pub(crate) fn step(&mut self, out: &mut String, scene: &Scene<'_>) -> Result<(), AllocError> {
        let Some(band) = self.band else {
            return Ok(());
        };
        let column = self.axis.column(self.clock.at(&scene.step));
        self.messages.go(column, scene.step.qnum)?;
        self.bytes.go(column, scene.step.cbytes)?;
        self.marks.note(&band, &scene.step, self.scale, column)?;
        // (only where a lane is free is it sought how long the message waits: so each entry is
        // read at most once for each lane)
        if let Some(lane) = self.lanes.free_lane(scene.step.entry)
            && let Some(bar) = scene.bar()
        {
            self.bar(out, lane, column, bar)?;
        }
        Ok(())
    }

    /// Draws the bar of a message that waited where the band's log was cut, if a lane is free.
    pub(crate) fn kept(
        &mut self,
        out: &mut String,
        entry: u64,
        bar: Bar,
    ) -> Result<(), AllocError> {
        let (Some(band), Some(lane)) = (self.band, self.lanes.free_lane(entry)) else {
            return Ok(());
        };
        self.bar(out, lane, self.axis.column(band.begin), bar)
    }

    fn bar(
        &mut self,
        out: &mut String,
        lane: usize,
        from: u64,
        bar: Bar,
    ) -> Result<(), AllocError> {
        let Some(band) = self.band else {
            return Ok(());
        };
        let to = match bar.until.stamp() {
            Some(at) => self.axis.column(self.clock.after(at)),
            None => RIGHT,
        };
        let stroke = Stroke {
            from,
            to: to.max(from),
            count: 1,
            bar,
        };
        self.lanes.put(out, lane, band.lanes_top(), stroke)
    }

    /// Ends the band, with the refusals that name its queue.
    pub(crate) fn finish(
        &mut self,
        out: &mut String,
        refusals: &[Refusal],
    ) -> Result<(), AllocError> {
        let Some(band) = self.band.take() else {
            return Ok(());
        };
        let column = band.end_column(self.axis);
        self.lanes.finish(out, band.lanes_top())?;
        self.messages.finish(out, "q", column)?;
        self.bytes.finish(out, "s", column)?;
        self.marks.finish(out)?;
        if band.is_refused {
            let mut row = Row::new(self.axis, self.scale, band.lanes_top().saturating_sub(17));
            for refusal in refusals {
                if refusal.id == Some(band.id) {
                    row.put(out, refusal)?;
                }
            }
            row.finish(out)?;
        }
        out.push_str("</g>\n")
    }
}

/// Begins a band: when its queue was there, its id and key, and the most that waited.
fn write_label(out: &mut String, band: Band, from: u64, to: u64) -> Result<(), AllocError> {
    let (top, id) = (band.top, band.id);
    writeln!(out, "<g transform='translate(0 {top})'>")?;
    let y = band.lanes_top() - 2;
    let (width, height) = (
        to.saturating_sub(from).max(1),
        band.height().saturating_sub(y),
    );
    write!(
        out,
        "<rect class='l' x='{from}' y='{y}' width='{width}' height='{height}'>"
    )?;
    writeln!(out, "<title>queue {id}</title></rect>")?;
    let y = band.lanes_top() + 9;
    writeln!(out, "<text class='i' x='16' y='{y}'>id {id}</text>")?;
    let y = y + 13;
    match band.key {
        Some(0) => writeln!(out, "<text x='16' y='{y}'>private</text>")?,
        Some(key) => writeln!(out, "<text x='16' y='{y}'>key {key}</text>")?,
        None => writeln!(out, "<text x='16' y='{y}'>made before</text>")?,
    }
    let (line, y, most) = (band.plot_top() + 8, band.plot_top() + 12, band.most);
    write!(out, "<path class='q' d='M16 {line}h18'/>")?;
    writeln!(out, "<text x='40' y='{y}'>max {most}</text>")?;
    let (line, y, most) = (line + 14, y + 14, band.most_bytes);
    write!(out, "<path class='s' d='M16 {line}h18'/>")?;
    writeln!(out, "<text x='40' y='{y}'>max {most} bytes</text>")
}
