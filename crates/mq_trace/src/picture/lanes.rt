//! The bars of a band, in lanes.

use super::axis::digits;
use super::band::{LANE_HEIGHT, LANES};
use super::bars::{Bar, Until};
use super::clock::time_of;
use crate::TimeScale;
use std::alloc::AllocError;

/// A bar, from column to column, or so many of which each is narrower than a column.
#[derive(Clone, Copy)]
pub(crate) struct Stroke {
    pub from: u64,
    pub to: u64,
    pub count: u64,
    pub bar: Bar,
}

/// One bar after another.
#[derive(Clone, Copy)]
struct Lane {
    /// From which entry on it is free, or `None` where its bar extends to the end.
    free: Option<u64>,
    /// The bar that is drawn next, unless another falls into its column.
    held: Option<Stroke>,
}

/// The lanes of a band.
#[derive(Clone, Copy)]
pub(crate) struct Lanes {
    scale: TimeScale,
    lanes: [Lane; 8],
}

impl Lanes {
    pub(crate) fn new(scale: TimeScale) -> Lanes {
        let lane = Lane {
            free: Some(0),
            held: None,
        };
        Lanes {
            scale,
            lanes: [lane; 8],
        }
    }

    /// The lowest lane that is free at this entry.
    pub(crate) fn free_lane(&self, entry: u64) -> Option<usize> {
        self.lanes
            .iter()
            .position(|lane| lane.free.is_some_and(|free| free <= entry))
    }

    /// Puts a bar into a lane, and draws the one before it, unless both are narrower than the
    /// column in which they are.
    pub(crate) fn put(
        &mut self,
        out: &mut String,
        i: usize,
        top: u64,
        stroke: Stroke,
    ) -> Result<(), AllocError> {
        let Some(lane) = self.lanes.get_mut(i) else {
            return Ok(());
        };
        let before = lane.held;
        lane.free = stroke.bar.until.stamp().map(|at| at.entry);
        lane.held = Some(stroke);
        let Some(before) = before else {
            return Ok(());
        };
        if before.to <= before.from && stroke.to <= stroke.from && before.from == stroke.from {
            lane.held = Some(Stroke {
                count: before.count.saturating_add(1),
                ..before
            });
            return Ok(());
        }
        self.draw(out, i as u64, top, before)
    }

    /// Draws what is still held.
    pub(crate) fn finish(&self, out: &mut String, top: u64) -> Result<(), AllocError> {
        for i in 0..self.lanes.len() {
            if let Some(stroke) = self.lanes[i].held {
                self.draw(out, i as u64, top, stroke)?;
            }
        }
        Ok(())
    }

    fn draw(&self, out: &mut String, i: u64, top: u64, stroke: Stroke) -> Result<(), AllocError> {
        let y = top.saturating_add(i.min(LANES) * LANE_HEIGHT);
        let mtype = stroke.bar.message.mtype;
        let x = stroke.from;
        let whole = stroke.to.saturating_sub(x).max(1);
        let width = if whole > 2 { whole - 1 } else { whole };
        let colour = mtype.rem_euclid(8);
        let colour = if stroke.count > 1 { 8 } else { colour };
        write!(
            out,
            "<path class='c{colour}' d='M{x} {y}h{width}v12h-{width}z'><title>"
        )?;
        write_title(out, self.scale, stroke)?;
        out.push_str("</title></path>\n")?;
        let sign = if mtype < 0 { 1 } else { 0 };
        let room = (digits(mtype.unsigned_abs()) + sign) * 6 + 3;
        if stroke.count == 1 && room <= width {
            let (x, y) = (x.saturating_add(2), y.saturating_add(10));
            writeln!(
                out,
                "<text class='b{colour}' x='{x}' y='{y}'>{mtype}</text>"
            )?;
        }
        Ok(())
    }
}

/// What a bar is: `type 5, 3 bytes, tag 0, from seat 1 at 2 to seat 1 at 7`.
fn write_title(out: &mut String, scale: TimeScale, stroke: Stroke) -> Result<(), AllocError> {
    let count = stroke.count;
    if count > 1 {
        return write!(out, "{count} messages");
    }
    let bar = stroke.bar;
    let (mtype, length, tag) = (bar.message.mtype, bar.message.length, bar.message.tag);
    let bytes = if length == 1 { "byte" } else { "bytes" };
    let seat = bar.message.seat;
    write!(
        out,
        "type {mtype}, {length} {bytes}, tag {tag}, from seat {seat}"
    )?;
    match bar.sent {
        Some(sent) => {
            let time = time_of(scale, sent);
            write!(out, " at {time}")?;
        }
        None => out.push_str(" before the cut")?,
    }
    match bar.until {
        Until::Received { seat, at } => {
            let time = time_of(scale, at);
            write!(out, " to seat {seat} at {time}")
        }
        Until::Removed { at } => {
            let time = time_of(scale, at);
            write!(out, " to the removal at {time}")
        }
        Until::Waiting => out.push_str(", still waiting"),
    }
}
