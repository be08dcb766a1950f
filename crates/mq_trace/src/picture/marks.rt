//! The vertical lines of a band: where its quota was set, and where it was removed.

use super::axis::{RIGHT, digits};
use super::band::Band;
use super::clock::{stamp_of, time_of};
use crate::{Step, TimeScale};
use mq_queue::Event;
use std::alloc::{AllocError, Global};

/// The lines of a band, one a column, with labels where there is room.
#[derive(Drop)]
pub(crate) struct Marks {
    text: String,
    /// The column of the last line.
    column: u64,
    /// The column from which on a label has room.
    free: u64,
}

impl Marks {
    pub(crate) fn new(alloc: Global) -> Marks {
        Marks {
            text: String::new(alloc),
            column: 0,
            free: 0,
        }
    }

    pub(crate) fn clear(&mut self) {
        self.text.clear();
        self.column = 0;
        self.free = 0;
    }

    /// Notes a step, if it sets the quota or removes the queue.
    pub(crate) fn note(
        &mut self,
        band: &Band,
        step: &Step,
        scale: TimeScale,
        column: u64,
    ) -> Result<(), AllocError> {
        let time = time_of(scale, stamp_of(step));
        let (top, foot) = (band.lanes_top() - 3, band.height());
        match step.event {
            Event::Changed { seat, qbytes, .. } if self.column < column => {
                self.column = column;
                let text = &mut self.text;
                write!(text, "<path class='u' d='M{column}.5 {top}V{foot}'>")?;
                writeln!(
                    text,
                    "<title>quota {qbytes}, by seat {seat} at {time}</title></path>"
                )?;
                let width = (digits(qbytes) + 6) * 6 + 6;
                if let Some((x, y)) = self.room(column, width, band) {
                    writeln!(self.text, "<text x='{x}' y='{y}'>quota {qbytes}</text>")?;
                }
                Ok(())
            }
            Event::Removed { seat, .. } => {
                let text = &mut self.text;
                write!(text, "<path class='v' d='M{column}.5 {top}V{foot}'>")?;
                writeln!(
                    text,
                    "<title>removed, by seat {seat} at {time}</title></path>"
                )?;
                if let Some((x, y)) = self.room(column, 48, band) {
                    writeln!(self.text, "<text x='{x}' y='{y}'>removed</text>")?;
                }
                Ok(())
            }
            _ => Ok(()),
        }
    }

    /// Where a label of this width goes, beside a line, unless another is there.
    fn room(&mut self, column: u64, width: u64, band: &Band) -> Option<(u64, u64)> {
        let x = column.saturating_add(3).min(RIGHT.saturating_sub(width));
        if x < self.free {
            return None;
        }
        self.free = x.saturating_add(width);
        Some((x, band.lanes_top() - 5))
    }

    /// Writes the lines.
    pub(crate) fn finish(&self, out: &mut String) -> Result<(), AllocError> {
        out.push_str(&self.text)
    }
}
