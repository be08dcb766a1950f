//! The marks of refused calls.

use super::axis::{Axis, LEFT, RIGHT};
use crate::{Refusal, TimeScale};
use std::alloc::AllocError;

/// As wide as a label is at most: refusals that are nearer have one.
const NEAR: u64 = 96;

/// As wide as a mark and a space: refusals that are nearer have one.
const TOUCHING: u64 = 9;

/// Whether a label in this column ends there, since there is no room behind it.
fn is_at_the_end(column: u64) -> bool {
    column.saturating_add(NEAR) > RIGHT
}

/// Whether a label in this column would meet the one before.
fn is_near(before: u64, column: u64) -> bool {
    let room = if is_at_the_end(column) {
        2 * NEAR
    } else {
        NEAR
    };
    column < before.saturating_add(room)
}

/// Refusals that are shown as one: the column of the first, how many they are, and whether all have
/// the same errno.
#[derive(Clone, Copy)]
struct Refused {
    column: u64,
    count: u64,
    first: Refusal,
    is_alike: bool,
}

impl Refused {
    fn of(column: u64, refusal: &Refusal) -> Refused {
        Refused {
            column,
            count: 1,
            first: *refusal,
            is_alike: true,
        }
    }

    /// The same with one more.
    fn with(self, refusal: &Refusal) -> Refused {
        Refused {
            count: self.count.saturating_add(1),
            is_alike: self.is_alike && self.first.errno == refusal.errno,
            ..self
        }
    }
}

/// A row of marks with their labels above, from left to right.
#[derive(Clone, Copy)]
pub(crate) struct Row {
    axis: Axis,
    scale: TimeScale,
    y: u64,
    /// The greatest moment so far.
    now: u64,
    mark: Option<Refused>,
    label: Option<Refused>,
}

impl Row {
    pub(crate) fn new(axis: Axis, scale: TimeScale, y: u64) -> Row {
        Row {
            axis,
            scale,
            y,
            now: 0,
            mark: None,
            label: None,
        }
    }

    /// The column of a refusal. It has no entry: by entries it has no time, and is at the left
    /// edge.
    fn column(&mut self, refusal: &Refusal) -> u64 {
        self.now = self.now.max(refusal.moment);
        match self.scale {
            TimeScale::Moments | TimeScale::Lines => self.axis.column(self.now),
            TimeScale::Entries => LEFT + 4,
        }
    }

    /// Shows a refusal by a mark and a label, each of which it may share with those before.
    pub(crate) fn put(&mut self, out: &mut String, refusal: &Refusal) -> Result<(), AllocError> {
        let column = self.column(refusal);
        self.mark = match self.mark {
            Some(mark) if column < mark.column.saturating_add(TOUCHING) => Some(mark.with(refusal)),
            _ => {
                self.draw_mark(out)?;
                Some(Refused::of(column, refusal))
            }
        };
        self.label = match self.label {
            Some(label) if is_near(label.column, column) => Some(label.with(refusal)),
            _ => {
                self.draw_label(out)?;
                Some(Refused::of(column, refusal))
            }
        };
        Ok(())
    }

    /// Draws the mark and the label that are still held.
    pub(crate) fn finish(&self, out: &mut String) -> Result<(), AllocError> {
        self.draw_mark(out)?;
        self.draw_label(out)
    }

    fn draw_mark(&self, out: &mut String) -> Result<(), AllocError> {
        let Some(mark) = self.mark else {
            return Ok(());
        };
        let (x, y) = (mark.column.saturating_sub(4), self.y.saturating_sub(3));
        write!(out, "<path class='x' d='M{x} {y}h8l-4 8z'><title>")?;
        write_title(out, mark)?;
        out.push_str("</title></path>\n")
    }

    fn draw_label(&self, out: &mut String) -> Result<(), AllocError> {
        let Some(label) = self.label else {
            return Ok(());
        };
        let y = self.y.saturating_sub(6);
        if is_at_the_end(label.column) {
            let x = label.column.saturating_add(4);
            write!(out, "<text class='x e' x='{x}' y='{y}'>")?;
        } else {
            let x = label.column.saturating_sub(4);
            write!(out, "<text class='x' x='{x}' y='{y}'>")?;
        }
        write_label(out, label)?;
        out.push_str("</text>\n")
    }
}

fn write_label(out: &mut String, held: Refused) -> Result<(), AllocError> {
    let count = held.count;
    let errno = held.first.errno.name();
    if !held.is_alike {
        write!(out, "{count} refusals")
    } else if count > 1 {
        write!(out, "{errno} ×{count}")
    } else {
        out.push_str(errno)
    }
}

fn write_title(out: &mut String, held: Refused) -> Result<(), AllocError> {
    let count = held.count;
    if count > 1 {
        write!(out, "{count} refusals, the first: ")?;
    }
    let first = held.first;
    let (call, seat, moment) = (first.call.name(), first.seat, first.moment);
    let errno = first.errno.name();
    write!(out, "{errno} of {call}, by seat {seat} at {moment}")
}
