//! A line of steps: how many messages wait, or how many bytes.

use super::band::PLOT_HEIGHT;
use std::alloc::{AllocError, Global};

/// A line that is drawn from left to right, with one stroke a column.
#[derive(Drop)]
pub(crate) struct StepLine {
    path: String,
    /// The greatest value, which is as high as the line goes.
    most: u64,
    /// Where the value 0 is.
    foot: u64,
    /// The column that is not drawn yet: the highest point there, the lowest and the last.
    column: u64,
    high: u64,
    low: u64,
    last: u64,
    /// Up to where the path has come.
    drawn: u64,
}

impl StepLine {
    pub(crate) fn new(alloc: Global) -> StepLine {
        StepLine {
            path: String::new(alloc),
            most: 1,
            foot: 0,
            column: 0,
            high: 0,
            low: 0,
            last: 0,
            drawn: 0,
        }
    }

    /// Begins a line at a column, with this value.
    pub(crate) fn begin(
        &mut self,
        column: u64,
        foot: u64,
        most: u64,
        value: u64,
    ) -> Result<(), AllocError> {
        self.most = most.max(1);
        self.foot = foot;
        let y = self.height(value);
        self.column = column;
        self.high = y;
        self.low = y;
        self.last = y;
        self.drawn = y;
        self.path.clear();
        write!(self.path, "M{column} {y}")
    }

    /// Where a value is.
    fn height(&self, value: u64) -> u64 {
        let most = u128::from(self.most.max(1));
        let part = u128::from(value.min(self.most)) * u128::from(PLOT_HEIGHT - 2) / most;
        self.foot.saturating_sub(part.min(100) as u64)
    }

    /// Continues to a value at a column.
    pub(crate) fn go(&mut self, column: u64, value: u64) -> Result<(), AllocError> {
        let y = self.height(value);
        if column != self.column {
            self.stroke()?;
            self.column = column;
            self.high = self.last;
            self.low = self.last;
        }
        self.high = self.high.min(y);
        self.low = self.low.max(y);
        self.last = y;
        Ok(())
    }

    /// Draws the stroke of the column that is not drawn yet.
    fn stroke(&mut self) -> Result<(), AllocError> {
        if self.high == self.low {
            return Ok(());
        }
        let column = self.column;
        write!(self.path, "H{column}")?;
        for y in [self.high, self.low, self.last] {
            if y != self.drawn {
                write!(self.path, "V{y}")?;
                self.drawn = y;
            }
        }
        Ok(())
    }

    /// Writes the line, up to a column.
    pub(crate) fn finish(
        &mut self,
        out: &mut String,
        class: &str,
        column: u64,
    ) -> Result<(), AllocError> {
        self.stroke()?;
        write!(out, "<path class='{class}' d='")?;
        out.push_str(&self.path)?;
        writeln!(out, "H{column}'/>")
    }
}
