//! The bands of a picture: one for each queue.

ghost use Rattle.std.specs.Prelude.{◌+◌, ◌*◌, ◌≤◌};

use super::axis::{Axis, RIGHT};

/// How many messages have bars at the same time.
pub(crate) const LANES: u64 = 8;
/// How many queues are drawn.
pub(crate) const MAX_BANDS: usize = 64;
/// How high a lane is.
pub(crate) const LANE_HEIGHT: u64 = 13;
/// How high a row of labels is.
const ROW_HEIGHT: u64 = 14;
/// How high the lines below the bars go.
pub(crate) const PLOT_HEIGHT: u64 = 34;
/// What is free between two bands.
const GAP: u64 = 12;

/// A queue: from when to when it was there, the most that waited in it, and where it is drawn.
#[derive(Clone, Copy)]
pub(crate) struct Band {
    pub id: u32,
    /// Its key, or `None` where its creation was drained.
    pub key: Option<i32>,
    pub begin: u64,
    /// When it was removed.
    pub end: Option<u64>,
    /// How many messages waited before its first entry, and how many bytes.
    pub kept: u64,
    pub kept_bytes: u64,
    pub most: u64,
    pub most_bytes: u64,
    pub is_refused: bool,
    /// Its upper edge.
    pub top: u64,
}

impl Band {
    /// The upper edge of the bars, from the band's own.
    pub(crate) fn lanes_top(self) -> u64
        ensures from { ROW_HEIGHT ≤ result }
        ensures to { result ≤ 2 * ROW_HEIGHT }
    {
        if self.is_refused {
            2 * ROW_HEIGHT
        } else {
            ROW_HEIGHT
        }
    }

    /// The upper edge of the lines below the bars.
    pub(crate) fn plot_top(self) -> u64
        ensures { result ≤ 2 * ROW_HEIGHT + LANES * LANE_HEIGHT + 4 }
    {
        let lanes = self.most.min(LANES).max(2);
        self.lanes_top() + lanes * LANE_HEIGHT + 4
    }

    pub(crate) fn height(self) -> u64
        ensures { result ≤ 2 * ROW_HEIGHT + LANES * LANE_HEIGHT + PLOT_HEIGHT + 6 }
    {
        self.plot_top() + PLOT_HEIGHT + 2
    }

    /// Where the band below this one is.
    pub(crate) fn below(self) -> u64 {
        self.top.saturating_add(self.height() + GAP)
    }

    /// The column in which the queue ends.
    pub(crate) fn end_column(self, axis: Axis) -> u64 {
        match self.end {
            Some(end) => axis.column(end),
            None => RIGHT,
        }
    }
}
