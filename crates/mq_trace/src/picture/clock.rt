//! The time of entries, by a scale.

use super::bars::Stamp;
use crate::{Step, TimeScale};
use mq_queue::Event;

/// What the times of a scale are called.
pub(crate) fn scale_word(scale: TimeScale) -> &'static str {
    match scale {
        TimeScale::Moments => "moment",
        TimeScale::Lines => "line",
        TimeScale::Entries => "entry",
    }
}

/// Which of a stamp's numbers is its time.
pub(crate) fn time_of(scale: TimeScale, stamp: Stamp) -> u64 {
    match scale {
        TimeScale::Moments | TimeScale::Lines => stamp.moment,
        TimeScale::Entries => stamp.entry,
    }
}

/// The stamp of a step.
pub(crate) fn stamp_of(step: &Step) -> Stamp {
    let moment = match step.event {
        Event::Made { moment, .. }
        | Event::Sent { moment, .. }
        | Event::Received { moment, .. }
        | Event::Changed { moment, .. }
        | Event::Removed { moment, .. } => moment,
    };
    Stamp {
        entry: step.entry,
        moment,
    }
}

/// The time of a slot's entries. It never falls: an entry whose moment is less than one before it
/// has the time of that.
#[derive(Clone, Copy)]
pub(crate) struct Clock {
    scale: TimeScale,
    now: u64,
}

impl Clock {
    pub(crate) fn new(scale: TimeScale) -> Clock {
        Clock { scale, now: 0 }
    }

    /// The time of the next step.
    pub(crate) fn at(&mut self, step: &Step) -> u64 {
        self.now = self.after(stamp_of(step));
        self.now
    }

    /// The time of a stamp from now on.
    pub(crate) fn after(self, stamp: Stamp) -> u64 {
        self.now.max(time_of(self.scale, stamp))
    }
}
