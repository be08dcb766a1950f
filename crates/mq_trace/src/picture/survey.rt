//! What a picture has to have room for: the first of the two walks over the entries.

use super::axis::Axis;
use super::band::{Band, MAX_BANDS};
use super::clock::Clock;
use crate::{Refusal, SlotEntries, Step, TimeScale};
use mq_queue::Event;
use std::alloc::{AllocError, Global};

/// The upper edge of the first band.
const FIRST_TOP: u64 = 78;
/// How high the band of refusals is that name no queue of the picture.
const OTHERS_HEIGHT: u64 = 30;

/// What the entries and refusals of a run are, in numbers, and the bands of its first queues.
#[derive(Drop)]
pub(crate) struct Survey {
    pub scale: TimeScale,
    /// The least time.
    begin: Option<u64>,
    /// The greatest.
    last: u64,
    pub queues: u64,
    pub messages: u64,
    pub refusals: u64,
    pub bands: Vec<Band>,
    /// Whether a refusal names no queue that has a band.
    pub has_others: bool,
    /// Where the bands end.
    pub bottom: u64,
}

impl Survey {
    pub(crate) fn of(
        alloc: Global,
        slots: &[SlotEntries<'_>],
        refusals: &[Refusal],
        scale: TimeScale,
    ) -> Result<Survey, AllocError> {
        let mut survey = Survey {
            scale,
            begin: None,
            last: 0,
            queues: 0,
            messages: 0,
            refusals: refusals.len() as u64,
            bands: Vec::new(alloc),
            has_others: false,
            bottom: FIRST_TOP,
        };
        for slot in slots {
            survey.walk(*slot)?;
        }
        for refusal in refusals {
            survey.note_refusal(refusal);
        }
        survey.arrange();
        Ok(survey)
    }

    pub(crate) fn axis(&self) -> Axis {
        Axis::new(self.begin.unwrap_or(0), self.last)
    }

    /// The band of the queue with this id.
    pub(crate) fn has_band(&self, id: Option<u32>) -> bool {
        match id {
            Some(id) => self.bands.iter().any(|band| band.id == id),
            None => false,
        }
    }

    fn note_time(&mut self, time: u64) {
        self.begin = Some(self.begin.map_or(time, |begin| begin.min(time)));
        self.last = self.last.max(time);
    }

    /// Walks over a slot's entries.
    fn walk(&mut self, slot: SlotEntries<'_>) -> Result<(), AllocError> {
        let mut clock = Clock::new(self.scale);
        let mut now: Option<Band> = None;
        for step in slot.steps() {
            let time = clock.at(&step);
            self.note_time(time);
            let mut band = match (now, step.event) {
                (Some(band), Event::Sent { .. })
                | (Some(band), Event::Received { .. })
                | (Some(band), Event::Changed { .. })
                | (Some(band), Event::Removed { .. }) => band,
                (before, _) => {
                    self.keep(before)?;
                    self.queues = self.queues.saturating_add(1);
                    begun(slot, &step, time)
                }
            };
            self.note_step(&mut band, &step, time);
            now = Some(band);
        }
        self.keep(now)
    }

    /// Notes what a step says of its queue.
    fn note_step(&mut self, band: &mut Band, step: &Step, time: u64) {
        band.most = band.most.max(step.qnum);
        band.most_bytes = band.most_bytes.max(step.cbytes);
        match step.event {
            Event::Sent { .. } => self.messages = self.messages.saturating_add(1),
            Event::Removed { .. } => band.end = Some(time),
            _ => {}
        }
    }

    /// Keeps the band of a queue, if there is room.
    fn keep(&mut self, band: Option<Band>) -> Result<(), AllocError> {
        if let Some(band) = band
            && self.bands.len() < MAX_BANDS
        {
            self.bands.push(band)?;
        }
        Ok(())
    }

    fn note_refusal(&mut self, refusal: &Refusal) {
        if self.scale != TimeScale::Entries {
            self.note_time(refusal.moment);
        }
        let mut found = false;
        for band in self.bands.iter_mut() {
            if refusal.id == Some(band.id) {
                band.is_refused = true;
                found = true;
            }
        }
        self.has_others = self.has_others || !found;
    }

    /// Finds where each band is.
    fn arrange(&mut self) {
        let mut top = self.bottom;
        for band in self.bands.iter_mut() {
            band.top = top;
            top = band.below();
        }
        if self.has_others {
            top = top.saturating_add(OTHERS_HEIGHT);
        }
        self.bottom = top;
    }
}

/// The band of a queue, by its first entry.
fn begun(slot: SlotEntries<'_>, step: &Step, time: u64) -> Band {
    let (key, kept, kept_bytes) = match (step.event, slot.base) {
        (Event::Made { key, .. }, _) => (Some(key), 0, 0),
        (_, Some(base)) => (None, base.figures.qnum, base.figures.cbytes),
        (_, None) => (None, 0, 0),
    };
    Band {
        id: step.id,
        key,
        begin: time,
        end: None,
        kept,
        kept_bytes,
        most: kept,
        most_bytes: kept_bytes,
        is_refused: false,
        top: 0,
    }
}
