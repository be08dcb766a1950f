//! The steps of a slot's entries, each with the entries after it.

ghost use Rattle.std.specs.Prelude.{◌≡◌, ◌++◌, None};
ghost use Rattle.std.specs.Iterator.{YieldsFirstBy, item_count};
ghost use Rattle.mq_trace.specs.Bars.{bar_from, bar_of, sight_of, sights_from, sights_of, to_come};
ghost use Rattle.mq_trace.specs.Steps.{steps_from};

use super::ahead::Ahead;
use super::bars::{Bar, Stamp};
use crate::{SlotEntries, Step, Steps};
use mq_message::Header;
use mq_queue::Event;

/// A step, and the entries after it.
#[derive(Clone, Copy)]
pub(crate) struct Scene<'a> {
    pub step: Step,
    pub ahead: Ahead<'a>,
}

impl<'a> Scene<'a> {
    /// The bar of the message that the step sends, if it is a sending.
    pub(crate) fn bar(&self) -> Option<Bar>
        ensures { result ≡ bar_of self.now.step (to_come self.now.ahead) }
    {
        let Event::Sent { moment, .. } = self.step.event else {
            return None;
        };
        let message = self.step.message?;
        let entry = self.step.entry;
        let until = self.ahead.until(entry.saturating_add(1), message.place);
        Some(Bar {
            message,
            sent: Some(Stamp { entry, moment }),
            until,
        })
    }
}

/// The steps of a slot's entries, one after another, each with the entries after it.
#[derive(Drop)]
pub(crate) struct Scenes<'a> {
    steps: Steps<'a>,
    ahead: Ahead<'a>,
}

impl<'a> Scenes<'a> {
    pub(crate) fn new(slot: SlotEntries<'a>) -> Scenes<'a>
        ensures { sights_from (steps_from result.steps.at result.steps.rest) (to_come result.ahead)
            ≡ sights_of slot.entry }
    {
        Scenes {
            steps: slot.steps(),
            ahead: Ahead::new(slot),
        }
    }
}

impl<'a> Iterator for Scenes<'a> {
    type Item = Scene<'a>;

    ghost next_gives = { YieldsFirstBy sight_of
        (λ s. sights_from (steps_from s.steps.at s.steps.rest) (to_come s.ahead)) };

    ghost remaining = { item_count
        (λ s. sights_from (steps_from s.steps.at s.steps.rest) (to_come s.ahead)) };

    fn next(&mut self) -> Option<Scene<'a>> {
        let step = self.steps.next()?;
        self.ahead = self.ahead.passed();
        Some(Scene {
            step,
            ahead: self.ahead,
        })
    }
}

/// The bar of a message that waited where a slot's entries begin.
pub(crate) fn kept_bar(slot: SlotEntries<'_>, message: Header) -> Bar
    ensures { result
        ≡ bar_from None slot.entry.first (slot.entry.past.now ++ slot.entry.last.now) message }
{
    let until = Ahead::new(slot).until(slot.first, message.place);
    Bar {
        message,
        sent: None,
        until,
    }
}
