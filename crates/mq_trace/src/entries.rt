//! The entries of a slot, of which a trace is made.

ghost use Rattle.std.specs.Prelude.{◌≡◌, ◌++◌, option_copied};
ghost use Rattle.mq_trace.specs.Steps.{first_point};

use crate::Steps;
use mq_calls::ClosedSlot;
use mq_queue::{Base, Event};
use mq_table::Cut;

/// Entries of a slot's list, one after another, as a system that is closed or a log that is cut
/// leaves them.
#[derive(Clone, Copy)]
pub struct SlotEntries<'a> {
    /// The number of the slot.
    pub slot: u8,
    /// How many entries of its list are before these.
    pub first: u64,
    /// How many of those before are makings.
    pub made: u32,
    /// The base of the queue that those before leave, if they leave one: the first of these
    /// entries is the next of its log.
    pub base: Option<&'a Base>,
    /// The entries of queues that were removed.
    pub past: &'a [Event],
    /// Those of the queue that was there at the end.
    pub last: &'a [Event],
}

impl<'a> SlotEntries<'a> {
    /// The entries of the slot with this number that a closed system returns.
    pub fn of_closed(slot: u8, closed: &'a ClosedSlot) -> SlotEntries<'a>
        ensures slot { result.slot ≡ slot }
        ensures first { result.first ≡ closed.now.first }
        ensures made { result.made ≡ closed.now.made }
        ensures base { option_copied result.base ≡ closed.now.base }
        ensures past { result.past.now ≡ closed.now.past.items }
        ensures last { result.last.now ≡ closed.now.last.items }
    {
        SlotEntries {
            slot,
            first: closed.first,
            made: closed.made,
            base: closed.base.as_ref(),
            past: &closed.past,
            last: &closed.last,
        }
    }

    /// The entries that were drained from the list of the slot with this number.
    pub fn of_cut(slot: u8, cut: &'a Cut) -> SlotEntries<'a>
        ensures slot { result.slot ≡ slot }
        ensures first { result.first ≡ cut.now.first }
        ensures made { result.made ≡ cut.now.made }
        ensures base { option_copied result.base ≡ cut.now.base }
        ensures past { result.past.now ≡ cut.now.past.items }
        ensures last { result.last.now ≡ cut.now.last.items }
    {
        SlotEntries {
            slot,
            first: cut.first,
            made: cut.made,
            base: cut.base.as_ref(),
            past: &cut.past,
            last: &cut.last,
        }
    }

    /// What each of them says, in order.
    pub fn steps(self) -> Steps<'a>
        ensures at { result.at ≡ first_point self.entry }
        ensures rest { result.rest ≡ self.entry.past.now ++ self.entry.last.now }
    {
        Steps::new(self)
    }
}
