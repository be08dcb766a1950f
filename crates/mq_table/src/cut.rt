//! Drains of a slot list: a caller takes the retained events, so that the list need not grow with
//! the calls.

ghost use Rattle.std.specs.Prelude.{◌≡◌, [], is_some, IfOk, IfSome, MatchResult};
ghost use Rattle.mq_table.specs.Cut.{cut_of, cut_queue, kept_cuts, cut_shown};
ghost use Rattle.mq_table.specs.Kept.{base_now, is_live_kept};
ghost use Rattle.mq_table.specs.SlotParts.{live_base, own_base, slot_with, tail_of};

use crate::turnover::either;
use crate::{MAX_PAST, Slot};
use mq_message::{Body, Waiting};
use mq_queue::{Base, Event, QueueState};
use std::alloc::{AllocError, Global};
use std::mem;

/// What a drain of a slot list returns: the entries since the drain before, and what is known of
/// the entries before them.
#[derive(Drop)]
pub struct Cut {
    /// How many entries were drained before.
    pub first: u64,
    /// How many of these are `Made` events.
    pub made: u32,
    /// The base of the queue that was live after them, if one was.
    pub base: Option<Base>,
    /// The entries of queues that were removed since then.
    pub past: Vec<Event>,
    /// The entries of the queue that is there.
    pub last: Vec<Event>,
}

/// What is drained from the log of the live queue, if there is one.
#[derive(Drop)]
struct LogCut {
    /// The base before, if it covers any event.
    base: Option<Base>,
    last: Vec<Event>,
}

/// Drains the log of the live queue, if there is one. `Err` means out of memory.
fn cut_live<B: Body, W: Waiting<B>>(
    alloc: Global,
    live: &mut Option<QueueState<B, W>>,
) -> Result<LogCut, AllocError>
    ensures handed { IfOk result (λ c.
        (c.base ≡ live_base live.old) × (c.last.items ≡ tail_of live.old)) }
    ensures after { MatchResult result (λ _. live.new ≡ cut_queue live.old)
        (λ _. live.new ≡ live.old) }
{
    let Some(queue) = live else {
        return Ok(LogCut {
            base: None,
            last: Vec::new(alloc),
        });
    };
    let (base, last) = queue.cut()?;
    let base = if base.places == 0 { None } else { Some(base) };
    Ok(LogCut { base, last })
}

impl<B: Body, W: Waiting<B>> Slot<B, W> {
    /// Drains the slot list to its end: returns the entries since the last drain, and what is known
    /// of those before. The pending messages stay. `Err` means out of memory.
    pub fn cut(&mut self) -> Result<Cut, AllocError>
        ensures handed { IfOk result (λ c. cut_shown c ≡ cut_of self.old) }
        ensures after { MatchResult result (λ _. self.new ≡ kept_cuts self.old)
            (λ _. self.new ≡ self.old) }
    {
        let entries = self.events();
        if entries > MAX_PAST {
            return Err(AllocError);
        }
        let alloc = self.allocator();
        let LogCut { base, last } = cut_live(alloc, &mut self.live)?;
        let base = either(base, self.base.take());
        let past = mem::replace(&mut self.past, Vec::new(alloc));
        let first = mem::replace(&mut self.first, entries);
        let made = mem::replace(&mut self.gone, self.made);
        Ok(Cut {
            first,
            made,
            base,
            past,
            last,
        })
    }

    /// Ends the slot: returns what a drain would, but for the entries and the base of the live
    /// queue, and that queue itself. It adds no event, and allocates nothing.
    pub fn into_parts(self) -> (Cut, Option<QueueState<B, W>>)
        ensures parts { self ≡ slot_with self.number result.0.first result.0.made self.key
            result.0.base result.0.past.items result.1 }
        ensures base { result.0.base ≡ own_base result.1 self.base }
        ensures none { result.0.last.items ≡ [] }
        ensures live { is_some result.1 ≡ is_live_kept self }
        ensures based { IfSome result.1 (λ queue. queue.base ≡ base_now self) }
    {
        let alloc = self.allocator();
        let Slot {
            number: _,
            first,
            gone: made,
            key: _,
            base,
            past,
            made: _,
            live,
        } = self;
        let cut = Cut {
            first,
            made,
            base,
            past,
            last: Vec::new(alloc),
        };
        (cut, live)
    }
}
