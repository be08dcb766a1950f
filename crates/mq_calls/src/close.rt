//! How a slot ends, and what it leaves.

ghost use Rattle.std.specs.Prelude.{◌≡◌, [], IfNone, IfSome};
ghost use Rattle.std.specs.Option.{option_or};
ghost use Rattle.mq_table.specs.SlotParts.{some_base};
ghost use Rattle.mq_calls.specs.Closed.{ending_of, ends};

use mq_arena::ArenaState;
use mq_message::{Body, Waiting};
use mq_queue::{Base, Event};
use mq_table::{Cut, Slot};
use std::sync::ledger::Ledger;

/// What a slot leaves at the end.
#[derive(Drop)]
pub struct ClosedSlot {
    /// How many entries of its list were drained before.
    pub first: u64,
    /// How many of these are makings.
    pub made: u32,
    /// The checkpoint of the queue that they leave live, if they leave one.
    pub base: Option<Base>,
    /// The events since then of the queues that were removed.
    pub past: Vec<Event>,
    /// Those of the live queue, if one was there.
    pub last: Vec<Event>,
    /// How many messages were pending in it.
    pub left: u64,
}

/// What a system leaves at the end. The blocks of all pending texts are freed.
#[derive(Drop)]
pub struct Closed<L: Ledger> {
    /// In the order of their numbers.
    pub slots: Vec<ClosedSlot>,
    pub arena: ArenaState<L>,
}

/// The checkpoint of the queue that the drained entries leave live: the live queue, where entries
/// of it were drained, or else one that was removed since.
fn base_shown(own: Base, removed: Option<Base>) -> Option<Base>
    ensures { result ≡ option_or (some_base own) removed }
{
    if own.places == 0 { removed } else { Some(own) }
}

/// Ends a slot: what it leaves, and the pending messages of its queue, if it has one.
pub fn end_slot<B: Body, W: Waiting<B>>(slot: Slot<B, W>) -> (ClosedSlot, Option<W>)
    ensures slot { ending_of result.0 ≡ ends slot }
    ensures messages { IfSome result.1 (λ waiting. W.messages waiting ≡ slot.messages) }
    ensures none { IfNone result.1 (slot.messages ≡ []) }
{
    let (cut, live) = slot.into_parts();
    let Cut {
        first,
        made,
        base,
        past,
        last,
    } = cut;
    match live {
        Some(queue) => {
            queue.holds();
            let left = queue.figures().qnum;
            let (log, waiting) = queue.into_parts();
            let (own, last) = log.into_parts();
            let base = base_shown(own, base);
            let closed = ClosedSlot {
                first,
                made,
                base,
                past,
                last,
                left,
            };
            (closed, Some(waiting))
        }
        None => {
            let closed = ClosedSlot {
                first,
                made,
                base,
                past,
                last,
                left: 0,
            };
            (closed, None)
        }
    }
}
