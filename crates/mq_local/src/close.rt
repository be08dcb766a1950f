//! The end of a system of one thread: its slots are closed, and their pending texts are freed.

ghost use Rattle.std.specs.Prelude.{◌≡◌, map, All};
ghost use Rattle.mq_calls.specs.Closed.{all_home, ending_of, ends, IsClosed};
ghost use Rattle.mq_calls.specs.Texts.{spends_all};

use crate::OneThread;
use crate::one_thread::TextSlot;
use mq_arena::ArenaState;
use mq_calls::home::take_home;
use mq_calls::{Closed, ClosedSlot, end_slot};
use mq_message::Waiting;
use std::sync::ledger::Ledger;

/// Ends a slot, and spends the texts that are pending in it.
// Not in `mq_calls`: the checker does not follow calls of a function that is generic in the list
// of texts and takes the slot by value.
fn end_texts<L: Ledger>(arena: &mut ArenaState<L>, slot: TextSlot<L>) -> ClosedSlot
    ensures slot { ending_of result ≡ ends slot }
    ensures arena { arena.new ≡ spends_all slot.messages arena.old }
{
    let (closed, waiting) = end_slot(slot);
    match waiting {
        Some(mut waiting) => {
            take_home(arena, &mut waiting);
            waiting.end();
        }
        None => (),
    }
    closed
}

impl<L: Ledger> OneThread<L> {
    /// Ends the system. It allocates nothing.
    pub fn close(self) -> Closed<L>
        ensures slots { map ending_of result.slots.items ≡ map ends self.slots }
        ensures closed { All (IsClosed self.last_seq) result.slots.items }
        ensures arena { result.arena ≡ all_home self.slots self.arena }
    {
        let OneThread {
            mut arena,
            mut slots,
            keys: _,
            last_seq: _,
            mut closed,
        } = self;
        while let Some(slot) = slots.pop() {
            closed.push_reserved(end_texts(&mut arena, slot));
        }
        slots.destroy_empty();
        closed.reverse();
        Closed {
            slots: closed,
            arena,
        }
    }
}
