//! The end of a system: its seats are taken apart, its boards closed, its texts freed, and the
//! counts of seats and slots compared.

ghost use Rattle.std.specs.Prelude.{◌≡◌, ◌≢◌, ◌+◌, ◌≤◌, All, length, map, vec_capacity, vec_len};
ghost use Rattle.std.specs.List.{AllPairs};
ghost use Rattle.mq_system.specs.Seat.{counted_by};
ghost use Rattle.mq_system.specs.Sizes.{all_changes};
ghost use Rattle.mq_table.specs.KeptPart.{IsKeptPart, whole};
ghost use Rattle.mq_table.specs.Slot.{Waits};
ghost use Rattle.mq_table.specs.SlotList.{IsSlotList};
ghost use Rattle.mq_calls.specs.Closed.{IsClosed, IsEndOf, ending_of, ends};
ghost use Rattle.mq_calls.specs.Texts.{bytes_of, spends_all};
ghost use Rattle.mq_system.specs.Closed.{AreDistinct, AreWithout, IsEnd, IsRecorded, entries_in};
ghost use Rattle.mq_system.specs.Closed.{known_by};

use crate::{
    Closed, ClosedSlot, Entries, Fronts, Names, Pages, Pledge, Seat, SharedSlot, SlotOf, SlotParts,
    System,
};
use mq_arena::ArenaState;
use mq_board::BoardWriter;
use mq_calls::end_slot;
use mq_calls::home::take_home;
use mq_message::Waiting;
use std::hint::spin_loop;
use std::marker::Model;
use std::sync::ledger::{Share, Total};
use std::sync::{Mutex, Wait};

/// Where a system gathers what its seats leave, with room for the fronts of all of them.
#[derive(Drop)]
pub(crate) struct Rest<N: Names> {
    pub(crate) parts: Share<Entries<N>>,
    pub(crate) fronts: Vec<Fronts<N>>,
}

impl<N: Names> Model for Rest<N> {
    ghost use Rattle.std.specs.Prelude.{◌≡◌, ◌≤◌, ℕ, length, vec_capacity};

    ghost Value = { ℕ };

    ghost view = { λ r. r.parts.parts };

    ghost invariant = { λ r. (length r.fronts.items ≡ 0)
        × (N.seats ≤ vec_capacity r.fronts) };
}

/// The rest while the system is in use: threads share the system, and none of them reaches it.
pub(crate) struct AtClose<N: Names> {
    /// Never locked: a share of a ledger is not shared among threads otherwise.
    rest: Mutex<Rest<N>>,
}

impl<N: Names> AtClose<N> {
    pub(crate) fn new(rest: Rest<N>) -> AtClose<N> {
        AtClose {
            rest: Mutex::new(rest),
        }
    }

    fn into_rest(self) -> Rest<N> {
        let AtClose { rest } = self;
        rest.into_inner()
    }
}

impl<P: Pledge, N: Names> System<P, N> {
    /// Ends the system, once all seats are back. It takes no memory. The blocks of the magazines
    /// are freed, and so are the texts of pending messages; one that is still outside is put into
    /// the arena by its block.
    pub fn close<R: Wait>(self, rt: &R, seats: Vec<Seat<N>>) -> Closed<Pages<N>>
        requires seats { vec_len seats ≡ N.seats }
        ensures slots { length result.slots.items ≡ N.slots }
        ensures closed { All (IsClosed N.last_seq) result.slots.items }
        ensures ends { IsEnd N.last_seq seats.items result.slots.items }
        ensures total { entries_in result.slots.items ≡ counted_by seats.items }
        ensures numbers { AreDistinct seats.items }
        ensures height { result.arena.height ≡ N.height }
    {
        let System {
            mut monitors,
            keys: _,
            total,
            rest,
            arena,
            magazines,
            last_seq: _,
            pages: _,
            mut closed,
        } = self;
        let Rest {
            parts: mut unused,
            mut fronts,
        } = rest.into_rest();
        let mut parts = unused.empty();
        gather(seats, &mut parts, &mut fronts);
        magazines.end(rt, &arena);
        let mut arena = arena.into_state();
        while let Some(monitor) = monitors.pop() {
            let SlotParts {
                slot,
                mut writer,
                entries,
            } = with_number(rt, monitor.into_slot(), monitors.len() as u8).into_parts();
            take_readers(rt, &mut writer, &mut fronts);
            parts.merge(entries);
            closed.push_reserved(end_shared_slot(rt, &mut arena, slot, writer));
        }
        monitors.destroy_empty();
        settle(&total, &mut parts);
        closed.reverse();
        Closed {
            slots: closed,
            arena,
        }
    }
}

/// Takes the seats apart: gathers what is left of their parts, and their fronts in their order.
fn gather<N: Names>(seats: Vec<Seat<N>>, parts: &mut Share<Entries<N>>, fronts: &mut Vec<Fronts<N>>)
    requires none { length fronts.old.items ≡ 0 }
    requires room { length seats.items ≤ vec_capacity fronts.old }
    ensures parts { parts.new.parts ≡ parts.old.parts + vec_len seats }
    ensures amount { parts.new.amount + counted_by seats.items
        ≡ parts.old.amount + all_changes N.slots (vec_len seats) }
    ensures fronts { fronts.new.items ≡ map known_by seats.items }
    ensures recorded { All (IsRecorded N.slots) seats.items }
{
    let mut seats = seats;
    while let Some(seat) = seats.pop() {
        seat.holds();
        fronts.push_reserved(seat.end(parts));
    }
    seats.destroy_empty();
    fronts.reverse();
}

/// The slot, which has this number: another is not reachable (argued, not proved).
fn with_number<P: Pledge, N: Names, R: Wait>(
    rt: &R,
    slot: SharedSlot<P, N>,
    number: u8,
) -> SharedSlot<P, N>
    ensures same { result ≡ slot }
    ensures number { result.whole.number ≡ number }
{
    for _ in rt.forever() {
        if slot.is_number(number) {
            return slot;
        }
        spin_loop();
    }
    unreachable!()
}

/// Takes back the readers of this board, the last in each seat's fronts.
fn take_readers<N: Names, R: Wait>(rt: &R, writer: &mut BoardWriter<N>, fronts: &mut Vec<Fronts<N>>)
    requires number { All (λ f. length f.fronts ≡ writer.old.board + 1) fronts.old.items }
    ensures same { writer.new ≡ record writer.old { home = writer.new.home } }
    ensures left { AreWithout writer.old.events fronts.old.items fronts.new.items }
    ensures places { AllPairs (λ f g. f.place ≢ g.place) fronts.old.items }
{
    for seat in 0..fronts.len() {
        let Some(reader) = fronts[seat].hand_out() else {
            unreachable!()
        };
        writer.take_back(rt, reader);
    }
}

/// Ends a slot, and spends the texts of its pending messages.
// Not in `mq_calls`: the checker does not follow calls of a function that is generic in the list
// of texts and takes the slot by value.
pub(crate) fn end_texts<N: Names>(arena: &mut ArenaState<Pages<N>>, slot: SlotOf<N>) -> ClosedSlot
    ensures slot { ending_of result ≡ ends slot }
    ensures arena { arena.new ≡ spends_all slot.messages arena.old }
{
    let (closed, waiting) = end_slot(slot);
    match waiting {
        Some(mut waiting) => {
            take_home(arena, &mut waiting);
            waiting.end();
        }
        None => (),
    }
    closed
}

/// Closes the board of a slot that is no longer used, ends the slot, and spends the texts of its
/// pending messages.
fn end_shared_slot<N: Names, R: Wait>(
    rt: &R,
    arena: &mut ArenaState<Pages<N>>,
    slot: SlotOf<N>,
    writer: BoardWriter<N>,
) -> ClosedSlot
    requires kept { IsKeptPart writer.events slot }
    requires lawful { IsSlotList N.last_seq writer.events }
    requires waits { Waits bytes_of (whole writer.events slot) }
    ensures ends { IsEndOf N.last_seq writer.events result }
    ensures first { result.first ≡ slot.first }
    ensures height { arena.new.height ≡ arena.old.height }
{
    writer.close(rt);
    end_texts(arena, slot)
}

/// Proves how much all parts have, once they are together.
fn settle<N: Names>(total: &Total<Entries<N>>, parts: &mut Share<Entries<N>>)
    requires { parts.old.parts ≡ total.now.parts }
    ensures { parts.old.amount ≡ total.now.amount }
{
    total.audit(parts);
}
