//! How a system's slots and seats are made, and given up again where memory runs out.
ghost use Rattle.std.specs.Prelude.{◌≡◌, ◌+◌, ◌-◌, ◌<◌, ◌≤◌, IfOk, OnOk, length, vec_len, vec_capacity};
ghost use Rattle.mq_board.specs.Named.{AreNamed};
ghost use Rattle.mq_system.specs.Fronts.{AreRows};
ghost use Rattle.mq_system.specs.Seat.{fresh_seat};
ghost use Rattle.mq_system.specs.Sizes.{all_changes};
ghost use Rattle.mq_system.specs.Started.{AreEmpty, AreFresh};

use crate::close::end_texts;
use crate::{
    Config, Fronts, MAX_SLOTS, Names, Pages, Pledge, Seat, SharedSlot, SlotMonitor, SlotParts,
    Tally,
};
use mq_arena::ArenaState;
use mq_board::{BoardReader, OpenedBoard, next_board};
use mq_table::Slot;
use std::alloc::{AllocError, Global};
use std::sync::Wait;

/// The readers of each board.
type ReadersOf<N> = Vec<Vec<BoardReader<N>>>;

/// The slots of a system of this size, in which no queue was made, with their boards, and its
/// seats, which have done nothing. An `Err` means that memory ran out, and then what was made is
/// given up.
pub(crate) fn make_slots_and_seats<P: Pledge, N: Names, R: Wait>(
    alloc: Global,
    rt: &R,
    arena: &mut ArenaState<Pages<N>>,
    boards: Vec<OpenedBoard>,
    tally: &mut Tally<N>,
    config: Config,
) -> Result<(Vec<SharedSlot<P, N>>, Vec<Seat<N>>), AllocError>
    requires slots { (config.slots ≡ vec_len boards) × (config.slots ≡ N.slots) }
    requires few { config.slots ≤ MAX_SLOTS }
    requires parts { tally.old.unused.parts ≡ N.slots + N.seats }
    requires named { AreNamed N.Naming.board N.Naming.roll 0 boards.items }
    requires seats { (0 < config.seats) × (config.seats ≤ 16) × (config.seats ≡ N.seats) }
    requires total { tally.old.book.total ≡ 0 }
    ensures slots { IfOk result (λ made. vec_len made.0 ≡ N.slots) }
    ensures empty { IfOk result (λ made. AreEmpty made.0.items) }
    ensures seats { IfOk result (λ made. vec_len made.1 ≡ N.seats) }
    ensures fresh { IfOk result (λ made. AreFresh N.slots made.1.items) }
    ensures arena { OnOk result (arena.new ≡ arena.old) }
    ensures total { OnOk result (tally.new.book.total ≡ all_changes N.slots N.seats) }
{
    let (slots, mut rows) = make_slots::<P, N, R>(alloc, rt, arena, boards, tally, config)?;
    match make_seats(alloc, rows.as_mut_slice(), tally, config.seats) {
        Ok(seats) => Ok((slots, seats)),
        Err(error) => {
            give_up(rt, arena, slots);
            Err(error)
        }
    }
}

/// The slots, in which no queue was made, with their boards, and the readers of each board. An
/// `Err` means that memory ran out, and then those that were made are given up.
fn make_slots<P: Pledge, N: Names, R: Wait>(
    alloc: Global,
    rt: &R,
    arena: &mut ArenaState<Pages<N>>,
    boards: Vec<OpenedBoard>,
    tally: &mut Tally<N>,
    config: Config,
) -> Result<(Vec<SharedSlot<P, N>>, ReadersOf<N>), AllocError>
    requires slots { (config.slots ≡ vec_len boards) × (config.slots ≡ N.slots) }
    requires few { config.slots ≤ MAX_SLOTS }
    requires parts { tally.old.unused.parts ≡ N.slots + N.seats }
    requires named { AreNamed N.Naming.board N.Naming.roll 0 boards.items }
    requires seats { (0 < config.seats) × (config.seats ≤ 16) }
    ensures slots { IfOk result (λ made. AreEmpty made.0.items) }
    ensures count { IfOk result (λ made. vec_len made.0 ≡ config.slots) }
    ensures rows { IfOk result (λ made. AreRows config.seats made.1.items) }
    ensures readers { IfOk result (λ made. vec_len made.1 ≡ config.slots) }
    ensures arena { OnOk result (arena.new ≡ arena.old) }
    ensures parts { OnOk result (tally.new.unused.parts ≡ N.seats) }
    ensures total { OnOk result (tally.new.book.total ≡ tally.old.book.total) }
{
    let mut boards = boards;
    let mut rows = Vec::with_capacity(alloc, config.slots as usize)?;
    let Ok(mut slots) = Vec::with_capacity(alloc, config.slots as usize) else {
        return Err(AllocError);
    };
    let seats = config.seats;
    for number in 0..config.slots {
        let Ok((writer, readers)) = next_board::<N, R>(alloc, rt, &mut boards, number, seats) else {
            give_up(rt, arena, slots);
            return Err(AllocError);
        };
        let slot = Slot::new(alloc, number);
        slots.push_reserved(SharedSlot::new(slot, writer, tally.slot_part()));
        rows.push_reserved(readers);
    }
    Ok((slots, rows))
}

/// Gives up slots and their boards.
pub(crate) fn give_up<P: Pledge, N: Names, R: Wait>(
    rt: &R,
    arena: &mut ArenaState<Pages<N>>,
    slots: Vec<SharedSlot<P, N>>,
) {
    let mut slots = slots;
    while let Some(slot) = slots.pop() {
        let SlotParts {
            slot,
            writer,
            entries: _,
        } = slot.into_parts();
        writer.close(rt);
        end_texts(arena, slot);
    }
    slots.destroy_empty();
}

/// The monitors of these slots.
pub(crate) fn fill_monitors<P: Pledge, N: Names>(
    slots: Vec<SharedSlot<P, N>>,
    monitors: &mut Vec<SlotMonitor<P, N>>,
)
    requires within { vec_len slots ≡ N.slots }
    requires none { vec_len monitors.old ≡ 0 }
    requires room { vec_len slots ≤ vec_capacity monitors.old }
    ensures count { vec_len monitors.new ≡ N.slots }
{
    let mut slots = slots;
    while let Some(slot) = slots.pop() {
        monitors.push_reserved(SlotMonitor::new(slot));
    }
    slots.destroy_empty();
    monitors.reverse();
}

/// The seats, numbered from 1, which have done nothing. An `Err` means that memory ran out.
fn make_seats<N: Names>(
    alloc: Global,
    rows: &mut [Vec<BoardReader<N>>],
    tally: &mut Tally<N>,
    count: u16,
) -> Result<Vec<Seat<N>>, AllocError>
    requires count { count ≡ N.seats }
    requires slots { length rows.old ≡ N.slots }
    requires few { length rows.old ≤ MAX_SLOTS }
    requires rows { AreRows count rows.old }
    requires parts { tally.old.unused.parts ≡ N.seats }
    requires total { tally.old.book.total ≡ 0 }
    ensures count { IfOk result (λ seats. vec_len seats ≡ N.seats) }
    ensures fresh { IfOk result (λ seats. AreFresh N.slots seats.items) }
    ensures total { OnOk result (tally.new.book.total ≡ all_changes N.slots N.seats) }
{
    let mut seats = Vec::with_capacity(alloc, count as usize)?;
    for before in 0..count {
        let Ok(seat) = next_seat(alloc, rows, tally, count - before) else {
            leave(seats);
            return Err(AllocError);
        };
        seats.push_reserved(seat);
    }
    seats.reverse();
    Ok(seats)
}

/// Gives up seats that have done nothing.
pub(crate) fn leave<N: Names>(seats: Vec<Seat<N>>) {
    let mut seats = seats;
    while let Some(seat) = seats.pop() {
        let (_part, _fronts) = seat.into_parts();
    }
    seats.destroy_empty();
}

/// The seat with this number, which takes the last reader of each board.
fn next_seat<N: Names>(
    alloc: Global,
    rows: &mut [Vec<BoardReader<N>>],
    tally: &mut Tally<N>,
    number: u16,
) -> Result<Seat<N>, AllocError>
    requires number { (1 ≤ number) × (number ≤ N.seats) }
    requires slots { length rows.old ≡ N.slots }
    requires few { length rows.old ≤ MAX_SLOTS }
    requires rows { AreRows number rows.old }
    requires some { 0 < tally.old.unused.parts }
    ensures fresh { IfOk result (λ seat. seat ≡ fresh_seat N.slots number) }
    ensures rows { OnOk result (AreRows (number - 1) rows.new) }
    ensures count { length rows.new ≡ length rows.old }
    ensures parts { OnOk result (tally.new.unused.parts + 1 ≡ tally.old.unused.parts) }
    ensures total { OnOk result
        (tally.new.book.total ≡ tally.old.book.total + all_changes N.slots 1) }
{
    let fronts = Fronts::gather(alloc, number, rows)?;
    let slots = rows.len() as u8;
    Seat::new(alloc, fronts, slots, tally.seat_part(slots))
}
