//! What a slot and its seats are made of, and what becomes of it at the end.
ghost use Rattle.std.specs.Prelude.{◌≡◌, ◌+◌, ◌-◌, ◌<◌, ◌≤◌, length, OnOk};
ghost use Rattle.mq_board.specs.Readers.{new_readers};
ghost use Rattle.mq_system.specs.Fronts.{AreRows};

use crate::holds;
use mq_arena::{ArenaState, Homecoming, Text};
use mq_board::{BoardReader, BoardWriter};
use mq_message::Waiting;
use mq_queue::Figures;
use mq_system::{Errno, Fronts, Names, Pages, Seat, Tally, TextOf, WaitingOf};
use mq_table::Id;
use std::alloc::{AllocError, Global};
use std::process::Abort;
use std::sync::Wait;

/// A text of an arena.
pub(crate) fn drafted<N: Names>(rt: &impl Abort, arena: &mut ArenaState<Pages<N>>) -> TextOf<N> {
    match arena.take_filled(0, b"hi") {
        Ok(block) => Text::of(block, 2),
        Err(_) => panic!(rt; "no page"),
    }
}

/// The text is freed.
pub(crate) fn spent<N: Names>(rt: &impl Abort, arena: &mut ArenaState<Pages<N>>, text: TextOf<N>) {
    match text.into_block() {
        Some(block) => holds(
            rt,
            arena.put(block) == Homecoming::Home,
            "the text comes home",
        ),
        None => panic!(rt; "the text has no block"),
    }
}

/// No message is pending.
pub(crate) fn emptied<N: Names>(rt: &impl Abort, waiting: WaitingOf<N>) {
    let mut waiting = waiting;
    match waiting.pop_any() {
        None => waiting.end(),
        Some(_message) => panic!(rt; "a message waits in a queue that was emptied"),
    }
}

/// A seat of one slot, with the last of its readers.
fn seat<N: Names>(
    alloc: Global,
    tally: &mut Tally<N>,
    rows: &mut [Vec<BoardReader<N>>],
    number: u16,
) -> Result<Seat<N>, AllocError>
    requires number { (1 ≤ number) × (number ≤ N.seats) }
    requires slots { N.slots ≡ 1 }
    requires rows { AreRows number rows.old }
    requires one { length rows.old ≡ 1 }
    requires parts { 0 < tally.old.unused.parts }
    ensures rows { OnOk result (AreRows (number - 1) rows.new) }
    ensures one { length rows.new ≡ 1 }
    ensures parts { OnOk result (tally.new.unused.parts + 1 ≡ tally.old.unused.parts) }
{
    let fronts = Fronts::gather(alloc, number, rows)?;
    Seat::new(alloc, fronts, 1, tally.seat_part(1))
}

/// The first seat and the second.
pub(crate) fn seated<N: Names>(
    rt: &impl Abort,
    alloc: Global,
    tally: &mut Tally<N>,
    readers: Vec<BoardReader<N>>,
) -> (Seat<N>, Seat<N>)
    requires slots { N.slots ≡ 1 }
    requires seats { N.seats ≡ 2 }
    requires readers { readers.items ≡ new_readers 0 2 }
    requires parts { 2 ≤ tally.old.unused.parts }
{
    let mut rows = Vec::with_capacity(alloc, 1).expect(rt, "no memory for the readers");
    rows.push_reserved(readers);
    let second = seat(alloc, tally, rows.as_mut_slice(), 2).expect(rt, "no memory for seat 2");
    let first = seat(alloc, tally, rows.as_mut_slice(), 1).expect(rt, "no memory for seat 1");
    (first, second)
}

/// A seat shows nothing of the first queue in slot 0, for this reason.
pub(crate) fn not_shown<N: Names>(rt: &impl Abort, seat: &mut Seat<N>, wanted: Errno)
    requires slots { 0 < N.slots }
{
    match seat.stat(Id::of(0, 0)) {
        Ok(_) => panic!(rt; "a queue is shown"),
        Err(refusal) => holds(rt, refusal == wanted, "why no queue is shown"),
    }
}

/// What a seat shows of the first queue in slot 0.
pub(crate) fn figures_of<N: Names>(rt: &impl Abort, seat: &mut Seat<N>) -> Figures
    requires slots { 0 < N.slots }
{
    match seat.stat(Id::of(0, 0)) {
        Ok(figures) => figures,
        Err(_) => panic!(rt; "no queue is shown"),
    }
}

/// The seat learns what was published of the slot, which is known of no other way.
pub(crate) fn told<N: Names>(rt: &impl Abort, writer: &mut BoardWriter<N>, seat: &mut Seat<N>)
    requires slots { N.slots ≡ 1 }
{
    let told = writer.tell();
    holds(rt, told.board() == 0, "the board of slot 0");
    holds(rt, seat.learn(0, told), "all is known");
    not_shown(rt, seat, Errno::EIDRM);
}

/// The seat's only reader is given back.
pub(crate) fn come_home<N: Names, R: Abort + Wait>(
    rt: &R,
    writer: &mut BoardWriter<N>,
    fronts: Fronts<N>,
) {
    let mut fronts = fronts;
    let Some(reader) = fronts.hand_out() else {
        panic!(rt; "a seat has no reader")
    };
    if reader.board() != writer.board() {
        panic!(rt; "a reader of another board");
    }
    writer.take_back(rt, reader);
    holds(rt, fronts.hand_out().is_none(), "one reader for one slot");
}
