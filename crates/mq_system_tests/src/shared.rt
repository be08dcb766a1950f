//! A day of one slot, its keys and two seats, each by itself: each of their functions once.
ghost use Rattle.std.specs.Prelude.{◌≡◌, ◌≤◌};
ghost use Rattle.mq_system.specs.Sizes.{AreNames};

use crate::day::Anything;
use crate::holds;
use crate::parts::{come_home, drafted, seated, spent, told};
use crate::seats::followed;
use crate::slot_calls::{changed, cut, made, nothing_shown, received, removed, sent, shown};
use mq_arena::{ArenaState, LEDGER_PARTS, Unopened};
use mq_board::next_board;
use mq_calls::{Config, SysError};
use mq_system::{Blanks, Keys, Names, Pages, Seat, SharedSlot, SlotOf, SlotParts, Tally};
use mq_table::{MAX_SEQ, Slot};
use std::alloc::Global;
use std::marker::Brand;
use std::process::Abort;
use std::sync::Wait;

/// What the parts are tried by: the calls of the slot itself, or what a seat sees of them.
#[derive(Clone, Copy)]
pub(crate) enum Day {
    Slot,
    Seat,
}

/// Five things happened in the slot, and no queue is there.
fn is_over<N: Names>(rt: &impl Abort, slot: SlotOf<N>) {
    let (cut, live) = slot.into_parts();
    match live {
        None => (),
        Some(_queue) => panic!(rt; "a removed queue is there"),
    }
    let entries = cut.first.saturating_add(cut.past.len() as u64);
    holds(rt, entries == 5, "all that happened in it");
    holds(rt, cut.made == 1, "one queue was made");
}

/// All is over: the queue is removed, both readers are given back, and what the slot's entries and
/// the seats' counts are of is whole.
fn taken_apart<N: Names, R: Abort + Wait>(
    rt: &R,
    slot: SharedSlot<Anything, N>,
    first: Seat<N>,
    second: Seat<N>,
    tally: Tally<N>,
)
    requires slots { N.slots ≡ 1 }
    requires seats { N.seats ≡ 2 }
{
    let (total, _rest) = tally.close();
    let SlotParts {
        slot,
        mut writer,
        entries: mut parts,
    } = slot.into_parts();
    let mut second = second;
    told(rt, &mut writer, &mut second);
    let fronts = first.end(&mut parts);
    come_home(rt, &mut writer, fronts);
    let fronts = second.end(&mut parts);
    come_home(rt, &mut writer, fronts);
    writer.close(rt);
    total.audit(&mut parts);
    is_over(rt, slot);
}

/// What each of the two has done.
fn counted<N: Names>(rt: &impl Abort, first: &Seat<N>, second: &Seat<N>)
    requires slots { N.slots ≡ 1 }
{
    first.holds();
    holds(
        rt,
        first.number() == 1 && second.number() == 2,
        "their numbers",
    );
    holds(
        rt,
        first.count(0) == 4 && second.count(0) == 1,
        "each change counts once, for its seat",
    );
}

/// All calls of a slot under its lock.
fn slot_day<N: Names, R: Abort + Wait>(
    rt: &R,
    slot: SharedSlot<Anything, N>,
    keys: &mut Keys<N>,
    arena: &mut ArenaState<Pages<N>>,
    first: &mut Seat<N>,
    second: &mut Seat<N>,
    last_seq: u32,
) -> SharedSlot<Anything, N>
    requires last_seq { last_seq ≡ N.last_seq }
    requires bounded { N.last_seq ≤ MAX_SEQ }
    requires number { slot.whole.number ≡ 0 }
{
    let mut slot = slot;
    nothing_shown(rt, &slot, second);
    made(rt, &mut slot, keys, first, last_seq);
    let text = drafted(rt, arena);
    sent(rt, &mut slot, first, text);
    shown(rt, &mut slot, second);
    cut(rt, &mut slot);
    let text = received(rt, &mut slot, second);
    spent(rt, arena, text);
    changed(rt, &mut slot, first);
    removed(rt, &mut slot, keys, first);
    slot
}

fn spent_day<N: Names, R: Abort + Wait>(
    rt: &R,
    slot: SharedSlot<Anything, N>,
    keys: &mut Keys<N>,
    arena: &mut ArenaState<Pages<N>>,
    first: &mut Seat<N>,
    second: &mut Seat<N>,
    last_seq: u32,
    day: Day,
) -> SharedSlot<Anything, N>
    requires slots { N.slots ≡ 1 }
    requires last_seq { last_seq ≡ N.last_seq }
    requires bounded { N.last_seq ≤ MAX_SEQ }
    requires number { slot.whole.number ≡ 0 }
{
    match day {
        Day::Slot => slot_day(rt, slot, keys, arena, first, second, last_seq),
        Day::Seat => followed(rt, slot, keys, arena, first, second, last_seq),
    }
}

/// It is the size of a system of one slot and two seats.
fn is_least(rt: &impl Abort, config: Config)
    ensures slots { config.slots ≡ 1 }
    ensures seats { config.seats ≡ 2 }
    ensures last_seq { config.last_seq ≤ MAX_SEQ }
{
    holds(rt, config.slots == 1, "one slot");
    holds(rt, config.seats == 2, "two seats");
    holds(rt, config.last_seq <= MAX_SEQ, "its last seq");
}

fn apart<N: Names, R: Abort + Wait>(rt: &R, alloc: Global, config: Config, blanks: Blanks, day: Day)
    requires names { AreNames N.Names.own N.Naming blanks config }
    requires enough { LEDGER_PARTS ≤ blanks.pages.parts }
{
    is_least(rt, config);
    let Blanks {
        pages,
        entries,
        mut boards,
    } = blanks;
    let unopened = Unopened::new(alloc, config.height).expect(rt, "no memory for the pages");
    let (writer, readers) = next_board::<N, R>(alloc, rt, &mut boards, 0, 2).expect(
        rt,
        "no memory for the board",
    );
    let mut tally = Tally::<N>::new(entries);
    let slot = Slot::new(alloc, 0);
    let slot = SharedSlot::<Anything, N>::new(slot, writer, tally.slot_part());
    let (mut first, mut second) = seated(rt, alloc, &mut tally, readers);
    let mut arena = unopened.open::<Pages<N>>(pages);
    let mut keys = Keys::<N>::new(alloc);
    let last_seq = config.last_seq;
    let slot = spent_day(
        rt,
        slot,
        &mut keys,
        &mut arena,
        &mut first,
        &mut second,
        last_seq,
        day,
    );
    counted(rt, &first, &second);
    taken_apart(rt, slot, first, second, tally);
}

/// Opens a system's parts, tries them and takes them apart.
pub(crate) fn apart_once<R: Abort + Wait>(
    rt: &R,
    alloc: Global,
    config: Config,
    day: Day,
) -> Result<(), SysError> {
    let blanks = Blanks::of(alloc, config)?;
    apart::<Brand, R>(rt, alloc, config, blanks, day);
    Ok(())
}

#[test]
fn a_slot_and_two_seats_answer_by_themselves(rt: HostRuntime) {
    let config = Config {
        height: 0,
        slots: 1,
        seats: 2,
        last_seq: 9,
    };
    match apart_once(&rt, rt.alloc(), config, Day::Slot) {
        Ok(()) => (),
        Err(_) => panic!(rt; "out of memory"),
    }
}

#[test]
fn no_parts_are_opened_for_no_slot(rt: HostRuntime) {
    let config = Config {
        height: 0,
        slots: 0,
        seats: 2,
        last_seq: 9,
    };
    match Blanks::of(rt.alloc(), config) {
        Err(SysError::Config) => (),
        _ => panic!(rt; "a system of no slot"),
    }
}
