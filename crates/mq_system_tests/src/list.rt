//! A list of all calls that change something, each made once more where there was no memory. It is
//! run with each allocation refused in turn, and must answer as if none had been.

use crate::calls::{CREATE, Wanted, cut, draft, first, seat};
use crate::day::{Day, config, left_by};
use crate::system::Calls;
use crate::{granted, holds};
use mq_arena::Homecoming;
use mq_queue::{Base, Log};
use mq_system::{ClosedSlot, Removal};
use mq_table::Cut;
use std::ops::Range;
use std::process::Abort;
use std::sync::Wait;
use std::thread::Threads;

/// The messages, eight of each of five types.
const MESSAGES: u64 = 40;

/// After so many receipts the list is drained.
const HALF: u64 = 20;

/// The type of the message at this place of those that are sent: the types come in turn.
fn type_of(place: u64) -> i64 {
    (place % 5) as i64 + 1
}

/// The type that is received at this place: all of the first type come first.
fn wanted_at(place: u64) -> i64 {
    (place / 8) as i64 + 1
}

fn sends<S: Calls, R: Abort + Wait>(rt: &R, system: &S, seats: &mut [S::Seat], place: u64) {
    let text = granted::zeros(rt, system, 0);
    let entry = granted::sent(rt, system, seats, 0, type_of(place), text, place);
    holds(rt, entry == place.saturating_add(1), "sent at its entry");
}

/// A text is drafted whose block allocates memory, and spent.
fn drafts<S: Calls, R: Abort + Wait>(rt: &R, system: &S) {
    match draft(rt, system, 8193) {
        Ok(text) => holds(
            rt,
            system.spend(rt, text) == Homecoming::Home,
            "a text comes home",
        ),
        Err(_refusal) => panic!(rt; "a text is refused twice"),
    }
}

fn receives<S: Calls, R: Abort + Wait>(rt: &R, system: &S, seats: &mut [S::Seat], place: u64) {
    let msgtyp = wanted_at(place);
    let wanted = Wanted { msgtyp, ..first(0) };
    let delivered = granted::received(rt, system, seats, 0, wanted, place);
    let entry = place.saturating_add(MESSAGES + 1);
    let text = granted::text_of(rt, delivered, entry, msgtyp, 0);
    system.spend(rt, text);
}

/// The messages at these places of those that are received.
fn receives_all<S: Calls, R: Abort + Wait>(
    rt: &R,
    system: &S,
    seats: &mut [S::Seat],
    places: Range<u64>,
) {
    for place in places {
        receives(rt, system, seats, place);
    }
}

/// The queue's own log has the number of events that were drained of it.
fn tells_of_cuts(rt: &impl Abort, log: Log) {
    holds(rt, log.len() == 83, "its own log");
    let (base, tail) = log.into_parts();
    holds(rt, base.places == 61, "what was cut off of it");
    holds(rt, base.waiting.len() == 20, "what waited then");
    holds(rt, tail.len() == 22, "the rest of it");
}

fn removes<S: Calls, R: Abort + Wait>(rt: &R, system: &S, seats: &mut [S::Seat]) {
    let Removal { entry, log } = granted::removed(rt, system, seats, 0, 91);
    holds(rt, entry == 82, "it is removed by entry 82");
    tells_of_cuts(rt, log);
}

fn changes<S: Calls, R: Abort + Wait>(rt: &R, system: &S, seats: &mut [S::Seat]) {
    let entry = granted::changed(rt, system, seats, 0, 100, 90);
    holds(rt, entry == 81, "the quota is set by entry 81");
    let figures = granted::shown(rt, system, seat(rt, seats, 0));
    holds(
        rt,
        figures.qnum == 0 && figures.qbytes == 100,
        "the figures",
    );
    removes(rt, system, seats);
}

/// By the checkpoint of a drain so many messages were pending, if it is known.
fn is_base(rt: &impl Abort, base: Option<Base>, first: u64, waiting: Option<u64>) {
    match base {
        Some(base) => {
            holds(rt, Some(base.waiting.len()) == waiting, "what waited");
            holds(rt, base.places == first, "the base of what was cut off");
        }
        None => holds(rt, waiting.is_none(), "the base of a queue"),
    }
}

/// Slot 0 is drained: so many entries were drained before, of which so many messages were pending
/// if they left a queue, and so many are returned of a removed queue and of the one that is there.
fn cuts<S: Calls, R: Abort + Wait>(
    rt: &R,
    system: &S,
    seats: &mut [S::Seat],
    first: u64,
    waiting: Option<u64>,
    past: usize,
    last: usize,
) {
    let cut = cut(rt, system, seats, 0);
    counts(rt, &cut, first, past, last);
    is_base(rt, cut.base, first, waiting);
}

/// A drain counts so many entries before it, and returns so many of removed queues and of the last.
fn counts(rt: &impl Abort, cut: &Cut, first: u64, past: usize, last: usize) {
    holds(rt, cut.first == first, "as much was cut off before");
    holds(
        rt,
        cut.made == u32::from(first != 0),
        "a queue was made before",
    );
    holds(rt, cut.past.len() == past, "as much of a removed queue");
    holds(rt, cut.last.len() == last, "as much of a queue");
}

#[derive(Drop)]
struct Listed;

impl Day for Listed {
    fn spend<S: Calls, R: Abort + Threads + Wait>(
        &self,
        rt: &R,
        system: &S,
        seats: &mut [S::Seat],
    ) {
        granted::made(rt, system, seats, 9, CREATE, 1, 0, 0);
        granted::made(rt, system, seats, 0, CREATE, 1, 1, 0);
        for place in 0..MESSAGES {
            sends(rt, system, seats, place);
        }
        drafts(rt, system);
        cuts(rt, system, seats, 0, None, 0, 41);
        receives_all(rt, system, seats, 0..HALF);
        cuts(rt, system, seats, 41, Some(40), 0, 20);
        receives_all(rt, system, seats, HALF..MESSAGES);
        changes(rt, system, seats);
        cuts(rt, system, seats, 61, Some(20), 22, 0);
        granted::made(rt, system, seats, 9, CREATE, 1, 64, 83);
        cuts(rt, system, seats, 83, None, 0, 1);
    }
}

/// All that happened in these slots, in which nothing is pending.
fn entries_of(rt: &impl Abort, slots: &[ClosedSlot]) -> u64 {
    let mut entries = 0u64;
    for slot in slots.iter() {
        let kept = slot.past.len().saturating_add(slot.last.len());
        entries = entries.saturating_add(slot.first.saturating_add(kept as u64));
        holds(rt, slot.left == 0, "nothing waits");
    }
    entries
}

#[test]
fn a_list_of_calls_answers_as_if_memory_had_never_run_out(rt: HostRuntime) {
    let left = left_by(&rt, rt.alloc(), config(4, 2, 1), &Listed);
    holds(&rt, left.free_pages == 16, "all pages are free");
    let entries = entries_of(&rt, left.slots.as_slice());
    holds(&rt, entries == 85, "all that was not refused");
}
