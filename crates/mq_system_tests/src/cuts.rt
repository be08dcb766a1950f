//! Drains of a slot's list, after which all calls answer as before.

use crate::calls::{CREATE, NEW, NO_FLAG, TAG, counts, cut, first, is_first, seat};
use crate::day::{Day, config, left_by};
use crate::system::Calls;
use crate::table::{Answer, Step, plays};
use crate::{granted, holds};
use mq_message::Selection;
use mq_queue::{Base, BaseEntry, BoardRow, Event, Figures, Log};
use mq_system::{ClosedSlot, Errno, Removal};
use mq_table::Cut;
use std::process::Abort;
use std::sync::Wait;
use std::thread::Threads;

/// A queue is made, and two messages are sent.
const SENT: [Event; 3] = [
    Event::Made {
        seat: 1,
        moment: 4,
        key: 9,
    },
    Event::Sent {
        seat: 1,
        moment: 5,
        tag: TAG,
        mtype: 1,
        length: 3,
    },
    Event::Sent {
        seat: 1,
        moment: 5,
        tag: TAG,
        mtype: 2,
        length: 4,
    },
];

/// The first of the two is received, and the queue is removed.
const REST: [Event; 2] = [
    Event::Received {
        seat: 2,
        moment: 6,
        place: 1,
        selection: Selection::Any,
        size: 9,
        noerror: false,
    },
    Event::Removed { seat: 1, moment: 7 },
];

const ONE: BaseEntry = BaseEntry {
    place: 1,
    seat: 1,
    tag: TAG,
    mtype: 1,
    length: 3,
};

const FOUR: BaseEntry = BaseEntry {
    place: 2,
    mtype: 2,
    length: 4,
    ..ONE
};

/// What is shown while both are pending.
const BOTH: Figures = Figures {
    qnum: 2,
    cbytes: 7,
    qbytes: 131_072,
    stime: 5,
    rtime: 0,
    ctime: 4,
    lspid: 1,
    lrpid: 0,
};

/// What is shown while the second is pending.
const LEFT: Figures = Figures {
    qnum: 1,
    cbytes: 4,
    rtime: 6,
    lrpid: 2,
    ..BOTH
};

fn sent<S: Calls, R: Abort + Wait>(
    rt: &R,
    system: &S,
    seats: &mut [S::Seat],
    mtype: i64,
    bytes: &[u8],
    at: u64,
) {
    let text = granted::drafted(rt, system, bytes);
    let entry = granted::sent(rt, system, seats, 0, mtype, text, 5);
    holds(rt, entry == at, "it is sent by its entry");
}

/// A queue with a key, in which two messages are pending.
fn filled<S: Calls, R: Abort + Wait>(rt: &R, system: &S, seats: &mut [S::Seat]) {
    granted::made(rt, system, seats, 9, NEW, 4, 0, 0);
    sent(rt, system, seats, 1, b"one", 1);
    sent(rt, system, seats, 2, b"four", 2);
}

/// A seat is shown the queue with these figures, and no other one.
fn is_shown<S: Calls, R: Abort + Wait>(rt: &R, system: &S, seat: &mut S::Seat, figures: Figures) {
    let shown = granted::shown(rt, system, seat);
    holds(rt, shown == figures, "its figures");
    let row = BoardRow {
        made: 1,
        live: true,
        key: 9,
        figures,
    };
    granted::is_only_row(rt, system, seat, row);
}

/// The queue is found and shown, by both seats, as if nothing had been drained.
fn is_there<S: Calls, R: Abort + Wait>(
    rt: &R,
    system: &S,
    seats: &mut [S::Seat],
    figures: Figures,
) {
    let got = granted::got(rt, system, seats, 9, NO_FLAG, 5);
    granted::is_found(rt, got);
    is_shown(rt, system, seat(rt, seats, 0), figures);
    is_shown(rt, system, seat(rt, seats, 1), figures);
}

/// `one` is received by entry 3.
fn receives<S: Calls, R: Abort + Wait>(rt: &R, system: &S, seats: &mut [S::Seat]) {
    let delivered = granted::received(rt, system, seats, 0, first(9), 6);
    let text = granted::text_of(rt, delivered, 3, 1, 3);
    holds(rt, system.shows(&text, b"one"), "its text");
    system.spend(rt, text);
}

/// These messages are pending.
fn waits(rt: &impl Abort, base: &Base, waiting: &[BaseEntry]) {
    let count = waiting.len() as u64;
    holds(
        rt,
        base.waiting.len() == count,
        "as many messages before a cut",
    );
    for (index, entry) in waiting.iter().enumerate() {
        let shown = base.waiting.get(index as u64);
        holds(rt, shown == Some(*entry), "a message before a cut");
    }
}

/// Three entries are before a drain, by which both messages are pending.
fn known(rt: &impl Abort, base: &Option<Base>) {
    match base {
        Some(base) => {
            holds(rt, base.places == 3, "the entries before a cut");
            holds(rt, base.figures == BOTH, "the figures before a cut");
            waits(rt, base, &[ONE, FOUR]);
        }
        None => panic!(rt; "nothing is known of the entries before a cut"),
    }
}

/// Nothing happened in the slot by this drain.
fn is_new(rt: &impl Abort, cut: &Cut) {
    is_first(rt, cut);
    holds(rt, cut.last.is_empty(), "nothing is");
}

/// The first drain returns what was sent.
fn hands_out_all(rt: &impl Abort, cut: &Cut) {
    is_first(rt, cut);
    let sent = cut.last.as_slice() == SENT.as_slice();
    holds(rt, sent, "all that was sent");
}

/// A drain right behind the first returns nothing.
fn hands_out_none(rt: &impl Abort, cut: &Cut) {
    holds(rt, cut.first == 3 && cut.made == 1, "behind the first");
    known(rt, &cut.base);
    holds(rt, cut.past.is_empty(), "of no removed queue");
    holds(rt, cut.last.is_empty(), "nothing twice");
}

/// Slot 0 is drained while both messages are pending, and at once again.
fn cut_twice<S: Calls, R: Abort + Wait>(rt: &R, system: &S, seats: &mut [S::Seat]) {
    hands_out_all(rt, &cut(rt, system, seats, 0));
    is_there(rt, system, seats, BOTH);
    hands_out_none(rt, &cut(rt, system, seats, 0));
    is_there(rt, system, seats, BOTH);
}

/// The log of the queue has the drained events' checkpoint and the rest.
fn tells_all(rt: &impl Abort, log: Log) {
    holds(rt, log.len() == 5, "its whole log");
    let (base, tail) = log.into_parts();
    holds(rt, tail.as_slice() == REST.as_slice(), "the rest of it");
    known(rt, &Some(base));
}

fn removed<S: Calls, R: Abort + Wait>(rt: &R, system: &S, seats: &mut [S::Seat]) {
    let Removal { entry, log } = granted::removed(rt, system, seats, 0, 7);
    holds(rt, entry == 4, "it is removed by entry 4");
    tells_all(rt, log);
}

#[derive(Drop)]
struct CutDay;

impl Day for CutDay {
    fn spend<S: Calls, R: Abort + Threads + Wait>(
        &self,
        rt: &R,
        system: &S,
        seats: &mut [S::Seat],
    ) {
        is_new(rt, &cut(rt, system, seats, 0));
        filled(rt, system, seats);
        cut_twice(rt, system, seats);
        receives(rt, system, seats);
        is_there(rt, system, seats, LEFT);
        is_new(rt, &cut(rt, system, seats, 1));
        removed(rt, system, seats);
        holds(rt, system.slots() == 2, "two slots");
        counts(rt, system, seat(rt, seats, 0), 4);
        counts(rt, system, seat(rt, seats, 1), 1);
    }
}

/// At the end only the kept events are listed.
fn kept(rt: &impl Abort, slot: &ClosedSlot) {
    holds(rt, slot.first == 3 && slot.made == 1, "as much was cut off");
    known(rt, &slot.base);
    holds(
        rt,
        slot.past.as_slice() == REST.as_slice(),
        "what happened since then",
    );
    holds(rt, slot.last.is_empty(), "no queue is there");
    holds(rt, slot.left == 0, "nothing waits");
}

fn first_is_kept(rt: &impl Abort, slots: &[ClosedSlot]) {
    match slots.first() {
        Some(slot) => kept(rt, slot),
        None => panic!(rt; "there was no slot"),
    }
}

#[test]
fn what_waits_outlives_cuts(rt: HostRuntime) {
    let left = left_by(&rt, rt.alloc(), config(1, 2, 9), &CutDay);
    holds(&rt, left.free_pages == 2, "all pages are free");
    first_is_kept(&rt, left.slots.as_slice());
}

#[test]
fn entries_and_ids_count_on_over_cuts(rt: HostRuntime) {
    let table: [(Step, Answer); 22] = [
        (Step::Cut(0), Answer::Cut(0, 0, None, 0, 0)),
        (Step::Get(9, CREATE), Answer::Id(0, Some(0))),
        (Step::Send(0, 1, b"one"), Answer::At(1)),
        (Step::Cut(0), Answer::Cut(0, 0, None, 0, 2)),
        (Step::Cut(0), Answer::Cut(2, 1, Some(2), 0, 0)),
        (Step::Get(9, NEW), Answer::Errno(Errno::EEXIST)),
        (Step::Stat(0), Answer::Shown(1, 3, 131_072)),
        (Step::Receive(0, first(9), b"one"), Answer::Got(2, 1, 3)),
        (Step::Send(0, 2, b"four"), Answer::At(3)),
        (Step::Cut(0), Answer::Cut(2, 1, Some(2), 0, 2)),
        (Step::Set(0, 100), Answer::At(4)),
        (Step::Remove(0), Answer::Removed(5, 6)),
        (Step::Stat(0), Answer::Errno(Errno::EIDRM)),
        (Step::Get(9, NO_FLAG), Answer::Errno(Errno::ENOENT)),
        (Step::Get(8, CREATE), Answer::Id(64, Some(6))),
        (Step::Send(64, 1, b""), Answer::At(7)),
        // Of two queues, the first of which is known from before.
        (Step::Cut(0), Answer::Cut(4, 1, Some(4), 2, 2)),
        (Step::Cut(0), Answer::Cut(8, 2, Some(2), 0, 0)),
        (Step::Remove(64), Answer::Removed(8, 3)),
        (Step::Cut(0), Answer::Cut(8, 2, Some(2), 1, 0)),
        (Step::Cut(0), Answer::Cut(9, 2, None, 0, 0)),
        (Step::Get(8, CREATE), Answer::Id(128, Some(9))),
    ];
    plays(&rt, rt.alloc(), config(0, 1, 9), &table);
}
