//! Logs: what removals and drains return, and what is left at the end. All calls answer as before
//! a drain.
ghost use Rattle.std.specs.Prelude.{◌≡◌, ◌<◌};

use crate::calls::{
    CREATE, NEW, NO_FLAG, cut, delivered, first, get, remove, spent, taken, written,
};
use crate::day::{PARTS, config, made};
use crate::holds;
use crate::system::Calls;
use mq_arena::{ArenaState, Homecoming, Text};
use mq_calls::{Closed, ClosedSlot, Got, Removal};
use mq_message::Selection;
use mq_queue::{Base, BaseEntry, BoardRow, Event, Figures, Log};
use mq_table::{Cut, Id};
use std::alloc::Global;
use std::marker::Brand;
use std::process::Abort;
use std::sync::ledger::{Blank, Ledger};

const ONE: BaseEntry = BaseEntry {
    place: 1,
    seat: 1,
    tag: 7,
    mtype: 1,
    length: 3,
};

const FOUR: BaseEntry = BaseEntry {
    place: 2,
    mtype: 2,
    length: 4,
    ..ONE
};

/// What is shown while `one` and `four` are pending.
const BOTH: Figures = Figures {
    qnum: 2,
    cbytes: 7,
    qbytes: 131_072,
    stime: 5,
    rtime: 0,
    ctime: 4,
    lspid: 1,
    lrpid: 0,
};

/// What is shown while `four` is pending.
const LEFT: Figures = Figures {
    qnum: 1,
    cbytes: 4,
    rtime: 6,
    lrpid: 2,
    ..BOTH
};

/// What is shown of an empty queue that was made at the moment 4.
const EMPTY: Figures = Figures {
    qnum: 0,
    cbytes: 0,
    stime: 0,
    lspid: 0,
    ..BOTH
};

const NO_ROW: BoardRow = BoardRow {
    made: 0,
    live: false,
    key: 0,
    figures: Figures {
        qbytes: 0,
        ctime: 0,
        ..EMPTY
    },
};

/// A queue with this key is made, and `one` and `four` are sent.
fn both_sent(key: i32) -> [Event; 3] {
    [
        Event::Made {
            seat: 1,
            moment: 4,
            key,
        },
        Event::Sent {
            seat: 1,
            moment: 5,
            tag: 7,
            mtype: 1,
            length: 3,
        },
        Event::Sent {
            seat: 1,
            moment: 5,
            tag: 7,
            mtype: 2,
            length: 4,
        },
    ]
}

/// `one` is received.
const RECEIVED: [Event; 1] = [Event::Received {
    seat: 2,
    moment: 6,
    place: 1,
    selection: Selection::Any,
    size: 9,
    noerror: false,
}];

fn sent<S: Calls>(rt: &impl Abort, system: &mut S, id: u32, mtype: i64, bytes: &[u8], at: u64) {
    let text = written(rt, system, bytes);
    let entry = taken(rt, system, id, mtype, text);
    holds(rt, entry == at, "sent at another entry");
}

fn shows<S: Calls>(rt: &impl Abort, system: &S, slot: u8, wanted: BoardRow) {
    holds(rt, system.row(rt, slot) == wanted, "another row is shown");
}

/// `one` is received.
fn receives<S: Calls>(rt: &impl Abort, system: &mut S, id: u32) {
    let text = delivered(rt, system, id, first(9)).text;
    holds(rt, system.has(&text, b"one"), "another text");
    spent(rt, system, text);
}

/// These messages are pending.
fn waits(rt: &impl Abort, base: &Base, waiting: &[BaseEntry]) {
    let count = waiting.len() as u64;
    holds(rt, base.waiting.len() == count, "other messages");
    for (index, entry) in waiting.iter().enumerate() {
        let shown = base.waiting.get(index as u64);
        holds(rt, shown == Some(*entry), "another message");
    }
}

/// The checkpoint of a drain: these figures and messages.
fn known(
    rt: &impl Abort,
    base: &Option<Base>,
    places: u64,
    figures: Figures,
    waiting: &[BaseEntry],
) {
    match base {
        Some(base) => {
            holds(rt, base.places == places, "other entries");
            holds(rt, base.figures == figures, "other figures");
            waits(rt, base, waiting);
        }
        None => panic!(rt; "a base is missing"),
    }
}

/// Both messages were pending at the third entry.
fn both_known(rt: &impl Abort, base: &Option<Base>) {
    known(rt, base, 3, BOTH, &[ONE, FOUR]);
}

/// The first drain of a slot returns these events.
fn hands_out_first(rt: &impl Abort, cut: &Cut, events: &[Event]) {
    holds(rt, cut.first == 0 && cut.made == 0, "not the first");
    holds(rt, cut.base.is_none(), "a base is there");
    holds(rt, cut.past.is_empty(), "a queue is removed");
    let same = cut.last.as_slice() == events;
    holds(rt, same, "other events are handed out first");
}

/// The next drain returns these events.
fn hands_out(rt: &impl Abort, cut: &Cut, events: &[Event]) {
    holds(rt, cut.first == 3 && cut.made == 1, "not the next");
    both_known(rt, &cut.base);
    holds(rt, cut.past.is_empty(), "a queue is removed");
    let same = cut.last.as_slice() == events;
    holds(rt, same, "other events are handed out");
}

/// A queue with this key is made in this slot, which is drained while both messages are pending,
/// and at once again.
fn cut_twice<S: Calls>(rt: &impl Abort, system: &mut S, key: i32, slot: u8) {
    let id = u32::from(slot);
    holds(rt, get(system, key, NEW, 4).is_ok(), "no queue");
    sent(rt, system, id, 1, b"one", 1);
    sent(rt, system, id, 2, b"four", 2);
    hands_out_first(rt, &cut(rt, system, slot), &both_sent(key));
    hands_out(rt, &cut(rt, system, slot), &[]);
}

/// The queue in slot 0 is found and shown as it would be if nothing had been drained.
fn is_there<S: Calls>(rt: &impl Abort, system: &mut S, figures: Figures) {
    let got = Got {
        id: Id::from_number(0),
        made: None,
    };
    let found = get(system, 9, NO_FLAG, 5) == Ok(got);
    holds(rt, found, "another id");
    let row = BoardRow {
        made: 1,
        live: true,
        key: 9,
        figures,
    };
    shows(rt, system, 0, row);
}

/// The queue in slot 0 is there at the end, and its log was drained three times.
fn kept<S: Calls>(rt: &impl Abort, system: &mut S) {
    hands_out_first(rt, &cut(rt, system, 0), &[]);
    cut_twice(rt, system, 9, 0);
    is_there(rt, system, BOTH);
    receives(rt, system, 0);
    hands_out(rt, &cut(rt, system, 0), &RECEIVED);
    is_there(rt, system, LEFT);
    sent(rt, system, 0, 1, b"two", 4);
}

/// The log of a removed queue has the drained events' checkpoint and the rest.
fn tells_rest(rt: &impl Abort, log: Log) {
    holds(rt, log.len() == 5, "another log");
    holds(rt, log.first() == 3, "it begins elsewhere");
    let (base, tail) = log.into_parts();
    both_known(rt, &Some(base));
    holds(rt, tail.len() == 2, "another rest");
    holds(rt, tail.get(0) == RECEIVED.get(0), "another receipt");
}

/// The queue in slot 4 is removed after drains.
fn removed<S: Calls>(rt: &impl Abort, system: &mut S) {
    cut_twice(rt, system, 8, 4);
    receives(rt, system, 4);
    match remove(system, 4, 8) {
        Ok(Removal { entry, log }) => {
            holds(rt, entry == 4, "removed by another entry");
            tells_rest(rt, log);
        }
        Err(refused) => panic!(rt; "it is not removed: {refused}"),
    }
}

/// What happened to the first queue in slot 1.
fn whole() -> [Event; 4] {
    let sent = both_sent(-8);
    [
        sent[0],
        sent[1],
        sent[2],
        Event::Removed { seat: 1, moment: 7 },
    ]
}

/// The log of a queue of which nothing was drained has all its events.
fn tells_all(rt: &impl Abort, removal: Removal) {
    let Removal { entry, log } = removal;
    holds(rt, entry == 3, "removed by another entry");
    holds(rt, log.first() == 0, "something was cut off");
    let (_, tail) = log.into_parts();
    holds(rt, tail.as_slice() == whole().as_slice(), "another log");
}

/// The first queue in slot 1 is shown, and then removed.
fn first_removed<S: Calls>(rt: &impl Abort, system: &mut S) {
    let row = BoardRow {
        made: 1,
        live: true,
        key: -8,
        figures: EMPTY,
    };
    shows(rt, system, 1, NO_ROW);
    holds(rt, get(system, -8, NEW, 4).is_ok(), "no queue");
    shows(rt, system, 1, row);
    sent(rt, system, 1, 1, b"one", 1);
    sent(rt, system, 1, 2, b"four", 2);
    let figures = BOTH;
    shows(rt, system, 1, BoardRow { figures, ..row });
    match remove(system, 1, 7) {
        Ok(removal) => tells_all(rt, removal),
        Err(_) => panic!(rt; "not removed"),
    }
    shows(rt, system, 1, BoardRow { made: 1, ..NO_ROW });
}

/// Two texts are pending in slot 1, of which one queue was removed, and none in slot 2; one is
/// pending in slot 3, and another was received, which is returned.
fn uncut<S: Calls>(rt: &impl Abort, system: &mut S) -> S::Text {
    first_removed(rt, system);
    for key in 5..8i32 {
        holds(rt, get(system, key, CREATE, 6).is_ok(), "no queue");
    }
    sent(rt, system, 65, 1, b"one", 5);
    sent(rt, system, 65, 1, b"two", 6);
    sent(rt, system, 3, 1, b"outside", 1);
    sent(rt, system, 3, 1, b"four", 2);
    delivered(rt, system, 3, first(9)).text
}

/// Of slot 0 only the kept events are listed.
fn keeps(rt: &impl Abort, slot: &ClosedSlot) {
    holds(rt, slot.first == 4 && slot.made == 1, "not the next");
    holds(rt, slot.left == 2, "other messages are left");
    known(rt, &slot.base, 4, LEFT, &[FOUR]);
    holds(rt, slot.past.is_empty(), "a queue is removed");
    holds(rt, slot.last.len() == 1, "other events are left");
}

/// Slot 4 lists what happened to its removed queue since it was drained.
fn keeps_rest(rt: &impl Abort, slot: &ClosedSlot) {
    holds(rt, slot.first == 3 && slot.made == 1, "not the next");
    holds(rt, slot.left == 0, "a message is left");
    both_known(rt, &slot.base);
    holds(rt, slot.past.len() == 2, "another rest");
    holds(rt, slot.last.is_empty(), "a queue is left");
}

/// The slot returns its whole list, has so many events of removed queues and of its last one, and
/// left so many messages.
fn leaves(rt: &impl Abort, slot: &ClosedSlot, past: usize, last: usize, left: u64) {
    holds(rt, slot.first == 0 && slot.made == 0, "not all is told");
    holds(rt, slot.base.is_none(), "a base is there");
    holds(rt, slot.past.len() == past, "other removed queues");
    holds(rt, slot.last.len() == last, "another queue");
    holds(rt, slot.left == left, "other messages are left");
}

fn all_leave(rt: &impl Abort, slots: &[ClosedSlot]) {
    match slots {
        [kept, first, second, third, removed, fourth] => {
            keeps(rt, kept);
            leaves(rt, first, 4, 3, 2);
            let all = first.past.as_slice() == whole().as_slice();
            holds(rt, all, "another log is left");
            leaves(rt, second, 2, 0, 0);
            leaves(rt, third, 0, 4, 1);
            keeps_rest(rt, removed);
            leaves(rt, fourth, 0, 0, 0);
        }
        _ => panic!(rt; "other slots than six"),
    }
}

fn comes_home<L: Ledger>(rt: &impl Abort, arena: &mut ArenaState<L>, text: Text<L>) {
    match text.into_block() {
        Some(block) => {
            let home = arena.put(block) == Homecoming::Home;
            holds(rt, home, "a text does not come home");
        }
        None => panic!(rt; "no block"),
    }
}

fn closed<L: Ledger, R: Abort>(rt: &R, alloc: Global, ledger: Blank)
    requires name { ledger.name ≡ L.name }
    requires parts { ledger.parts ≡ L.parts }
    requires enough { 1024 < ledger.parts }
{
    let mut system = made::<L>(rt, alloc, config(3, 6, 9), ledger);
    kept(rt, &mut system);
    let outside = uncut(rt, &mut system);
    removed(rt, &mut system);
    holds(rt, remove(&mut system, 2, 7).is_ok(), "not removed");
    hands_out_first(rt, &cut(rt, &mut system, 5), &[]);
    let Closed { slots, mut arena } = system.close();
    all_leave(rt, slots.as_slice());
    holds(rt, arena.free_pages() == 7, "other pages are free");
    comes_home(rt, &mut arena, outside);
    holds(rt, arena.free_pages() == 8, "not all is free");
    holds(rt, arena.lent_pages() == 0, "a page is lent");
}

#[test]
fn texts_pending_at_the_end_are_freed(rt: HostRuntime) {
    closed::<Brand, HostRuntime>(&rt, rt.alloc(), Blank::new(PARTS));
}
