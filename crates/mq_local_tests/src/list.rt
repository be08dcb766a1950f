//! A list of all calls that change something, each made once more where there was no memory. It is
//! run with each allocation refused in turn, and must answer as if none had been.

use crate::calls::{
    CREATE, Wanted, cut, delivered, drafted, first, get, remove, set, spent, taken,
};
use crate::day::{Day, config, lives};
use crate::holds;
use crate::system::Calls;
use mq_calls::{Delivered, Got, Removal};
use mq_queue::{Base, Figures, Log};
use mq_table::{Cut, Id};
use std::ops::Range;
use std::process::Abort;

/// The messages, eight of each of five types.
const MESSAGES: u64 = 40;

/// Which of them in the order of sending has a text: one that allocates memory, and that takes all
/// pages.
const LONG: u64 = 17;

/// After so many receipts the list is drained.
const HALF: u64 = 20;

/// The type of the message at this place of those that are sent: the types come in turn.
fn type_of(place: u64) -> i64 {
    (place % 5 + 1) as i64
}

/// How long the text of that message is.
fn length_of(place: u64) -> u64 {
    if place == LONG { 8193 } else { 0 }
}

/// The message that is received at this place, by its place of those that are sent: all of the
/// first type come first.
fn received_at(place: u64) -> u64 {
    place % 8 * 5 + place / 8
}

fn makes<S: Calls>(rt: &impl Abort, system: &mut S, key: i32, id: u32, entry: u64) {
    let got = Got {
        id: Id::from_number(id),
        made: Some(entry),
    };
    let made = get(system, key, CREATE, 1) == Ok(got);
    holds(rt, made, "no memory for a queue");
}

fn sends<S: Calls>(rt: &impl Abort, system: &mut S, place: u64) {
    let text = drafted(rt, system, length_of(place));
    let entry = taken(rt, system, 0, type_of(place), text);
    holds(
        rt,
        entry == place.saturating_add(1),
        "sent at another entry",
    );
}

/// The text of the message that was sent at this place, as it is received at that one.
fn text_of<T>(rt: &impl Abort, delivered: Delivered<T>, sent: u64, place: u64) -> T {
    let Delivered {
        entry,
        mtype,
        sender,
        tag,
        length,
        text,
    } = delivered;
    let wanted = place.saturating_add(MESSAGES + 1);
    holds(rt, entry == wanted, "received by another entry");
    holds(rt, mtype == type_of(sent), "another type");
    holds(rt, sender == 1, "another sender");
    holds(rt, tag == 7, "another tag");
    holds(rt, length == length_of(sent), "another length");
    text
}

/// The messages at these places of those that are received.
fn receives<S: Calls>(rt: &impl Abort, system: &mut S, places: Range<u64>) {
    for place in places {
        let sent = received_at(place);
        let wanted = Wanted {
            msgtyp: type_of(sent),
            ..first(length_of(sent))
        };
        let text = text_of(rt, delivered(rt, system, 0, wanted), sent, place);
        let length = system.shape(&text).len;
        holds(rt, length == length_of(sent), "another text");
        spent(rt, system, text);
    }
}

/// The queue's own log has the number of events that were drained of it.
fn tells_of_cuts(rt: &impl Abort, log: Log) {
    holds(rt, log.len() == 83, "another log");
    let (base, tail) = log.into_parts();
    holds(rt, base.places == 61, "as much was not cut off");
    holds(rt, base.waiting.len() == 20, "as much did not wait");
    holds(rt, tail.len() == 22, "another rest");
}

fn removes<S: Calls>(rt: &impl Abort, system: &mut S) {
    match remove(system, 0, 91) {
        Ok(Removal { entry, log }) => {
            holds(rt, entry == 82, "removed by another entry");
            tells_of_cuts(rt, log);
        }
        Err(refused) => panic!(rt; "not removed: {refused}"),
    }
}

/// What is shown of the queue at the end.
const FIGURES: Figures = Figures {
    qnum: 0,
    cbytes: 0,
    qbytes: 100,
    stime: 5,
    rtime: 6,
    ctime: 90,
    lspid: 1,
    lrpid: 2,
};

fn changes<S: Calls>(rt: &impl Abort, system: &mut S) {
    holds(rt, set(system, 0, 100, 90) == Ok(81), "no new quota");
    let shown = system.stat(Id::from_number(0)) == Ok(FIGURES);
    holds(rt, shown, "other figures");
    removes(rt, system);
}

/// The checkpoint of a drain: how many entries are before it, how many of these are makings, and of
/// the queue that they leave, if they leave one, how many entries there are, and how many messages
/// were pending.
#[derive(Clone, Copy)]
struct Before {
    first: u64,
    made: u32,
    base: Option<(u64, u64)>,
}

fn is_base(rt: &impl Abort, base: Option<Base>, wanted: Option<(u64, u64)>) {
    match base {
        Some(base) => {
            let known = Some((base.places, base.waiting.len()));
            holds(rt, known == wanted, "another base");
        }
        None => holds(rt, wanted.is_none(), "a base is missing"),
    }
}

/// Slot 0 is drained, which returns so many entries of removed queues and of the one that is there.
fn cuts<S: Calls>(rt: &impl Abort, system: &mut S, before: Before, past: usize, last: usize) {
    let cut = cut(rt, system, 0);
    holds(rt, cut.first == before.first, "as much was not cut off");
    holds(rt, cut.made == before.made, "other makings");
    holds(rt, cut.past.len() == past, "other removed queues");
    holds(rt, cut.last.len() == last, "another queue");
    is_base(rt, cut.base, before.base);
}

/// The checkpoints of drains, one after another.
const BEFORE: [Before; 5] = [
    Before {
        first: 0,
        made: 0,
        base: None,
    },
    Before {
        first: 41,
        made: 1,
        base: Some((41, 40)),
    },
    Before {
        first: 61,
        made: 1,
        base: Some((61, 20)),
    },
    Before {
        first: 85,
        made: 2,
        base: Some((2, 1)),
    },
    Before {
        first: 86,
        made: 2,
        base: None,
    },
];

#[derive(Drop)]
struct Listed;

impl Day for Listed {
    fn spend<S: Calls, R: Abort>(&self, rt: &R, system: &mut S) {
        cuts(rt, system, BEFORE[0], 0, 0);
        makes(rt, system, 9, 0, 0);
        makes(rt, system, 0, 1, 0);
        for place in 0..MESSAGES {
            sends(rt, system, place);
        }
        cuts(rt, system, BEFORE[0], 0, 41);
        receives(rt, system, 0..HALF);
        cuts(rt, system, BEFORE[1], 0, 20);
        receives(rt, system, HALF..MESSAGES);
        changes(rt, system);
        again(rt, system);
    }
}

/// Two more queues in slot 0. The drain after the first has the one before too.
fn again<S: Calls>(rt: &impl Abort, system: &mut S) {
    makes(rt, system, 9, 64, 83);
    let text = drafted(rt, system, 0);
    holds(rt, taken(rt, system, 64, 1, text) == 84, "another entry");
    cuts(rt, system, BEFORE[2], 22, 2);
    cuts(rt, system, BEFORE[3], 0, 0);
    holds(rt, remove(system, 64, 92).is_ok(), "not removed");
    cuts(rt, system, BEFORE[3], 1, 0);
    cuts(rt, system, BEFORE[4], 0, 0);
    makes(rt, system, 9, 128, 86);
    cuts(rt, system, BEFORE[4], 0, 1);
}

#[test]
fn a_list_of_calls_answers_as_if_memory_had_never_run_out(rt: HostRuntime) {
    lives(&rt, rt.alloc(), config(4, 2, 2), &Listed);
}
