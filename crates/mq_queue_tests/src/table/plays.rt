//! What a slot answers to lists of calls, and shows between them.

use crate::table::slot_calls::{Answer, Live, Place, Shown, SlotCalls, close, message};
use mq_queue::{Base, BoardRow, Event, Figures, MSGMNB, NO_FIGURES, QueueError};
use mq_table::{Cut, Id, IdRefusal, KeyTable, MAX_SLOTS};
use std::alloc::Global;
use std::process::Abort;

#[derive(Clone, Copy)]
pub(crate) enum Step {
    /// A key.
    Make(i32),
    /// A type and a length.
    Send(i64, usize),
    /// A size.
    Receive(u64),
    /// A quota.
    Set(u64),
    Remove,
    Cut,
    /// An id's number.
    Look(u32),
    /// An entry of the slot list.
    Event(u64),
    Show,
}

/// What a drain returns.
fn handed(cut: &Cut) -> Answer {
    let places = match &cut.base {
        Some(Base { places, .. }) => Some(*places),
        None => None,
    };
    Answer::Cut(cut.first, cut.made, places, cut.past.len(), cut.last.len())
}

/// The id of a queue that is made, if it is.
fn made(id: Option<Id>) -> Answer {
    match id {
        Some(id) => Answer::Id(id.number()),
        None => Answer::Unasked,
    }
}

fn removed<S: SlotCalls>(keys: &mut KeyTable, slot: &mut S) -> Answer {
    match slot.remove(keys) {
        Some(log) => Answer::Log(log.first(), log.len()),
        None => Answer::Unasked,
    }
}

/// What a slot answers to a call, where the last seq is 2.
fn called<S: SlotCalls>(
    rt: &impl Abort,
    alloc: Global,
    keys: &mut KeyTable,
    slot: &mut S,
    step: Step,
) -> Answer {
    match step {
        Step::Make(key) => made(slot.make(keys, key, 2)),
        Step::Send(mtype, length) => slot.send(message(rt, alloc, mtype, length)),
        Step::Receive(size) => slot.receive(size),
        Step::Set(qbytes) => slot.set(qbytes),
        Step::Remove => removed(keys, slot),
        Step::Cut => handed(&slot.cut(rt)),
        Step::Look(number) => Answer::Looked(slot.look(Id::from_number(number))),
        Step::Event(entry) => Answer::Event(slot.event(entry)),
        Step::Show => Answer::Shown(slot.shown()),
    }
}

fn calls<S: SlotCalls>(
    rt: &impl Abort,
    alloc: Global,
    keys: &mut KeyTable,
    slot: &mut S,
    steps: &[(Step, Answer)],
) {
    let mut place = 0u64;
    for (step, wanted) in steps {
        if called(rt, alloc, keys, slot, *step) != *wanted {
            panic!(rt; "call {place} answers otherwise");
        }
        place = place.saturating_add(1);
    }
}

/// A new slot with this number, which answers these calls so, one after another.
pub(crate) fn played(
    rt: &impl Abort,
    alloc: Global,
    number: u8,
    steps: &[(Step, Answer)],
) -> Place {
    if number >= MAX_SLOTS {
        panic!(rt; "there is no slot {number}");
    }
    let mut keys = KeyTable::new(alloc);
    let mut slot = Place::new(alloc, number);
    calls(rt, alloc, &mut keys, &mut slot, steps);
    slot
}

/// The figures of a new queue.
pub(crate) const NEW: Figures = Figures {
    qbytes: MSGMNB,
    ctime: 10,
    ..NO_FIGURES
};

/// One message of five bytes is pending.
pub(crate) const FIVE: Figures = Figures {
    qnum: 1,
    cbytes: 5,
    stime: 30,
    lspid: 3,
    ..NEW
};

pub(crate) const REMOVED: Event = Event::Removed {
    seat: 2,
    moment: 20,
};

pub(crate) const MADE: Event = Event::Made {
    seat: 1,
    moment: 10,
    key: 7,
};

/// The slot shows this queue, with where its list begins and ends, and the queue begins.
pub(crate) fn live(number: u32, key: i32, list: [u64; 3], figures: Figures) -> Answer {
    let id = Id::from_number(number);
    let made = id.seq().saturating_add(1);
    let [first, events, offset] = list;
    Answer::Shown(Shown {
        first,
        events,
        offset,
        made,
        key,
        row: BoardRow {
            made,
            live: true,
            key,
            figures,
        },
        live: Some(Live { id, figures }),
    })
}

/// The slot shows no queue, but how many were made, and where its list begins and ends.
pub(crate) fn no_queue(made: u32, first: u64, events: u64) -> Answer {
    Answer::Shown(Shown {
        first,
        events,
        offset: events,
        made,
        key: 0,
        row: BoardRow {
            made,
            live: false,
            key: 0,
            figures: NO_FIGURES,
        },
        live: None,
    })
}

/// Entries are counted on from queue to queue, and the places of messages begin anew. Each refusal
/// is predicted.
#[test]
fn entries_continue_from_queue_to_queue(rt: HostRuntime) {
    let steps: [(Step, Answer); 18] = [
        (Step::Send(1, 5), Answer::Unasked),
        (Step::Make(9), Answer::Id(0)),
        (Step::Make(0), Answer::Unasked),
        (Step::Send(1, 5), Answer::At(1)),
        (Step::Send(1, 4), Answer::At(2)),
        (Step::Remove, Answer::Log(0, 4)),
        (Step::Receive(5), Answer::Unasked),
        (Step::Make(9), Answer::Id(64)),
        (Step::Receive(5), Answer::Refused(QueueError::NoMessage)),
        (Step::Send(1, 3), Answer::At(5)),
        (Step::Receive(2), Answer::Refused(QueueError::TooBig)),
        (Step::Receive(3), Answer::Got(6, 1, 3)),
        (Step::Set(4), Answer::At(7)),
        (
            Step::Send(0, 65_537),
            Answer::Refused(QueueError::TypeInvalid),
        ),
        (Step::Send(1, 65_537), Answer::Refused(QueueError::TooLong)),
        (Step::Send(1, 5), Answer::Refused(QueueError::Full)),
        (Step::Remove, Answer::Log(0, 5)),
        (Step::Remove, Answer::Unasked),
    ];
    close(played(&rt, rt.alloc(), 0, &steps));
}

/// Entries and places are counted on over drains. The base of a queue is returned with the events
/// after it, also where the queue was removed since; two drains return nothing twice.
#[test]
fn entries_and_places_continue_over_drains(rt: HostRuntime) {
    let steps: [(Step, Answer); 18] = [
        (Step::Cut, Answer::Cut(0, 0, None, 0, 0)),
        (Step::Cut, Answer::Cut(0, 0, None, 0, 0)),
        (Step::Show, no_queue(0, 0, 0)),
        (Step::Make(9), Answer::Id(0)),
        (Step::Send(1, 5), Answer::At(1)),
        (Step::Send(1, 4), Answer::At(2)),
        (Step::Cut, Answer::Cut(0, 0, None, 0, 3)),
        (Step::Receive(5), Answer::Got(3, 1, 5)),
        (Step::Cut, Answer::Cut(3, 1, Some(3), 0, 1)),
        (Step::Cut, Answer::Cut(4, 1, Some(4), 0, 0)),
        (Step::Send(1, 3), Answer::At(4)),
        (Step::Remove, Answer::Log(4, 6)),
        (Step::Cut, Answer::Cut(4, 1, Some(4), 2, 0)),
        (Step::Make(9), Answer::Id(64)),
        (Step::Send(1, 2), Answer::At(7)),
        (Step::Remove, Answer::Log(0, 3)),
        (Step::Make(0), Answer::Id(128)),
        (Step::Cut, Answer::Cut(6, 1, None, 3, 1)),
    ];
    close(played(&rt, rt.alloc(), 0, &steps));
}

/// What was drained is not read again, and the slot shows its queue as before.
#[test]
fn a_slot_that_is_drained_continues_as_before(rt: HostRuntime) {
    let steps: [(Step, Answer); 23] = [
        (Step::Make(9), Answer::Id(8)),
        (Step::Send(5, 5), Answer::At(1)),
        (Step::Cut, Answer::Cut(0, 0, None, 0, 2)),
        (Step::Cut, Answer::Cut(2, 1, Some(2), 0, 0)),
        (Step::Show, live(8, 9, [2, 2, 0], FIVE)),
        (Step::Event(0), Answer::Event(None)),
        (Step::Event(1), Answer::Event(None)),
        (Step::Event(2), Answer::Event(None)),
        (Step::Look(8), Answer::Looked(Some(Ok(())))),
        (Step::Send(6, 1), Answer::At(2)),
        (Step::Remove, Answer::Log(2, 4)),
        (Step::Show, no_queue(1, 2, 4)),
        (Step::Event(1), Answer::Event(None)),
        (Step::Event(3), Answer::Event(Some(REMOVED))),
        (Step::Cut, Answer::Cut(2, 1, Some(2), 2, 0)),
        (Step::Cut, Answer::Cut(4, 1, None, 0, 0)),
        (Step::Look(8), Answer::Looked(Some(Err(IdRefusal::Removed)))),
        (Step::Look(72), Answer::Looked(Some(Err(IdRefusal::Never)))),
        (Step::Make(7), Answer::Id(72)),
        (Step::Show, live(72, 7, [4, 5, 4], NEW)),
        (Step::Event(3), Answer::Event(None)),
        (Step::Event(4), Answer::Event(Some(MADE))),
        (Step::Event(5), Answer::Event(None)),
    ];
    close(played(&rt, rt.alloc(), 8, &steps));
}

#[test]
fn a_queue_made_after_a_cut_begins_its_own_log(rt: HostRuntime) {
    let steps: [(Step, Answer); 11] = [
        (Step::Make(9), Answer::Id(8)),
        (Step::Cut, Answer::Cut(0, 0, None, 0, 1)),
        (Step::Remove, Answer::Log(1, 2)),
        (Step::Make(7), Answer::Id(72)),
        (Step::Send(5, 5), Answer::At(3)),
        (Step::Show, live(72, 7, [1, 4, 2], FIVE)),
        (Step::Event(0), Answer::Event(None)),
        (Step::Event(1), Answer::Event(Some(REMOVED))),
        (Step::Event(2), Answer::Event(Some(MADE))),
        (Step::Cut, Answer::Cut(1, 1, Some(1), 1, 2)),
        (Step::Cut, Answer::Cut(4, 2, Some(2), 0, 0)),
    ];
    close(played(&rt, rt.alloc(), 8, &steps));
}
