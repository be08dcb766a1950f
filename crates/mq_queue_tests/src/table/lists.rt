//! Keys in the order of making, and the events that a slot returns.

use crate::holds;
use crate::table::keys::{has, lacks};
use crate::table::plays::{FIVE, MADE, NEW, REMOVED, Step, live, no_queue, played};
use crate::table::slot_calls::{Answer, Place, SlotCalls, close};
use mq_message::discard;
use mq_table::{Cut, Id, KeyTable};
use std::process::Abort;

/// Makes a queue in the slot under this key. It gets this id, the last that the slot may give.
fn makes<S: SlotCalls>(rt: &impl Abort, keys: &mut KeyTable, slot: &mut S, key: i32, id: Id) {
    let made = slot.make(keys, key, id.seq());
    holds(rt, made == Some(id), "the making of another id");
}

/// Removes the queue that is in the slot.
fn removes<S: SlotCalls>(rt: &impl Abort, keys: &mut KeyTable, slot: &mut S) {
    holds(rt, slot.remove(keys).is_some(), "not removed");
}

/// The private queue and the second one are removed, and the second one's key is used again.
fn forgets_one<S: SlotCalls>(
    rt: &impl Abort,
    keys: &mut KeyTable,
    second: &mut S,
    private: &mut S,
) {
    // A queue without a key takes none with it.
    removes(rt, keys, private);
    holds(rt, keys.len() == 3, "other keys than three");
    removes(rt, keys, second);
    lacks(rt, keys, -1);
    has(rt, keys, 0, i32::MIN, Id::of(0, 0));
    has(rt, keys, 1, 5, Id::of(2, 0));
    // The same key is last again, with the slot's next id.
    makes(rt, keys, second, -1, Id::of(1, 1));
    has(rt, keys, 2, -1, Id::of(1, 1));
}

#[test]
fn removal_forgets_that_key_and_the_others_keep_their_order(rt: HostRuntime) {
    let alloc = rt.alloc();
    let mut keys = KeyTable::new(alloc);
    let mut first = Place::new(alloc, 0);
    let mut second = Place::new(alloc, 1);
    let mut third = Place::new(alloc, 2);
    let mut private = Place::new(alloc, 3);
    makes(&rt, &mut keys, &mut second, -1, Id::of(1, 0));
    makes(&rt, &mut keys, &mut private, 0, Id::of(3, 0));
    makes(&rt, &mut keys, &mut first, i32::MIN, Id::of(0, 0));
    makes(&rt, &mut keys, &mut third, 5, Id::of(2, 0));
    holds(&rt, keys.len() == 3, "other keys than three");
    forgets_one(&rt, &mut keys, &mut second, &mut private);
    close(first);
    close(second);
    close(third);
    close(private);
}

/// The slot is taken apart into the three events of its first queue, and the making of its second.
fn has_parts(rt: &impl Abort, slot: Place) {
    let (cut, live) = slot.into_parts();
    holds(rt, cut.past.len() == 3, "other events than three");
    holds(rt, cut.past.get(2) == Some(&REMOVED), "no removal");
    match live {
        Some(queue) => {
            let (log, waiting) = queue.into_parts();
            discard(waiting);
            holds(rt, log.get(0) == Some(MADE), "no making");
        }
        None => panic!(rt; "no second queue"),
    }
}

#[test]
fn a_slot_shows_the_queue_that_is_in_it(rt: HostRuntime) {
    let steps: [(Step, Answer); 12] = [
        (Step::Show, no_queue(0, 0, 0)),
        (Step::Make(9), Answer::Id(8)),
        (Step::Send(1, 5), Answer::At(1)),
        (Step::Show, live(8, 9, [0, 2, 0], FIVE)),
        (Step::Remove, Answer::Log(0, 3)),
        (Step::Show, no_queue(1, 0, 3)),
        (Step::Make(7), Answer::Id(72)),
        (Step::Event(2), Answer::Event(Some(REMOVED))),
        (Step::Event(3), Answer::Event(Some(MADE))),
        (Step::Event(4), Answer::Event(None)),
        (Step::Event(u64::MAX), Answer::Event(None)),
        (Step::Show, live(72, 7, [0, 4, 3], NEW)),
    ];
    has_parts(&rt, played(&rt, rt.alloc(), 8, &steps));
}

/// The drain has the removal of a queue whose first two events were drained before, when one
/// message of five bytes was pending in it.
fn has_rest(rt: &impl Abort, cut: &Cut) {
    holds(rt, cut.past.len() == 1, "other events than one");
    let removed = cut.past.first() == Some(&REMOVED);
    holds(rt, removed, "no removal");
    let Some(base) = &cut.base else {
        panic!(rt; "no base is handed out");
    };
    holds(rt, base.places == 2, "other events than two before");
    holds(rt, base.figures == FIVE, "other figures before");
    holds(rt, base.waiting.len() == 1, "other messages before");
    match base.waiting.get(0) {
        Some(message) => holds(rt, message.place == 1, "another message"),
        None => panic!(rt; "nothing waits"),
    }
}

/// What was known of a removed queue's first events is returned with the others.
#[test]
fn what_a_drain_left_of_a_removed_queue_is_returned(rt: HostRuntime) {
    let steps: [(Step, Answer); 4] = [
        (Step::Make(9), Answer::Id(8)),
        (Step::Send(1, 5), Answer::At(1)),
        (Step::Cut, Answer::Cut(0, 0, None, 0, 2)),
        (Step::Remove, Answer::Log(2, 3)),
    ];
    let mut slot = played(&rt, rt.alloc(), 8, &steps);
    has_rest(&rt, &SlotCalls::cut(&mut slot, &rt));
    close(slot);
}
