//! The calls of a slot under its lock. Seat 1 makes, sends, sets and removes, and seat 2 receives.
ghost use Rattle.std.specs.Prelude.{◌≡◌, ◌<◌, ◌≤◌};
ghost use Rattle.mq_system.specs.Seat.{front_of};

use crate::calls::{is, is_first, is_second};
use crate::day::Anything;
use crate::granted::{is_made, text_of};
use crate::holds;
use crate::parts::{emptied, figures_of, not_shown};
use mq_calls::{Errno, Removal};
use mq_message::Selection;
use mq_queue::{BoardRow, Figures};
use mq_system::{Keys, Letter, Names, ReceiveRequest, Seat, SharedSlot, TextOf};
use mq_table::{Cut, Id, MAX_SEQ};
use std::process::Abort;
use std::sync::Wait;

/// A drain, retried once where it is refused.
fn cut_once<N: Names>(rt: &impl Abort, slot: &mut SharedSlot<Anything, N>) -> Cut
    ensures number { slot.new.whole.number ≡ slot.old.whole.number }
{
    match slot.cut() {
        Ok(cut) => cut,
        Err(_) => match slot.cut() {
            Ok(cut) => cut,
            Err(refused) => panic!(rt; "a cut is refused twice: {refused}"),
        },
    }
}

/// There is a slot of number 0.
fn has_slot<N: Names>(slot: &SharedSlot<Anything, N>)
    requires number { slot.now.whole.number ≡ 0 }
    ensures slots { 0 < N.slots }
{
    slot.holds();
}

/// The seat learns all that happened in the slot, as it does once it has the slot's lock.
pub(crate) fn entered<N: Names>(
    rt: &impl Abort,
    slot: &mut SharedSlot<Anything, N>,
    seat: &mut Seat<N>,
)
    requires number { slot.old.whole.number ≡ 0 }
    ensures known { front_of seat.new slot.old.whole.number ≡ slot.old.whole.events }
    ensures same { slot.new ≡ slot.old }
{
    has_slot(slot);
    if !slot.enter(seat, 0) {
        panic!(rt; "a slot of another number");
    }
}

/// No queue was made yet, whichever seat asks.
pub(crate) fn nothing_shown<N: Names>(
    rt: &impl Abort,
    slot: &SharedSlot<Anything, N>,
    seat: &mut Seat<N>,
)
    requires number { slot.now.whole.number ≡ 0 }
{
    has_slot(slot);
    not_shown(rt, seat, Errno::EINVAL);
    holds(rt, seat.row(0).made == 0, "its row");
}

/// A queue is made in a new slot, under key 5.
pub(crate) fn made<N: Names, R: Abort + Wait>(
    rt: &R,
    slot: &mut SharedSlot<Anything, N>,
    keys: &mut Keys<N>,
    seat: &mut Seat<N>,
    last_seq: u32,
)
    requires last_seq { last_seq ≡ N.last_seq }
    requires bounded { N.last_seq ≤ MAX_SEQ }
    requires number { slot.old.whole.number ≡ 0 }
    ensures number { slot.new.whole.number ≡ 0 }
{
    entered(rt, slot, seat);
    keys.holds();
    is_new(rt, slot);
    if !slot.is_free(last_seq) || keys.look(5).is_some() {
        panic!(rt; "a new slot is not free");
    }
    match slot.make(rt, keys, seat, 5, 4) {
        Ok(got) => is_made(rt, got, 0, 0),
        Err(_) => panic!(rt; "out of memory"),
    }
    holds(rt, !slot.is_free(last_seq), "a queue is there");
    has_its_key(rt, slot, keys);
}

/// It is slot 0, in which no queue has key 5.
fn is_new<N: Names>(rt: &impl Abort, slot: &SharedSlot<Anything, N>) {
    holds(rt, slot.is_number(0) && !slot.is_number(1), "its number");
    holds(rt, slot.with_key(5).is_none(), "no queue has the key");
}

/// The queue is found by key 5 alone, in its slot and among the keys.
fn has_its_key<N: Names>(rt: &impl Abort, slot: &SharedSlot<Anything, N>, keys: &Keys<N>) {
    holds(rt, slot.with_key(5).is_some(), "it has its key");
    holds(rt, keys.look(5).is_some(), "its key is known");
    holds(rt, slot.with_key(6).is_none(), "it has no other key");
    holds(rt, keys.look(6).is_none(), "no other key is known");
}

/// A text is sent, and the seat knows of it.
pub(crate) fn sent<N: Names, R: Abort + Wait>(
    rt: &R,
    slot: &mut SharedSlot<Anything, N>,
    seat: &mut Seat<N>,
    text: TextOf<N>,
)
    requires number { slot.old.whole.number ≡ 0 }
    ensures number { slot.new.whole.number ≡ 0 }
{
    entered(rt, slot, seat);
    let letter = Letter {
        mtype: 1,
        tag: 7,
        text,
    };
    match slot.send(rt, seat, Id::of(0, 0), letter, 5) {
        Ok(entry) => holds(rt, entry == 1, "it is sent by entry 1"),
        Err(_refused) => panic!(rt; "out of memory"),
    }
    has_slot(slot);
    let figures = figures_of(rt, seat);
    holds(rt, figures.qnum == 1 && figures.cbytes == 2, "it waits");
}

/// A drain while the text is pending returns the making and the sending, and a second one nothing.
pub(crate) fn cut<N: Names>(rt: &impl Abort, slot: &mut SharedSlot<Anything, N>)
    requires number { slot.old.whole.number ≡ 0 }
    ensures number { slot.new.whole.number ≡ 0 }
{
    let cut = cut_once(rt, slot);
    is_first(rt, &cut);
    holds(rt, cut.last.len() == 2, "what happened in it");
    let cut = cut_once(rt, slot);
    is_second(rt, &cut, 2);
}

/// What the other seat is shown before it enters is no more than what it knows then.
pub(crate) fn shown<N: Names>(
    rt: &impl Abort,
    slot: &mut SharedSlot<Anything, N>,
    seat: &mut Seat<N>,
)
    requires number { slot.old.whole.number ≡ 0 }
    ensures same { slot.new ≡ slot.old }
{
    has_slot(slot);
    let before = seat.row(0);
    entered(rt, slot, seat);
    let after = seat.row(0);
    let figures = figures_of(rt, seat);
    is_row(rt, after, figures);
    holds(
        rt,
        before.made <= 1 && before.figures.qnum <= 1,
        "no more than there is",
    );
}

/// It is the row of the queue with key 5, in which one message is pending.
fn is_row(rt: &impl Abort, row: BoardRow, figures: Figures) {
    holds(
        rt,
        row.live && row.made == 1 && row.key == 5,
        "the queue's row",
    );
    holds(rt, figures == row.figures, "the row's figures");
    holds(rt, figures.qnum == 1, "what waits");
}

pub(crate) fn received<N: Names, R: Abort + Wait>(
    rt: &R,
    slot: &mut SharedSlot<Anything, N>,
    seat: &mut Seat<N>,
) -> TextOf<N>
    requires number { slot.old.whole.number ≡ 0 }
    ensures number { slot.new.whole.number ≡ 0 }
{
    entered(rt, slot, seat);
    let request = ReceiveRequest {
        id: Id::of(0, 0),
        size: 2,
        selection: Selection::Any,
        noerror: false,
        moment: 6,
    };
    match slot.receive(rt, seat, &request) {
        Ok(delivered) => {
            let text = text_of(rt, delivered, 2, 1, 2);
            is_hi(rt, &text);
            text
        }
        Err(_) => panic!(rt; "out of memory"),
    }
}

/// The text is the one that was sent.
fn is_hi<N: Names>(rt: &impl Abort, text: &TextOf<N>) {
    let is_page = text.count() == 1;
    holds(rt, is_page && text.part(0) == b"hi".as_slice(), "its text");
}

/// A quota over the limit is refused, and one of nothing is set.
pub(crate) fn changed<N: Names, R: Abort + Wait>(
    rt: &R,
    slot: &mut SharedSlot<Anything, N>,
    seat: &mut Seat<N>,
)
    requires number { slot.old.whole.number ≡ 0 }
    ensures number { slot.new.whole.number ≡ 0 }
{
    entered(rt, slot, seat);
    match slot.set(rt, seat, Id::of(0, 0), 131_073, 7) {
        Ok(_) => panic!(rt; "a quota over the limit was set"),
        Err(refused) => is(rt, refused, Errno::EPERM, Some(3)),
    }
    entered(rt, slot, seat);
    match slot.set(rt, seat, Id::of(0, 0), 0, 7) {
        Ok(entry) => holds(rt, entry == 3, "it is set by entry 3"),
        Err(_) => panic!(rt; "out of memory"),
    }
}

/// The queue is removed with nothing in it.
pub(crate) fn removed<N: Names, R: Abort + Wait>(
    rt: &R,
    slot: &mut SharedSlot<Anything, N>,
    keys: &mut Keys<N>,
    seat: &mut Seat<N>,
)
    requires number { slot.old.whole.number ≡ 0 }
    ensures number { slot.new.whole.number ≡ 0 }
{
    entered(rt, slot, seat);
    match slot.remove(rt, keys, seat, Id::of(0, 0), 8) {
        Ok((Removal { entry, log }, waiting)) => {
            holds(rt, entry == 4 && log.len() == 5, "it is removed by entry 4");
            emptied(rt, waiting);
        }
        Err(_) => panic!(rt; "out of memory"),
    }
    is_gone(rt, slot, keys);
    keys.forget_key(5);
}

/// A removed queue is in no slot, and its key is forgotten.
fn is_gone<N: Names>(rt: &impl Abort, slot: &SharedSlot<Anything, N>, keys: &Keys<N>)
    requires number { slot.now.whole.number ≡ 0 }
{
    holds(rt, keys.look(5).is_none(), "its key is forgotten");
    match slot.look(Id::of(0, 0)) {
        Ok(()) => panic!(rt; "a removed queue is there"),
        Err(refused) => holds(
            rt,
            refused.errno == Errno::EIDRM,
            "EIDRM of a removed queue",
        ),
    }
}
