//! A notice observes each event of a slot with the figures after it, or the call is refused and
//! leaves slot and keys unchanged.

use crate::holds;
use crate::table::slot_calls::{Place, close, message};
use mq_message::{Message, Selection, VecBody, discard};
use mq_queue::{Event, Figures, NO_FIGURES, Notice, QueueError};
use mq_table::{KeyTable, MAX_SEQ, make_under, remove_under};
use std::alloc::AllocError;
use std::process::Abort;

/// A notice that keeps the last event that it observed, or refuses each event.
#[derive(Clone, Copy)]
struct Last {
    event: Option<Event>,
    after: Figures,
    refuses: bool,
}

impl Notice for Last {
    ghost use Rattle.std.specs.Prelude.{◌≡◌, Some};

    ghost takes = { λ old event after new.
        new ≡ record old { event = Some event; after = after } };

    fn prepare(&mut self, event: Event, after: Figures) -> Result<(), AllocError> {
        if self.refuses {
            return Err(AllocError);
        }
        self.event = Some(event);
        self.after = after;
        Ok(())
    }
}

const TAKES: Last = Last {
    event: None,
    after: NO_FIGURES,
    refuses: false,
};

/// The calls of a slot, each with a notice. The preconditions of a call are checked when it is
/// made, and end the test where they do not hold.
trait Noticed {
    /// Makes a queue with key 9 in a slot that must be free.
    fn make<R: Abort>(
        &mut self,
        rt: &R,
        keys: &mut KeyTable,
        notice: &mut Last,
    ) -> Result<(), QueueError>;

    /// Removes the queue that is in the slot.
    fn remove<R: Abort>(
        &mut self,
        rt: &R,
        keys: &mut KeyTable,
        notice: &mut Last,
    ) -> Result<(), QueueError>;

    fn send<R: Abort>(
        &mut self,
        rt: &R,
        text: Message<VecBody>,
        notice: &mut Last,
    ) -> Result<(), QueueError>;

    /// Receives the pending message, truncated to one byte.
    fn receive<R: Abort>(&mut self, rt: &R, notice: &mut Last) -> Result<(), QueueError>;

    fn set<R: Abort>(&mut self, rt: &R, notice: &mut Last) -> Result<(), QueueError>;

    fn events(&self) -> u64;

    fn is_live(&self) -> bool;

    /// The last event of the slot's list.
    fn last(&self) -> Option<Event>;

    /// The figures that the slot shows.
    fn figures(&self) -> Figures;
}

impl Noticed for Place {
    fn make<R: Abort>(
        &mut self,
        rt: &R,
        keys: &mut KeyTable,
        notice: &mut Last,
    ) -> Result<(), QueueError> {
        if !self.is_free(MAX_SEQ) || keys.look(9).is_some() {
            panic!(rt; "the slot or the key is not free");
        }
        match make_under(keys, self, 9, 1, 10, notice) {
            Ok(_) => Ok(()),
            Err(AllocError) => Err(QueueError::Memory),
        }
    }

    fn remove<R: Abort>(
        &mut self,
        rt: &R,
        keys: &mut KeyTable,
        notice: &mut Last,
    ) -> Result<(), QueueError> {
        if !self.is_live() {
            panic!(rt; "no queue is removed");
        }
        match remove_under(keys, self, 2, 20, notice) {
            Ok((_log, waiting)) => {
                discard(waiting);
                Ok(())
            }
            Err(AllocError) => Err(QueueError::Memory),
        }
    }

    fn send<R: Abort>(
        &mut self,
        rt: &R,
        text: Message<VecBody>,
        notice: &mut Last,
    ) -> Result<(), QueueError> {
        if !self.is_live() {
            panic!(rt; "no queue is sent to");
        }
        match self.send(text, 30, notice) {
            Ok(_) => Ok(()),
            Err((refusal, _)) => Err(refusal),
        }
    }

    fn receive<R: Abort>(&mut self, rt: &R, notice: &mut Last) -> Result<(), QueueError> {
        if !self.is_live() {
            panic!(rt; "no queue is received from");
        }
        match self.receive(1, Selection::Any, true, 4, 40, notice) {
            Ok(_) => Ok(()),
            Err(refusal) => Err(refusal),
        }
    }

    fn set<R: Abort>(&mut self, rt: &R, notice: &mut Last) -> Result<(), QueueError> {
        if !self.is_live() {
            panic!(rt; "no queue has a quota");
        }
        match self.set(100, 5, 50, notice) {
            Ok(_) => Ok(()),
            Err(refusal) => Err(refusal),
        }
    }

    fn events(&self) -> u64 {
        self.events()
    }

    fn is_live(&self) -> bool {
        self.is_live()
    }

    fn last(&self) -> Option<Event> {
        self.event(self.events().saturating_sub(1))
    }

    fn figures(&self) -> Figures {
        self.row().figures
    }
}

/// The notice observed this event, with these figures.
fn takes(rt: &impl Abort, notice: Last, last: Option<Event>, figures: Figures) {
    holds(rt, notice.event.is_some(), "no event is taken in");
    holds(rt, notice.event == last, "another event is taken in");
    holds(rt, notice.after == figures, "other figures are taken in");
}

/// The call is done, and the notice observed the last event of the slot list, with the figures that
/// the slot shows.
fn is_told<S: Noticed>(rt: &impl Abort, done: Result<(), QueueError>, slot: &S, notice: Last) {
    match done {
        Ok(()) => takes(rt, notice, slot.last(), slot.figures()),
        Err(refusal) => panic!(rt; "{refusal}"),
    }
}

/// A send, a receipt and a new quota.
fn tells_each<S: Noticed>(
    rt: &impl Abort,
    slot: &mut S,
    text: Message<VecBody>,
    notice: &mut Last,
) {
    let sent = slot.send(rt, text, notice);
    is_told(rt, sent, slot, *notice);
    let received = slot.receive(rt, notice);
    is_told(rt, received, slot, *notice);
    let changed = slot.set(rt, notice);
    is_told(rt, changed, slot, *notice);
}

/// The notice observes all that happens to two queues of the slot, one after the other.
fn tells_all<S: Noticed>(
    rt: &impl Abort,
    keys: &mut KeyTable,
    slot: &mut S,
    text: Message<VecBody>,
) {
    let mut notice = TAKES;
    let made = slot.make(rt, keys, &mut notice);
    is_told(rt, made, slot, notice);
    tells_each(rt, slot, text, &mut notice);
    let removed = slot.remove(rt, keys, &mut notice);
    is_told(rt, removed, slot, notice);
    let again = slot.make(rt, keys, &mut notice);
    is_told(rt, again, slot, notice);
    holds(rt, notice.after.qbytes == 131_072, "another quota");
}

#[test]
fn each_event_of_a_slot_is_noticed_with_its_figures(rt: HostRuntime) {
    let text = message(&rt, rt.alloc(), 5, 3);
    let mut keys = KeyTable::new(rt.alloc());
    let mut slot = Place::new(rt.alloc(), 8);
    tells_all(&rt, &mut keys, &mut slot, text);
    close(slot);
}

/// So many keys are there, and as many entries of the slot: there is a queue, or none.
fn has<S: Noticed>(rt: &impl Abort, keys: &KeyTable, slot: &S, count: u64) {
    holds(rt, keys.len() as u64 == count, "other keys");
    holds(rt, slot.events() == count, "other entries");
    holds(rt, slot.is_live() == (count > 0), "another queue");
}

/// Where the notice refuses, the making and the removal leave slot and keys unchanged.
fn refuses_each<S: Noticed>(rt: &impl Abort, keys: &mut KeyTable, slot: &mut S) {
    let mut takes = TAKES;
    let mut refuses = Last {
        refuses: true,
        ..TAKES
    };
    let unmade = slot.make(rt, keys, &mut refuses).is_err();
    holds(rt, unmade, "made without a notice");
    has(rt, keys, slot, 0);
    let made = slot.make(rt, keys, &mut takes).is_ok();
    holds(rt, made, "out of memory");
    let kept = slot.remove(rt, keys, &mut refuses).is_err();
    holds(rt, kept, "removed without a notice");
    has(rt, keys, slot, 1);
    holds(rt, keys.look(9).is_some(), "another key");
    holds(rt, refuses.event.is_none(), "an event is taken in");
}

#[test]
fn a_notice_that_refuses_leaves_slot_and_keys(rt: HostRuntime) {
    let mut keys = KeyTable::new(rt.alloc());
    let mut slot = Place::new(rt.alloc(), 8);
    refuses_each(&rt, &mut keys, &mut slot);
    close(slot);
}
