//! A slot as its tests see it: its calls, each made once more where there was no memory, and
//! nothing of what it is made of.

use mq_message::{Body, Message, Selection, VecBody, discard};
use mq_queue::{BoardRow, Event, Figures, Log, NoNotice, QueueError, Received};
use mq_select::ListWaiting;
use mq_table::{Cut, Id, IdRefusal, KeyTable, MAX_SEQ, Slot, make_under, remove_under};
use std::alloc::{AllocError, Global};
use std::process::Abort;

pub(crate) type Place = Slot<VecBody, ListWaiting<VecBody>>;

/// What a slot shows, beside the events of its list.
#[derive(Clone, Copy, PartialEq)]
pub(crate) struct Shown {
    pub(crate) first: u64,
    pub(crate) events: u64,
    pub(crate) offset: u64,
    pub(crate) made: u32,
    pub(crate) key: i32,
    pub(crate) row: BoardRow,
    /// Of the queue that is there, if it is.
    pub(crate) live: Option<Live>,
}

/// What a slot shows of a queue that is there.
#[derive(Clone, Copy, PartialEq)]
pub(crate) struct Live {
    pub(crate) id: Id,
    pub(crate) figures: Figures,
}

#[derive(Clone, Copy, PartialEq)]
pub(crate) enum Answer {
    /// The number of an id.
    Id(u32),
    /// A place in the slot list.
    At(u64),
    /// The entry in the slot list, the place in the queue's log, and the length that is left.
    Got(u64, u64, u64),
    /// Where the removed queue's log begins and ends.
    Log(u64, u64),
    /// Where a drain begins, how many makings are before it, the places of its base, and how many
    /// entries it has of removed queues and of the queue that is there.
    Cut(u64, u32, Option<u64>, usize, usize),
    Looked(Option<Result<(), IdRefusal>>),
    Event(Option<Event>),
    Shown(Shown),
    Refused(QueueError),
    /// The call was not refused as the slot had predicted.
    Unforetold,
    /// The call cannot be made: there is a queue, or none, or no id is left, or the key is taken.
    Unasked,
}

/// What tests ask of a slot.
pub(crate) trait SlotCalls {
    fn shown(&self) -> Shown;

    fn event(&self, entry: u64) -> Option<Event>;

    /// `None` where the id is of another slot.
    fn look(&self, id: Id) -> Option<Result<(), IdRefusal>>;

    /// Makes a queue in a slot that is free by this last seq.
    fn make(&mut self, keys: &mut KeyTable, key: i32, last_seq: u32) -> Option<Id>;

    /// Removes the queue that is in the slot, by seat 2 at the moment 20.
    fn remove(&mut self, keys: &mut KeyTable) -> Option<Log>;

    fn send(&mut self, message: Message<VecBody>) -> Answer;

    fn receive(&mut self, size: u64) -> Answer;

    fn set(&mut self, qbytes: u64) -> Answer;

    /// Drains the slot's list, at the second try when out of memory: then nothing has changed.
    fn cut<R: Abort>(&mut self, rt: &R) -> Cut;
}

impl SlotCalls for Place {
    fn shown(&self) -> Shown {
        Shown {
            first: self.first(),
            events: self.events(),
            offset: self.offset(),
            made: self.made(),
            key: self.key(),
            row: self.row(),
            live: queue_of(self),
        }
    }

    fn event(&self, entry: u64) -> Option<Event> {
        self.event(entry)
    }

    fn look(&self, id: Id) -> Option<Result<(), IdRefusal>> {
        if id.slot() != self.number() {
            return None;
        }
        Some(self.look(id))
    }

    fn make(&mut self, keys: &mut KeyTable, key: i32, last_seq: u32) -> Option<Id> {
        // Where there is no memory, the second call is as the first one would have been.
        for _ in 0..2 {
            if last_seq > MAX_SEQ || !self.is_free(last_seq) || keys.look(key).is_some() {
                return None;
            }
            let (events, count) = (self.events(), keys.len());
            match make_under(keys, self, key, 1, 10, &mut NoNotice) {
                Ok(id) => return Some(id),
                Err(_) if self.is_live() || self.events() != events || keys.len() != count => {
                    return None;
                }
                Err(_) => (),
            }
        }
        None
    }

    fn remove(&mut self, keys: &mut KeyTable) -> Option<Log> {
        for _ in 0..2 {
            if !self.is_live() {
                return None;
            }
            let (events, count) = (self.events(), keys.len());
            match remove_under(keys, self, 2, 20, &mut NoNotice) {
                Ok((log, waiting)) => {
                    discard(waiting);
                    return Some(log);
                }
                Err(_) if self.events() != events || keys.len() != count => return None,
                Err(_) => (),
            }
        }
        None
    }

    fn send(&mut self, message: Message<VecBody>) -> Answer {
        if !self.is_live() {
            return Answer::Unasked;
        }
        let foretold = self.refuses_send(message.mtype, message.body.len());
        let answer = match self.send(message, 30, &mut NoNotice) {
            Err((QueueError::Memory, message)) if self.is_live() => self.send(
                message,
                30,
                &mut NoNotice,
            ),
            answer => answer,
        };
        match answer {
            Ok(entry) if foretold.is_none() => Answer::At(entry),
            Ok(_) => Answer::Unforetold,
            Err((refusal, _)) => refused(refusal, foretold),
        }
    }

    fn receive(&mut self, size: u64) -> Answer {
        if !self.is_live() {
            return Answer::Unasked;
        }
        let foretold = self.refuses_receive(size, Selection::Any, false);
        let answer = match self.receive(size, Selection::Any, false, 4, 40, &mut NoNotice) {
            Err(QueueError::Memory) if self.is_live() => {
                self.receive(size, Selection::Any, false, 4, 40, &mut NoNotice)
            }
            answer => answer,
        };
        match answer {
            Ok(received) => got(received, foretold),
            Err(refusal) => refused(refusal, foretold),
        }
    }

    fn set(&mut self, qbytes: u64) -> Answer {
        if !self.is_live() {
            return Answer::Unasked;
        }
        let answer = match self.set(qbytes, 5, 50, &mut NoNotice) {
            Err(QueueError::Memory) if self.is_live() => self.set(qbytes, 5, 50, &mut NoNotice),
            answer => answer,
        };
        match answer {
            Ok(entry) => Answer::At(entry),
            Err(refusal) => Answer::Refused(refusal),
        }
    }

    fn cut<R: Abort>(&mut self, rt: &R) -> Cut {
        let before = self.shown();
        if let Ok(cut) = self.cut() {
            return cut;
        }
        if self.shown() != before {
            panic!(rt; "a refused cut changes the slot");
        }
        match self.cut() {
            Ok(cut) => cut,
            Err(AllocError) => panic!(rt; "out of memory"),
        }
    }
}

fn queue_of(slot: &Place) -> Option<Live> {
    if !slot.is_live() {
        return None;
    }
    Some(Live {
        id: slot.last_id(),
        figures: slot.figures(),
    })
}

/// The refusal of a call, which the slot had to predict.
fn refused(refusal: QueueError, foretold: Option<QueueError>) -> Answer {
    if foretold == Some(refusal) {
        Answer::Refused(refusal)
    } else {
        Answer::Unforetold
    }
}

/// What was received, whose receipt the slot had to predict.
fn got(received: Received<VecBody>, foretold: Option<QueueError>) -> Answer {
    if foretold.is_some() {
        return Answer::Unforetold;
    }
    Answer::Got(received.entry, received.place, received.body.len())
}

fn letters(alloc: Global, length: usize) -> Result<Vec<u8>, AllocError> {
    vec![in alloc; b'a'; length]
}

/// A message of this type and length.
pub(crate) fn message(
    rt: &impl Abort,
    alloc: Global,
    mtype: i64,
    length: usize,
) -> Message<VecBody> {
    let bytes = match letters(alloc, length) {
        Ok(bytes) => bytes,
        Err(AllocError) => match letters(alloc, length) {
            Ok(bytes) => bytes,
            Err(AllocError) => panic!(rt; "out of memory"),
        },
    };
    Message {
        mtype,
        sender: 3,
        tag: 70,
        body: VecBody::from_vec(bytes),
    }
}

pub(crate) fn close(slot: Place) {
    let (_, live) = slot.into_parts();
    if let Some(queue) = live {
        let (_, waiting) = queue.into_parts();
        discard(waiting);
    }
}
