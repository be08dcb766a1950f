//! What a seat keeps of each of its calls.

use mq::{Base, BoardRow, Cut, Errno, Event, Figures, GetFlags, MSGMAX, Selection};
use std::alloc::{AllocError, Global};

/// How many slots there are.
pub(crate) const SLOTS: usize = 3;

/// A letter of a call that sends several.
#[derive(Clone, Copy, Debug)]
pub(crate) struct KeptLetter {
    pub(crate) mtype: i64,
    pub(crate) tag: u64,
    pub(crate) length: u64,
}

/// How long a call of several texts waits.
#[derive(Clone, Copy, Debug)]
pub(crate) enum HowLong {
    Forever,
    NoWait,
    /// So many microseconds.
    Within(u64),
}

/// What a call asks for. An id is its number, and a text is given by its length and its tag.
#[derive(Debug, Drop)]
pub(crate) enum Asked {
    Get {
        key: i32,
        flags: GetFlags,
    },
    Send {
        id: u32,
        mtype: i64,
        tag: u64,
        length: u64,
        nowait: bool,
    },
    Receive {
        id: u32,
        size: u64,
        msgtyp: i64,
        except: bool,
        noerror: bool,
        nowait: bool,
    },
    SendTexts {
        id: u32,
        how_long: HowLong,
        letters: Vec<KeptLetter>,
    },
    ReceiveTexts {
        id: u32,
        selection: Selection,
        size: u64,
        noerror: bool,
        most: usize,
        how_long: HowLong,
    },
    Set {
        id: u32,
        qbytes: u64,
    },
    Remove {
        id: u32,
    },
    Stat {
        id: u32,
    },
    Cut {
        slot: u8,
    },
    Report,
}

/// A message as its receiver got it.
#[derive(Clone, Copy, Debug)]
pub(crate) struct Handed {
    pub(crate) entry: u64,
    pub(crate) mtype: i64,
    pub(crate) sender: u16,
    pub(crate) tag: u64,
    /// How many bytes were sent.
    pub(crate) length: u64,
    /// How many bytes were received.
    pub(crate) came: u64,
    /// Whether each of them is the one that the tag says.
    pub(crate) as_sent: bool,
}

/// Why a call of several texts did no more.
#[derive(Clone, Copy, Debug)]
pub(crate) enum BatchEnd {
    /// It did as many as it was asked for, or as one call does.
    All,
    /// Why the next one was refused, and after how many entries, where that is known.
    Refused(Errno, Option<u64>),
}

/// What a call was answered.
#[derive(Debug, Drop)]
pub(crate) enum Answer {
    /// The id, and the entry of a making.
    Got(u32, Option<u64>),
    /// The entry of a sending or of a new quota.
    Done(u64),
    Handed(Handed),
    /// The entry of the first letter that was sent, and the letters that were returned.
    SentTexts(Option<u64>, Vec<KeptLetter>, BatchEnd),
    HandedTexts(Vec<Handed>, BatchEnd),
    /// The entry of a removal.
    Removed(u64),
    Shown(Figures),
    Rows([BoardRow; SLOTS]),
    /// How many entries the slot had when it was drained.
    Cut(u64),
    /// Why, and after how many entries, where that is known.
    Refused(Errno, Option<u64>),
}

#[derive(Debug, Drop)]
pub(crate) struct Call {
    pub(crate) moment: u64,
    pub(crate) asked: Asked,
    pub(crate) answer: Answer,
}

/// The log of a queue that was removed: the checkpoint of what was drained, and the rest.
#[derive(Drop)]
pub(crate) struct KeptLog {
    pub(crate) base: Base,
    pub(crate) tail: Vec<Event>,
}

#[derive(Drop)]
pub(crate) struct KeptCut {
    pub(crate) slot: u8,
    pub(crate) cut: Cut,
}

/// All calls of a seat in its order.
#[derive(Drop)]
pub(crate) struct Kept {
    pub(crate) calls: Vec<Call>,
    /// The logs of the queues that it removed.
    pub(crate) logs: Vec<KeptLog>,
    /// What was returned when it drained a slot.
    pub(crate) cuts: Vec<KeptCut>,
    /// Where the bytes of a text stand before it is drafted.
    pub(crate) text: Vec<u8>,
}

/// What a seat reports at the end.
#[derive(Drop)]
pub(crate) struct Told {
    pub(crate) seat: u16,
    pub(crate) kept: Kept,
    /// How many changes the seat counted in each slot.
    pub(crate) counts: [u64; SLOTS],
}

impl Kept {
    /// Room for so many calls, and for the greatest text.
    pub(crate) fn with_capacity(alloc: Global, count: usize) -> Result<Kept, AllocError> {
        let calls = Vec::with_capacity(alloc, count)?;
        let logs = Vec::with_capacity(alloc, count)?;
        let cuts = Vec::with_capacity(alloc, count)?;
        let text = vec![in alloc; 0; MSGMAX as usize]?;
        Ok(Kept {
            calls,
            logs,
            cuts,
            text,
        })
    }

    /// Keeps a call with its answer.
    pub(crate) fn add(&mut self, moment: u64, asked: Asked, answer: Answer) {
        let _ = self.calls.push(Call {
            moment,
            asked,
            answer,
        });
    }
}

/// The byte at this position of a text with this tag.
pub(crate) fn byte_of(tag: u64, position: u64) -> u8 {
    let sum = tag.wrapping_mul(31).wrapping_add(position.wrapping_mul(7));
    (sum % 251) as u8
}
