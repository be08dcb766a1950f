//! Several messages by one call, of the first queue in slot 0, and the results as a test compares
//! them. Seat 1 sends, and seat 2 receives. A call that was out of memory is retried: what it did
//! before stays done.

use crate::calls::{Wanted, seat};
use crate::system::Calls;
use crate::{granted, holds};
use mq_system::{
    BatchSent, Delivered, Errno, Letter, MAX_BATCH, NoWait, Patience, Refused, SendFlags,
};
use mq_table::Id;
use std::alloc::Global;
use std::collections::VecDeque;
use std::process::Abort;
use std::sync::Wait;

/// Any message, of up to nine bytes.
pub(crate) const ANY: Wanted = Wanted {
    size: 9,
    msgtyp: 0,
    except: false,
    noerror: false,
    nowait: false,
};

pub(crate) const WAITS: SendFlags = SendFlags { nowait: false };

/// How a sending ends at a type below 1.
pub(crate) const UNTYPED: Result<(), Refused> = Err(Refused {
    errno: Errno::EINVAL,
    entry: None,
});

/// How a call ends that is refused for this, after so many entries.
pub(crate) fn ends(errno: Errno, entries: u64) -> Result<(), Refused> {
    Err(Refused {
        errno,
        entry: Some(entries),
    })
}

pub(crate) fn found_no_memory(ended: Result<(), Refused>) -> bool {
    matches!(ended, Err(refused) if refused.errno == Errno::ENOMEM)
}

/// Letters of these types, each with this text, whose tags count from 1.
pub(crate) fn letters<S: Calls, R: Abort + Wait>(
    rt: &R,
    alloc: Global,
    system: &S,
    bytes: &[u8],
    types: &[i64],
) -> VecDeque<Letter<S::Text>> {
    let mut letters = VecDeque::new(alloc);
    let mut tag = 0u64;
    for mtype in types {
        tag = tag.saturating_add(1);
        let mtype = *mtype;
        let text = granted::drafted(rt, system, bytes);
        match letters.push_back(Letter { mtype, tag, text }) {
            Ok(()) => (),
            Err(_unsent) => panic!(rt; "out of memory"),
        }
    }
    letters
}

/// What became of letters to the first queue in slot 0.
fn send<S: Calls, R: Wait, T: Patience>(
    rt: &R,
    system: &S,
    seat: &mut S::Seat,
    letters: &mut VecDeque<Letter<S::Text>>,
    flags: SendFlags,
    patience: &mut T,
) -> BatchSent {
    let id = Id::from_number(0);
    let sent = system.msgsnd_many(rt, seat, id, letters, flags, patience, 5);
    if !found_no_memory(sent.ended) {
        return sent;
    }
    let BatchSent { first, ended } = system.msgsnd_many(rt, seat, id, letters, flags, patience, 5);
    BatchSent {
        first: sent.first.or(first),
        ended,
    }
}

/// So many letters are left, the first of which has this tag, and all are spent.
pub(crate) fn is_left<S: Calls, R: Abort + Wait>(
    rt: &R,
    system: &S,
    letters: VecDeque<Letter<S::Text>>,
    bytes: &[u8],
    tag: u64,
    count: usize,
) {
    holds(rt, letters.len() == count, "as many letters are left");
    let mut letters = letters;
    let mut next = tag;
    while let Some(letter) = letters.pop_front() {
        let Letter { tag, text, .. } = letter;
        holds(rt, tag == next, "they are left in order");
        holds(rt, system.shows(&text, bytes), "each has its text");
        system.spend(rt, text);
        next = next.saturating_add(1);
    }
    letters.destroy_empty();
}

/// Letters that a call is to send, and what becomes of them.
#[derive(Clone, Copy)]
pub(crate) struct Sending<'a> {
    pub(crate) bytes: &'a [u8],
    pub(crate) types: &'a [i64],
    pub(crate) first: Option<u64>,
    pub(crate) ended: Result<(), Refused>,
    /// How many are left.
    pub(crate) left: usize,
    pub(crate) flags: SendFlags,
}

/// Seat 1 sends letters, and waits for nothing.
pub(crate) fn sends<S: Calls, R: Abort + Wait>(
    rt: &R,
    alloc: Global,
    system: &S,
    seats: &mut [S::Seat],
    sending: Sending<'_>,
) {
    let seat = seat(rt, seats, 0);
    sends_within(rt, alloc, system, seat, sending, &mut NoWait);
}

pub(crate) fn sends_within<S: Calls, R: Abort + Wait, T: Patience>(
    rt: &R,
    alloc: Global,
    system: &S,
    seat: &mut S::Seat,
    sending: Sending<'_>,
    patience: &mut T,
) {
    let mut letters = letters(rt, alloc, system, sending.bytes, sending.types);
    let sent = send(rt, system, seat, &mut letters, sending.flags, patience);
    holds(rt, sent.first == sending.first, "the entry of the first");
    holds(rt, sent.ended == sending.ended, "how a sending ends");
    let done = sending.types.len().saturating_sub(sending.left) as u64;
    let tag = done.saturating_add(1);
    is_left(rt, system, letters, sending.bytes, tag, sending.left);
}

/// A message that was received: the entry of its receipt, its type and its tag.
#[derive(Clone, Copy, PartialEq)]
pub(crate) struct Receipt {
    entry: u64,
    mtype: i64,
    tag: u64,
}

pub(crate) fn got(entry: u64, mtype: i64, tag: u64) -> Receipt {
    Receipt { entry, mtype, tag }
}

/// What a call is to receive, and how it ends.
#[derive(Clone, Copy)]
pub(crate) struct Receiving<'a> {
    pub(crate) n: usize,
    pub(crate) wanted: Wanted,
    pub(crate) bytes: &'a [u8],
    pub(crate) got: &'a [Receipt],
    pub(crate) ended: Result<(), Refused>,
}

/// A message of seat 1 with this text is the one that was to be received.
fn is_got<S: Calls, R: Abort + Wait>(
    rt: &R,
    system: &S,
    delivered: Delivered<S::Text>,
    bytes: &[u8],
    wanted: Option<&Receipt>,
) {
    let Delivered {
        entry,
        mtype,
        sender,
        tag,
        length,
        text,
    } = delivered;
    holds(
        rt,
        wanted == Some(&got(entry, mtype, tag)),
        "a message of several",
    );
    holds(rt, sender == 1, "its sender");
    holds(rt, length == bytes.len() as u64, "its length");
    holds(rt, system.shows(&text, bytes), "its text");
    system.spend(rt, text);
}

/// Receives up to so many more, behind those that were received before; how many there are then.
fn receive_on<S: Calls, R: Abort + Wait, T: Patience>(
    rt: &R,
    alloc: Global,
    system: &S,
    seat: &mut S::Seat,
    receiving: Receiving<'_>,
    patience: &mut T,
    done: usize,
) -> (usize, Result<(), Refused>) {
    let n = match done {
        0 => receiving.n,
        _ => receiving.n.min(MAX_BATCH).saturating_sub(done),
    };
    let Ok(mut out) = Vec::with_capacity(alloc, n.min(MAX_BATCH)) else {
        panic!(rt; "out of memory");
    };
    let id = Id::from_number(0);
    let wanted = receiving.wanted;
    let ended = system.msgrcv_many(rt, seat, id, wanted, patience, n, 6, &mut out);
    let mut out = VecDeque::from_vec(out);
    let mut done = done;
    while let Some(delivered) = out.pop_front() {
        is_got(
            rt,
            system,
            delivered,
            receiving.bytes,
            receiving.got.get(done),
        );
        done = done.saturating_add(1);
    }
    out.destroy_empty();
    (done, ended)
}

pub(crate) fn receives_within<S: Calls, R: Abort + Wait, T: Patience>(
    rt: &R,
    alloc: Global,
    system: &S,
    seat: &mut S::Seat,
    receiving: Receiving<'_>,
    patience: &mut T,
) {
    let (mut done, mut ended) = receive_on(rt, alloc, system, seat, receiving, patience, 0);
    if found_no_memory(ended) {
        (done, ended) = receive_on(rt, alloc, system, seat, receiving, patience, done);
    }
    holds(rt, done == receiving.got.len(), "as many messages");
    holds(rt, ended == receiving.ended, "how a receipt ends");
}

/// Seat 2 receives, and waits for nothing.
pub(crate) fn receives<S: Calls, R: Abort + Wait>(
    rt: &R,
    alloc: Global,
    system: &S,
    seats: &mut [S::Seat],
    receiving: Receiving<'_>,
) {
    let seat = seat(rt, seats, 1);
    receives_within(rt, alloc, system, seat, receiving, &mut NoWait);
}
