//! The calls of a system that a test knows to be granted: each ends the test where it is refused.

use crate::calls::{TAG, Wanted, get, receive, remove, send, set};
use crate::holds;
use crate::system::Calls;
use mq_queue::{BoardRow, Figures};
use mq_system::{Delivered, Errno, GetFlags, Got, Removal};
use mq_table::Id;
use std::process::Abort;
use std::sync::Wait;

pub(crate) fn got<S: Calls, R: Abort + Wait>(
    rt: &R,
    system: &S,
    seats: &mut [S::Seat],
    key: i32,
    flags: GetFlags,
    moment: u64,
) -> Got {
    match get(rt, system, seats, key, flags, moment) {
        Ok(got) => got,
        Err(errno) => panic!(rt; "no queue with key {key}: {errno}"),
    }
}

/// It is the first queue of slot 0, which was there before.
pub(crate) fn is_found(rt: &impl Abort, got: Got) {
    holds(rt, got.id.number() == 0, "a queue is found");
    holds(rt, got.made == None, "it is not made");
}

/// A queue is made with this id, by this entry.
pub(crate) fn made<S: Calls, R: Abort + Wait>(
    rt: &R,
    system: &S,
    seats: &mut [S::Seat],
    key: i32,
    flags: GetFlags,
    moment: u64,
    id: u32,
    entry: u64,
) {
    let got = got(rt, system, seats, key, flags, moment);
    is_made(rt, got, id, entry);
}

/// It is a new queue with this id, made by this entry.
pub(crate) fn is_made(rt: &impl Abort, got: Got, id: u32, entry: u64) {
    holds(rt, got.id.number() == id, "the id of a new queue");
    holds(rt, got.made == Some(entry), "the entry of its making");
}

/// A text of these bytes.
pub(crate) fn drafted<S: Calls, R: Abort + Wait>(rt: &R, system: &S, bytes: &[u8]) -> S::Text {
    system.draft_of(rt, bytes).expect(rt, "a text is drafted")
}

/// A text of so many zero bytes.
pub(crate) fn zeros<S: Calls, R: Abort + Wait>(rt: &R, system: &S, len: u64) -> S::Text {
    match system.draft(rt, len) {
        Ok(text) => text,
        Err(refused) => panic!(rt; "{len} bytes are not drafted: {refused}"),
    }
}

/// The entry of a sending.
pub(crate) fn sent<S: Calls, R: Abort + Wait>(
    rt: &R,
    system: &S,
    seats: &mut [S::Seat],
    id: u32,
    mtype: i64,
    text: S::Text,
    moment: u64,
) -> u64 {
    match send(rt, system, seats, id, mtype, text, moment) {
        Ok(entry) => entry,
        Err(_refused) => panic!(rt; "a text is not sent at {moment}"),
    }
}

/// The text of a message that seat 1 sent, which was received by this entry.
pub(crate) fn text_of<T>(
    rt: &impl Abort,
    delivered: Delivered<T>,
    entry: u64,
    mtype: i64,
    length: u64,
) -> T {
    let Delivered {
        entry: its_entry,
        mtype: its_type,
        sender,
        tag,
        length: its_length,
        text,
    } = delivered;
    holds(rt, its_entry == entry, "the entry of a receipt");
    holds(rt, its_type == mtype, "the type of a message");
    holds(rt, sender == 1 && tag == TAG, "what seat 1 sent");
    holds(rt, its_length == length, "the length of a message");
    text
}

/// The first message that is asked for.
pub(crate) fn received<S: Calls, R: Abort + Wait>(
    rt: &R,
    system: &S,
    seats: &mut [S::Seat],
    id: u32,
    wanted: Wanted,
    moment: u64,
) -> Delivered<S::Text> {
    match receive(rt, system, seats, id, wanted, moment) {
        Ok(delivered) => delivered,
        Err(refused) => panic!(rt; "no text is received at {moment}: {refused}"),
    }
}

/// The entry of a setting.
pub(crate) fn changed<S: Calls, R: Abort + Wait>(
    rt: &R,
    system: &S,
    seats: &mut [S::Seat],
    id: u32,
    qbytes: u64,
    moment: u64,
) -> u64 {
    set(rt, system, seats, id, qbytes, moment).expect(rt, "a quota is set")
}

pub(crate) fn removed<S: Calls, R: Abort + Wait>(
    rt: &R,
    system: &S,
    seats: &mut [S::Seat],
    id: u32,
    moment: u64,
) -> Removal {
    remove(rt, system, seats, id, moment).expect(rt, "a queue is removed")
}

/// A queue is removed, whatever its log has.
pub(crate) fn gone<S: Calls, R: Abort + Wait>(
    rt: &R,
    system: &S,
    seats: &mut [S::Seat],
    id: u32,
    moment: u64,
) {
    removed(rt, system, seats, id, moment);
}

/// What a seat is shown of the queue in slot 0.
pub(crate) fn shown<S: Calls, R: Abort + Wait>(rt: &R, system: &S, seat: &mut S::Seat) -> Figures {
    system
        .stat(seat, Id::from_number(0))
        .expect(rt, "a queue is shown")
}

/// A seat is shown no more of the first queue in slot 0, which was removed.
pub(crate) fn is_removed<S: Calls, R: Abort + Wait>(rt: &R, system: &S, seat: &mut S::Seat) {
    let answer = system.stat(seat, Id::from_number(0));
    holds(rt, answer == Err(Errno::EIDRM), "EIDRM of a removed queue");
}

/// Of two slots, a seat is shown this row of slot 0, and that no queue was in slot 1.
pub(crate) fn is_only_row<S: Calls, R: Abort + Wait>(
    rt: &R,
    system: &S,
    seat: &mut S::Seat,
    row: BoardRow,
) {
    let mut rows = [row; 2];
    system.report(rt, seat, &mut rows);
    let [first, second] = rows;
    holds(rt, first == row, "the row of slot 0");
    holds(rt, second.made == 0, "no queue was in slot 1");
    holds(rt, !second.live, "none is in slot 1");
}
