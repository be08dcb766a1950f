//! What the calls of a list answer, and what is shown after them, by a plain count. The event of a
//! call has the place of the call in the list, and its moment too; the making has the moment 10.

use mq_message::{Selection, VecBody};
use mq_queue::{BoardRow, Figures, MSGMNB, NO_FIGURES, Received};

/// The place of the last message that is sent: eight of each of five types.
pub(crate) const SENT: u64 = 40;

/// The place of the first new quota, after which all is received.
pub(crate) const CHANGED: u64 = 41;

/// The place of the last message that is received, after which there are new quotas.
pub(crate) const RECEIVED: u64 = 81;

/// The place of the removal. The log grows at each place that is a power of two. A
/// receipt is at 64, a new quota at 128 and the removal here, so each kind of call can be refused.
pub(crate) const REMOVED: u64 = 256;

/// The type of the message that is sent at this place.
pub(crate) fn type_of(place: u64) -> i64 {
    (place % 5) as i64 + 1
}

/// The quota that is set at this place.
pub(crate) fn quota_of(place: u64) -> u64 {
    place.saturating_mul(10)
}

/// What the receiver at this place selects, and the place of the message that it receives: eight
/// of one type, eight of the lowest type, eight of two others, eight of the lowest, and the rest.
pub(crate) fn wanted_at(place: u64) -> (Selection, u64) {
    let receipt = place.saturating_sub(CHANGED + 1);
    let turn = receipt % 8;
    let pair = turn / 2 * 5 + turn % 2;
    match receipt / 8 {
        0 => (Selection::Exact(2), 1 + turn * 5),
        1 => (Selection::UpTo(3), 5 + turn * 5),
        2 => (Selection::Except(3), 3 + pair),
        3 => (Selection::UpTo(4), 2 + turn * 5),
        _ => (Selection::Any, 23 + pair),
    }
}

/// Whether a message has all that was sent at its place.
pub(crate) fn is_whole(received: &Received<VecBody>) -> bool {
    let sent = received.place;
    let header = received.mtype == type_of(sent) && received.sender == 1 && received.tag == sent;
    header && received.length == 8 && received.body.bytes() == sent.to_le_bytes().as_slice()
}

/// This moment where something had happened by then, or else another one.
fn moment_if(happened: bool, moment: u64, other: u64) -> u64 {
    if happened { moment } else { other }
}

/// The seat that did something, where it did.
fn seat_if(happened: bool, seat: u16) -> u16 {
    if happened { seat } else { 0 }
}

/// The quota after the change at this place, where that had happened by then.
fn quota_if(happened: bool, changed: u64) -> u64 {
    if happened { quota_of(changed) } else { MSGMNB }
}

/// The figures once the event at this place is published.
fn figures_after(place: u64) -> Figures {
    let sent = place.min(SENT);
    let received = place.min(RECEIVED).saturating_sub(CHANGED);
    let waiting = sent.saturating_sub(received);
    let changed = moment_if(place > RECEIVED, place, CHANGED);
    Figures {
        qnum: waiting,
        cbytes: waiting.saturating_mul(8),
        qbytes: quota_if(place > SENT, changed),
        stime: sent,
        rtime: moment_if(received > 0, place.min(RECEIVED), 0),
        ctime: moment_if(place > SENT, changed, 10),
        lspid: seat_if(sent > 0, 1),
        lrpid: seat_if(received > 0, 2),
    }
}

/// What is shown then.
pub(crate) fn row_after(place: u64) -> BoardRow {
    if place == REMOVED {
        return BoardRow {
            made: 1,
            live: false,
            key: 0,
            figures: NO_FIGURES,
        };
    }
    BoardRow {
        made: 1,
        live: true,
        key: 7,
        figures: figures_after(place),
    }
}
