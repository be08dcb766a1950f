//! The lists of the tests.

use mq_message::{Header, Selection};
use mq_queue::{Base, BaseEntries, Event, Figures};
use std::alloc::{AllocError, Global};

pub fn made(moment: u64, key: i32) -> Event {
    Event::Made {
        seat: 1,
        moment,
        key,
    }
}

/// Sent by seat 1.
pub fn sent(moment: u64, tag: u64, mtype: i64, length: u64) -> Event {
    Event::Sent {
        seat: 1,
        moment,
        tag,
        mtype,
        length,
    }
}

/// Received by seat 2.
pub fn received(moment: u64, place: u64, selection: Selection) -> Event {
    Event::Received {
        seat: 2,
        moment,
        place,
        selection,
        size: 9,
        noerror: false,
    }
}

pub fn changed(moment: u64, qbytes: u64) -> Event {
    Event::Changed {
        seat: 1,
        moment,
        qbytes,
    }
}

pub fn removed(moment: u64) -> Event {
    Event::Removed { seat: 1, moment }
}

/// The header of a message of seat 1.
pub fn header(place: u64, tag: u64, mtype: i64, length: u64) -> Header {
    Header {
        place,
        seat: 1,
        tag,
        mtype,
        length,
    }
}

/// A queue in which one of two messages is received, and which is removed.
pub fn past() -> [Event; 6] {
    [
        made(1, 7),
        sent(2, 5, 3, 4),
        sent(3, 6, 2, 1),
        received(4, 1, Selection::Any),
        changed(5, 100),
        removed(6),
    ]
}

/// The next queue of the slot, in which a message waits.
pub fn last() -> [Event; 4] {
    [
        made(7, -8),
        sent(8, 9, 1, 2),
        sent(9, 10, 4, 3),
        received(10, 1, Selection::UpTo(2)),
    ]
}

/// What is known of a log of which five events were drained, with two messages of 6 bytes.
pub fn base(alloc: Global) -> Result<Base, AllocError> {
    let waiting = Vec::from_array(alloc, [header(2, 20, 3, 4), header(4, 40, 5, 2)])?;
    Ok(Base {
        places: 5,
        figures: Figures {
            qnum: 2,
            cbytes: 6,
            qbytes: 100,
            stime: 4,
            rtime: 3,
            ctime: 1,
            lspid: 1,
            lrpid: 2,
        },
        waiting: BaseEntries::of(waiting),
    })
}

/// How that log continues: both are received, one that was sent between, and one that never was.
pub fn since() -> [Event; 5] {
    [
        received(11, 4, Selection::Exact(5)),
        sent(12, 50, 6, 7),
        received(13, 6, Selection::Except(3)),
        received(14, 2, Selection::Any),
        received(15, 3, Selection::Any),
    ]
}
