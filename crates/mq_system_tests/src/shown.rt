//! A report shows each slot's row, and what is in use in all of them.

use crate::calls::{CREATE, seat};
use crate::day::{Day, config, left_by};
use crate::system::Calls;
use crate::{granted, holds};
use mq_calls::Usage;
use mq_queue::{BoardRow, Figures};
use std::process::Abort;
use std::sync::Wait;
use std::thread::Threads;

const NO_FIGURES: Figures = Figures {
    qnum: 0,
    cbytes: 0,
    qbytes: 0,
    stime: 0,
    rtime: 0,
    ctime: 0,
    lspid: 0,
    lrpid: 0,
};

const NO_QUEUE: BoardRow = BoardRow {
    made: 0,
    live: false,
    key: 0,
    figures: NO_FIGURES,
};

/// The row of a slot whose only queue was removed.
const LEFT: BoardRow = BoardRow {
    made: 1,
    ..NO_QUEUE
};

/// Two queues in four slots.
const USAGE: Usage = Usage {
    queues: 2,
    messages: 0,
    bytes: 0,
    greatest: 1,
    slots: 4,
    pages: 1,
};

/// The row of a slot whose queue is new.
fn row_of_new(made: u32, key: i32, ctime: u64) -> BoardRow {
    BoardRow {
        made,
        live: true,
        key,
        figures: Figures {
            qbytes: 131_072,
            ctime,
            ..NO_FIGURES
        },
    }
}

/// The rows of four slots, as a seat is shown them.
fn four_rows<S: Calls, R: Abort + Wait>(rt: &R, system: &S, seat: &mut S::Seat) -> [BoardRow; 4] {
    let mut rows: [BoardRow; 4] = [row_of_new(9, 9, 9); 4];
    system.report(rt, seat, &mut rows);
    rows
}

/// A seat that has read nothing yet is shown two queues in four slots.
fn two_are_shown<S: Calls, R: Abort + Wait>(rt: &R, system: &S, seat: &mut S::Seat) {
    holds(rt, system.info(seat) == USAGE, "two queues are there");
    let rows = four_rows(rt, system, seat);
    holds(rt, rows[0] == row_of_new(2, 7, 6), "the second in slot 0");
    holds(rt, rows[1] == row_of_new(1, -8, 2), "the queue of slot 1");
    holds(rt, rows[2] == LEFT, "none in slot 2");
    holds(rt, rows[3] == NO_QUEUE, "none was in slot 3");
}

#[derive(Drop)]
struct Report;

impl Day for Report {
    fn spend<S: Calls, R: Abort + Threads + Wait>(
        &self,
        rt: &R,
        system: &S,
        seats: &mut [S::Seat],
    ) {
        granted::got(rt, system, seats, 0, CREATE, 1);
        granted::got(rt, system, seats, -8, CREATE, 2);
        granted::got(rt, system, seats, 9, CREATE, 3);
        granted::gone(rt, system, seats, 0, 4);
        granted::gone(rt, system, seats, 2, 5);
        granted::got(rt, system, seats, 7, CREATE, 6);
        two_are_shown(rt, system, seat(rt, seats, 1));
    }
}

#[test]
fn a_report_shows_each_slot_in_its_row(rt: HostRuntime) {
    let left = left_by(&rt, rt.alloc(), config(0, 4, 9), &Report);
    holds(&rt, left.free_pages == 1, "the page is free");
}
