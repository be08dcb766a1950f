//! What one seat sees of what another did.

use crate::calls::{CREATE, NO_FLAG, counts, refused, seat};
use crate::day::{Day, config, left_by};
use crate::system::Calls;
use crate::{granted, holds};
use mq_queue::BoardRow;
use mq_system::Errno;
use std::process::Abort;
use std::sync::Wait;
use std::thread::Threads;

/// Seat 1 makes a queue with key 9, and seat 2 finds it.
fn found<S: Calls, R: Abort + Wait>(rt: &R, system: &S, seats: &mut [S::Seat]) {
    granted::made(rt, system, seats, 9, CREATE, 1, 0, 0);
    match system.msgget(rt, seat(rt, seats, 1), 9, NO_FLAG, 2) {
        Ok(got) => granted::is_found(rt, got),
        Err(errno) => panic!(rt; "{errno}"),
    }
}

/// Seat 2 is shown a message that seat 1 sent.
fn shown<S: Calls, R: Abort + Wait>(rt: &R, system: &S, seats: &mut [S::Seat]) {
    let text = granted::drafted(rt, system, b"hi");
    let entry = granted::sent(rt, system, seats, 0, 1, text, 3);
    holds(rt, entry == 1, "it is sent by entry 1");
    one_waits(rt, system, seat(rt, seats, 1));
}

/// A seat that changed nothing, and counts nothing, is shown a message.
fn one_waits<S: Calls, R: Abort + Wait>(rt: &R, system: &S, seat: &mut S::Seat) {
    let figures = granted::shown(rt, system, seat);
    let row = BoardRow {
        made: 1,
        live: true,
        key: 9,
        figures,
    };
    holds(rt, figures.qnum == 1, "one message waits");
    granted::is_only_row(rt, system, seat, row);
    counts(rt, system, seat, 0);
}

/// Seat 1 removes the queue, of which seat 2 then gets EIDRM.
fn gone<S: Calls, R: Abort + Wait>(rt: &R, system: &S, seats: &mut [S::Seat]) {
    let removal = granted::removed(rt, system, seats, 0, 4);
    holds(rt, removal.entry == 2, "it is removed by entry 2");
    granted::is_removed(rt, system, seat(rt, seats, 1));
    refused(rt, system, seats, Errno::EIDRM, 3);
}

#[derive(Drop)]
struct TwoSeats;

impl Day for TwoSeats {
    fn spend<S: Calls, R: Abort + Threads + Wait>(
        &self,
        rt: &R,
        system: &S,
        seats: &mut [S::Seat],
    ) {
        found(rt, system, seats);
        shown(rt, system, seats);
        gone(rt, system, seats);
    }
}

#[test]
fn a_seat_sees_what_another_did(rt: HostRuntime) {
    let left = left_by(&rt, rt.alloc(), config(0, 2, 9), &TwoSeats);
    holds(&rt, left.free_pages == 1, "the page is free");
}
