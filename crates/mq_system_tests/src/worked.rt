//! One queue from its making to its end, on one page and in one slot.

use crate::calls::{CREATE, counts, is, refused, seat, send};
use crate::day::{Day, config, left_by, lives};
use crate::system::Calls;
use crate::{granted, holds};
use mq_queue::{Event, Figures, Log};
use mq_system::{ClosedSlot, Config, Errno, Removal, SendRefused, SysError};
use std::process::Abort;
use std::sync::Wait;
use std::thread::Threads;

const FIGURES: Figures = Figures {
    qnum: 1,
    cbytes: 2,
    qbytes: 131_072,
    stime: 5,
    rtime: 0,
    ctime: 4,
    lspid: 1,
    lrpid: 0,
};

const LOG: [Event; 3] = [
    Event::Made {
        seat: 1,
        moment: 4,
        key: 0,
    },
    Event::Sent {
        seat: 1,
        moment: 5,
        tag: 7,
        mtype: 1,
        length: 2,
    },
    Event::Removed { seat: 1, moment: 6 },
];

/// A text that is sent with type 0 is returned.
fn handed_back<S: Calls, R: Abort + Wait>(rt: &R, system: &S, seats: &mut [S::Seat]) -> S::Text {
    let text = granted::drafted(rt, system, b"hi");
    match send(rt, system, seats, 0, 0, text, 5) {
        Ok(_) => panic!(rt; "type 0 was sent"),
        Err(SendRefused { refused, text }) => {
            is(rt, refused, Errno::EINVAL, None);
            holds(rt, system.shows(&text, b"hi"), "the text is handed back");
            text
        }
    }
}

fn sent<S: Calls, R: Abort + Wait>(rt: &R, system: &S, seats: &mut [S::Seat], text: S::Text) {
    let entry = granted::sent(rt, system, seats, 0, 1, text, 5);
    holds(rt, entry == 1, "it is sent by entry 1");
    let figures = granted::shown(rt, system, seat(rt, seats, 0));
    holds(rt, figures == FIGURES, "one message of two bytes waits");
}

/// The log has all that happened in the queue.
fn tells_all(rt: &impl Abort, log: Log) {
    let (_base, tail) = log.into_parts();
    holds(rt, tail.as_slice() == LOG.as_slice(), "its own log");
}

fn removed<S: Calls, R: Abort + Wait>(rt: &R, system: &S, seats: &mut [S::Seat]) {
    let Removal { entry, log } = granted::removed(rt, system, seats, 0, 6);
    holds(rt, entry == 2, "it is removed by entry 2");
    tells_all(rt, log);
    granted::is_removed(rt, system, seat(rt, seats, 0));
}

#[derive(Drop)]
struct OneLife;

impl Day for OneLife {
    fn spend<S: Calls, R: Abort + Threads + Wait>(
        &self,
        rt: &R,
        system: &S,
        seats: &mut [S::Seat],
    ) {
        granted::made(rt, system, seats, 0, CREATE, 4, 0, 0);
        refused(rt, system, seats, Errno::ENOMSG, 1);
        let text = handed_back(rt, system, seats);
        sent(rt, system, seats, text);
        removed(rt, system, seats);
        holds(rt, system.slots() == 1, "one slot");
        // Seat 1 made, sent and removed, and seat 2 was refused.
        counts(rt, system, seat(rt, seats, 0), 3);
        counts(rt, system, seat(rt, seats, 1), 0);
    }
}

fn closed(rt: &impl Abort, slot: &ClosedSlot) {
    holds(
        rt,
        slot.past.as_slice() == LOG.as_slice(),
        "all that happened in it",
    );
    holds(rt, slot.last.is_empty(), "no queue is left");
    holds(rt, slot.left == 0, "no message is left");
}

#[test]
fn a_queue_is_made_filled_shown_and_removed(rt: HostRuntime) {
    let left = left_by(&rt, rt.alloc(), config(0, 1, 9), &OneLife);
    holds(&rt, left.free_pages == 1, "its page is free");
    holds(&rt, left.slots.len() == 1, "there was one slot");
    for slot in left.slots.iter() {
        closed(&rt, slot);
    }
}

/// Each seat has its number.
#[derive(Drop)]
struct Numbered {
    config: Config,
}

impl Day for Numbered {
    fn spend<S: Calls, R: Abort + Threads + Wait>(
        &self,
        rt: &R,
        system: &S,
        seats: &mut [S::Seat],
    ) {
        holds(
            rt,
            system.slots() == self.config.slots,
            "as many slots as were asked for",
        );
        holds(
            rt,
            seats.len() == self.config.seats as usize,
            "as many seats",
        );
        let mut number = 1u16;
        for seat in seats.iter() {
            holds(
                rt,
                system.number(seat) == number,
                "the seats are numbered from 1",
            );
            number = number.saturating_add(1);
        }
    }
}

#[test]
fn seats_are_numbered_from_one(rt: HostRuntime) {
    for count in [1u16, 2, 16] {
        let config = Config {
            seats: count,
            ..config(3, 64, 32_767)
        };
        let left = left_by(&rt, rt.alloc(), config, &Numbered { config });
        holds(
            &rt,
            left.free_pages == 8 && left.slots.len() == 64,
            "nothing was used",
        );
    }
}

#[test]
fn a_size_out_of_its_limits_is_refused(rt: HostRuntime) {
    let whole = config(0, 1, 9);
    let configs: [Config; 6] = [
        Config { slots: 0, ..whole },
        Config { slots: 65, ..whole },
        Config { seats: 0, ..whole },
        Config { seats: 17, ..whole },
        Config {
            height: 11,
            ..whole
        },
        Config {
            last_seq: 32_768,
            ..whole
        },
    ];
    for config in configs {
        match lives(&rt, rt.alloc(), config, &Numbered { config }) {
            Err(SysError::Config) => (),
            Ok(_) => panic!(rt; "a size was accepted"),
            Err(SysError::Memory) => panic!(rt; "out of memory"),
        }
    }
}
