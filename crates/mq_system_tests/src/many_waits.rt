//! Several messages by one call that waits, and the waiters that it wakes.

ghost use Rattle.std.specs.Prelude.{true};

use crate::batches::{
    ANY, Receiving, Sending, UNTYPED, WAITS, ends, got, receives, receives_within, sends,
    sends_within,
};
use crate::calls::{NEW, Wanted};
use crate::day::{Day, config, left_by};
use crate::system::Calls;
use crate::{granted, holds};
use mq_system::{Errno, NoWait, Patience, Refused, SendFlags};
use mq_table::Id;
use std::alloc::Global;
use std::process::Abort;
use std::sync::Wait;
use std::thread::Threads;
use std::time::Duration;

/// What another seat does while a call waits.
#[derive(Clone, Copy)]
enum Does<'a> {
    Sends(Sending<'a>),
    Receives(Receiving<'a>),
    Removes,
}

/// Waits until another seat has done something, once: where that wakes no thread, for a day.
#[derive(Drop)]
struct Meanwhile<'a, S: Calls, R: Abort + Wait> {
    rt: &'a R,
    alloc: Global,
    system: &'a S,
    seat: &'a mut S::Seat,
    does: Option<Does<'a>>,
}

impl<'a, S: Calls, R: Abort + Wait> Meanwhile<'a, S, R> {
    fn removes(&mut self) {
        let id = Id::from_number(0);
        let removed = match self.system.rmid(self.rt, self.seat, id, 7) {
            Err(
                Refused {
                    errno: Errno::ENOMEM,
                    ..
                },
            ) => self.system.rmid(self.rt, self.seat, id, 7),
            answer => answer,
        };
        holds(self.rt, removed.is_ok(), "a queue is removed");
    }

    fn does(&mut self, does: Does<'a>) {
        let Meanwhile {
            rt,
            alloc,
            system,
            ..
        } = *self;
        match does {
            Does::Sends(sending) => {
                sends_within(rt, alloc, system, self.seat, sending, &mut NoWait);
            }
            Does::Receives(receiving) => {
                receives_within(rt, alloc, system, self.seat, receiving, &mut NoWait);
            }
            Does::Removes => self.removes(),
        }
    }
}

impl<'a, S: Calls, R: Abort + Wait> Patience for Meanwhile<'a, S, R> {
    ghost ends = { true };

    fn left(&mut self) -> Option<Duration> {
        let does = self.does.take()?;
        self.does(does);
        Some(Duration::from_secs(86400))
    }
}

/// Seats 1 and 2.
fn both<'s, T>(rt: &impl Abort, seats: &'s mut [T]) -> (&'s mut T, &'s mut T) {
    if let Some((one, others)) = seats.split_first_mut() {
        if let Some((other, _)) = others.split_first_mut() {
            return (one, other);
        }
    }
    panic!(rt; "there are not two seats")
}

/// What is tried with a new queue.
#[derive(Clone, Copy)]
enum Plot {
    Arrives,
    ArrivesInPart,
    Removed,
    Room,
    RoomOfAll,
    Nowait,
}

/// Letters of which three are sent.
fn three<'a>(types: &'a [i64], ended: Result<(), Refused>, left: usize) -> Sending<'a> {
    Sending {
        bytes: b"x",
        types,
        first: Some(1),
        ended,
        left,
        flags: WAITS,
    }
}

/// Seat 2 receives, while seat 1 does something where the call waits.
fn receives_while<S: Calls, R: Abort + Wait>(
    rt: &R,
    alloc: Global,
    system: &S,
    seats: &mut [S::Seat],
    receiving: Receiving<'_>,
    does: Does<'_>,
) {
    let (other, receiver) = both(rt, seats);
    let mut meanwhile = Meanwhile {
        rt,
        alloc,
        system,
        seat: other,
        does: Some(does),
    };
    receives_within(rt, alloc, system, receiver, receiving, &mut meanwhile);
}

/// Seat 1 sends, while seat 2 does something where the call waits.
fn sends_while<S: Calls, R: Abort + Wait>(
    rt: &R,
    alloc: Global,
    system: &S,
    seats: &mut [S::Seat],
    sending: Sending<'_>,
    does: Does<'_>,
) {
    let (sender, other) = both(rt, seats);
    let mut meanwhile = Meanwhile {
        rt,
        alloc,
        system,
        seat: other,
        does: Some(does),
    };
    sends_within(rt, alloc, system, sender, sending, &mut meanwhile);
}

/// A receiver of five waits, and takes the three that are sent meanwhile.
fn arrives<S: Calls, R: Abort + Wait>(
    rt: &R,
    alloc: Global,
    system: &S,
    seats: &mut [S::Seat],
    sending: Sending<'_>,
) {
    let receiving = Receiving {
        n: 5,
        wanted: ANY,
        bytes: b"x",
        got: &[got(4, 1, 1), got(5, 2, 2), got(6, 3, 3)],
        ended: ends(Errno::ENOMSG, 7),
    };
    receives_while(rt, alloc, system, seats, receiving, Does::Sends(sending));
}

/// A receiver of three waits, and the queue is removed meanwhile.
fn removed<S: Calls, R: Abort + Wait>(rt: &R, alloc: Global, system: &S, seats: &mut [S::Seat]) {
    let receiving = Receiving {
        n: 3,
        wanted: ANY,
        bytes: b"x",
        got: &[],
        ended: ends(Errno::EIDRM, 2),
    };
    receives_while(rt, alloc, system, seats, receiving, Does::Removes);
}

/// A sender of three waits for room, and sends the two for which two receipts make some, by a call
/// for so many.
fn room<S: Calls, R: Abort + Wait>(
    rt: &R,
    alloc: Global,
    system: &S,
    seats: &mut [S::Seat],
    n: usize,
    ended: Result<(), Refused>,
) {
    granted::changed(rt, system, seats, 0, 2, 4);
    let two = Sending {
        bytes: b"x",
        types: &[1, 2],
        first: Some(2),
        ended: Ok(()),
        left: 0,
        flags: WAITS,
    };
    sends(rt, alloc, system, seats, two);
    let receiving = Receiving {
        n,
        wanted: ANY,
        bytes: b"x",
        got: &[got(4, 1, 1), got(5, 2, 2)],
        ended,
    };
    let three = Sending {
        types: &[3, 4, 5],
        first: Some(6),
        ended: ends(Errno::EAGAIN, 8),
        left: 1,
        ..two
    };
    sends_while(rt, alloc, system, seats, three, Does::Receives(receiving));
    let rest = Receiving {
        n: 2,
        got: &[got(8, 3, 1), got(9, 4, 2)],
        ended: Ok(()),
        ..receiving
    };
    receives(rt, alloc, system, seats, rest);
}

/// A call that must not wait has no patience to lose: one of a receiver that finds nothing, and one
/// of a sender without room.
fn nowait<S: Calls, R: Abort + Wait>(rt: &R, alloc: Global, system: &S, seats: &mut [S::Seat]) {
    granted::changed(rt, system, seats, 0, 1, 4);
    let receiving = Receiving {
        n: 3,
        wanted: Wanted {
            nowait: true,
            ..ANY
        },
        bytes: b"x",
        got: &[],
        ended: ends(Errno::ENOMSG, 2),
    };
    receives_while(rt, alloc, system, seats, receiving, Does::Removes);
    let sending = Sending {
        bytes: b"four",
        types: &[1],
        first: None,
        ended: ends(Errno::EAGAIN, 2),
        left: 1,
        flags: SendFlags { nowait: true },
    };
    sends_while(rt, alloc, system, seats, sending, Does::Removes);
}

#[derive(Drop)]
struct Batches {
    alloc: Global,
    plot: Plot,
}

impl Day for Batches {
    fn spend<S: Calls, R: Abort + Threads + Wait>(
        &self,
        rt: &R,
        system: &S,
        seats: &mut [S::Seat],
    ) {
        let alloc = self.alloc;
        granted::made(rt, system, seats, 9, NEW, 4, 0, 0);
        match self.plot {
            Plot::Arrives => {
                arrives(rt, alloc, system, seats, three(&[1, 2, 3], Ok(()), 0));
            }
            Plot::ArrivesInPart => {
                arrives(rt, alloc, system, seats, three(&[1, 2, 3, 0], UNTYPED, 1));
            }
            Plot::Removed => removed(rt, alloc, system, seats),
            Plot::Room => room(rt, alloc, system, seats, 2, Ok(())),
            Plot::RoomOfAll => room(rt, alloc, system, seats, 5, ends(Errno::ENOMSG, 6)),
            Plot::Nowait => nowait(rt, alloc, system, seats),
        }
    }
}

/// All of it holds of a new queue, and all pages are free at the end.
fn plays<R: Abort + Threads + Wait>(rt: &R, alloc: Global, plot: Plot) {
    let left = left_by(rt, alloc, config(3, 1, 9), &Batches { alloc, plot });
    holds(rt, left.free_pages == 8, "all pages are free");
}

#[test]
fn a_batch_wakes_a_receiver(rt: HostRuntime) {
    plays(&rt, rt.alloc(), Plot::Arrives);
}

#[test]
fn a_batch_that_is_sent_in_part_wakes_a_receiver(rt: HostRuntime) {
    plays(&rt, rt.alloc(), Plot::ArrivesInPart);
}

#[test]
fn a_removal_wakes_a_receiver_of_several(rt: HostRuntime) {
    plays(&rt, rt.alloc(), Plot::Removed);
}

#[test]
fn a_batch_wakes_a_sender(rt: HostRuntime) {
    plays(&rt, rt.alloc(), Plot::Room);
}

#[test]
fn a_receipt_of_all_that_waits_wakes_a_sender(rt: HostRuntime) {
    plays(&rt, rt.alloc(), Plot::RoomOfAll);
}

#[test]
fn a_batch_heeds_ipc_nowait(rt: HostRuntime) {
    plays(&rt, rt.alloc(), Plot::Nowait);
}
