//! Several messages by one call that waits for nothing.

use crate::batches::{
    ANY, Receiving, Sending, UNTYPED, WAITS, ends, found_no_memory, got, is_left, letters,
    receives, sends,
};
use crate::calls::{NEW, Wanted, counts, cut, seat};
use crate::day::{Day, config, left_by};
use crate::system::Calls;
use crate::{granted, holds};
use mq_system::{Errno, NoWait};
use mq_table::Id;
use std::alloc::Global;
use std::process::Abort;
use std::sync::Wait;
use std::thread::Threads;

/// What is tried with a new queue.
#[derive(Clone, Copy)]
enum Plot {
    Through,
    Full,
    Untyped,
    Most,
    Chosen,
    Short,
    Gone,
}

/// Two batches are sent, and received by three calls, with drains between.
fn through<S: Calls, R: Abort + Wait>(rt: &R, alloc: Global, system: &S, seats: &mut [S::Seat]) {
    let sending = Sending {
        bytes: b"x",
        types: &[5],
        first: Some(1),
        ended: Ok(()),
        left: 0,
        flags: WAITS,
    };
    sends(rt, alloc, system, seats, sending);
    let three = Sending {
        types: &[1, 2, 1],
        first: Some(2),
        ..sending
    };
    sends(rt, alloc, system, seats, three);
    let none = Sending {
        types: &[],
        first: None,
        ..sending
    };
    sends(rt, alloc, system, seats, none);
    let before = cut(rt, system, seats, 0);
    holds(rt, before.last.len() == 5, "all that was sent is cut off");
    received_through(rt, alloc, system, seats);
    counts(rt, system, seat(rt, seats, 0), 5);
    counts(rt, system, seat(rt, seats, 1), 4);
}

fn received_through<S: Calls, R: Abort + Wait>(
    rt: &R,
    alloc: Global,
    system: &S,
    seats: &mut [S::Seat],
) {
    let receiving = Receiving {
        n: 1,
        wanted: ANY,
        bytes: b"x",
        got: &[got(5, 5, 1)],
        ended: Ok(()),
    };
    receives(rt, alloc, system, seats, receiving);
    let none = Receiving {
        n: 0,
        got: &[],
        ..receiving
    };
    receives(rt, alloc, system, seats, none);
    let before = cut(rt, system, seats, 0);
    holds(rt, before.first == 5, "a cut behind the first");
    let rest = Receiving {
        n: 5,
        got: &[got(6, 1, 1), got(7, 2, 2), got(8, 1, 3)],
        ended: ends(Errno::ENOMSG, 9),
        ..receiving
    };
    receives(rt, alloc, system, seats, rest);
    let none = Receiving { got: &[], ..rest };
    receives(rt, alloc, system, seats, none);
}

/// Of five letters three are sent, of three then two: there is room for three bytes.
fn full<S: Calls, R: Abort + Wait>(rt: &R, alloc: Global, system: &S, seats: &mut [S::Seat]) {
    granted::changed(rt, system, seats, 0, 3, 4);
    let five = Sending {
        bytes: b"x",
        types: &[1, 2, 3, 4, 5],
        first: Some(2),
        ended: ends(Errno::EAGAIN, 5),
        left: 2,
        flags: WAITS,
    };
    sends(rt, alloc, system, seats, five);
    let none = Sending {
        first: None,
        left: 5,
        ..five
    };
    sends(rt, alloc, system, seats, none);
    let two = Receiving {
        n: 2,
        wanted: ANY,
        bytes: b"x",
        got: &[got(5, 1, 1), got(6, 2, 2)],
        ended: Ok(()),
    };
    receives(rt, alloc, system, seats, two);
    let three = Sending {
        types: &[8, 9, 10],
        first: Some(7),
        ended: ends(Errno::EAGAIN, 9),
        left: 1,
        ..five
    };
    sends(rt, alloc, system, seats, three);
    let rest = Receiving {
        n: 9,
        got: &[got(9, 3, 3), got(10, 8, 1), got(11, 9, 2)],
        ended: ends(Errno::ENOMSG, 12),
        ..two
    };
    receives(rt, alloc, system, seats, rest);
}

/// A letter whose type is below 1 ends a sending, whatever is behind it.
fn untyped<S: Calls, R: Abort + Wait>(rt: &R, alloc: Global, system: &S, seats: &mut [S::Seat]) {
    let second = Sending {
        bytes: b"x",
        types: &[1, 0, 2],
        first: Some(1),
        ended: UNTYPED,
        left: 2,
        flags: WAITS,
    };
    sends(rt, alloc, system, seats, second);
    let first = Sending {
        types: &[i64::MIN, 1],
        first: None,
        ..second
    };
    sends(rt, alloc, system, seats, first);
    let rest = Receiving {
        n: 3,
        wanted: ANY,
        bytes: b"x",
        got: &[got(2, 1, 1)],
        ended: ends(Errno::ENOMSG, 3),
    };
    receives(rt, alloc, system, seats, rest);
}

/// Of 70 letters one call sends 64, and of those one call receives all.
fn most<S: Calls, R: Abort + Wait>(rt: &R, alloc: Global, system: &S, seats: &mut [S::Seat]) {
    let mut letters = letters(rt, alloc, system, b"", &[1; 70]);
    let one = seat(rt, seats, 0);
    let id = Id::from_number(0);
    let sent = system.msgsnd_many(rt, one, id, &mut letters, WAITS, &mut NoWait, 5);
    if found_no_memory(sent.ended) {
        panic!(rt; "out of memory");
    }
    holds(rt, sent.first == Some(1), "the first of 64");
    holds(rt, sent.ended == Ok(()), "64 are sent");
    is_left(rt, system, letters, b"", 65, 6);
    let mut all = [got(0, 1, 0); 64];
    for (place, one) in all.iter_mut().enumerate() {
        *one = got(65 + place as u64, 1, 1 + place as u64);
    }
    let receiving = Receiving {
        n: 100,
        wanted: ANY,
        bytes: b"",
        got: &all,
        ended: Ok(()),
    };
    receives(rt, alloc, system, seats, receiving);
    let none = Receiving {
        got: &[],
        ended: ends(Errno::ENOMSG, 129),
        ..receiving
    };
    receives(rt, alloc, system, seats, none);
}

/// Of five messages three have type 1, and two another one.
fn chosen<S: Calls, R: Abort + Wait>(rt: &R, alloc: Global, system: &S, seats: &mut [S::Seat]) {
    let five = Sending {
        bytes: b"x",
        types: &[1, 2, 1, 3, 1],
        first: Some(1),
        ended: Ok(()),
        left: 0,
        flags: WAITS,
    };
    sends(rt, alloc, system, seats, five);
    let ones = Receiving {
        n: 5,
        wanted: Wanted { msgtyp: 1, ..ANY },
        bytes: b"x",
        got: &[got(6, 1, 1), got(7, 1, 3), got(8, 1, 5)],
        ended: ends(Errno::ENOMSG, 9),
    };
    receives(rt, alloc, system, seats, ones);
    let others = Receiving {
        n: 2,
        wanted: Wanted { msgtyp: -3, ..ANY },
        got: &[got(9, 2, 2), got(10, 3, 4)],
        ended: Ok(()),
        ..ones
    };
    receives(rt, alloc, system, seats, others);
}

/// A message with more bytes than are asked for ends a receipt, and stays pending.
fn short<S: Calls, R: Abort + Wait>(rt: &R, alloc: Global, system: &S, seats: &mut [S::Seat]) {
    let one = Sending {
        bytes: b"x",
        types: &[1],
        first: Some(1),
        ended: Ok(()),
        left: 0,
        flags: WAITS,
    };
    sends(rt, alloc, system, seats, one);
    let four = Sending {
        bytes: b"four",
        first: Some(2),
        ..one
    };
    sends(rt, alloc, system, seats, four);
    let fits = Receiving {
        n: 3,
        wanted: Wanted { size: 3, ..ANY },
        bytes: b"x",
        got: &[got(3, 1, 1)],
        ended: ends(Errno::E2BIG, 4),
    };
    receives(rt, alloc, system, seats, fits);
    let rest = Receiving {
        wanted: ANY,
        bytes: b"four",
        got: &[got(4, 1, 1)],
        ended: ends(Errno::ENOMSG, 5),
        ..fits
    };
    receives(rt, alloc, system, seats, rest);
}

/// The queue is removed while two messages are pending.
fn gone<S: Calls, R: Abort + Wait>(rt: &R, alloc: Global, system: &S, seats: &mut [S::Seat]) {
    let two = Sending {
        bytes: b"x",
        types: &[1, 2],
        first: Some(1),
        ended: Ok(()),
        left: 0,
        flags: WAITS,
    };
    sends(rt, alloc, system, seats, two);
    granted::gone(rt, system, seats, 0, 7);
    let none = Sending {
        first: None,
        ended: ends(Errno::EIDRM, 4),
        left: 2,
        ..two
    };
    sends(rt, alloc, system, seats, none);
    let nothing = Receiving {
        n: 3,
        wanted: ANY,
        bytes: b"x",
        got: &[],
        ended: ends(Errno::EIDRM, 4),
    };
    receives(rt, alloc, system, seats, nothing);
}

#[derive(Drop)]
struct Batches {
    alloc: Global,
    plot: Plot,
}

impl Day for Batches {
    fn spend<S: Calls, R: Abort + Threads + Wait>(
        &self,
        rt: &R,
        system: &S,
        seats: &mut [S::Seat],
    ) {
        let alloc = self.alloc;
        granted::made(rt, system, seats, 9, NEW, 4, 0, 0);
        match self.plot {
            Plot::Through => through(rt, alloc, system, seats),
            Plot::Full => full(rt, alloc, system, seats),
            Plot::Untyped => untyped(rt, alloc, system, seats),
            Plot::Most => most(rt, alloc, system, seats),
            Plot::Chosen => chosen(rt, alloc, system, seats),
            Plot::Short => short(rt, alloc, system, seats),
            Plot::Gone => gone(rt, alloc, system, seats),
        }
    }
}

/// All of it holds of a new queue, and all pages are free at the end.
fn plays<R: Abort + Threads + Wait>(rt: &R, alloc: Global, plot: Plot) {
    let left = left_by(rt, alloc, config(3, 1, 9), &Batches { alloc, plot });
    holds(rt, left.free_pages == 8, "all pages are free");
}

#[test]
fn batches_are_received_as_they_were_sent(rt: HostRuntime) {
    plays(&rt, rt.alloc(), Plot::Through);
}

#[test]
fn what_has_no_room_stays_with_its_sender(rt: HostRuntime) {
    plays(&rt, rt.alloc(), Plot::Full);
}

#[test]
fn a_letter_of_no_type_ends_a_batch(rt: HostRuntime) {
    plays(&rt, rt.alloc(), Plot::Untyped);
}

#[test]
fn a_batch_has_at_most_64_messages(rt: HostRuntime) {
    plays(&rt, rt.alloc(), Plot::Most);
}

#[test]
fn a_batch_has_only_messages_of_its_selection(rt: HostRuntime) {
    plays(&rt, rt.alloc(), Plot::Chosen);
    plays(&rt, rt.alloc(), Plot::Short);
}

#[test]
fn a_batch_of_a_removed_queue_answers_eidrm(rt: HostRuntime) {
    plays(&rt, rt.alloc(), Plot::Gone);
}
