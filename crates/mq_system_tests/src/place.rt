//! A day of a system's only slot. Seat 1 makes, sends, sets and removes, and seat 2 receives.
use crate::calls::{
    CREATE, NEW, NO_FLAG, TAG, Wanted, cut, get, is, is_first, is_second, remove, seat, set,
};
use crate::day::{Day, config, left_by};
use crate::system::Calls;
use crate::{granted, holds};
use mq_calls::{Errno, Removal, SendRefused};
use mq_system::{GetFlags, RecvFlags, SendFlags};
use mq_table::Id;
use std::process::Abort;
use std::sync::Wait;
use std::thread::Threads;

/// A receiver of whole texts that does not wait.
const AT_ONCE: RecvFlags = RecvFlags {
    nowait: true,
    noerror: false,
    except: false,
};

/// The first message, which is waited for and may be truncated to a byte.
const CUT: Wanted = Wanted {
    size: 1,
    msgtyp: 0,
    except: false,
    noerror: true,
    nowait: false,
};

/// A queue is made under key 5, and no second one beside it.
fn made<S: Calls, R: Abort + Wait>(rt: &R, system: &S, seats: &mut [S::Seat]) {
    granted::made(rt, system, seats, 5, NEW, 4, 0, 0);
    not_got(rt, system, seats, 0, CREATE, Errno::ENOSPC);
}

/// No queue is found or made, for this reason.
fn not_got<S: Calls, R: Abort + Wait>(
    rt: &R,
    system: &S,
    seats: &mut [S::Seat],
    key: i32,
    flags: GetFlags,
    wanted: Errno,
) {
    let answer = get(rt, system, seats, key, flags, 4);
    holds(rt, answer == Err(wanted), "why there is no queue");
}

/// The queue is found by its key alone.
fn found<S: Calls, R: Abort + Wait>(rt: &R, system: &S, seats: &mut [S::Seat]) {
    let got = granted::got(rt, system, seats, 5, NO_FLAG, 4);
    granted::is_found(rt, got);
    not_got(rt, system, seats, 6, NO_FLAG, Errno::ENOENT);
}

/// A quota is not set, for this reason.
fn not_set<S: Calls, R: Abort + Wait>(
    rt: &R,
    system: &S,
    seats: &mut [S::Seat],
    qbytes: u64,
    errno: Errno,
    entries: u64,
) {
    let refused = set(rt, system, seats, 0, qbytes, 5).expect_err(rt, "a quota is refused");
    is(rt, refused, errno, Some(entries));
}

/// A quota over the limit is refused, and one of two bytes is set.
fn changed<S: Calls, R: Abort + Wait>(rt: &R, system: &S, seats: &mut [S::Seat]) {
    not_set(rt, system, seats, 131_073, Errno::EPERM, 1);
    let entry = granted::changed(rt, system, seats, 0, 2, 5);
    holds(rt, entry == 1, "it is set by entry 1");
}

/// What a sender answers that would wait for room.
fn send<S: Calls, R: Abort + Wait>(
    rt: &R,
    system: &S,
    seats: &mut [S::Seat],
    text: S::Text,
) -> Result<u64, SendRefused<S::Text>> {
    let flags = SendFlags { nowait: false };
    let seat = seat(rt, seats, 0);
    system.msgsnd(rt, seat, Id::of(0, 0), 1, TAG, text, flags, 6)
}

/// The entry of a text that is sent where there is room, by a sender that would wait.
fn sent<S: Calls, R: Abort + Wait>(
    rt: &R,
    system: &S,
    seats: &mut [S::Seat],
    text: S::Text,
) -> u64 {
    match send(rt, system, seats, text) {
        Ok(entry) => entry,
        Err(SendRefused { refused, text }) => {
            holds(rt, refused.errno == Errno::ENOMEM, "there is room");
            match send(rt, system, seats, text) {
                Ok(entry) => entry,
                Err(_refused) => panic!(rt; "a text is refused twice"),
            }
        }
    }
}

/// A text is not sent by a sender that does not wait, and is returned.
fn handed_back<S: Calls, R: Abort + Wait>(
    rt: &R,
    system: &S,
    seat: &mut S::Seat,
    text: S::Text,
    errno: Errno,
    entries: u64,
) -> S::Text {
    let flags = SendFlags { nowait: true };
    match system.msgsnd(rt, seat, Id::of(0, 0), 1, 8, text, flags, 6) {
        Ok(_) => panic!(rt; "a text was sent that is refused"),
        Err(SendRefused { refused, text }) => {
            is(rt, refused, errno, Some(entries));
            holds(rt, system.shows(&text, b"hi"), "its own text");
            text
        }
    }
}

/// A receiver that does not wait gets no text of more than a byte.
fn not_received<S: Calls, R: Abort + Wait>(
    rt: &R,
    system: &S,
    seats: &mut [S::Seat],
    errno: Errno,
    entries: u64,
) {
    let seat = seat(rt, seats, 1);
    match system.msgrcv(rt, seat, Id::of(0, 0), 1, 0, AT_ONCE, 7) {
        Ok(delivered) => {
            system.spend(rt, delivered.text);
            panic!(rt; "a text was received that is refused")
        }
        Err(refused) => is(rt, refused, errno, Some(entries)),
    }
}

/// What was sent is received, truncated to a byte.
fn received<S: Calls, R: Abort + Wait>(rt: &R, system: &S, seats: &mut [S::Seat]) {
    let delivered = granted::received(rt, system, seats, 0, CUT, 7);
    let text = granted::text_of(rt, delivered, 3, 1, 2);
    holds(rt, system.shows(&text, b"h"), "its first byte");
    system.spend(rt, text);
}

/// A drain while the text is pending returns all that happened, and a second one nothing more.
fn cut_twice<S: Calls, R: Abort + Wait>(rt: &R, system: &S, seats: &mut [S::Seat]) {
    let first = cut(rt, system, seats, 0);
    is_first(rt, &first);
    holds(rt, first.last.len() == 3, "what happened in it");
    let second = cut(rt, system, seats, 0);
    is_second(rt, &second, 3);
}

/// What the second seat is shown of the queue, of which it knows all.
fn shown<S: Calls, R: Abort + Wait>(rt: &R, system: &S, seats: &mut [S::Seat], waiting: u64) {
    let figures = granted::shown(rt, system, seat(rt, seats, 1));
    holds(rt, figures.qnum == waiting, "what waits");
    holds(rt, figures.qbytes == 2, "the quota");
}

/// The queue is removed with nothing in it.
fn removed<S: Calls, R: Abort + Wait>(rt: &R, system: &S, seats: &mut [S::Seat]) {
    let Removal { entry, log } = granted::removed(rt, system, seats, 0, 8);
    holds(rt, entry == 4 && log.len() == 5, "it is removed by entry 4");
}

/// A removed queue is not removed again.
fn not_removed<S: Calls, R: Abort + Wait>(rt: &R, system: &S, seats: &mut [S::Seat]) {
    match remove(rt, system, seats, 0, 9) {
        Ok(_) => panic!(rt; "a removed queue was removed"),
        Err(refused) => is(rt, refused, Errno::EIDRM, Some(5)),
    }
}

/// The id of a removed queue answers EIDRM, whatever is asked of it.
fn is_gone<S: Calls, R: Abort + Wait>(rt: &R, system: &S, seats: &mut [S::Seat]) {
    not_received(rt, system, seats, Errno::EIDRM, 5);
    not_set(rt, system, seats, 2, Errno::EIDRM, 5);
    not_removed(rt, system, seats);
    granted::is_removed(rt, system, seat(rt, seats, 1));
}

/// No queue is found by either key.
fn none_is_there<S: Calls, R: Abort + Wait>(rt: &R, system: &S, seats: &mut [S::Seat]) {
    not_got(rt, system, seats, 5, NO_FLAG, Errno::ENOENT);
    not_got(rt, system, seats, 6, NO_FLAG, Errno::ENOENT);
}

/// A text is sent, and a second one finds no room and is returned.
fn filled<S: Calls, R: Abort + Wait>(rt: &R, system: &S, seats: &mut [S::Seat]) -> S::Text {
    let text = granted::drafted(rt, system, b"hi");
    let entry = sent(rt, system, seats, text);
    holds(rt, entry == 2, "it is sent by entry 2");
    let text = granted::drafted(rt, system, b"hi");
    handed_back(rt, system, seat(rt, seats, 0), text, Errno::EAGAIN, 3)
}

/// The pending message is shown, drained from the log and received, and then none is pending.
fn emptied<S: Calls, R: Abort + Wait>(rt: &R, system: &S, seats: &mut [S::Seat]) {
    not_received(rt, system, seats, Errno::E2BIG, 3);
    shown(rt, system, seats, 1);
    cut_twice(rt, system, seats);
    shown(rt, system, seats, 1);
    received(rt, system, seats);
    shown(rt, system, seats, 0);
}

/// All calls of a system of one slot.
#[derive(Drop)]
struct OneSlot;

impl Day for OneSlot {
    fn spend<S: Calls, R: Abort + Threads + Wait>(
        &self,
        rt: &R,
        system: &S,
        seats: &mut [S::Seat],
    ) {
        none_is_there(rt, system, seats);
        made(rt, system, seats);
        found(rt, system, seats);
        not_received(rt, system, seats, Errno::ENOMSG, 1);
        changed(rt, system, seats);
        let text = filled(rt, system, seats);
        emptied(rt, system, seats);
        removed(rt, system, seats);
        let text = handed_back(rt, system, seat(rt, seats, 1), text, Errno::EIDRM, 5);
        system.spend(rt, text);
        is_gone(rt, system, seats);
        none_is_there(rt, system, seats);
    }
}

#[test]
fn a_slot_in_its_place_answers_both_seats(rt: HostRuntime) {
    let left = left_by(&rt, rt.alloc(), config(1, 1, 9), &OneSlot);
    holds(&rt, left.free_pages == 2, "its pages are free");
}
