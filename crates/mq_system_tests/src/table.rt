//! Tables of calls and of what they answer.

use crate::calls::{Wanted, cut, draft, get, receive, remove, send, set};
use crate::day::{Day, left_by};
use crate::system::Calls;
use mq_arena::Homecoming;
use mq_system::{Config, Delivered, Errno, GetFlags, Got, MAX_HEIGHT, Refused, SendRefused};
use mq_table::{Cut, Id};
use std::alloc::Global;
use std::process::Abort;
use std::sync::Wait;
use std::thread::Threads;

/// A call, at the moment that its number in the table says.
#[derive(Clone, Copy)]
pub(crate) enum Step {
    /// A key and flags.
    Get(i32, GetFlags),
    /// An id, a type and the text.
    Send(u32, i64, &'static [u8]),
    /// An id, what is expected, and the text that is received.
    Receive(u32, Wanted, &'static [u8]),
    /// An id and a quota.
    Set(u32, u64),
    Remove(u32),
    Stat(u32),
    /// A slot.
    Cut(u8),
    /// A text of so many bytes, which is spent at once.
    Draft(u64),
}

#[derive(Clone, Copy, PartialEq)]
pub(crate) enum Answer {
    /// The id, and the entry of its making.
    Id(u32, Option<u64>),
    /// Why a queue is neither found nor made nor shown, or a text not drafted.
    Errno(Errno),
    At(u64),
    /// The entry, the type and the whole length.
    Got(u64, i64, u64),
    /// The entry, and the number of events in the queue's log.
    Removed(u64, u64),
    Refused(Errno, Option<u64>),
    /// How many messages and bytes are pending, and the quota.
    Shown(u64, u64, u64),
    /// How many entries were drained before, and how many of these are makings and are of the queue
    /// that they leave; how many are returned of removed queues, and of the one that is there.
    Cut(u64, u32, Option<u64>, usize, usize),
    Drafted,
    /// A text is another one, or was not freed.
    Astray,
}

fn refusal(refused: Refused) -> Answer {
    Answer::Refused(refused.errno, refused.entry)
}

/// Spends a text that must have these bytes.
fn spent<S: Calls, R: Wait>(
    rt: &R,
    system: &S,
    text: S::Text,
    bytes: &[u8],
    answer: Answer,
) -> Answer {
    let same = system.shows(&text, bytes);
    match system.spend(rt, text) {
        Homecoming::Home if same => answer,
        _ => Answer::Astray,
    }
}

fn got<S: Calls, R: Abort + Wait>(
    rt: &R,
    system: &S,
    seats: &mut [S::Seat],
    key: i32,
    flags: GetFlags,
    moment: u64,
) -> Answer {
    match get(rt, system, seats, key, flags, moment) {
        Ok(Got { id, made }) => Answer::Id(id.number(), made),
        Err(errno) => Answer::Errno(errno),
    }
}

fn sent<S: Calls, R: Abort + Wait>(
    rt: &R,
    system: &S,
    seats: &mut [S::Seat],
    id: u32,
    mtype: i64,
    bytes: &[u8],
    moment: u64,
) -> Answer {
    let text = match system.draft_of(rt, bytes) {
        Ok(text) => text,
        Err(refusal) => return Answer::Errno(refusal.errno()),
    };
    match send(rt, system, seats, id, mtype, text, moment) {
        Ok(entry) => Answer::At(entry),
        Err(SendRefused { refused, text }) => spent(rt, system, text, bytes, refusal(refused)),
    }
}

fn received<S: Calls, R: Abort + Wait>(
    rt: &R,
    system: &S,
    seats: &mut [S::Seat],
    id: u32,
    wanted: Wanted,
    bytes: &[u8],
    moment: u64,
) -> Answer {
    match receive(rt, system, seats, id, wanted, moment) {
        Ok(
            Delivered {
                entry,
                mtype,
                sender: _,
                tag: _,
                length,
                text,
            },
        ) => spent(rt, system, text, bytes, Answer::Got(entry, mtype, length)),
        Err(refused) => refusal(refused),
    }
}

fn changed<S: Calls, R: Abort + Wait>(
    rt: &R,
    system: &S,
    seats: &mut [S::Seat],
    id: u32,
    qbytes: u64,
    moment: u64,
) -> Answer {
    match set(rt, system, seats, id, qbytes, moment) {
        Ok(entry) => Answer::At(entry),
        Err(refused) => refusal(refused),
    }
}

fn removed<S: Calls, R: Abort + Wait>(
    rt: &R,
    system: &S,
    seats: &mut [S::Seat],
    id: u32,
    moment: u64,
) -> Answer {
    match remove(rt, system, seats, id, moment) {
        Ok(removal) => Answer::Removed(removal.entry, removal.log.len()),
        Err(refused) => refusal(refused),
    }
}

fn shown<S: Calls, R: Abort + Wait>(rt: &R, system: &S, seats: &mut [S::Seat], id: u32) -> Answer {
    let seat = crate::calls::seat(rt, seats, 1);
    match system.stat(seat, Id::from_number(id)) {
        Ok(figures) => Answer::Shown(figures.qnum, figures.cbytes, figures.qbytes),
        Err(errno) => Answer::Errno(errno),
    }
}

fn cut_off<S: Calls, R: Abort + Wait>(
    rt: &R,
    system: &S,
    seats: &mut [S::Seat],
    slot: u8,
) -> Answer {
    let Cut {
        first,
        made,
        base,
        past,
        last,
    } = cut(rt, system, seats, slot);
    let places = match base {
        Some(base) => Some(base.places),
        None => None,
    };
    Answer::Cut(first, made, places, past.len(), last.len())
}

fn drafted<S: Calls, R: Wait>(rt: &R, system: &S, len: u64) -> Answer {
    match draft(rt, system, len) {
        Ok(text) => match system.spend(rt, text) {
            Homecoming::Home => Answer::Drafted,
            Homecoming::Stray => Answer::Astray,
        },
        Err(refusal) => Answer::Errno(refusal.errno()),
    }
}

fn called<S: Calls, R: Abort + Wait>(
    rt: &R,
    system: &S,
    seats: &mut [S::Seat],
    step: Step,
    moment: u64,
) -> Answer {
    match step {
        Step::Get(key, flags) => got(rt, system, seats, key, flags, moment),
        Step::Send(id, mtype, bytes) => sent(rt, system, seats, id, mtype, bytes, moment),
        Step::Receive(id, wanted, bytes) => {
            received(rt, system, seats, id, wanted, bytes, moment)
        }
        Step::Set(id, qbytes) => changed(rt, system, seats, id, qbytes, moment),
        Step::Remove(id) => removed(rt, system, seats, id, moment),
        Step::Stat(id) => shown(rt, system, seats, id),
        Step::Cut(slot) => cut_off(rt, system, seats, slot),
        Step::Draft(len) => drafted(rt, system, len),
    }
}

/// How many changes a seat made in all slots.
fn changes_of<S: Calls, R: Abort>(rt: &R, system: &S, seat: &S::Seat) -> u64 {
    let mut all = 0u64;
    for slot in 0..system.slots() {
        all = all.wrapping_add(system.count(rt, seat, slot));
    }
    all
}

/// How many changes the seats made in all slots.
fn changes<S: Calls, R: Abort>(rt: &R, system: &S, seats: &[S::Seat]) -> u64 {
    let mut all = 0u64;
    for seat in seats.iter() {
        all = all.wrapping_add(changes_of(rt, system, seat));
    }
    all
}

/// How many changes a call made that answers so.
fn counts(answer: Answer) -> u64 {
    match answer {
        Answer::Id(_, Some(_)) | Answer::At(_) | Answer::Got(..) | Answer::Removed(..) => 1,
        _ => 0,
    }
}

/// A call answers as it must, and counts as one change if it changed something.
fn plays_step<S: Calls, R: Abort + Wait>(
    rt: &R,
    system: &S,
    seats: &mut [S::Seat],
    (step, wanted): (Step, Answer),
    moment: u64,
) {
    let before = changes(rt, system, seats);
    let answer = called(rt, system, seats, step, moment);
    let made = changes(rt, system, seats).wrapping_sub(before);
    if answer != wanted {
        panic!(rt; "call {moment} answers otherwise");
    }
    if made != counts(wanted) {
        panic!(rt; "call {moment} counts otherwise");
    }
}

/// A day of these calls, one after another.
#[derive(Drop)]
struct Table<'t> {
    steps: &'t [(Step, Answer)],
}

impl<'t> Day for Table<'t> {
    fn spend<S: Calls, R: Abort + Threads + Wait>(
        &self,
        rt: &R,
        system: &S,
        seats: &mut [S::Seat],
    ) {
        let mut moment = 0u64;
        for step in self.steps {
            plays_step(rt, system, seats, *step, moment);
            moment = moment.saturating_add(1);
        }
    }
}

/// A new system answers these calls so, and all its pages are free at the end.
pub(crate) fn plays<R: Abort + Threads + Wait>(
    rt: &R,
    alloc: Global,
    config: Config,
    steps: &[(Step, Answer)],
) {
    let left = left_by(rt, alloc, config, &Table { steps });
    if config.height > MAX_HEIGHT || left.free_pages != 1u32 << config.height {
        panic!(rt; "pages are not home at the end");
    }
}
