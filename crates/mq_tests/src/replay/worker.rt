//! What each thread does.

use crate::replay::asks::{Nothing, answer, counts, report};
use crate::replay::calls::{Answer, Asked, HowLong, Kept, Told};
use crate::replay::chooser::Chooser;
use mq::{Caller, Errno, Names, Worker};
use std::sync::Wait;
use std::sync::atomic::{AtomicU32, Ordering};
use std::thread::yield_now;
use std::time::Clock;

/// A seat's first calls do not wait for good, up to this one; the next ones may; and the last ones
/// do not.
const FIRST: u64 = 300;

const WAITING: u64 = 340;

pub(crate) const ALL: u64 = 380;

/// Makes calls that do not wait for good, then calls that may, and then more that do not.
///
/// It ends in every schedule. Each worker that is through with its first calls adds one to
/// `through`, and the last one to do so removes each queue that is there, again where there was no
/// memory for it. Its report shows all of them: a making is shown before it is answered. A call
/// that may wait names an id that its seat knew when it was through, or one that is never given. So
/// the queue that it names, if there was one, is gone at the latest when the last one through has
/// removed what was there; and then it answers EIDRM, if it has not ended before.
#[derive(Drop)]
pub(crate) struct Asker<'a> {
    /// What its choices begin with.
    pub(crate) seed: u64,
    /// How many workers there are.
    pub(crate) all: u32,
    /// How many are through with their first calls.
    pub(crate) through: &'a AtomicU32,
    /// Where its calls are kept, with room for all of them.
    pub(crate) kept: Kept,
}

/// Makes a call, of whose answer the chooser learns, and keeps it.
fn ask<N: Names, R: Wait + Clock>(
    caller: &mut Caller<'_, Nothing, N, R>,
    chooser: &mut Chooser,
    kept: &mut Kept,
    asked: Asked,
    moment: u64,
) {
    if let Some(answer) = answer(caller, kept, &asked, moment) {
        chooser.learn(&answer);
        kept.add(moment, asked, answer);
    }
}

/// A number that no other call has: the seat's and the call's.
fn stamp(number: u16, step: u64) -> u64 {
    u64::from(number).wrapping_mul(10_000).wrapping_add(step)
}

/// The calls between these numbers, which do not wait, or not long. Now and then the thread
/// yields.
fn steps<N: Names, R: Wait + Clock>(
    caller: &mut Caller<'_, Nothing, N, R>,
    chooser: &mut Chooser,
    kept: &mut Kept,
    from: u64,
    to: u64,
) {
    for step in from..to {
        let moment = stamp(caller.number(), step);
        if let Some(asked) = chooser.next(caller.alloc, step, moment) {
            ask(caller, chooser, kept, asked, moment);
        }
        if chooser.below(4) == 0 {
            yield_now();
        }
    }
}

/// The calls that may wait.
fn waits<N: Names, R: Wait + Clock>(
    caller: &mut Caller<'_, Nothing, N, R>,
    chooser: &mut Chooser,
    kept: &mut Kept,
) {
    for step in FIRST..WAITING {
        let moment = stamp(caller.number(), step);
        let asked = match chooser.below(8) {
            0..=2 => Some(chooser.send(moment, false)),
            3..=5 => Some(chooser.receive(false)),
            6 => chooser.send_texts(caller.alloc, moment, HowLong::Forever),
            _ => Some(chooser.receive_texts(HowLong::Forever)),
        };
        if let Some(asked) = asked {
            ask(caller, chooser, kept, asked, moment);
        }
    }
}

/// Removes this queue; a call for which there was no memory is made again.
fn remove<N: Names, R: Wait + Clock>(
    caller: &mut Caller<'_, Nothing, N, R>,
    kept: &mut Kept,
    id: u32,
    moment: u64,
) {
    for _ in caller.rt.forever() {
        let asked = Asked::Remove { id };
        let Some(answer) = answer(caller, kept, &asked, moment) else {
            return;
        };
        let again = matches!(answer, Answer::Refused(Errno::ENOMEM, _));
        kept.add(moment, asked, answer);
        if !again {
            return;
        }
    }
}

/// Removes each queue that is there.
fn clear<N: Names, R: Wait + Clock>(caller: &mut Caller<'_, Nothing, N, R>, kept: &mut Kept) {
    let moment = stamp(caller.number(), ALL);
    let Some(rows) = report(caller.system, &mut caller.seat) else {
        return;
    };
    kept.add(moment, Asked::Report, Answer::Rows(rows));
    let mut slot = 0u32;
    for row in &rows {
        if row.live {
            let seq = row.made.saturating_sub(1);
            let id = seq.wrapping_mul(64).wrapping_add(slot);
            remove(caller, kept, id, moment);
        }
        slot = slot.wrapping_add(1);
    }
}

impl<'a> Worker<Nothing> for Asker<'a> {
    type Answer = Told;

    fn work<N: Names, R: Wait + Clock>(self, caller: &mut Caller<'_, Nothing, N, R>) -> Told {
        let Asker {
            seed,
            all,
            through,
            mut kept,
        } = self;
        let mut chooser = Chooser::new(seed);
        steps(caller, &mut chooser, &mut kept, 0, FIRST);
        if through.fetch_add(1, Ordering::SeqCst).wrapping_add(1) == all {
            clear(caller, &mut kept);
        }
        waits(caller, &mut chooser, &mut kept);
        steps(caller, &mut chooser, &mut kept, WAITING, ALL);
        Told {
            seat: caller.number(),
            kept,
            counts: counts(caller.system, &caller.seat),
        }
    }
}
