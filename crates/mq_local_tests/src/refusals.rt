//! Refusals, which have the number of their slot's entries.

use crate::calls::{CREATE, Wanted, drafted, first, get, receive, remove, send, set, spent};
use crate::day::{Day, config, lives};
use crate::holds;
use crate::system::Calls;
use mq_calls::{Delivered, Errno, Refused, SendRefused};
use std::process::Abort;

/// A call.
#[derive(Clone, Copy)]
enum Step {
    /// An id, a type and a length.
    Send(u32, i64, u64),
    Receive(u32, Wanted),
    /// An id and a quota.
    Set(u32, u64),
    Remove(u32),
}

/// The entry of a call, or why it is refused.
type Answer = Result<u64, Refused>;

fn refused(errno: Errno, entry: Option<u64>) -> Answer {
    Err(Refused { errno, entry })
}

fn sent<S: Calls>(rt: &impl Abort, system: &mut S, id: u32, mtype: i64, length: u64) -> Answer {
    let text = drafted(rt, system, length);
    match send(system, id, mtype, text, 5) {
        Ok(entry) => Ok(entry),
        Err(SendRefused { refused, text }) => {
            spent(rt, system, text);
            Err(refused)
        }
    }
}

fn received<S: Calls>(rt: &impl Abort, system: &mut S, id: u32, wanted: Wanted) -> Answer {
    let Delivered { entry, text, .. } = receive(system, id, wanted, 6)?;
    spent(rt, system, text);
    Ok(entry)
}

fn called<S: Calls>(rt: &impl Abort, system: &mut S, step: Step) -> Answer {
    match step {
        Step::Send(id, mtype, length) => sent(rt, system, id, mtype, length),
        Step::Receive(id, wanted) => received(rt, system, id, wanted),
        Step::Set(id, qbytes) => set(system, id, qbytes, 7),
        Step::Remove(id) => Ok(remove(system, id, 8)?.entry),
    }
}

/// A day of these calls, after so many queues are made.
#[derive(Drop)]
struct Table<'t> {
    queues: u8,
    steps: &'t [(Step, Answer)],
}

impl<'t> Day for Table<'t> {
    fn spend<S: Calls, R: Abort>(&self, rt: &R, system: &mut S) {
        for _ in 0..self.queues {
            holds(rt, get(system, 0, CREATE, 4).is_ok(), "no queue");
        }
        for (step, wanted) in self.steps {
            let answer = called(rt, system, *step);
            holds(rt, answer == *wanted, "a call answers otherwise");
        }
    }
}

#[test]
fn an_error_reports_how_much_had_happened(rt: HostRuntime) {
    let gone = refused(Errno::EIDRM, Some(5));
    let never = refused(Errno::EINVAL, Some(5));
    // The type is checked before the id.
    let untyped = refused(Errno::EINVAL, None);
    let other = Wanted {
        msgtyp: 1,
        except: true,
        ..first(9)
    };
    let steps: [(Step, Answer); 19] = [
        (Step::Receive(0, first(9)), refused(Errno::ENOMSG, Some(1))),
        (Step::Set(0, 131_073), refused(Errno::EPERM, Some(1))),
        (Step::Set(0, 2), Ok(1)),
        (Step::Send(0, 1, 3), refused(Errno::EAGAIN, Some(2))),
        (Step::Send(0, 1, 2), Ok(2)),
        (Step::Receive(0, first(1)), refused(Errno::E2BIG, Some(3))),
        (Step::Receive(0, other), refused(Errno::ENOMSG, Some(3))),
        (Step::Receive(0, first(2)), Ok(3)),
        (Step::Remove(0), Ok(4)),
        (Step::Send(0, 1, 2), gone),
        (Step::Receive(0, first(2)), gone),
        (Step::Set(0, 131_073), gone),
        (Step::Remove(0), gone),
        (Step::Send(64, 1, 2), never),
        (Step::Receive(64, first(2)), never),
        (Step::Set(64, 1), never),
        (Step::Remove(u32::MAX - 63), never),
        (Step::Send(0, 0, 2), untyped),
        (Step::Send(0, i64::MIN, 2), untyped),
    ];
    let table = Table {
        queues: 1,
        steps: &steps,
    };
    lives(&rt, rt.alloc(), config(0, 1, 9), &table);
}

#[test]
fn an_id_that_was_never_given_has_entries_where_its_slot_is_there(rt: HostRuntime) {
    let past = refused(Errno::EINVAL, None);
    let of_slots: [(Step, Answer); 9] = [
        (Step::Send(2, 1, 1), past),
        (Step::Send(63, 1, 0), past),
        (Step::Send(u32::MAX, 1, 1), past),
        (Step::Receive(2, first(9)), past),
        (Step::Receive(u32::MAX, first(9)), past),
        (Step::Set(63, 1), past),
        (Step::Set(u32::MAX, 131_073), past),
        (Step::Remove(66), past),
        (Step::Remove(u32::MAX), past),
    ];
    let table = Table {
        queues: 2,
        steps: &of_slots,
    };
    lives(&rt, rt.alloc(), config(0, 2, 9), &table);
    // The last id is of the last slot.
    let never = refused(Errno::EINVAL, Some(0));
    let of_none: [(Step, Answer); 5] = [
        (Step::Remove(0), never),
        (Step::Remove(63), never),
        (Step::Remove(u32::MAX), never),
        (Step::Set(u32::MAX, 1), never),
        (Step::Send(u32::MAX, 1, 1), never),
    ];
    let table = Table {
        queues: 0,
        steps: &of_none,
    };
    lives(&rt, rt.alloc(), config(0, 64, 32_767), &table);
}
