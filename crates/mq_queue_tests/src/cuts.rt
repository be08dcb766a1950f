//! A queue whose log is drained: what is returned, and what later calls answer.

use crate::calls::{Answer, Queue, close, message, receive, removed, send, set};
use mq_message::{Selection, VecBody};
use mq_queue::{Base, BaseEntries, Event, Figures, Log, NO_FIGURES, NoNotice, QueueState};
use mq_select::ListWaiting;
use std::alloc::{AllocError, Global};
use std::process::Abort;
use std::test::Fail;

/// The waiting list of a `Queue`.
type List = ListWaiting<VecBody>;

/// Drains the log, at the second try when out of memory: then nothing has changed.
fn cut(rt: &impl Abort, queue: &mut QueueState<VecBody, List>) -> (Base, Vec<Event>) {
    let before = (queue.first(), queue.log_len(), queue.figures());
    if let Ok(cut) = queue.cut() {
        return cut;
    }
    let after = (queue.first(), queue.log_len(), queue.figures());
    holds!(rt; after == before, "a refused cut changes the queue");
    match queue.cut() {
        Ok(cut) => cut,
        Err(AllocError) => panic!(rt; "out of memory"),
    }
}

/// Checks the place and the length of each message of a base.
fn check_waiting(rt: &impl Abort, waiting: &BaseEntries, wanted: &[(u64, u64)]) {
    holds!(rt; waiting.len() == wanted.len() as u64);
    for i in 0..wanted.len() {
        let Some(entry) = waiting.get(i as u64) else {
            panic!(rt; "a message is missing");
        };
        holds!(rt; (entry.place, entry.length) == wanted[i]);
    }
    holds!(rt; waiting.get(wanted.len() as u64).is_none());
}

/// Checks the base of a queue after its beginning.
fn check_begun(rt: &impl Abort, base: &Base) {
    holds!(rt; base.places == 5);
    holds!(rt; base.figures == FIGURES);
    check_waiting(rt, &base.waiting, &[(1, 1), (3, 3)]);
}

/// Checks what a drain returns of a queue after its beginning, with so many events since then.
fn check_cut(rt: &impl Abort, cut: &(Base, Vec<Event>), events: usize) {
    let (base, tail) = cut;
    check_begun(rt, base);
    holds!(rt; tail.len() == events);
}

/// Checks what the first drain returns: all events, and nothing before them.
fn check_first(rt: &impl Abort, cut: &(Base, Vec<Event>)) {
    let (base, tail) = cut;
    holds!(rt; base.places == 0);
    holds!(rt; base.figures == NO_FIGURES);
    check_waiting(rt, &base.waiting, &[]);
    holds!(rt; tail.len() == 5);
}

/// Three messages are sent, of types 5, 6 and 7 and of 1, 2 and 3 bytes, and the second is
/// received.
fn begin(alloc: Global, queue: &mut Queue) -> Result<[Answer; 4], AllocError> {
    Ok([
        send(queue, message(alloc, 5, 1)?, 60),
        send(queue, message(alloc, 6, 2)?, 61),
        send(queue, message(alloc, 7, 3)?, 62),
        receive(queue, 9, Selection::Exact(6), false, 63),
    ])
}

/// What is answered to that.
const BEGUN: [Answer; 4] = [
    Answer::At(1),
    Answer::At(2),
    Answer::At(3),
    Answer::Got(4, 2, 2, 2),
];

/// The figures then.
const FIGURES: Figures = Figures {
    qnum: 2,
    cbytes: 4,
    qbytes: 131_072,
    stime: 62,
    rtime: 63,
    ctime: 50,
    lspid: 3,
    lrpid: 4,
};

/// A queue after this beginning.
fn begun(rt: &impl Abort, alloc: Global) -> Result<Queue, AllocError> {
    let mut queue = Queue::made(alloc, 7, 2, 50, &mut NoNotice)?;
    match begin(alloc, &mut queue) {
        Ok(answers) => {
            holds!(rt; answers == BEGUN);
            Ok(queue)
        }
        Err(refused) => {
            close(queue);
            Err(refused)
        }
    }
}

/// Checks what a queue shows once its beginning was drained.
fn check_kept(rt: &impl Abort, queue: &Queue) {
    check_begun(rt, queue.base());
    holds!(rt; (queue.first(), queue.log_len()) == (5, 5));
    holds!(rt; queue.event(4) == None);
    holds!(rt; queue.figures() == FIGURES);
}

#[test]
fn a_cut_hands_out_the_log_and_keeps_what_waits(rt: HostRuntime) -> Result<(), Fail> {
    let mut queue = begun(&rt, rt.alloc())?;
    check_first(&rt, &cut(&rt, &mut queue));
    check_kept(&rt, &queue);
    let received = receive(&mut queue, 9, Selection::Any, false, 64);
    holds!(rt; received == Answer::Got(5, 1, 1, 1));
    holds!(rt; queue.log_len() == 6);
    holds!(rt; queue.event(5).is_some());
    holds!(rt; queue.event(6) == None);
    check_cut(&rt, &cut(&rt, &mut queue), 1);
    check_waiting(&rt, &queue.base().waiting, &[(3, 3)]);
    close(queue);
    Ok(())
}

#[test]
fn a_second_cut_at_once_hands_out_no_event(rt: HostRuntime) -> Result<(), Fail> {
    let mut queue = begun(&rt, rt.alloc())?;
    check_first(&rt, &cut(&rt, &mut queue));
    check_cut(&rt, &cut(&rt, &mut queue), 0);
    check_cut(&rt, &cut(&rt, &mut queue), 0);
    close(queue);
    Ok(())
}

/// Checks the log of a queue that is removed after its beginning was drained and a quota set.
fn check_removed(rt: &impl Abort, log: Log) {
    holds!(rt; (log.first(), log.len()) == (5, 7));
    holds!(rt; log.get(4) == None);
    let removal = Event::Removed {
        seat: 2,
        moment: 90,
    };
    holds!(rt; log.get(6) == Some(removal));
    holds!(rt; log.get(7) == None);
    check_cut(rt, &log.into_parts(), 2);
}

#[test]
fn a_removed_queue_hands_out_its_base(rt: HostRuntime) -> Result<(), Fail> {
    let mut queue = begun(&rt, rt.alloc())?;
    let _ = cut(&rt, &mut queue);
    let quota = set(&mut queue, 3, 70);
    let full = queue.refuses_send(5, 0);
    let log = removed(queue, 90);
    holds!(rt; quota == Answer::At(5));
    holds!(rt; full.is_some(), "four bytes wait, and three may");
    check_removed(&rt, log);
    Ok(())
}
