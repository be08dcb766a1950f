//! The log and the figures of a queue: which events calls append, and that a refused call changes
//! neither. Also a queue with as many messages as its quota has bytes, and a log of many events.

use crate::calls::{Answer, Queue, Step, check, close, message, receive, removed, send, set};
use mq_message::Selection;
use mq_queue::{Event, Figures, Log, NoNotice, QueueError};
use std::alloc::{AllocError, Global};
use std::process::Abort;
use std::test::Fail;

/// A sending at the first moment, a receipt and a new quota at the second, and the same quota once
/// more at the third, each by a seat of its own.
fn visit(alloc: Global, queue: &mut Queue, moments: [u64; 3]) -> Result<[Answer; 5], AllocError> {
    let [sent, received, changed] = moments;
    Ok([
        send(queue, message(alloc, 5, 5)?, sent),
        receive(queue, 9, Selection::Exact(6), false, received),
        receive(queue, 9, Selection::Any, false, received),
        set(queue, 100, received),
        set(queue, 100, changed),
    ])
}

/// What a visit is answered.
const VISITED: [Answer; 5] = [
    Answer::At(1),
    Answer::Refused(QueueError::NoMessage),
    Answer::Got(2, 1, 5, 5),
    Answer::At(3),
    Answer::At(4),
];

/// Checks the answers of a visit, and the figures after it.
fn check_visit(rt: &impl Abort, alloc: Global, moments: [u64; 3]) -> Result<(), AllocError> {
    let mut queue = Queue::made(alloc, 7, 2, 50, &mut NoNotice)?;
    let visited = visit(alloc, &mut queue, moments);
    let figures = queue.figures();
    close(queue);
    holds!(rt; visited? == VISITED);
    let [stime, rtime, ctime] = moments;
    let wanted = Figures {
        qnum: 0,
        cbytes: 0,
        qbytes: 100,
        stime,
        rtime,
        ctime,
        lspid: 3,
        lrpid: 4,
    };
    holds!(rt; figures == wanted);
    Ok(())
}

#[test]
fn figures_show_the_last_moment_whatever_it_is(rt: HostRuntime) -> Result<(), Fail> {
    let cases: [[u64; 3]; 4] = [
        [60, 70, 80],
        [80, 70, 60],
        [0, 0, 0],
        [u64::MAX, u64::MAX, 1],
    ];
    for moments in cases {
        check_visit(&rt, rt.alloc(), moments)?;
    }
    Ok(())
}

/// A queue of at most three bytes, which are pending.
const FILLED: [(Step, Answer); 2] = [
    (Step::Set(3), Answer::At(1)),
    (Step::Send(1, 3), Answer::At(2)),
];

/// Each refusal of such a queue, and the first in order where several apply.
const REFUSED: [(Step, Answer); 7] = [
    (
        Step::Send(0, 65_537),
        Answer::Refused(QueueError::TypeInvalid),
    ),
    (Step::Send(1, 65_537), Answer::Refused(QueueError::TooLong)),
    (Step::Send(1, 1), Answer::Refused(QueueError::Full)),
    (
        Step::Receive(9, Selection::Exact(2), true),
        Answer::Refused(QueueError::NoMessage),
    ),
    (
        Step::Receive(2, Selection::Any, false),
        Answer::Refused(QueueError::TooBig),
    ),
    (Step::Set(131_073), Answer::Refused(QueueError::OverLimit)),
    (Step::Set(u64::MAX), Answer::Refused(QueueError::OverLimit)),
];

/// The figures of a queue that was filled, to which each call is then refused.
fn refused(rt: &impl Abort, alloc: Global, queue: &mut Queue) -> Result<Figures, AllocError> {
    check(rt, alloc, queue, &FILLED)?;
    let figures = queue.figures();
    check(rt, alloc, queue, &REFUSED)?;
    Ok(figures)
}

#[test]
fn refusals_leave_log_and_figures(rt: HostRuntime) -> Result<(), Fail> {
    let mut queue = Queue::made(rt.alloc(), 7, 2, 50, &mut NoNotice)?;
    let refused = refused(&rt, rt.alloc(), &mut queue);
    let after = queue.figures();
    let count = queue.log_len();
    close(queue);
    let before = refused?;
    holds!(rt; (after, count) == (before, 3));
    holds!(rt; (before.qbytes, before.ctime) == (3, 90));
    Ok(())
}

const LAST_CHANGE: Event = Event::Changed {
    seat: 5,
    moment: 80,
    qbytes: 100,
};

/// The log of a queue that is visited at the moments 60, 70 and 80 and then removed.
const EVENTS: [Event; 6] = [
    Event::Made {
        seat: 2,
        moment: 50,
        key: 7,
    },
    Event::Sent {
        seat: 3,
        moment: 60,
        tag: 70,
        mtype: 5,
        length: 5,
    },
    Event::Received {
        seat: 4,
        moment: 70,
        place: 1,
        selection: Selection::Any,
        size: 9,
        noerror: false,
    },
    Event::Changed {
        seat: 5,
        moment: 70,
        qbytes: 100,
    },
    LAST_CHANGE,
    Event::Removed {
        seat: 2,
        moment: 90,
    },
];

/// Checks that the log has these events, and no other.
fn check_log(rt: &impl Abort, log: Log) {
    let events = EVENTS;
    holds!(rt; log.len() == 6);
    holds!(rt; log.get(0) == Some(events[0]));
    holds!(rt; log.get(6) == None);
    holds!(rt; log.into_parts().1.as_slice() == events.as_slice());
}

#[test]
fn the_log_of_a_removed_queue_has_all(rt: HostRuntime) -> Result<(), Fail> {
    let mut queue = Queue::made(rt.alloc(), 7, 2, 50, &mut NoNotice)?;
    let visited = visit(rt.alloc(), &mut queue, [60, 70, 80]);
    let last = queue.event(4);
    let beyond = (queue.event(5), queue.event(u64::MAX));
    let log = removed(queue, 90);
    holds!(rt; visited? == VISITED);
    holds!(rt; last == Some(LAST_CHANGE));
    holds!(rt; beyond == (None, None));
    check_log(&rt, log);
    Ok(())
}

/// Sends so many empty texts of changing types, and returns the last place. It ends when out of
/// memory.
fn fill(alloc: Global, queue: &mut Queue, count: u64) -> Result<u64, Fail> {
    let mut last = 0;
    for i in 0..count {
        let text = message(alloc, (1 + i % 7) as i64, 0)?;
        match queue.send(text, i, &mut NoNotice) {
            Ok(place) => last = place,
            Err((refusal, _)) => return Err(refusal.into()),
        }
    }
    Ok(last)
}

/// Fills the queue with 100 messages and receives them by their types, so many times. It ends when
/// out of memory.
fn fill_and_drain(alloc: Global, queue: &mut Queue, rounds: u64) -> Result<(), Fail> {
    for moment in 0..rounds {
        fill(alloc, queue, 100)?;
        for _ in 0..100u64 {
            queue.receive(0, Selection::UpTo(7), false, 4, moment, &mut NoNotice)?;
        }
    }
    Ok(())
}

#[test]
fn no_more_messages_wait_than_the_quota_has_bytes(rt: HostRuntime) -> Result<(), Fail> {
    let mut queue = Queue::made(rt.alloc(), 7, 2, 50, &mut NoNotice)?;
    let last = fill(rt.alloc(), &mut queue, 131_072);
    let more = [
        (Step::Send(1, 0), Answer::Refused(QueueError::Full)),
        (
            Step::Receive(0, Selection::Any, false),
            Answer::Got(131_073, 1, 0, 0),
        ),
        (Step::Send(1, 0), Answer::At(131_074)),
        (Step::Send(1, 0), Answer::Refused(QueueError::Full)),
    ];
    let checked = match last {
        Ok(131_072) => check(&rt, rt.alloc(), &mut queue, &more),
        _ => Ok(()),
    };
    close(queue);
    holds!(rt; last? == 131_072);
    checked?;
    Ok(())
}

#[test]
fn a_long_log_refuses_no_call(rt: HostRuntime) -> Result<(), Fail> {
    let mut queue = Queue::made(rt.alloc(), 7, 2, 50, &mut NoNotice)?;
    let played = fill_and_drain(rt.alloc(), &mut queue, 600);
    let more = receive(&mut queue, 0, Selection::Any, false, 80);
    let count = queue.log_len();
    let log = removed(queue, 90);
    played?;
    holds!(rt; more == Answer::Refused(QueueError::NoMessage));
    holds!(rt; (count, log.len()) == (120_001, 120_002));
    Ok(())
}
