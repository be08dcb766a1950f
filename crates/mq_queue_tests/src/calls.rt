//! The calls of a queue, each retried once when out of memory. A send or a receive must be refused
//! just as the queue predicts. Also the text of each error, and a text that is too long.

use mq_message::{Body, Message, Selection, VecBody, discard};
use mq_queue::{Log, NoNotice, QueueError, QueueState};
use mq_select::ListWaiting;
use std::alloc::{AllocError, Global};
use std::process::Abort;
use std::test::Fail;

pub(crate) type Queue = QueueState<VecBody, ListWaiting<VecBody>>;

#[derive(Clone, Copy)]
pub(crate) enum Step {
    /// A type and a length.
    Send(i64, usize),
    /// A size, a selection and MSG_NOERROR.
    Receive(u64, Selection, bool),
    /// A quota.
    Set(u64),
}

#[derive(Clone, Copy, PartialEq, Eq)]
pub(crate) enum Answer {
    At(u64),
    /// The places of the receipt and of the sending, the whole length, and the length that is left.
    Got(u64, u64, u64, u64),
    Refused(QueueError),
    /// The call was not refused as the queue had predicted.
    Unforetold,
}

pub(crate) fn message(
    alloc: Global,
    mtype: i64,
    length: usize,
) -> Result<Message<VecBody>, AllocError> {
    Ok(Message {
        mtype,
        sender: 3,
        tag: 70,
        body: VecBody::from_vec(vec![in alloc; b'a'; length]?),
    })
}

/// Sends a message, and again where memory was refused: the second call answers as the first
/// would have.
pub(crate) fn send(queue: &mut Queue, message: Message<VecBody>, moment: u64) -> Answer {
    let foretold = queue.refuses_send(message.mtype, message.body.len());
    let answer = match queue.send(message, moment, &mut NoNotice) {
        Err((QueueError::Memory, message)) => queue.send(message, moment, &mut NoNotice),
        answer => answer,
    };
    match answer {
        Ok(place) if foretold.is_none() => Answer::At(place),
        Err((refusal, _)) if foretold == Some(refusal) => Answer::Refused(refusal),
        _ => Answer::Unforetold,
    }
}

pub(crate) fn receive(
    queue: &mut Queue,
    size: u64,
    selection: Selection,
    noerror: bool,
    moment: u64,
) -> Answer {
    let foretold = queue.refuses_receive(size, selection, noerror);
    let answer = match queue.receive(size, selection, noerror, 4, moment, &mut NoNotice) {
        Err(QueueError::Memory) => queue.receive(
            size,
            selection,
            noerror,
            4,
            moment,
            &mut NoNotice,
        ),
        answer => answer,
    };
    match answer {
        Ok(got) if foretold.is_none() => Answer::Got(
            got.entry,
            got.place,
            got.length,
            got.body.bytes().len() as u64,
        ),
        Err(refusal) if foretold == Some(refusal) => Answer::Refused(refusal),
        _ => Answer::Unforetold,
    }
}

pub(crate) fn set(queue: &mut Queue, qbytes: u64, moment: u64) -> Answer {
    let answer = match queue.set(qbytes, 5, moment, &mut NoNotice) {
        Err(QueueError::Memory) => queue.set(qbytes, 5, moment, &mut NoNotice),
        answer => answer,
    };
    match answer {
        Ok(place) => Answer::At(place),
        Err(refusal) => Answer::Refused(refusal),
    }
}

/// Makes the calls one after another, and checks each answer.
pub(crate) fn check(
    rt: &impl Abort,
    alloc: Global,
    queue: &mut Queue,
    steps: &[(Step, Answer)],
) -> Result<(), AllocError> {
    for i in 0..steps.len() {
        let (step, wanted) = steps[i];
        let answer = match step {
            Step::Send(mtype, length) => send(queue, message(alloc, mtype, length)?, 60),
            Step::Receive(size, selection, noerror) => receive(queue, size, selection, noerror, 80),
            Step::Set(qbytes) => set(queue, qbytes, 90),
        };
        assert!(rt; answer == wanted, "at call {i}");
    }
    Ok(())
}

/// Ends a queue with all its pending messages, and returns its log.
pub(crate) fn close(queue: Queue) -> Log {
    let (log, waiting) = queue.into_parts();
    discard(waiting);
    log
}

/// The log of a queue that is removed, at the second try where there was no memory.
pub(crate) fn removed(queue: Queue, moment: u64) -> Log {
    let answer = match queue.remove(2, moment, &mut NoNotice) {
        Err(queue) => queue.remove(2, moment, &mut NoNotice),
        answer => answer,
    };
    match answer {
        Ok((log, waiting)) => {
            discard(waiting);
            log
        }
        Err(queue) => close(queue),
    }
}

fn handed_back(queue: &mut Queue, message: Message<VecBody>) -> Option<Message<VecBody>> {
    match queue.send(message, 60, &mut NoNotice) {
        Err((QueueError::TooLong, message)) => Some(message),
        _ => None,
    }
}

/// Checks that the message that is too long is whole.
fn check_whole(rt: &impl Abort, back: &Message<VecBody>) {
    holds!(rt; (back.mtype, back.sender, back.tag) == (5, 3, 70));
    holds!(rt; back.body.bytes().len() == 65_537);
}

#[test]
fn a_text_that_is_too_long_is_returned(rt: HostRuntime) -> Result<(), Fail> {
    let long = message(rt.alloc(), 5, 65_537)?;
    let mut queue = Queue::made(rt.alloc(), 7, 2, 50, &mut NoNotice)?;
    let back = handed_back(&mut queue, long);
    close(queue);
    check_whole(&rt, &back.ok_or("it was taken")?);
    Ok(())
}

#[test]
fn each_refusal_says_why(rt: HostRuntime) -> Result<(), Fail> {
    let texts = [
        (QueueError::TypeInvalid, "the type is below 1"),
        (QueueError::TooLong, "the text is too long for a message"),
        (QueueError::Full, "the queue is full"),
        (QueueError::NoMessage, "no message waits"),
        (QueueError::TooBig, "the text is longer than the size"),
        (QueueError::OverLimit, "the quota is above its limit"),
        (QueueError::Memory, "out of memory"),
    ];
    for (refusal, text) in texts {
        let said = format!(in rt.alloc(); "{refusal}")?;
        holds!(rt; said.as_str() == text);
    }
    Ok(())
}
