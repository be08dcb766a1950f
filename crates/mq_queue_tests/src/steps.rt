//! Runs a list of steps on a queue over any waiting list, for the tests that compare them.

use mq_message::{Message, Selection, VecBody, Waiting, discard};
use mq_queue::{NoNotice, QueueError, QueueState};
use std::alloc::{AllocError, Global};

/// What is done to a queue.
#[derive(Clone, Copy)]
pub(crate) enum Step {
    /// A message of this type is sent.
    Send(i64),
    Receive(Selection),
    /// The quota becomes this one.
    Set(u64),
}

/// A message of this type, with a text of as many bytes as the type modulo 8.
fn message(alloc: Global, mtype: i64) -> Result<Message<VecBody>, AllocError> {
    let bytes = vec![in alloc; b'a'; (mtype & 7) as usize]?;
    Ok(Message {
        mtype,
        sender: 3,
        tag: 70,
        body: VecBody::from_vec(bytes),
    })
}

/// Sends a message, and where memory was refused once more. The place of the sending.
fn send<W: Waiting<VecBody>>(
    queue: &mut QueueState<VecBody, W>,
    message: Message<VecBody>,
) -> Option<u64> {
    let answer = match queue.send(message, 60, &mut NoNotice) {
        Err((QueueError::Memory, message)) => queue.send(message, 60, &mut NoNotice),
        answer => answer,
    };
    match answer {
        Ok(place) => Some(place),
        Err(_) => None,
    }
}

/// Receives a message, and where memory was refused once more. The place of its sending.
fn receive<W: Waiting<VecBody>>(
    queue: &mut QueueState<VecBody, W>,
    selection: Selection,
) -> Option<u64> {
    let answer = match queue.receive(65_536, selection, false, 4, 80, &mut NoNotice) {
        Err(QueueError::Memory) => queue.receive(65_536, selection, false, 4, 80, &mut NoNotice),
        answer => answer,
    };
    match answer {
        Ok(received) => Some(received.place),
        Err(_) => None,
    }
}

/// Sets the quota, and where memory was refused once more. The place of the change.
fn set<W: Waiting<VecBody>>(queue: &mut QueueState<VecBody, W>, qbytes: u64) -> Option<u64> {
    let answer = match queue.set(qbytes, 5, 90, &mut NoNotice) {
        Err(QueueError::Memory) => queue.set(qbytes, 5, 90, &mut NoNotice),
        answer => answer,
    };
    match answer {
        Ok(place) => Some(place),
        Err(_) => None,
    }
}

/// Makes the steps, and records the place that each answers.
fn made<W: Waiting<VecBody>>(
    alloc: Global,
    queue: &mut QueueState<VecBody, W>,
    steps: &[Step],
) -> Result<Vec<Option<u64>>, AllocError> {
    let mut places = Vec::with_capacity(alloc, steps.len())?;
    for step in steps {
        let place = match *step {
            Step::Send(mtype) => send(queue, message(alloc, mtype)?),
            Step::Receive(selection) => receive(queue, selection),
            Step::Set(qbytes) => set(queue, qbytes),
        };
        places.push(place)?;
    }
    Ok(places)
}

/// The places that a new queue answers, step by step; the pending messages are then discarded.
pub(crate) fn places<W: Waiting<VecBody>>(
    alloc: Global,
    steps: &[Step],
) -> Result<Vec<Option<u64>>, AllocError> {
    let mut queue: QueueState<VecBody, W> = QueueState::made(alloc, 7, 2, 50, &mut NoNotice)?;
    let places = made(alloc, &mut queue, steps);
    let (_log, waiting) = queue.into_parts();
    discard(waiting);
    places
}
