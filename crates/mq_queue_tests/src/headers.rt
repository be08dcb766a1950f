//! The headers of the pending messages, from each waiting list: they are in the order of sending,
//! and are those that the log implies (sent and not received).

use mq_message::{Header, Message, Selection, VecBody, Waiting, discard};
use mq_queue::{Event, Log, NoNotice, QueueError, QueueState};
use mq_select::{ByType, IndexWaiting, ListWaiting};
use std::alloc::{AllocError, Global};
use std::process::Abort;
use std::test::Fail;

type Queue<W> = QueueState<VecBody, W>;

/// A message from seat 3, with its index as its tag and the length of its text.
fn message(alloc: Global, index: usize, mtype: i64) -> Result<Message<VecBody>, AllocError> {
    Ok(Message {
        mtype,
        sender: 3,
        tag: index as u64,
        body: VecBody::from_vec(vec![in alloc; b'a'; index]?),
    })
}

/// Sends a message for each type, at the second try when out of memory.
fn send_each<W: Waiting<VecBody>>(
    alloc: Global,
    queue: &mut Queue<W>,
    types: &[i64],
) -> Result<(), AllocError> {
    for i in 0..types.len() {
        let message = message(alloc, i, types[i])?;
        if let Err((QueueError::Memory, message)) = queue.send(message, 60, &mut NoNotice) {
            let _answer = queue.send(message, 60, &mut NoNotice);
        }
    }
    Ok(())
}

/// Receives a message by each selection, at the second try when out of memory.
fn receive_each<W: Waiting<VecBody>>(queue: &mut Queue<W>, selections: &[Selection]) {
    for selection in selections {
        let answer = queue.receive(8192, *selection, false, 4, 80, &mut NoNotice);
        if let Err(QueueError::Memory) = answer {
            let _answer = queue.receive(8192, *selection, false, 4, 80, &mut NoNotice);
        }
    }
}

/// The headers of a waiting list at its end, at the second try when out of memory.
fn headers_of<W: Waiting<VecBody>>(alloc: Global, waiting: W) -> Result<Vec<Header>, AllocError> {
    let headers = match waiting.headers(alloc) {
        Err(AllocError) => waiting.headers(alloc),
        told => told,
    };
    discard(waiting);
    headers
}

/// The log of a queue to which a message of each type is sent and out of which one is received by
/// each selection, and the headers of its waiting list then.
fn left<W: Waiting<VecBody>>(
    alloc: Global,
    types: &[i64],
    selections: &[Selection],
) -> Result<(Log, Vec<Header>), AllocError> {
    let mut queue: Queue<W> = QueueState::made(alloc, 7, 2, 50, &mut NoNotice)?;
    let sent = send_each(alloc, &mut queue, types);
    receive_each(&mut queue, selections);
    let (log, waiting) = queue.into_parts();
    let headers = headers_of(alloc, waiting);
    sent?;
    Ok((log, headers?))
}

/// Checks the headers of a list.
fn check<W: Waiting<VecBody>>(
    rt: &impl Abort,
    alloc: Global,
    types: &[i64],
    selections: &[Selection],
    wanted: &[Header],
) -> Result<(), AllocError> {
    let (_log, headers) = left::<W>(alloc, types, selections)?;
    holds!(rt; headers.as_slice() == wanted);
    Ok(())
}

/// Checks the headers of each list.
fn check_each(
    rt: &impl Abort,
    alloc: Global,
    types: &[i64],
    selections: &[Selection],
    wanted: &[Header],
) -> Result<(), AllocError> {
    check::<ListWaiting<VecBody>>(rt, alloc, types, selections, wanted)?;
    check::<ByType<VecBody>>(rt, alloc, types, selections, wanted)?;
    check::<IndexWaiting<VecBody>>(rt, alloc, types, selections, wanted)
}

/// The header of the message at an index of the types.
fn header(index: u16, mtype: i64) -> Header {
    Header {
        place: u64::from(index) + 1,
        seat: 3,
        tag: u64::from(index),
        mtype,
        length: u64::from(index),
    }
}

#[test]
fn headers_stand_in_the_order_of_sending_whatever_their_types(rt: HostRuntime) -> Result<(), Fail> {
    let alloc = rt.alloc();
    let all = [
        header(0, 5),
        header(1, i64::MAX),
        header(2, 1),
        header(3, 5),
        header(4, 2),
    ];
    let types = [5, i64::MAX, 1, 5, 2];
    let received = [Selection::UpTo(4), Selection::Exact(5)];
    check_each(&rt, alloc, &[], &[], &[])?;
    check_each(&rt, alloc, &[4], &[Selection::Any], &[])?;
    check_each(&rt, alloc, &types, &[], &all)?;
    check_each(&rt, alloc, &types, &received, &[all[1], all[3], all[4]])?;
    Ok(())
}

/// Whether the log has a receipt of the message that was sent at a place.
fn is_received(log: &Log, sent: u64) -> bool {
    for i in 0..log.len() {
        match log.get(i) {
            Some(Event::Received { place, .. }) if place == sent => return true,
            _ => (),
        }
    }
    false
}

/// The headers of the messages that a log leaves pending, found from the log alone.
fn by_log(alloc: Global, log: &Log) -> Result<Vec<Header>, AllocError> {
    let mut headers = Vec::new(alloc);
    for place in 0..log.len() {
        match log.get(place) {
            Some(
                Event::Sent {
                    seat,
                    moment: _,
                    tag,
                    mtype,
                    length,
                },
            ) if !is_received(log, place) => headers.push(Header {
                place,
                seat,
                tag,
                mtype,
                length,
            })?,
            _ => (),
        }
    }
    Ok(headers)
}

/// Whether a list has just as many headers as expected, those that the log leaves pending.
fn agrees<W: Waiting<VecBody>>(
    alloc: Global,
    types: &[i64],
    selections: &[Selection],
    count: usize,
) -> Result<bool, AllocError> {
    let (log, headers) = left::<W>(alloc, types, selections)?;
    let wanted = by_log(alloc, &log)?;
    Ok(headers.len() == count && *headers.as_slice() == *wanted.as_slice())
}

/// The types of sixty messages, which are as many as make the list that crosses one in layers.
fn sixty_types(alloc: Global) -> Result<Vec<i64>, AllocError> {
    let mut types = Vec::new(alloc);
    for i in 0..60u32 {
        types.push(i64::from(i % 7 * 3 % 7) + 1)?;
    }
    Ok(types)
}

/// So many selections, of which each picks one of these sixty.
fn picking(alloc: Global, count: u32) -> Result<Vec<Selection>, AllocError> {
    let mut selections = Vec::new(alloc);
    for i in 0..count {
        selections.push(if i < 7 {
            Selection::Exact(i64::from(i) + 1)
        } else if i < 20 {
            Selection::UpTo(3)
        } else {
            Selection::Except(2)
        })?;
    }
    Ok(selections)
}

/// Checks that after so many receipts each list has just as many headers as expected.
fn check_left(
    rt: &impl Abort,
    alloc: Global,
    types: &[i64],
    received: u32,
    count: usize,
) -> Result<(), AllocError> {
    let picked = picking(alloc, received)?;
    holds!(rt; agrees::<ListWaiting<VecBody>>(alloc, types, &picked, count)?);
    holds!(rt; agrees::<ByType<VecBody>>(alloc, types, &picked, count)?);
    holds!(rt; agrees::<IndexWaiting<VecBody>>(alloc, types, &picked, count)?);
    Ok(())
}

#[test]
fn headers_are_those_that_the_log_leaves_waiting(rt: HostRuntime) -> Result<(), Fail> {
    let alloc = rt.alloc();
    let types = sixty_types(alloc)?;
    for (received, count) in [
        (0, 60),
        (6, 54),
        (19, 41),
        (27, 33),
        (28, 32),
        (50, 10),
        (52, 8),
    ] {
        check_left(&rt, alloc, &types, received, count)?;
    }
    Ok(())
}
