//! The same calls to two queues, of which the log of one is drained again and again.

use crate::calls::{Answer, Queue, close, message, receive, send, set};
use mq_message::Selection;
use mq_queue::{Event, NoNotice};
use std::alloc::{AllocError, Global};
use std::process::Abort;
use std::test::Fail;

/// The next number of a pseudorandom sequence.
fn next(number: u64) -> u64 {
    number
        .wrapping_mul(6_364_136_223_846_793_005)
        .wrapping_add(1_442_695_040_888_963_407)
}

/// A call that the number decides, and what it is answered.
fn call(alloc: Global, queue: &mut Queue, number: u64, moment: u64) -> Result<Answer, AllocError> {
    let mtype = (number >> 40) % 5;
    Ok(match (number >> 33) % 8 {
        0 => set(queue, number >> 60, moment),
        1 => receive(queue, 9, Selection::Any, true, moment),
        2 => receive(queue, 1, Selection::UpTo(mtype), false, moment),
        3 => receive(queue, 9, Selection::Exact(mtype as i64), false, moment),
        _ => {
            let text = message(alloc, mtype as i64, (number >> 50) as usize % 4)?;
            send(queue, text, moment)
        }
    })
}

/// Adds the events of a drain to those of the drains before it.
fn keep(all: &mut Vec<Event>, tail: Vec<Event>) -> Result<(), AllocError> {
    for event in tail.as_slice() {
        all.push(*event)?;
    }
    Ok(())
}

/// Drains the log, and appends its events to those drained before. Whether it began right behind
/// them.
fn cut_off(queue: &mut Queue, all: &mut Vec<Event>) -> Result<bool, AllocError> {
    let (base, tail) = queue.cut()?;
    let follows = base.places == all.len() as u64;
    keep(all, tail)?;
    Ok(follows)
}

/// Whether both queues show the same, and the log of the second begins after so many events.
fn same(whole: &Queue, cut: &Queue, first: u64) -> bool {
    cut.figures() == whole.figures() && cut.log_len() == whole.log_len() && cut.first() == first
}

/// Makes 300 calls of both queues, drains the log of the second after each so many, and gathers
/// what is drained. Returns the call at which the two differ, or `None`.
fn differ(
    alloc: Global,
    queues: (&mut Queue, &mut Queue),
    all: &mut Vec<Event>,
    every: u64,
) -> Result<Option<u64>, AllocError> {
    let (whole, cut) = queues;
    let mut number = every;
    for moment in 0..300 {
        number = next(number);
        let wanted = call(alloc, whole, number, moment)?;
        let answer = call(alloc, cut, number, moment)?;
        if moment.checked_rem(every) == Some(0) && !cut_off(cut, all)? {
            return Ok(Some(moment));
        }
        if answer != wanted || !same(whole, cut, all.len() as u64) {
            return Ok(Some(moment));
        }
    }
    Ok(None)
}

/// Two queues that are alike.
fn two_queues(alloc: Global) -> Result<(Queue, Queue), AllocError> {
    let one = Queue::made(alloc, 7, 2, 50, &mut NoNotice)?;
    match Queue::made(alloc, 7, 2, 50, &mut NoNotice) {
        Ok(other) => Ok((one, other)),
        Err(refused) => {
            close(one);
            Err(refused)
        }
    }
}

/// Checks the answers of a queue that is drained after every so many calls, and all its events.
fn check(rt: &impl Abort, alloc: Global, every: u64) -> Result<(), AllocError> {
    let (mut whole, mut cut) = two_queues(alloc)?;
    let mut all = Vec::new(alloc);
    let differs = differ(alloc, (&mut whole, &mut cut), &mut all, every);
    let (wanted, log) = (close(whole), close(cut));
    let differs = differs?;
    assert!(rt; differs == None, "cut after every {every}");
    keep(&mut all, log.into_parts().1)?;
    holds!(rt; all.as_slice() == wanted.into_parts().1.as_slice());
    Ok(())
}

#[test]
fn a_queue_that_is_cut_answers_as_one_that_is_not(rt: HostRuntime) -> Result<(), Fail> {
    for every in [1, 2, 7, 50, 1000] {
        check(&rt, rt.alloc(), every)?;
    }
    Ok(())
}
