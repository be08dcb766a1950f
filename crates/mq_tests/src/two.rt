//! Two workers at one queue: more messages pass through it than fit at once, a removal wakes a
//! waiter with EIDRM, and a system of one seat is refused.

use crate::runs::{ROOMY, SMALL, ended_of, slot_of, work_both};
use crate::seat_calls::{SeatCalls, Work, queue, receive, send};
use mq::{Config, Errno, Id, WorkersError};
use std::alloc::Global;
use std::process::Abort;
use std::sync::Wait;
use std::test::Fail;
use std::thread::{Threads, yield_now};
use std::time::Clock;

/// Receives three messages.
#[derive(Clone, Copy)]
struct Receiver;

impl Work for Receiver {
    type Answer = Result<(u64, u64), Errno>;

    fn work<C: SeatCalls, R: Wait>(
        self,
        _rt: &R,
        _alloc: Global,
        calls: &mut C,
    ) -> Result<(u64, u64), Errno> {
        let id = queue(calls, 5)?;
        let mut tags = 0u64;
        let mut bytes = 0u64;
        for _ in 0..3 {
            let received = receive(calls, id, 65_536)?;
            tags = tags.wrapping_mul(10).wrapping_add(received.tag);
            bytes = bytes.wrapping_add(sum(received.text.as_slice()));
        }
        Ok((tags, bytes))
    }
}

fn sum(bytes: &[u8]) -> u64 {
    let mut sum = 0u64;
    for byte in bytes {
        sum = sum.wrapping_add(*byte as u64);
    }
    sum
}

/// Sends the text three times.
#[derive(Clone, Copy)]
struct Sender<'a> {
    text: &'a [u8],
}

impl<'a> Work for Sender<'a> {
    type Answer = Result<u16, Errno>;

    fn work<C: SeatCalls, R: Wait>(
        self,
        _rt: &R,
        _alloc: Global,
        calls: &mut C,
    ) -> Result<u16, Errno> {
        let id = queue(calls, 5)?;
        for tag in 1..4 {
            send(calls, id, 1, tag, self.text)?;
        }
        Ok(calls.number())
    }
}

/// Waits for a message that no worker sends.
#[derive(Clone, Copy)]
struct Waiter;

impl Work for Waiter {
    type Answer = Errno;

    fn work<C: SeatCalls, R: Wait>(self, _rt: &R, _alloc: Global, calls: &mut C) -> Errno {
        let id = match queue(calls, 5) {
            Ok(id) => id,
            Err(errno) => return errno,
        };
        match receive(calls, id, 10) {
            Err(errno) => errno,
            Ok(_) => Errno::EPERM,
        }
    }
}

/// Removes the queue.
#[derive(Clone, Copy)]
struct Remover;

impl Work for Remover {
    type Answer = Result<u64, Errno>;

    fn work<C: SeatCalls, R: Wait>(
        self,
        rt: &R,
        _alloc: Global,
        calls: &mut C,
    ) -> Result<u64, Errno> {
        let id = Id::from_number(0);
        for _ in rt.forever() {
            match calls.remove(id) {
                Err(Errno::EINVAL) | Err(Errno::ENOMEM) => yield_now(),
                Err(errno) => return Err(errno),
                Ok(removal) => return Ok(removal.entry),
            }
        }
        unreachable!()
    }
}

/// Three messages with this text go from one worker to the other; the queue has room for two.
fn three_messages_go_through<R: AllocGlobal + Abort + Threads + Wait + Clock + Sync>(
    rt: &R,
    text: &[u8],
) {
    let ended = ended_of(
        rt,
        work_both(rt, rt.alloc(), ROOMY, Receiver, Sender { text }),
    );
    let (received, sent) = ended.answer;
    holds!(rt; received == Ok((123, 196_608)));
    holds!(rt; sent == Ok(2));
    holds!(rt; ended.free_pages == 256);
    let slot = slot_of(rt, ended.slots.as_slice(), 0);
    holds!(rt; slot.last.len() == 7);
    holds!(rt; slot.left == 0);
}

#[test]
fn a_receiver_first_and_a_sender_second_end(rt: HostRuntime) -> Result<(), Fail> {
    let bytes = vec![in rt.alloc(); 1; 65_536]?;
    three_messages_go_through(&rt, bytes.as_slice());
    Ok(())
}

#[test]
fn a_wait_in_a_queue_that_is_removed_answers_eidrm(rt: HostRuntime) {
    let ended = ended_of(&rt, work_both(&rt, rt.alloc(), SMALL, Waiter, Remover));
    let (waited, removed) = ended.answer;
    holds!(rt; waited == Errno::EIDRM);
    holds!(rt; removed == Ok(1));
    holds!(rt; slot_of(&rt, ended.slots.as_slice(), 0).past.len() == 2);
}

#[test]
fn two_workers_at_one_seat_are_refused(rt: HostRuntime) {
    let config = Config { seats: 1, ..SMALL };
    match work_both(&rt, rt.alloc(), config, Receiver, Sender { text: b"" }) {
        Err(error) => holds!(rt; error == WorkersError::TooManyWorkers),
        Ok(_) => panic!(rt; "two at one seat"),
    }
}
