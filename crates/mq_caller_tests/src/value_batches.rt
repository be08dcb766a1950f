//! Several values by one call of a caller.

ghost use Rattle.mq.specs.Values.{carries};

use mq::{
    Bytes, Caller, Clock, Config, DEFAULTS, Errno, Id, Letter, MAX_BATCH, MSGMNB, Names, NoWait,
    Pledge, Refused, Selection, SystemProgram, TextOf, ValuePledge, ValuesReceived, ValuesSent,
    Wait, Wire, Worker, with_system, with_two,
};
use std::alloc::Global;
use std::process::Abort;
use std::thread::{Threads, yield_now};

/// Lists of bytes, which take memory.
struct Lists;

impl Pledge for Lists {
    ghost kept = { carries ⟦<Bytes as Wire>⟧.bytes_of (λ _ _ _ _. Unit {0}) };
}

impl ValuePledge for Lists {
    type Value = Bytes;

    ghost read_back = { λ _ _ _ _ held. held };

    ghost written = { λ _ _ _ _ held. held };
}

/// Pages for two texts of the greatest length.
const SIZE: Config = Config {
    height: 7,
    slots: 1,
    seats: 1,
    ..DEFAULTS
};

/// How many bytes a text has before those of its list.
const HEAD: usize = 8;

/// Values of these types and lengths, whose tags are their places, and so are their bytes.
fn values(alloc: Global, all: &[(i64, usize)]) -> Result<Vec<Letter<Bytes>>, Errno> {
    let mut letters = Vec::new(alloc);
    let mut tag = 0u8;
    for (mtype, len) in all {
        let (mtype, len) = (*mtype, *len);
        let Ok(bytes) = vec![in alloc; tag; len] else {
            return Err(Errno::ENOMEM);
        };
        let text = Bytes::from_vec(bytes);
        let letter = Letter {
            mtype,
            tag: u64::from(tag),
            text,
        };
        if letters.push(letter).is_err() {
            return Err(Errno::ENOMEM);
        }
        tag = tag.saturating_add(1);
    }
    Ok(letters)
}

/// How many were sent, the entry of the first, and why no more were; a call that found no memory is
/// to be made again.
fn sent(sent: ValuesSent) -> Result<(usize, Option<u64>, Option<Errno>), Errno> {
    Ok((sent.count, sent.first, errno_of(sent.ended)?))
}

fn errno_of(ended: Result<(), Refused>) -> Result<Option<Errno>, Errno> {
    match ended {
        Ok(()) => Ok(None),
        Err(refused) if refused.errno == Errno::ENOMEM => Err(Errno::ENOMEM),
        Err(refused) => Ok(Some(refused.errno)),
    }
}

/// The tags of the values that were received, as digits behind a 1, and how it ended. ENOMEM where
/// there was no memory for one.
fn told<N: Names, R: Wait + Clock>(
    caller: &mut Caller<'_, Lists, N, R>,
    received: ValuesReceived<Bytes, TextOf<N>>,
) -> Result<(u64, Option<Errno>), Errno> {
    let ValuesReceived {
        values,
        unread,
        ended,
    } = received;
    let mut unread = unread;
    let lacking = !unread.is_empty();
    while let Some(delivered) = unread.pop_front() {
        caller.spend(delivered.text);
    }
    unread.destroy_empty();
    if lacking {
        return Err(Errno::ENOMEM);
    }
    let mut tags = 1u64;
    for delivered in &values {
        let tag = delivered.tag;
        let bytes = delivered.text.as_slice();
        if bytes.len() as u64 != delivered.length.wrapping_sub(HEAD as u64)
            || !bytes.iter().all(|byte| u64::from(*byte) == tag)
        {
            return Ok((0, None));
        }
        tags = tags.wrapping_mul(10).wrapping_add(tag);
    }
    Ok((tags, errno_of(ended)?))
}

/// What was wrong first.
type Wrong = Result<Option<&'static str>, Errno>;

/// Values that are sent by one call, and others that are refused in the middle.
fn sends<N: Names, R: Wait + Clock>(caller: &mut Caller<'_, Lists, N, R>, id: Id) -> Wrong {
    let alloc = caller.alloc();
    if sent(caller.send_values(id, &[]))? != (0, None, None) {
        return Ok(Some("no values"));
    }
    let five = values(alloc, &[(1, 3), (2, 0), (1, 1), (0, 3), (1, 3)])?;
    if sent(caller.send_values(id, &five))? != (3, Some(1), Some(Errno::EINVAL)) {
        return Ok(Some("a type below 1"));
    }
    let long = values(alloc, &[(2, 3), (1, 65_529), (1, 3)])?;
    if sent(caller.try_send_values(id, &long))? != (1, Some(4), Some(Errno::EINVAL)) {
        return Ok(Some("a value that is too long"));
    }
    let elsewhere = Id::of(9, 0);
    if sent(caller.send_values(elsewhere, &five))? != (0, None, Some(Errno::EINVAL)) {
        return Ok(Some("a slot that is not there"));
    }
    Ok(None)
}

fn receives<N: Names, R: Wait + Clock>(caller: &mut Caller<'_, Lists, N, R>, id: Id) -> Wrong {
    let received = caller.receive_values(id, Selection::Exact(1), 0);
    if told(caller, received)? != (1, None) {
        return Ok(Some("none are asked for"));
    }
    let received = caller.receive_values(id, Selection::Exact(1), 9);
    if told(caller, received)? != (102, Some(Errno::ENOMSG)) {
        return Ok(Some("those of a type"));
    }
    let received = caller.receive_values(id, Selection::Exact(0), 9);
    if told(caller, received)? != (1, Some(Errno::EINVAL)) {
        return Ok(Some("a type that no message has"));
    }
    let received = caller.receive_values_within(id, Selection::Any, 1, &mut NoWait);
    if told(caller, received)? != (11, None) {
        return Ok(Some("one of two"));
    }
    let received = caller.try_receive_values(id, Selection::UpTo(2), 9);
    if told(caller, received)? != (10, Some(Errno::ENOMSG)) {
        return Ok(Some("the last"));
    }
    let received = caller.try_receive_values(id, Selection::Any, 9);
    if told(caller, received)? != (1, Some(Errno::ENOMSG)) {
        return Ok(Some("none"));
    }
    Ok(None)
}

/// A queue that is full behind two of three values, an arena without pages for the third of three,
/// and more values than a batch has.
fn fills<N: Names, R: Wait + Clock>(caller: &mut Caller<'_, Lists, N, R>, id: Id) -> Wrong {
    let alloc = caller.alloc();
    caller.set(id, 24)?;
    let three = values(alloc, &[(1, 4), (1, 4), (1, 4)])?;
    let full = sent(caller.try_send_values(id, &three))?;
    if full.0 != 2 || full.2 != Some(Errno::EAGAIN) {
        return Ok(Some("a full queue"));
    }
    let full = sent(caller.send_values_within(id, &three, &mut NoWait))?;
    if full != (0, None, Some(Errno::EAGAIN)) {
        return Ok(Some("a queue that was full before"));
    }
    let received = caller.receive_values(id, Selection::Any, 2);
    if told(caller, received)? != (101, None) {
        return Ok(Some("those of a full queue"));
    }
    caller.set(id, MSGMNB)?;
    let large = values(alloc, &[(1, 9_000), (1, 60_000), (1, 60_000)])?;
    let two = caller.send_values(id, &large);
    match two.ended {
        Err(refused) if refused.errno == Errno::ENOMEM && two.count == 2 => (),
        _ => return sent(two).map(|_| Some("pages for two")),
    }
    let received = caller.receive_values(id, Selection::Any, 2);
    if told(caller, received)? != (101, None) {
        return Ok(Some("the two that had pages"));
    }
    batch(caller, id)
}

/// More values than a batch has.
fn batch<N: Names, R: Wait + Clock>(caller: &mut Caller<'_, Lists, N, R>, id: Id) -> Wrong {
    let all = values(caller.alloc(), &[(3, 0); MAX_BATCH + 1])?;
    let first = sent(caller.send_values(id, &all))?;
    if first.0 != MAX_BATCH || first.2.is_some() {
        return Ok(Some("as many as a batch has"));
    }
    let Some(behind) = all.get(MAX_BATCH..) else {
        return Ok(Some("values behind a batch"));
    };
    let last = sent(caller.send_values(id, behind))?;
    if last.0 != 1 || last.2.is_some() {
        return Ok(Some("those that were left"));
    }
    let received = caller.receive_values(id, Selection::Any, 1_000);
    let count = received.values.len();
    let (_, errno) = told(caller, received)?;
    if count != MAX_BATCH || errno.is_some() {
        return Ok(Some("as many as were asked for"));
    }
    caller.remove(id)?;
    if sent(caller.send_values(id, &all))? != (0, None, Some(Errno::EIDRM)) {
        return Ok(Some("a removed queue"));
    }
    let received = caller.receive_values(id, Selection::Any, 9);
    if told(caller, received)? != (1, Some(Errno::EIDRM)) {
        return Ok(Some("what is left of a removed queue"));
    }
    Ok(None)
}

/// Makes each call of several values.
#[derive(Drop)]
struct Several;

impl SystemProgram<Lists> for Several {
    type Answer = Wrong;

    fn run<N: Names, R: Wait + Clock>(
        self,
        _config: Config,
        callers: &mut [Caller<'_, Lists, N, R>],
    ) -> Wrong {
        let Some(caller) = callers.first_mut() else {
            return Ok(Some("no seat"));
        };
        let id = caller.queue(5)?;
        let mut wrong = sends(caller, id)?;
        if wrong.is_none() {
            wrong = receives(caller, id)?;
        }
        if wrong.is_none() {
            wrong = fills(caller, id)?;
        }
        Ok(wrong)
    }
}

#[test]
fn several_values_are_sent_and_received_by_one_call(rt: HostRuntime) {
    let Ok(ended) = with_system(&rt, rt.alloc(), SIZE, Several) else {
        panic!(rt; "ENOMEM");
    };
    match ended.answer {
        Ok(None) => holds!(rt; ended.free_pages == 128),
        Ok(Some(wrong)) => panic!(rt; "{wrong}"),
        Err(errno) => panic!(rt; "{errno}"),
    }
}

/// One queue, and none after it: a call after its removal creates none anew.
const ONE_QUEUE: Config = Config {
    seats: 2,
    last_seq: 0,
    ..SIZE
};

/// How often the thread that removes the queue polls for a message of the other, at most.
const LOOKS: u32 = 2_000;

/// Sends one value, and then waits for values that are never sent, or for room that is never made;
/// or removes the queue once there is that one.
#[derive(Drop)]
enum Part {
    Receives,
    Sends,
    Removes,
}

/// How many values went, and why no more did.
type Went = Result<(usize, Option<Errno>), Errno>;

impl Part {
    fn waits<N: Names, R: Wait + Clock>(
        &self,
        caller: &mut Caller<'_, Lists, N, R>,
        id: Id,
    ) -> Went {
        let one = values(caller.alloc(), &[(2, 4)])?;
        caller.set(id, 12)?;
        sent(caller.send_values(id, &one))?;
        if matches!(self, Part::Sends) {
            let (count, _, errno) = sent(caller.send_values(id, &one))?;
            return Ok((count, errno));
        }
        let received = caller.receive_values(id, Selection::Exact(1), 9);
        let count = received.values.len();
        let (_, errno) = told(caller, received)?;
        Ok((count, errno))
    }

    fn removes<N: Names, R: Wait + Clock>(
        &self,
        caller: &mut Caller<'_, Lists, N, R>,
        id: Id,
    ) -> Went {
        for _look in 0..LOOKS {
            match caller.stat(id) {
                Ok(figures) if figures.qnum == 0 => yield_now(),
                _ => break,
            }
        }
        let removed = match caller.remove(id) {
            Err(Errno::ENOMEM) => caller.remove(id),
            removed => removed,
        };
        removed?;
        Ok((0, None))
    }
}

impl Worker<Lists> for Part {
    type Answer = Went;

    fn work<N: Names, R: Wait + Clock>(self, caller: &mut Caller<'_, Lists, N, R>) -> Went {
        let id = match caller.queue(5) {
            Err(Errno::ENOMEM) => caller.queue(5)?,
            id => id?,
        };
        match self {
            Part::Removes => self.removes(caller, id),
            _ => self.waits(caller, id),
        }
    }
}

/// One thread waits, and another removes the queue.
fn waits_in_vain<R: AllocGlobal + Abort + Threads + Wait + Clock + Sync>(rt: &R, part: Part) {
    let Ok(ended) = with_two(rt, rt.alloc(), ONE_QUEUE, part, Part::Removes) else {
        panic!(rt; "ENOMEM");
    };
    match ended.answer.0 {
        Ok((0, Some(Errno::EIDRM))) => holds!(rt; ended.free_pages == 128),
        // The queue was removed before the other thread reached it.
        Err(Errno::EIDRM | Errno::ENOSPC) => (),
        Err(errno) => panic!(rt; "{errno}"),
        Ok(_) => panic!(rt; "no refusal"),
    }
}

#[test]
fn a_wait_with_several_values_in_a_queue_that_is_removed_answers_eidrm(rt: HostRuntime) {
    waits_in_vain(&rt, Part::Receives);
    waits_in_vain(&rt, Part::Sends);
}
