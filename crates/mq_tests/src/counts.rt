//! What two seats count that work at the same time.
use crate::runs::{Nothing, SMALL, Worked, ended_of, slot_of, wanted_memory};
use crate::seat_calls::{SeatCalls, receive, send};
use mq::{Caller, Clock, ClosedSlot, Errno, GetFlags, Id, Names, Wait, Worker, with_two};
use std::alloc::Global;
use std::process::Abort;
use std::thread::Threads;

/// Sends three texts to one queue and receives three from the other.
#[derive(Clone, Copy)]
struct Trader {
    sends_to: i32,
    receives_from: i32,
}

/// How many changes a seat has counted in the first two slots, and how many its calls made.
#[derive(Clone, Copy)]
struct Counted {
    told: [u64; 2],
    made: [u64; 2],
}

/// The queue with this key, which counts where this call made it.
fn queue<N: Names, R: Wait + Clock>(
    caller: &mut Caller<'_, Nothing, N, R>,
    key: i32,
    made: &mut [u64; 2],
) -> Result<Id, Errno> {
    let flags = GetFlags {
        create: true,
        exclusive: false,
    };
    for _ in 0..2 {
        match caller.get(key, flags) {
            Ok(got) => {
                if got.made.is_some() {
                    add(made, got.id);
                }
                return Ok(got.id);
            }
            Err(Errno::ENOMEM) => (),
            Err(errno) => return Err(errno),
        }
    }
    Err(Errno::ENOMEM)
}

/// One change more in the id's slot.
fn add(made: &mut [u64; 2], id: Id) {
    let slot = id.slot() as usize;
    if slot < 2 {
        made[slot] = made[slot].wrapping_add(1);
    }
}

/// Both queues, the one that is sent to first.
fn queues<N: Names, R: Wait + Clock>(
    caller: &mut Caller<'_, Nothing, N, R>,
    trader: Trader,
    made: &mut [u64; 2],
) -> Result<(Id, Id), Errno> {
    let out = queue(caller, trader.sends_to, made)?;
    let back = queue(caller, trader.receives_from, made)?;
    Ok((out, back))
}

/// Sends three texts to the one, receives three from the other, and counts.
fn trades<C: SeatCalls>(
    calls: &mut C,
    out: Id,
    back: Id,
    so_far: [u64; 2],
) -> Result<Counted, Errno> {
    let mut made = so_far;
    for _ in 0..3 {
        send(calls, out, 1, 7, b"word")?;
        add(&mut made, out);
        receive(calls, back, 10)?;
        add(&mut made, back);
    }
    let told = [calls.count(0), calls.count(1)];
    Ok(Counted { told, made })
}

impl Worker<Nothing> for Trader {
    type Answer = Result<Counted, Errno>;

    fn work<N: Names, R: Wait + Clock>(
        self,
        caller: &mut Caller<'_, Nothing, N, R>,
    ) -> Result<Counted, Errno> {
        let mut made = [0u64; 2];
        let (out, back) = match queues(caller, self, &mut made) {
            Ok(queues) => queues,
            Err(errno) => return Err(errno),
        };
        trades(caller, out, back, made)
    }
}

fn trade<R: Threads + Wait + Clock + Sync>(
    rt: &R,
    alloc: Global,
) -> Worked<(Result<Counted, Errno>, Result<Counted, Errno>)> {
    let first = Trader {
        sends_to: 5,
        receives_from: 6,
    };
    let second = Trader {
        sends_to: 6,
        receives_from: 5,
    };
    with_two(rt, alloc, SMALL, first, second)
}

/// What a seat counted, which is what its calls made.
fn tells_all(rt: &impl Abort, answer: Result<Counted, Errno>) -> Counted {
    match answer {
        Ok(counted) => {
            holds!(rt; counted.told == counted.made);
            counted
        }
        Err(errno) => panic!(rt; "{errno}"),
    }
}

fn entries(slot: &ClosedSlot) -> usize {
    slot.past.len().wrapping_add(slot.last.len())
}

/// Two queues were made, and three texts sent and received in each.
fn has_all(rt: &impl Abort, slots: &[ClosedSlot], one: Counted, other: Counted) {
    holds!(rt; slots.len() == 4);
    for k in 0..2usize {
        let both = one.told[k].wrapping_add(other.told[k]);
        holds!(rt; both == 7);
        holds!(rt; entries(slot_of(rt, slots, k)) == 7);
        holds!(rt; entries(slot_of(rt, slots, k + 2)) == 0);
    }
}

#[test]
fn each_change_counts_for_its_seat_and_its_slot(rt: HostRuntime) {
    let mut traded = trade(&rt, rt.alloc());
    if wanted_memory(&traded) {
        traded = trade(&rt, rt.alloc());
    }
    let ended = ended_of(&rt, traded);
    let (one, other) = ended.answer;
    let one = tells_all(&rt, one);
    let other = tells_all(&rt, other);
    has_all(&rt, ended.slots.as_slice(), one, other);
}
