//! Workers run concurrently: each of two sets a flag and spins until it reads the other's.

ghost use Rattle.std.specs.Prelude.{◌≡◌, ◌+◌, length, All, IfOk};
ghost use Rattle.mq_cli.specs.Plans.{IsCountable};

use crate::workers::plans::{Call, one_take, take_call};
use mq_calls::Errno;
use mq_cli::{Outcome, Port, PutCall, RunFault, Step, TakeCall, Taken, run_workers};
use mq_system::Patience;
use mq_table::Id;
use std::alloc::{AllocError, Global};
use std::sync::Wait;
use std::sync::atomic::{AtomicBool, Ordering};
use std::thread::Threads;
use std::time::Clock;

/// How often a worker polls for the other at most.
const TURNS: u32 = 2_000_000_000;

/// Sets its flag, and spins until the other's is set.
#[derive(Drop)]
struct Meeting<'a> {
    mine: &'a AtomicBool,
    other: &'a AtomicBool,
    calls: u64,
}

impl<'a> Port for Meeting<'a> {
    type Shared = ();

    ghost calls = { λ port. port.calls };

    ghost puts = { λ old id mtype tag n ends moment answer new. Unit {0} };

    ghost takes = { λ old id msgtyp ends moment answer new. Unit {0} };

    ghost removes = { λ old id moment answer new. Unit {0} };

    fn put<R: Wait, T: Patience>(
        &mut self,
        _rt: &R,
        _shared: &(),
        _call: &PutCall,
        _tag: u64,
        _patience: &mut T,
    ) -> Result<u64, Errno> {
        Err(Errno::EPERM)
    }

    #[tactic(auto, using(crate::proofs::ManyLemmas::takes_any))]
    fn take_many<R: Wait, T: Patience>(
        &mut self,
        _rt: &R,
        _shared: &(),
        call: &TakeCall,
        patience: &mut T,
        most: usize,
        out: &mut Vec<Taken>,
    ) -> Result<(), Errno> {
        let made = Call::of_take(call, patience.left(), most);
        if made != take_call(1) {
            return Err(Errno::EEXIST);
        }
        if self.calls > 0 || !meets(self.mine, self.other) {
            return Err(Errno::EAGAIN);
        }
        self.calls += 1;
        out.push_reserved(Taken {
            sender: 2,
            tag: 1,
            mtype: call.msgtyp,
            length: 0,
        });
        Ok(())
    }

    fn remove<R: Wait>(
        &mut self,
        _rt: &R,
        _shared: &(),
        _id: Id,
        _moment: u64,
    ) -> Result<u64, Errno> {
        Err(Errno::EPERM)
    }
}

/// Sets one flag, and spins for the other; whether that was set in time.
fn meets(mine: &AtomicBool, other: &AtomicBool) -> bool {
    mine.store(true, Ordering::SeqCst);
    for _ in 0..TURNS {
        if other.load(Ordering::SeqCst) {
            return true;
        }
    }
    false
}

/// The ports of two that meet.
fn both<'a>(
    alloc: Global,
    first: &'a AtomicBool,
    second: &'a AtomicBool,
) -> Result<Vec<Meeting<'a>>, AllocError>
    ensures { IfOk result (λ ports. length ports.items ≡ 2) }
{
    let mut ports = Vec::with_capacity(alloc, 2)?;
    ports.push_reserved(Meeting {
        mine: first,
        other: second,
        calls: 0,
    });
    ports.push_reserved(Meeting {
        mine: second,
        other: first,
        calls: 0,
    });
    Ok(ports)
}

/// Two plans, each of which receives one message.
fn two_takes(alloc: Global) -> Result<Vec<Vec<Step>>, AllocError>
    ensures len { IfOk result (λ plans. length plans.items ≡ 2) }
    ensures each { IfOk result (λ plans. All (λ plan. IsCountable plan.items) plans.items) }
{
    let mut plans = Vec::with_capacity(alloc, 2)?;
    plans.push_reserved(one_take(alloc)?);
    plans.push_reserved(one_take(alloc)?);
    Ok(plans)
}

/// Two workers, each of which receives one message at the meeting.
fn meet<R: Threads + Wait + Clock + Sync>(rt: &R, alloc: Global) -> Result<Vec<Outcome>, RunFault> {
    let first = AtomicBool::new(false);
    let second = AtomicBool::new(false);
    let (Ok(plans), Ok(mut ports)) = (two_takes(alloc), both(alloc, &first, &second)) else {
        return Err(RunFault::Memory);
    };
    run_workers(rt, alloc, &(), &plans, ports.as_mut_slice())
}

/// Whether a worker was out of memory for its notes, and so never set its flag.
fn one_found_no_memory(outcomes: &[Outcome]) -> bool {
    for outcome in outcomes {
        if outcome.end == Some(Errno::ENOMEM) {
            return true;
        }
    }
    false
}

#[test]
fn two_workers_are_there_at_the_same_time(rt: HostRuntime) {
    for _ in 0..2 {
        match meet(&rt, rt.alloc()) {
            Ok(outcomes) if one_found_no_memory(&outcomes) => (),
            Ok(outcomes) => {
                holds!(rt; outcomes.len() == 2, "two outcomes");
                for outcome in &outcomes {
                    let alone = outcome.end == Some(Errno::EAGAIN);
                    holds!(rt; !alone, "one ran after the other");
                    holds!(rt; outcome.end == None && outcome.received == 1, "received");
                }
                return;
            }
            Err(fault) => {
                let wanting = fault == RunFault::Memory || fault == RunFault::Thread;
                holds!(rt; wanting, "neither memory nor a thread was wanted");
            }
        }
    }
    panic!(rt; "out of memory");
}
