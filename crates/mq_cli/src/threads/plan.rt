//! The evaluator of a worker's plan.

ghost use Rattle.std.specs.Prelude.{◌≡◌, ◌+◌, ◌<◌, ◌≤◌, ◌^◌, [], MatchResult, replicate};
ghost use Rattle.std.specs.Prelude.{vec_capacity};
ghost use Rattle.std.specs.HashMap.{spare};
ghost use Rattle.std.specs.Result.{result_err};
ghost use Rattle.mq_calls.specs.declared.errno.Errno.TheVariants.{ENOMEM};
ghost use Rattle.mq_cli.specs.Batches.{most_behind};
ghost use Rattle.mq_cli.specs.Calls.{calls_of, receive, sends_after};
ghost use Rattle.mq_cli.specs.Plans.{IsCountable, IsCarriedOut, HasGrown, puts_of, takes_of};
ghost use Rattle.mq_cli.specs.Plans.{removes_of};
ghost use Rattle.mq_cli.specs.Progress.{CanCount, ComesBy, ComesFurther, HasCounted, HoldSame};
ghost use Rattle.mq_cli.specs.Progress.{outcome_of};
ghost use Rattle.mq_cli.specs.Works.{HasWorked};

use super::notes::{Notes, Stream};
use crate::{Outcome, Port, PutCall, Step, TakeCall, Taken};
use mq_calls::Errno;
use mq_system::{Forever, MAX_BATCH, Patience, Until};
use std::alloc::Global;
use std::sync::Wait;
use std::time::{Clock, Duration};

/// Runs a plan, in the order of its steps, until its end or its first refusal. The tags of what it
/// sends run from 1. Where its own notes find no memory it ends with ENOMEM. Steps that wait within
/// an end wait by this clock.
pub fn work<Q: Port, R: Wait, C: Clock>(
    rt: &R,
    clock: &C,
    alloc: Global,
    shared: &Q::Shared,
    port: &mut Q,
    plan: &[Step],
) -> Outcome
    requires { IsCountable plan.now }
    ensures done { IsCarriedOut plan.now result }
    ensures grown { HasGrown plan.now result (Q.calls port.old) (Q.calls port.new) }
    ensures worked { HasWorked Q.puts Q.takes Q.removes plan.now result port.old port.new }
{
    let mut progress = Progress {
        sent: 0,
        received: 0,
        notes: Notes::new(alloc),
        came: Vec::new(alloc),
    };
    for step in plan {
        if let Err(errno) = progress.step(rt, clock, shared, port, *step) {
            return progress.outcome(Some(errno));
        }
    }
    progress.outcome(None)
}

/// The end of a step's waits: `span` milliseconds from when one of its calls first has to wait.
fn until_end<'a, C: Clock>(clock: &'a C, span: u64) -> Until<'a, C> {
    Until::within(clock, Duration::from_millis(span))
}

/// How far a worker is.
#[derive(Drop)]
struct Progress {
    sent: u64,
    received: u64,
    notes: Notes,
    /// What its last call received that receives several.
    came: Vec<Taken>,
}

impl Progress {
    fn outcome(&self, end: Option<Errno>) -> Outcome
        ensures { result ≡ outcome_of self.now end }
    {
        Outcome {
            sent: self.sent,
            received: self.received,
            ordered: self.notes.ordered(),
            end,
        }
    }

    /// Makes the calls of one step. Each message that was sent or received is counted.
    fn step<Q: Port, R: Wait, C: Clock>(
        &mut self,
        rt: &R,
        clock: &C,
        shared: &Q::Shared,
        port: &mut Q,
        step: Step,
    ) -> Result<(), Errno>
        requires { CanCount self.old (puts_of step) (takes_of step) }
        ensures counted { HasCounted (puts_of step) (takes_of step) (removes_of step)
            (Q.calls port.old) (Q.calls port.new) self.old self.new result }
        ensures called { ComesFurther ⟦<Stream as PartialEq>⟧.eq Q.puts Q.takes Q.removes
            (calls_of self.old.sent step) port.old port.new self.old self.new (result_err result) }
    {
        match step {
            Step::Put {
                id,
                mtype,
                count,
                length,
                within,
                moment,
            } => {
                let call = &PutCall {
                    id,
                    mtype,
                    length,
                    pages: within.is_some(),
                    moment,
                };
                match within {
                    None => self.put_all(rt, shared, port, call, count, &mut Forever),
                    Some(span) => {
                        self.put_all(rt, shared, port, call, count, &mut until_end(clock, span))
                    }
                }
            }
            Step::Take {
                id,
                msgtyp,
                count,
                within,
                moment,
            } => {
                let call = &TakeCall { id, msgtyp, moment };
                match within {
                    None => self.take_all(rt, shared, port, call, count, &mut Forever),
                    Some(span) => {
                        self.take_all(rt, shared, port, call, count, &mut until_end(clock, span))
                    }
                }
            }
            Step::Remove { id, moment } => match port.remove(rt, shared, id, moment) {
                Ok(_) => Ok(()),
                Err(errno) => Err(errno),
            },
        }
    }

    /// Sends `count` messages, each with the next tag, until the patience ends.
    fn put_all<Q: Port, R: Wait, T: Patience>(
        &mut self,
        rt: &R,
        shared: &Q::Shared,
        port: &mut Q,
        call: &PutCall,
        count: u32,
        patience: &mut T,
    ) -> Result<(), Errno>
        requires { self.old.sent + count < 2 ^ 64 }
        ensures counted { HasCounted count 0 0 (Q.calls port.old) (Q.calls port.new)
            self.old self.new result }
        ensures called { ComesFurther ⟦<Stream as PartialEq>⟧.eq Q.puts Q.takes Q.removes
            (sends_after self.old.sent call.now.id call.now.mtype count call.now.length T.ends
            call.now.moment) port.old port.new self.old self.new (result_err result) }
    {
        for _ in 0..count {
            match port.put(rt, shared, call, self.sent + 1, patience) {
                Ok(_) => self.sent += 1,
                Err(errno) => return Err(errno),
            }
        }
        Ok(())
    }

    /// Receives `count` messages, for each of which room for a note is reserved first, until the
    /// patience ends.
    fn take_all<Q: Port, R: Wait, T: Patience>(
        &mut self,
        rt: &R,
        shared: &Q::Shared,
        port: &mut Q,
        call: &TakeCall,
        count: u32,
        patience: &mut T,
    ) -> Result<(), Errno>
        requires { self.old.received + count < 2 ^ 64 }
        ensures counted { HasCounted 0 count 0 (Q.calls port.old) (Q.calls port.new)
            self.old self.new result }
        ensures called { ComesFurther ⟦<Stream as PartialEq>⟧.eq Q.puts Q.takes Q.removes
            (replicate count (receive call.now.id call.now.msgtyp T.ends call.now.moment))
            port.old port.new self.old self.new (result_err result) }
    {
        let all = count as usize;
        let mut most = 1;
        let mut done = 0;
        while done < all {
            let n = no_more_than(all - done, most);
            match self.take_some(rt, shared, port, call, patience, n) {
                Ok(()) => (),
                Err(errno) => return Err(errno),
            }
            done += self.came.len();
            most = most_behind(&self.came);
        }
        Ok(())
    }

    /// Receives up to `n` messages by one call, for each of which room for a note is reserved
    /// first.
    fn take_some<Q: Port, R: Wait, T: Patience>(
        &mut self,
        rt: &R,
        shared: &Q::Shared,
        port: &mut Q,
        call: &TakeCall,
        patience: &mut T,
        n: usize,
    ) -> Result<(), Errno>
        requires some { 0 < n }
        requires count { self.old.received + n < 2 ^ 64 }
        ensures calls { Q.calls port.new + self.old.received
            ≡ Q.calls port.old + self.new.received }
        ensures called { ComesBy ⟦<Stream as PartialEq>⟧.eq Q.puts Q.takes Q.removes
            (receive call.now.id call.now.msgtyp T.ends call.now.moment) n port.old port.new
            self.old self.new result }
    {
        self.came.clear();
        match self.reserve(n) {
            Ok(()) => (),
            Err(errno) => return Err(errno),
        }
        let came = &mut self.came;
        let answer = port.take_many(rt, shared, call, patience, n, came);
        self.notes.note_all(call.id, &self.came);
        self.received += self.came.len() as u64;
        answer
    }

    /// Makes room for what `count` calls receive, and for its notes. ENOMEM alone.
    fn reserve(&mut self, count: usize) -> Result<(), Errno>
        requires empty { self.old.came.items ≡ [] }
        ensures sent { self.new.sent ≡ self.old.sent }
        ensures received { self.new.received ≡ self.old.received }
        ensures notes { HoldSame ⟦<Stream as PartialEq>⟧.eq self.old.notes self.new.notes }
        ensures empty { self.new.came.items ≡ [] }
        ensures room { MatchResult result
            (λ _. (count ≤ spare self.new.notes.last) × (count ≤ vec_capacity self.new.came))
            (λ errno. errno ≡ ENOMEM) }
    {
        match self.came.reserve(count) {
            Ok(()) => self.notes.reserve(count),
            Err(_) => Err(Errno::ENOMEM),
        }
    }
}

/// How many messages the next call receives at most, behind these.
fn most_behind(came: &[Taken]) -> usize
    ensures { result ≡ most_behind came.now }
{
    for taken in came {
        if taken.length > 0 {
            return 1;
        }
    }
    MAX_BATCH
}

/// So many, or all that are left.
fn no_more_than(left: usize, most: usize) -> usize
    requires left { 0 < left }
    requires most { 0 < most }
    ensures some { 0 < result }
    ensures left { result ≤ left }
    ensures most { result ≤ most }
{
    if most < left { most } else { left }
}
