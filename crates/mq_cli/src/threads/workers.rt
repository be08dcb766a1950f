//! The threads of a threads script.

ghost use Rattle.std.specs.Prelude.{◌≡◌, length, map, IfOk};
ghost use Rattle.mq_cli.specs.Plans.{AreCountable, IsCountable, IsCarriedOut};
ghost use Rattle.mq_cli.specs.Threads.{RanWorkers};
ghost use Rattle.mq_cli.specs.Works.{AllWorkFrom, WorksFrom};

use crate::{Outcome, Port, RunFault, Step, work};
use mq_jobs::{Job, JobsError, run_jobs};
use std::alloc::{AllocError, Global};
use std::sync::Wait;
use std::thread::Threads;
use std::time::Clock;

/// Runs each plan on a thread of its own, through the port of its place, and returns the outcomes
/// in the order of the plans. No plan begins before there is a thread for each; where the answer is
/// `Err`, none has begun. `Memory`, then `Thread`.
pub fn run_workers<Q: Port + Send, R: Threads + Wait + Clock + Sync>(
    rt: &R,
    alloc: Global,
    shared: &Q::Shared,
    plans: &[Vec<Step>],
    ports: &mut [Q],
) -> Result<Vec<Outcome>, RunFault>
where
    Q::Shared: Sync,
    requires ports { length plans.now ≡ length ports.old }
    requires plans { AreCountable plans.now }
    ensures ran { RanWorkers plans.now result }
    ensures worked { IfOk result (λ outcomes. AllWorkFrom Q.puts Q.takes Q.removes
        plans.now ports.old outcomes.items) }
{
    let Ok(jobs) = at_ports(rt, alloc, plans, ports) else {
        return Err(RunFault::Memory);
    };
    match run_jobs(rt, alloc, shared, jobs) {
        Ok(outcomes) => Ok(outcomes),
        Err(JobsError::Memory) => Err(RunFault::Memory),
        Err(JobsError::Thread) => Err(RunFault::Thread),
    }
}

/// A plan, the port through which its calls are made, and the clock by which they wait.
#[derive(Drop)]
struct AtPort<'a, Q, C> {
    clock: &'a C,
    alloc: Global,
    plan: &'a [Step],
    port: &'a mut Q,
}

impl<'a, Q: Port, C: Clock> Job for AtPort<'a, Q, C> {
    type Shared = Q::Shared;

    type Answer = Outcome;

    ghost before = { λ job. IsCountable job.plan.now };

    ghost after = { λ job outcome. IsCarriedOut job.plan.now outcome
        × WorksFrom Q.puts Q.takes Q.removes job.plan.now outcome job.port.now };

    fn run<R: Wait>(self, rt: &R, shared: &Q::Shared) -> Outcome {
        let AtPort {
            clock,
            alloc,
            plan,
            port,
        } = self;
        work(rt, clock, alloc, shared, port, plan)
    }
}

/// Each plan with the port of its place.
fn at_ports<'a, Q: Port, C: Clock>(
    clock: &'a C,
    alloc: Global,
    plans: &'a [Vec<Step>],
    ports: &'a mut [Q],
) -> Result<Vec<AtPort<'a, Q, C>>, AllocError>
    requires { length plans.now ≡ length ports.old }
    ensures plans { IfOk result (λ jobs.
        map (λ job. job.plan.now) jobs.items ≡ map (λ plan. plan.items) plans.now) }
    ensures ports { IfOk result (λ jobs. map (λ job. job.port.now) jobs.items ≡ ports.old) }
{
    let mut jobs = Vec::with_capacity(alloc, plans.len())?;
    for (place, port) in ports.iter_mut().enumerate() {
        jobs.push_reserved(AtPort {
            clock,
            alloc,
            plan: plans[place].as_slice(),
            port,
        });
    }
    Ok(jobs)
}
