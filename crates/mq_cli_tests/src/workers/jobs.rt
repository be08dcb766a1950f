//! `run_jobs` and `run_workers` return the answers in the order of the jobs and the plans.

ghost use Rattle.std.specs.Prelude.{◌≡◌, All, IfOk, vec_len};
ghost use Rattle.mq_cli.specs.Plans.{IsCountable};

use crate::workers::plans::{Call, Wanting, put_call, puts};
use mq_cli::{Outcome, RunFault, Step, run_workers};
use mq_jobs::{Job, JobsError, run_jobs};
use std::alloc::{AllocError, Global};
use std::sync::Wait;
use std::thread::Threads;
use std::time::Clock;

/// Answers its number.
#[derive(Drop)]
struct Numbered(u32);

impl Job for Numbered {
    type Shared = ();

    type Answer = u32;

    ghost after = { λ job answer. answer ≡ job.0 };

    fn run<R: Wait>(self, _rt: &R, _shared: &()) -> u32 {
        self.0
    }
}

fn so_many(alloc: Global, count: u32) -> Result<Vec<Numbered>, AllocError> {
    let mut jobs = Vec::new(alloc);
    for number in 0..count {
        jobs.push(Numbered(number))?;
    }
    Ok(jobs)
}

fn answers<R: Threads + Wait + Sync>(
    rt: &R,
    alloc: Global,
    count: u32,
) -> Result<Vec<u32>, JobsError> {
    match so_many(alloc, count) {
        Ok(jobs) => run_jobs(rt, alloc, &(), jobs),
        Err(_) => Err(JobsError::Memory),
    }
}

#[test]
fn jobs_answer_in_their_order(rt: HostRuntime) {
    for count in [0u32, 1, 2, 9] {
        let again = match answers(&rt, rt.alloc(), count) {
            Ok(all) => Ok(all),
            Err(_) => answers(&rt, rt.alloc(), count),
        };
        match again {
            Ok(all) => {
                holds!(rt; all.len() == count as usize, "an answer for each");
                for (place, answer) in all.iter().enumerate() {
                    holds!(rt; *answer as usize == place, "at its place");
                }
            }
            Err(error) => panic!(rt; "{error}"),
        }
    }
}

/// Plans of which each sends one message more than the one before.
fn rising(alloc: Global, count: u32) -> Result<Vec<Vec<Step>>, AllocError>
    ensures len { IfOk result (λ plans. vec_len plans ≡ count) }
    ensures each { IfOk result (λ plans. All (λ plan. IsCountable plan.items) plans.items) }
{
    let mut plans = Vec::new(alloc);
    for number in 0..count {
        plans.push(puts(alloc, number)?)?;
    }
    Ok(plans)
}

/// The calls of the longest of fifteen plans, with which the calls of each other begin.
fn wanted() -> [Call; 14] {
    let mut wanted = [put_call(1); 14];
    for place in 1..14usize {
        wanted[place] = put_call(place as u64 + 1);
    }
    wanted
}

/// Ports that expect these calls.
fn ports<'a>(alloc: Global, wanted: &'a [Call], count: u32) -> Result<Vec<Wanting<'a>>, AllocError>
    ensures len { IfOk result (λ ports. vec_len ports ≡ count) }
{
    let mut ports = Vec::new(alloc);
    for _ in 0..count {
        ports.push(Wanting::new(wanted, 100, 9))?;
    }
    Ok(ports)
}

fn outcomes<R: Threads + Wait + Clock + Sync>(
    rt: &R,
    alloc: Global,
    count: u32,
) -> Result<Vec<Outcome>, RunFault> {
    let wanted = wanted();
    let (Ok(plans), Ok(mut ports)) = (rising(alloc, count), ports(alloc, &wanted, count)) else {
        return Err(RunFault::Memory);
    };
    run_workers(rt, alloc, &(), &plans, ports.as_mut_slice())
}

#[test]
fn workers_answer_in_the_order_of_their_plans(rt: HostRuntime) {
    for count in [0u32, 1, 15] {
        let again = match outcomes(&rt, rt.alloc(), count) {
            Ok(all) => Ok(all),
            Err(_) => outcomes(&rt, rt.alloc(), count),
        };
        match again {
            Ok(all) => {
                holds!(rt; all.len() == count as usize, "an outcome for each");
                for (place, outcome) in all.iter().enumerate() {
                    holds!(rt; outcome.end == None, "done");
                    holds!(rt; outcome.sent as usize == place, "at its place");
                }
            }
            Err(fault) => panic!(rt; "{fault}"),
        }
    }
}
