//! A scheduler: one thread submits jobs, and three work them off. The type of a job's message is
//! its priority, of which 1 is the most urgent. A worker takes the most urgent job that waits, up
//! to a bound of its own, so that one worker does urgent jobs alone. Few jobs may wait, so the
//! submitter waits for the workers. At the end the queue's log is read: no job waited while a less
//! urgent one was taken. The first word says how many jobs there are.

#![tactic(auto)]

ghost use Rattle.std.specs.Prelude.{◌≤◌, IfSome};
ghost use Rattle.example_scheduler.specs.declared.TheConstants.{BUDGET};

use anyhow::{Result, ensure};
use mq::{
    Caller, Carries, Clock, Config, DEFAULTS, Errno, Event, Names, Selection, Vow, Wait, Worker,
    with_workers,
};
use std::env;

/// The key of the queue of jobs.
const JOBS: i32 = 1;

/// How many bytes of jobs may wait: 64 jobs of 13 bytes each.
const QUOTA: u64 = 64 * 13;

/// The most that a job may cost.
const BUDGET: u32 = 1_000;

/// The least urgent priority.
const LAST: i64 = 9;

/// One slot, which serves one queue and no other after it: a call after the queue was removed
/// creates none anew.
const SIZE: Config = Config {
    slots: 1,
    last_seq: 0,
    ..DEFAULTS
};

/// What is sent: a job's number and its cost, which is within the budget, or `None`, by which
/// a worker stops.
struct Jobs;

impl Vow for Jobs {
    type Value = Option<(u64, u32)>;

    ghost vowed = { λ _seat _tag _priority sent. IfSome sent (λ job. job.1 ≤ BUDGET) };
}

/// What a thread does.
#[derive(Drop)]
enum Role {
    /// Submits that many jobs.
    Submit(u64),
    /// Takes jobs up to this priority. Once stopped, it stops the worker with the next lower bound,
    /// which alone takes what is sent there then.
    Work { bound: u64, next: Option<i64> },
}

/// What was done.
#[derive(Clone, Copy, Default)]
struct Done {
    jobs: u64,
    cost: u64,
    /// What was left of the budgets.
    saved: u64,
}

impl Done {
    fn add(&mut self, other: Done) {
        self.jobs = self.jobs.saturating_add(other.jobs);
        self.cost = self.cost.saturating_add(other.cost);
        self.saved = self.saved.saturating_add(other.saved);
    }
}

/// A priority for the job of this number: they come mixed.
fn priority_of(number: u64) -> i64 {
    i64::from((number.wrapping_mul(7) % 9) as u8 + 1)
}

fn cost_of(number: u64) -> u32
    ensures { result ≤ BUDGET }
{
    (number % 1_000) as u32
}

/// Submits `jobs` jobs, and then stops the worker that takes all: by then no job is pending.
fn submit<N: Names, R: Wait + Clock>(
    caller: &mut Caller<'_, Carries<Jobs>, N, R>,
    jobs: u64,
) -> Result<Done, Errno> {
    let id = caller.queue(JOBS)?;
    caller.set(id, QUOTA)?;
    for number in 0..jobs {
        let job = (number, cost_of(number));
        caller.send_value(id, priority_of(number), 0, &Some(job))?;
    }
    caller.send_value(id, LAST, 0, &None)?;
    Ok(Done::default())
}

/// Takes jobs up to this priority, the most urgent first, until a message stops it.
fn work<N: Names, R: Wait + Clock>(
    caller: &mut Caller<'_, Carries<Jobs>, N, R>,
    bound: u64,
    next: Option<i64>,
) -> Result<Done, Errno> {
    let id = caller.queue(JOBS)?;
    let mut done = Done::default();
    for _ in 0..u64::MAX {
        let received = caller.receive_value(id, Selection::UpTo(bound))?;
        let Some((_number, cost)) = received.text else {
            break;
        };
        done.add(Done {
            jobs: 1,
            cost: u64::from(cost),
            saved: u64::from(BUDGET - cost),
        });
    }
    if let Some(priority) = next {
        caller.send_value(id, priority, 0, &None)?;
    }
    Ok(done)
}

impl Worker<Carries<Jobs>> for Role {
    type Answer = Result<Done, Errno>;

    fn work<N: Names, R: Wait + Clock>(
        self,
        caller: &mut Caller<'_, Carries<Jobs>, N, R>,
    ) -> Result<Done, Errno> {
        let done = match self {
            Role::Submit(jobs) => submit(caller, jobs),
            Role::Work { bound, next } => work(caller, bound, next),
        };
        if done.is_err() {
            // Then the queue is removed, and calls that wait in it fail with EIDRM.
            if let Ok(id) = caller.queue(JOBS) {
                let _ = caller.remove(id);
            }
        }
        done
    }
}

/// Whether each message that was received was of the lowest type that waited.
fn is_in_order(log: &[Event]) -> bool {
    // How many messages wait, of each type from 0, which none has, to LAST.
    let mut waiting = [0u64; 10];
    for event in log {
        match event {
            Event::Sent { mtype, .. } => {
                if let Some(count) = waiting.get_mut(mtype.unsigned_abs() as usize) {
                    *count = count.saturating_add(1);
                }
            }
            Event::Received { place, .. } => {
                let Some(Event::Sent { mtype, .. }) = log.get(*place as usize) else {
                    return false;
                };
                let own = mtype.unsigned_abs() as usize;
                if waiting.iter().take(own).any(|count| *count > 0) {
                    return false;
                }
                if let Some(count) = waiting.get_mut(own) {
                    *count = count.saturating_sub(1);
                }
            }
            _ => (),
        }
    }
    true
}

/// How many jobs there are.
fn job_count(rt: &HostRuntime) -> Result<u64> {
    let mut words = env::args(rt)?;
    let _program = words.next();
    match words.next() {
        Some(word) => Ok(word.parse()?),
        None => Ok(100_000),
    }
}

fn main(rt: HostRuntime) -> Result<()> {
    let roles = vec![in rt.alloc();
        Role::Submit(job_count(&rt)?),
        Role::Work {
            bound: 9,
            next: Some(6)
        },
        Role::Work {
            bound: 6,
            next: Some(3)
        },
        Role::Work {
            bound: 3,
            next: None
        },
    ]?;
    let ended = with_workers(&rt, rt.alloc(), SIZE, roles)?;
    let mut all = Done::default();
    for done in ended.answer {
        all.add(done?);
    }
    for slot in ended.slots.iter() {
        ensure!(
            is_in_order(slot.last.as_slice()),
            "a job waited while a less urgent one was taken"
        );
    }
    let Done { jobs, cost, saved } = all;
    println!(rt; "{jobs} jobs, cost {cost}, saved {saved}, in order")?;
    Ok(())
}
