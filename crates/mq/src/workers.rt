//! A run of several threads, each with a worker at a seat of its own: the system is made, the
//! workers are run and joined, and the system is closed.

ghost use Rattle.std.specs.Prelude.{◌≡◌, ◌↔◌, ◌≤◌, ◌<◌, ◌⊎◌, true, false, length, IfOk, IfErr};
ghost use Rattle.std.specs.Prelude.{IsErrOf, vec_len};
ghost use Rattle.mq_calls.specs.Limits.{keeps_limits};
ghost use Rattle.mq_system.specs.Sizes.{AreNames};
ghost use Rattle.mq.specs.Ended.{IsEnded};
ghost use Rattle.mq.specs.Workers.{AreAfterWork, AreOf};
ghost use Rattle.mq.specs.declared.workers_error.WorkersError.TheVariants.{Memory, Thread};

use crate::at_seat::{AtSeat, Crew, clear_seats, leave_seats, take_seats, turns};
use crate::{Ended, Setup, Worker, WorkersError};
use mq_arena::LEDGER_PARTS;
use mq_jobs::{JobsError, run_jobs};
use mq_system::{Blanks, Config, Names, Pledge, Seat, System};
use std::alloc::Global;
use std::marker::Brand;
use std::sync::Wait;
use std::thread::Threads;
use std::time::Clock;

/// Makes a system of this size, runs each worker on a thread and at a seat of its own, and closes
/// the system once all have ended. It has as many seats as workers, since each takes memory of its
/// own; `config` says how many there may be. No worker begins before there is a thread for each;
/// where the answer is `Err`, none has begun.
pub fn with_workers<P: Pledge + Send + Sync, W: Worker<P> + Send, R: Threads + Wait + Clock + Sync>(
    rt: &R,
    alloc: Global,
    config: Config,
    workers: Vec<W>,
) -> Result<Ended<Vec<W::Answer>>, WorkersError>
    ensures after { IfOk result (λ e.
        AreOf W.after config.last_seq workers.items e.answer.items e.slots.items) }
    ensures ended { IfOk result (IsEnded config.slots config.last_seq config.height) }
    ensures config { IsErrOf result WorkersError.Config ↔ (keeps_limits config ≡ false) }
    ensures seats { IsErrOf result WorkersError.TooManyWorkers
        ↔ ((keeps_limits config ≡ true) × (config.seats < length workers.items)) }
{
    Setup::new(config).with_workers(rt, alloc, workers)
}

impl Setup {
    /// `with_workers` for a system that is set up so.
    pub fn with_workers<
        P: Pledge + Send + Sync,
        W: Worker<P> + Send,
        R: Threads + Wait + Clock + Sync,
    >(self, rt: &R, alloc: Global, workers: Vec<W>) -> Result<Ended<Vec<W::Answer>>, WorkersError>
        ensures after { IfOk result (λ e.
            AreOf W.after self.config.last_seq workers.items e.answer.items e.slots.items) }
        ensures ended { IfOk result
            (IsEnded self.config.slots self.config.last_seq self.config.height) }
        ensures config { IsErrOf result WorkersError.Config ↔ (keeps_limits self.config ≡ false) }
        ensures seats { IsErrOf result WorkersError.TooManyWorkers
            ↔ ((keeps_limits self.config ≡ true) × (self.config.seats < length workers.items)) }
    {
        let Setup { config, log_limit } = self;
        if !config.is_valid() {
            return Err(WorkersError::Config);
        }
        if workers.len() > config.seats as usize {
            return Err(WorkersError::TooManyWorkers);
        }
        let seats = if workers.is_empty() {
            1
        } else {
            workers.len() as u16
        };
        let sized = Config { seats, ..config };
        let Ok(blanks) = Blanks::of(alloc, sized) else {
            return Err(WorkersError::Memory);
        };
        run_workers::<P, Brand, Brand, W, R>(rt, alloc, sized, log_limit, blanks, workers)
    }
}

#[tactic(auto, using(crate::proofs::FreeLemmas::free_within))]
fn run_workers<
    P: Pledge + Send + Sync,
    N: Names + Send + Sync,
    C: Crew<W> + Send + Sync,
    W: Worker<P> + Send,
    R: Threads + Wait + Clock + Sync,
>(
    rt: &R,
    alloc: Global,
    config: Config,
    log_limit: u64,
    blanks: Blanks,
    workers: Vec<W>,
) -> Result<Ended<Vec<W::Answer>>, WorkersError>
    requires names { AreNames N.Names.own N.Naming blanks config }
    requires enough { LEDGER_PARTS ≤ blanks.pages.parts }
    requires crew { C.workers ≡ workers.items }
    requires none { length workers.items ≡ 0 → config.seats ≡ 1 }
    requires seats { 0 < length workers.items → config.seats ≡ length workers.items }
    ensures after { IfOk result (λ e.
        AreOf W.after N.last_seq workers.items e.answer.items e.slots.items) }
    ensures ended { IfOk result (IsEnded N.slots N.last_seq N.height) }
    ensures err { IfErr result (λ e. (e ≡ Memory) ⊎ (e ≡ Thread)) }
{
    let Ok((system, mut seats)) = System::<P, N>::new(alloc, rt, config, blanks) else {
        return Err(WorkersError::Memory);
    };
    let system = system.with_log_limit(log_limit);
    if workers.is_empty() {
        let closed = system.close(rt, seats);
        return Ok(Ended::of(Vec::new(alloc), closed));
    }
    let ran = run_at::<P, N, C, W, R>(rt, alloc, &system, &mut seats, workers);
    let closed = system.close(rt, seats);
    Ok(Ended::of(ran?, closed))
}

/// Runs the workers, each at the seat of its index.
fn run_at<
    P: Pledge + Send + Sync,
    N: Names + Send + Sync,
    C: Crew<W> + Send + Sync,
    W: Worker<P> + Send,
    R: Threads + Wait + Clock + Sync,
>(
    rt: &R,
    alloc: Global,
    system: &System<P, N>,
    seats: &mut Vec<Seat<N>>,
    workers: Vec<W>,
) -> Result<Vec<W::Answer>, WorkersError>
    requires crew { C.workers ≡ workers.items }
    requires seats { vec_len seats.old ≡ vec_len workers }
    ensures count { vec_len seats.new ≡ vec_len seats.old }
    ensures after { IfOk result (λ all.
        AreAfterWork W.after workers.items seats.new.items all.items) }
    ensures err { IfErr result (λ e. (e ≡ Memory) ⊎ (e ≡ Thread)) }
{
    let Ok(mut answers) = Vec::with_capacity(alloc, workers.len()) else {
        return Err(WorkersError::Memory);
    };
    let Ok(mut taken) = Vec::with_capacity(alloc, workers.len()) else {
        return Err(WorkersError::Memory);
    };
    take_seats::<P, N, R, C, W>(rt, alloc, system, seats, workers, &mut taken);
    match run_turns(rt, alloc, &mut taken) {
        Ok(()) => {
            leave_seats(rt, taken, seats, &mut answers);
            Ok(answers)
        }
        Err(error) => {
            clear_seats(taken, seats);
            Err(error)
        }
    }
}

/// Runs all jobs, each on a thread of its own.
fn run_turns<
    P: Pledge + Send + Sync,
    N: Names + Send + Sync,
    C: Crew<W> + Send + Sync,
    W: Worker<P> + Send,
    R: Threads + Wait + Clock + Sync,
>(rt: &R, alloc: Global, taken: &mut Vec<AtSeat<'_, P, N, R, C, W>>) -> Result<(), WorkersError>
    ensures count { vec_len taken.new ≡ vec_len taken.old }
    ensures err { IfErr result (λ e. (e ≡ Memory) ⊎ (e ≡ Thread)) }
{
    let Ok(jobs) = turns(alloc, taken) else {
        return Err(WorkersError::Memory);
    };
    match run_jobs(rt, alloc, &(), jobs) {
        Ok(_) => Ok(()),
        Err(JobsError::Memory) => Err(WorkersError::Memory),
        Err(JobsError::Thread) => Err(WorkersError::Thread),
    }
}
