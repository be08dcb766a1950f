//! Spawning and joining of jobs on scoped threads, behind a start barrier.

ghost use Rattle.std.specs.Prelude.{◌≡◌, ◌<◌, length, All, IfOk, IfSome, IsSome, IsErrOf};
ghost use Rattle.std.specs.Prelude.{vec_capacity, vec_len};
ghost use Rattle.mq_jobs.specs.Jobs.{AreAfter, CanRun};

use crate::gate::Gate;
use crate::{Job, JobsError};
use std::alloc::Global;
use std::snapshot::Snapshot;
use std::sync::Wait;
use std::thread;
use std::thread::{Promise, PromisedHandle, Scope, Threads};

/// Runs each job on a thread of its own, and returns their answers, in the order of the jobs, once
/// all have ended. No job begins before there is a thread for each; where the result is `Err`, none
/// has begun.
pub fn run_jobs<J: Job + Send, R: Threads + Wait + Sync>(
    rt: &R,
    alloc: Global,
    shared: &J::Shared,
    jobs: Vec<J>,
) -> Result<Vec<J::Answer>, JobsError>
where
    J::Shared: Sync,
    requires before { All J.before jobs.items }
    ensures after { IfOk result (λ all. AreAfter J.after jobs.items all.items) }
    ensures thread { IsErrOf result JobsError.Thread → 0 < length jobs.items }
{
    let Ok(answers) = Vec::with_capacity(alloc, jobs.len()) else {
        return Err(JobsError::Memory);
    };
    let gate = Gate::new();
    match run_in_scope(rt, &gate, shared, jobs, answers) {
        Some(answers) => Ok(answers),
        None => Err(JobsError::Thread),
    }
}

/// Runs the jobs in a scope.
fn run_in_scope<'x, J: Job + Send + 'x, R: Threads + Wait + Sync + 'x>(
    rt: &'x R,
    gate: &'x Gate,
    shared: &'x J::Shared,
    jobs: Vec<J>,
    answers: Vec<J::Answer>,
) -> Option<Vec<J::Answer>>
where
    J::Shared: Sync,
    requires { CanRun J.before jobs.items answers.items (vec_capacity answers) }
    ensures after { IfSome result (λ all. AreAfter J.after jobs.items all.items) }
    ensures some { length jobs.items ≡ 0 → IsSome result }
{
    thread::scope(
        thread::scope_env(),
        rt,
        move |scope| -> Option<Vec<J::Answer>>
            requires { CanRun J.before jobs.items answers.items (vec_capacity answers) }
            ensures after { IfSome result (λ all. AreAfter J.after jobs.items all.items) }
            ensures some { length jobs.items ≡ 0 → IsSome result }
        { start_rest(rt, scope, gate, shared, jobs, answers) },
    )
}

/// Spawns a thread for each of the jobs that are left, the last first, opens the gate once all are
/// spawned, and joins them: their answers, in the order of the jobs.
#[tactic(auto, using(crate::proofs::JobLemmas::one_more))]
fn start_rest<'s, E, J: Job + Send + 's, R: Threads + Wait + Sync + 's>(
    rt: &'s R,
    scope: &Scope<'s, E>,
    gate: &'s Gate,
    shared: &'s J::Shared,
    mut jobs: Vec<J>,
    answers: Vec<J::Answer>,
) -> Option<Vec<J::Answer>>
where
    J::Shared: Sync,
    requires { CanRun J.before jobs.items answers.items (vec_capacity answers) }
    ensures after { IfSome result (λ all. AreAfter J.after jobs.items all.items) }
    ensures len { IfSome result (λ all. vec_len all ≡ length jobs.items) }
    ensures room { IfSome result (λ all. vec_capacity all ≡ vec_capacity answers) }
    ensures some { length jobs.items ≡ 0 → IsSome result }
{
    let Some(job) = jobs.pop() else {
        gate.open(rt);
        return Some(answers);
    };
    let Some(thread) = start(rt, scope, gate, shared, job) else {
        gate.shut(rt);
        return None;
    };
    let mut answers = start_rest(rt, scope, gate, shared, jobs, answers)?;
    let answer = thread.join(rt)?;
    answers.push_reserved(answer);
    Some(answers)
}

/// Spawns a job's thread, which waits at the gate.
fn start<'s, E, J: Job + Send + 's, R: Threads + Wait + Sync + 's>(
    rt: &'s R,
    scope: &Scope<'s, E>,
    gate: &'s Gate,
    shared: &'s J::Shared,
    job: J,
) -> Option<PromisedHandle<Option<J::Answer>, After<J>>>
where
    J::Shared: Sync,
    requires { J.before job }
    ensures { IfSome result (λ thread. thread.promise.job.value ≡ job) }
{
    let promise = After {
        job: Snapshot::of(&job),
    };
    let started = scope.spawn_with(
        promise,
        move || -> Option<J::Answer>
            requires { J.before job }
            ensures { IfSome result (J.after job) }
        { behind(rt, gate, shared, job) },
    );
    match started {
        Ok(thread) => Some(thread),
        Err(_) => None,
    }
}

/// Runs a job once the gate is opened.
fn behind<J: Job, R: Wait>(rt: &R, gate: &Gate, shared: &J::Shared, job: J) -> Option<J::Answer>
    requires { J.before job }
    ensures { IfSome result (J.after job) }
{
    if gate.lets_through(rt) {
        Some(job.run(rt, shared))
    } else {
        None
    }
}

/// What is known of a job's answer where its gate was opened.
#[derive(Drop)]
struct After<J> {
    job: Snapshot<J>,
}

impl<J: Job> Promise<Option<J::Answer>> for After<J> {
    ghost kept_by = { λ p r. IfSome r (J.after p.job.value) };
}
