//! Workers at their seats, as jobs of threads: `with_workers` puts each worker at a seat, runs it
//! there, and takes its seat and its answer back. Proofs see which worker each answer is of.

ghost use Rattle.std.specs.Prelude.{◌≡◌, ◌≤◌, List, [], length, vec_len, vec_capacity};
ghost use Rattle.mq.specs.Workers.{AreAfterWork, IsOf};

use crate::{Caller, Worker};
use mq_jobs::Job;
use mq_system::{Names, Pledge, Seat, System};
use std::alloc::{AllocError, Global};
use std::hint::spin_loop;
use std::marker::{Brand, Model, PhantomData};
use std::sync::Wait;
use std::time::Clock;

/// The workers of a system by their indices, which only proofs see.
pub(crate) trait Crew<W> {
    ghost workers: { List W };
}

impl<W> Crew<W> for Brand {
    ghost workers = { [] };
}

/// A worker, its caller, and room for its answer. Of what a thread leaves behind a reference,
/// proofs know the type alone: so the type says whose answer it is.
pub(crate) struct AtSeat<'a, P: Pledge, N: Names, R: Wait + Clock, C: Crew<W>, W: Worker<P>> {
    place: usize,
    caller: Caller<'a, P, N, R>,
    worker: Option<W>,
    answer: Option<W::Answer>,
    of: PhantomData<C>,
}

impl<'a, P: Pledge, N: Names, R: Wait + Clock, C: Crew<W>, W: Worker<P>> Model
    for AtSeat<'a, P, N, R, C, W> {
    ghost use Rattle.std.specs.Prelude.{ℕ};
    ghost use Rattle.mq.specs.Workers.{IsSeatOfWorker};

    ghost Value = { ℕ };

    ghost view = { λ s. s.place };

    ghost invariant = { λ s. IsSeatOfWorker W.after C.workers s.place s.caller.seat s.worker
        s.answer };
}

impl<'a, P: Pledge, N: Names, R: Wait + Clock, C: Crew<W>, W: Worker<P>> AtSeat<'a, P, N, R, C, W> {
    /// The seat and the answer of the worker with this index. The answer of another worker, or
    /// none, cannot occur; this is argued, not proved.
    fn leave(self, rt: &R, place: usize) -> (Seat<N>, W::Answer)
        ensures { IsOf W.after C.workers place result.0 result.1 }
    {
        let AtSeat {
            place: own,
            caller,
            worker: _,
            answer,
            of: _,
        } = self;
        if own == place
            && let Some(answer) = answer
        {
            return (caller.into_seat(), answer);
        }
        for _ in rt.forever() {
            spin_loop();
        }
        unreachable!()
    }

    /// The seat alone.
    fn clear(self) -> Seat<N> {
        let AtSeat {
            place: _,
            caller,
            worker: _,
            answer: _,
            of: _,
        } = self;
        caller.into_seat()
    }
}

/// The job of one thread: it runs the worker, if that has not run yet.
#[derive(Drop)]
pub(crate) struct SeatJob<'b, 'a, P: Pledge, N: Names, R: Wait + Clock, C: Crew<W>, W: Worker<P>> {
    at: &'b mut AtSeat<'a, P, N, R, C, W>,
}

impl<
    'b,
    'a,
    P: Pledge + Send + Sync,
    N: Names + Send + Sync,
    R: Wait + Clock + Sync,
    C: Crew<W> + Send + Sync,
    W: Worker<P> + Send,
> Job for SeatJob<'b, 'a, P, N, R, C, W> {
    type Shared = ();

    type Answer = ();

    fn run<T: Wait>(self, _rt: &T, _shared: &()) {
        let SeatJob { at } = self;
        let Some(worker) = at.worker.take() else {
            return;
        };
        at.answer = Some(worker.work(&mut at.caller));
    }
}

/// Puts each worker at the seat of its index, the last one first.
pub(crate) fn take_seats<'a, P: Pledge, N: Names, R: Wait + Clock, C: Crew<W>, W: Worker<P>>(
    rt: &'a R,
    alloc: Global,
    system: &'a System<P, N>,
    seats: &mut Vec<Seat<N>>,
    workers: Vec<W>,
    taken: &mut Vec<AtSeat<'a, P, N, R, C, W>>,
)
    requires crew { C.workers ≡ workers.items }
    requires seats { vec_len seats.old ≡ vec_len workers }
    requires none { vec_len taken.old ≡ 0 }
    requires room { vec_len workers ≤ vec_capacity taken.old }
    ensures none { vec_len seats.new ≡ 0 }
    ensures room { vec_capacity seats.new ≡ vec_capacity seats.old }
    ensures count { vec_len taken.new ≡ vec_len workers }
{
    let mut workers = workers;
    while let Some(worker) = workers.pop() {
        let Some(seat) = seats.pop() else {
            unreachable!()
        };
        taken.push_reserved(AtSeat {
            place: workers.len(),
            caller: Caller::new(rt, alloc, system, seat),
            worker: Some(worker),
            answer: None,
            of: PhantomData,
        });
    }
}

/// A job for each worker.
pub(crate) fn turns<'b, 'a, P: Pledge, N: Names, R: Wait + Clock, C: Crew<W>, W: Worker<P>>(
    alloc: Global,
    taken: &'b mut [AtSeat<'a, P, N, R, C, W>],
) -> Result<Vec<SeatJob<'b, 'a, P, N, R, C, W>>, AllocError> {
    let mut turns = Vec::with_capacity(alloc, taken.len())?;
    let all = taken.iter_mut();
    for at in all {
        turns.push(SeatJob { at })?;
    }
    Ok(turns)
}

/// All seats, and what was answered at them, in the order of the workers.
pub(crate) fn leave_seats<P: Pledge, N: Names, R: Wait + Clock, C: Crew<W>, W: Worker<P>>(
    rt: &R,
    taken: Vec<AtSeat<'_, P, N, R, C, W>>,
    seats: &mut Vec<Seat<N>>,
    answers: &mut Vec<W::Answer>,
)
    requires count { vec_len taken ≡ length C.workers }
    requires no_seat { vec_len seats.old ≡ 0 }
    requires no_answer { vec_len answers.old ≡ 0 }
    requires room_of_seats { vec_len taken ≤ vec_capacity seats.old }
    requires room { vec_len taken ≤ vec_capacity answers.old }
    ensures count { vec_len seats.new ≡ vec_len taken.entry }
    ensures after { AreAfterWork W.after C.workers seats.new.items answers.new.items }
{
    let mut taken = taken;
    while let Some(at) = taken.pop() {
        let (seat, answer) = at.leave(rt, answers.len());
        seats.push_reserved(seat);
        answers.push_reserved(answer);
    }
    taken.destroy_empty();
}

/// All seats, where no worker has begun.
pub(crate) fn clear_seats<P: Pledge, N: Names, R: Wait + Clock, C: Crew<W>, W: Worker<P>>(
    taken: Vec<AtSeat<'_, P, N, R, C, W>>,
    seats: &mut Vec<Seat<N>>,
)
    requires none { vec_len seats.old ≡ 0 }
    requires room { vec_len taken ≤ vec_capacity seats.old }
    ensures count { vec_len seats.new ≡ vec_len taken.entry }
{
    let mut taken = taken;
    while let Some(at) = taken.pop() {
        seats.push_reserved(at.clear());
    }
    taken.destroy_empty();
}
