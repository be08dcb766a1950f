//! Two threads whose workers have different types, as a producer and a consumer have.

ghost use Rattle.std.specs.Prelude.{◌≡◌, ◌↔◌, ◌<◌, true, false, length, IfOk};
ghost use Rattle.std.specs.Prelude.{IsErrOf};
ghost use Rattle.mq_calls.specs.Limits.{keeps_limits};
ghost use Rattle.mq.specs.Ended.{IsEnded};
ghost use Rattle.mq.specs.Workers.{AreOfTwo};

use crate::either::{Either, apart, both};
use crate::{Caller, Ended, Setup, Worker, WorkersError};
use mq_system::{Config, Names, Pledge};
use std::alloc::Global;
use std::sync::Wait;
use std::thread::Threads;
use std::time::Clock;

/// `with_workers` for two workers of different types, at seats 1 and 2.
pub fn with_two<
    P: Pledge + Send + Sync,
    A: Worker<P> + Send,
    B: Worker<P> + Send,
    R: Threads + Wait + Clock + Sync,
>(
    rt: &R,
    alloc: Global,
    config: Config,
    one: A,
    other: B,
) -> Result<Ended<(A::Answer, B::Answer)>, WorkersError>
    ensures after { IfOk result (λ e.
        AreOfTwo A.after B.after config.last_seq one other e.answer e.slots.items) }
    ensures ended { IfOk result (IsEnded config.slots config.last_seq config.height) }
    ensures config { IsErrOf result WorkersError.Config ↔ (keeps_limits config ≡ false) }
    ensures seats { IsErrOf result WorkersError.TooManyWorkers
        ↔ ((keeps_limits config ≡ true) × (config.seats < 2)) }
{
    Setup::new(config).with_two(rt, alloc, one, other)
}

impl Setup {
    /// `with_two` for a system that is set up so.
    pub fn with_two<
        P: Pledge + Send + Sync,
        A: Worker<P> + Send,
        B: Worker<P> + Send,
        R: Threads + Wait + Clock + Sync,
    >(
        self,
        rt: &R,
        alloc: Global,
        one: A,
        other: B,
    ) -> Result<Ended<(A::Answer, B::Answer)>, WorkersError>
        ensures after { IfOk result (λ e.
            AreOfTwo A.after B.after self.config.last_seq one other e.answer e.slots.items) }
        ensures ended { IfOk result
            (IsEnded self.config.slots self.config.last_seq self.config.height) }
        ensures config { IsErrOf result WorkersError.Config ↔ (keeps_limits self.config ≡ false) }
        ensures seats { IsErrOf result WorkersError.TooManyWorkers
            ↔ ((keeps_limits self.config ≡ true) × (self.config.seats < 2)) }
    {
        if !self.config.is_valid() {
            return Err(WorkersError::Config);
        }
        if self.config.seats < 2 {
            return Err(WorkersError::TooManyWorkers);
        }
        let Ok(workers) = both(alloc, one, other) else {
            return Err(WorkersError::Memory);
        };
        let ended = self.with_workers(rt, alloc, workers)?;
        Ok(Ended {
            answer: apart(ended.answer),
            slots: ended.slots,
            free_pages: ended.free_pages,
        })
    }
}

impl<P: Pledge, A: Worker<P>, B: Worker<P>> Worker<P> for Either<A, B> {
    ghost use Rattle.mq.specs.Either.{after_either};

    type Answer = Either<A::Answer, B::Answer>;

    ghost after = { after_either A.after B.after };

    fn work<N: Names, R: Wait + Clock>(
        self,
        caller: &mut Caller<'_, P, N, R>,
    ) -> Either<A::Answer, B::Answer> {
        match self {
            Either::One(worker) => Either::One(worker.work(caller)),
            Either::Other(worker) => Either::Other(worker.work(caller)),
        }
    }
}
