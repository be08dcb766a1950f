//! A run of one thread that calls at all seats of a system, as a simulator or a scheduler does.

ghost use Rattle.std.specs.Prelude.{◌≡◌, ◌↔◌, ℕ, ◌+◌, ◌≤◌, List, [], ◌++◌, true, false, length, map};
ghost use Rattle.std.specs.Prelude.{IfOk, IsErrOf, vec_capacity, vec_len};
ghost use Rattle.mq_calls.specs.Limits.{keeps_limits};
ghost use Rattle.mq_calls.specs.declared.config.Config.{Config as Sizes};
ghost use Rattle.mq_system.specs.Seat.{SeatState};
ghost use Rattle.mq_system.specs.Sizes.{AreNames};
ghost use Rattle.mq_system.specs.Started.{AreFresh};
ghost use Rattle.mq.specs.Ended.{IsAfterAll, IsEnded};

use crate::{Caller, Ended, Setup};
use mq_arena::LEDGER_PARTS;
use mq_system::{Blanks, Config, Names, Pledge, Seat, SysError, System};
use std::alloc::Global;
use std::marker::Brand;
use std::sync::Wait;
use std::time::Clock;

/// What one thread does by the callers of all seats of a system, which stand in the order of their
/// numbers: a simulator, or a scheduler that calls for many. Its precondition, of the sizes, is
/// `before`; its postcondition, of its answer and of the seats at the end, is `after`. A program
/// that promises nothing leaves both out.
pub trait SystemProgram<P: Pledge>: Drop {
    type Answer;

    ghost before: { Self → Sizes → Type 0 } = { λ _ _. Unit {0} };

    ghost after: { Self → Sizes → List SeatState → Self.Answer → Type 0 } = { λ _ _ _ _. Unit {0} };

    /// Runs once. No queue is made yet, and no page is allocated.
    fn run<N: Names, R: Wait + Clock>(
        self,
        config: Config,
        callers: &mut [Caller<'_, P, N, R>],
    ) -> Self::Answer
        requires before { before self config }
        requires limits { keeps_limits config ≡ true }
        requires height { N.height ≡ config.height }
        requires slots { N.slots ≡ config.slots }
        requires seats { N.seats ≡ config.seats }
        requires last_seq { N.last_seq ≡ config.last_seq }
        requires count { length callers.old ≡ config.seats }
        requires fresh { AreFresh N.slots (map (λ caller. caller.seat) callers.old) }
        ensures after { after self config (map (λ caller. caller.seat) callers.new) result };
}

/// Makes a system of this size, runs the program on it once, and closes it. Where the answer is
/// `Err`, the program has not begun. A call that waits for another seat of the same program waits
/// forever.
pub fn with_system<P: Pledge, Q: SystemProgram<P>, R: Wait + Clock>(
    rt: &R,
    alloc: Global,
    config: Config,
    program: Q,
) -> Result<Ended<Q::Answer>, SysError>
    requires before { Q.before program config }
    ensures after { IfOk result (IsAfterAll Q.after program config) }
    ensures ended { IfOk result (IsEnded config.slots config.last_seq config.height) }
    ensures err { IsErrOf result SysError.Config ↔ (keeps_limits config ≡ false) }
{
    Setup::new(config).with_system(rt, alloc, program)
}

impl Setup {
    /// `with_system` for a system that is set up so.
    pub fn with_system<P: Pledge, Q: SystemProgram<P>, R: Wait + Clock>(
        self,
        rt: &R,
        alloc: Global,
        program: Q,
    ) -> Result<Ended<Q::Answer>, SysError>
        requires before { Q.before program self.config }
        ensures after { IfOk result (IsAfterAll Q.after program self.config) }
        ensures ended { IfOk result
            (IsEnded self.config.slots self.config.last_seq self.config.height) }
        ensures err { IsErrOf result SysError.Config ↔ (keeps_limits self.config ≡ false) }
    {
        let Setup { config, log_limit } = self;
        let blanks = match Blanks::of(alloc, config) {
            Ok(blanks) => blanks,
            Err(error) => return Err(error),
        };
        run_system::<P, Brand, Q, R>(rt, alloc, config, log_limit, blanks, program)
    }
}

#[tactic(auto, using(crate::proofs::FreeLemmas::free_within))]
fn run_system<P: Pledge, N: Names, Q: SystemProgram<P>, R: Wait + Clock>(
    rt: &R,
    alloc: Global,
    config: Config,
    log_limit: u64,
    blanks: Blanks,
    program: Q,
) -> Result<Ended<Q::Answer>, SysError>
    requires names { AreNames N.Names.own N.Naming blanks config }
    requires enough { LEDGER_PARTS ≤ blanks.pages.parts }
    requires before { Q.before program config }
    ensures after { IfOk result (IsAfterAll Q.after program config) }
    ensures ended { IfOk result (IsEnded N.slots N.last_seq N.height) }
    ensures err { IsErrOf result SysError.Config ↔ (keeps_limits config ≡ false) }
{
    let (system, mut seats) = match System::<P, N>::new(alloc, rt, config, blanks) {
        Ok(made) => made,
        Err(error) => return Err(error),
    };
    let system = system.with_log_limit(log_limit);
    let Ok(mut callers) = Vec::with_capacity(alloc, seats.len()) else {
        system.close(rt, seats);
        return Err(SysError::Memory);
    };
    seat_all(rt, alloc, &system, &mut seats, &mut callers);
    let answer = program.run(config, &mut callers);
    leave_all(&mut callers, &mut seats);
    callers.destroy_empty();
    let closed = system.close(rt, seats);
    Ok(Ended::of(answer, closed))
}

/// A caller at each seat, in their order.
fn seat_all<'a, P: Pledge, N: Names, R: Wait + Clock>(
    rt: &'a R,
    alloc: Global,
    system: &'a System<P, N>,
    seats: &mut Vec<Seat<N>>,
    callers: &mut Vec<Caller<'a, P, N, R>>,
)
    requires room { vec_len callers.old + vec_len seats.old ≤ vec_capacity callers.old }
    ensures callers { map (λ caller. caller.seat) callers.new.items
        ≡ map (λ caller. caller.seat) callers.old.items ++ seats.old.items }
    ensures none { seats.new.items ≡ [] }
    ensures capacity { vec_capacity seats.new ≡ vec_capacity seats.old }
    ensures room { vec_capacity callers.new ≡ vec_capacity callers.old }
{
    if let Some(seat) = seats.pop() {
        seat_all(rt, alloc, system, seats, callers);
        callers.push_reserved(Caller::new(rt, alloc, system, seat));
    }
}

/// The seats of all callers, in their order.
fn leave_all<P: Pledge, N: Names, R: Wait + Clock>(
    callers: &mut Vec<Caller<'_, P, N, R>>,
    seats: &mut Vec<Seat<N>>,
)
    requires room { vec_len seats.old + vec_len callers.old ≤ vec_capacity seats.old }
    ensures seats { seats.new.items
        ≡ seats.old.items ++ map (λ caller. caller.seat) callers.old.items }
    ensures none { callers.new.items ≡ [] }
    ensures capacity { vec_capacity seats.new ≡ vec_capacity seats.old }
{
    if let Some(caller) = callers.pop() {
        leave_all(callers, seats);
        seats.push_reserved(caller.into_seat());
    }
}
