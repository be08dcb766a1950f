//! A run of one thread: its queues are made, the program is run on them, and they are closed.

ghost use Rattle.std.specs.Prelude.{◌≡◌, ◌↔◌, ◌≤◌, true, false, IfOk, IsErrOf};
ghost use Rattle.mq_calls.specs.Limits.{keeps_limits, empty_queues};
ghost use Rattle.mq_calls.specs.State.{QueuesState};
ghost use Rattle.mq_calls.specs.declared.config.Config.{Config as Sizes};
ghost use Rattle.mq.specs.Ended.{Leaves};

use crate::{Ended, LocalQueues};
use mq_arena::LEDGER_PARTS;
use mq_calls::{Closed, Config, SysError};
use mq_local::OneThread;
use std::alloc::Global;
use std::marker::Brand;
use std::sync::ledger::{Blank, Ledger};

/// What is done with the queues of one thread. Its precondition, of the sizes, is `before`; its
/// postcondition, of its answer and of the state that it leaves, is `after`. A program that
/// promises nothing leaves both out.
pub trait QueueProgram: Drop {
    type Answer;

    ghost before: { Self → Sizes → Type 0 } = { λ _ _. Unit {0} };

    ghost after: { Self → Sizes → QueuesState → Self.Answer → Type 0 } = { λ _ _ _ _. Unit {0} };

    /// Runs once. No queue is made yet, and no page is allocated.
    fn run<L: Ledger>(self, config: Config, queues: &mut LocalQueues<L>) -> Self::Answer
        requires before { before self config }
        requires limits { keeps_limits config ≡ true }
        requires start { queues.old.queues ≡ empty_queues config }
        requires moment { queues.old.moment ≡ 0 }
        ensures after { after self config queues.new.queues result };
}

/// Makes queues of this size, runs the program on them once, and closes them. Where the answer is
/// `Err`, the program has not begun.
pub fn with_queues<Q: QueueProgram>(
    alloc: Global,
    config: Config,
    program: Q,
) -> Result<Ended<Q::Answer>, SysError>
    requires before { Q.before program config }
    ensures ok { IfOk result (λ ended. (left : QueuesState)
        × Q.after program config left ended.answer × Leaves left ended) }
    ensures err { IsErrOf result SysError.Config ↔ (keeps_limits config ≡ false) }
{
    run_program::<Brand, Q>(alloc, config, Blank::new(LEDGER_PARTS), program)
}

fn run_program<L: Ledger, Q: QueueProgram>(
    alloc: Global,
    config: Config,
    ledger: Blank,
    program: Q,
) -> Result<Ended<Q::Answer>, SysError>
    requires name { ledger.name ≡ L.name }
    requires parts { ledger.parts ≡ L.parts }
    requires enough { LEDGER_PARTS ≤ ledger.parts }
    requires before { Q.before program config }
    ensures ok { IfOk result (λ ended. (left : QueuesState)
        × Q.after program config left ended.answer × Leaves left ended) }
    ensures err { IsErrOf result SysError.Config ↔ (keeps_limits config ≡ false) }
{
    let mut queues = LocalQueues::of(alloc, OneThread::<L>::new(alloc, config, ledger)?);
    let answer = program.run(config, &mut queues);
    let Closed { slots, arena } = queues.into_queues().close();
    Ok(Ended {
        answer,
        slots,
        free_pages: arena.free_pages(),
    })
}
