//! The state of a serial run.

ghost use Rattle.std.specs.Prelude.{◌≡◌, IfOk, map};
ghost use Rattle.mq_calls.specs.Closed.{ending_of, ends};
ghost use Rattle.mq_cli.specs.Session.{CanOpen, first_session};

use crate::draft::letters;
use mq_calls::{Closed, ClosedSlot, Config};
use mq_local::OneThread;
use mq_queue::MSGMAX;
use std::alloc::{AllocError, Global};
use std::marker::Model;
use std::sync::ledger::{Blank, Ledger};

/// What a run has: the queues, the letters that texts are made of, and the seat that makes the
/// calls. `close` ends it.
pub struct Session<L: Ledger> {
    pub(crate) queues: OneThread<L>,
    pub(crate) letters: Vec<u8>,
    pub(crate) seat: u16,
}

impl<L: Ledger> Model for Session<L> {
    ghost use Rattle.std.specs.Prelude.{◌≡◌, map};
    ghost use Rattle.std.specs.List.{range_with_len};
    ghost use Rattle.mq_queue.specs.declared.limits.TheConstants.{MSGMAX};
    ghost use Rattle.mq_cli.specs.Drafts.{letter};
    ghost use Rattle.mq_cli.specs.Session.{SessionState};

    ghost Value = { SessionState };

    ghost view = { λ s. record { queues = s.queues; seat = s.seat } };

    ghost invariant = { λ s. s.letters.items ≡ map letter (range_with_len 0 MSGMAX) };
}

impl<L: Ledger> Session<L> {
    /// A run with no queue yet.
    pub(crate) fn new(
        alloc: Global,
        config: Config,
        ledger: Blank,
    ) -> Result<Session<L>, AllocError>
        requires { CanOpen ledger.name ledger.parts L.name L.parts }
        ensures { IfOk result (λ session. session ≡ first_session config) }
    {
        let letters = letters(alloc, MSGMAX)?;
        match OneThread::new(alloc, config, ledger) {
            Ok(queues) => Ok(Session {
                queues,
                letters,
                seat: 1,
            }),
            Err(_) => Err(AllocError),
        }
    }

    /// Ends the run, and frees the texts of pending messages. Returns what the slots leave.
    pub(crate) fn close(self) -> Vec<ClosedSlot>
        ensures { map ending_of result.items ≡ map ends self.queues.slots }
    {
        let Session {
            queues,
            letters: _,
            seat: _,
        } = self;
        let Closed { slots, arena: _ } = queues.close();
        slots
    }
}
