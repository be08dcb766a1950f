//! The queue interface of a worker.

ghost use Rattle.std.specs.Prelude.{◌≡◌, ◌+◌, ◌<◌, ◌≤◌, ℕ, ℤ, [], MatchResult, length};
ghost use Rattle.std.specs.Prelude.{vec_capacity};
ghost use Rattle.mq_cli.specs.Batches.{TakesMany};

use crate::{PutCall, TakeCall, Taken};
use mq_calls::Errno;
use mq_system::Patience;
use mq_table::Id;
use std::sync::Wait;

/// What a worker makes its calls through, each of which may wait. `calls` is the number of those
/// that succeeded; `puts`, `takes` and `removes` are what a call of each kind does that sends or
/// receives one message, or removes a queue: the port before it, its arguments, its answer, and the
/// port after it.
pub trait Port {
    ghost use Rattle.std.specs.Prelude.{Bool, Result};
    ghost use Rattle.mq_calls.specs.declared.errno.Errno.{Errno};
    ghost use Rattle.mq_cli.specs.declared.threads.taken.Taken.{Taken};

    /// What the ports of all workers have in common.
    type Shared;

    ghost calls: { Self → ℕ };

    /// By the id, the type, the tag, the length, whether its patience ends, and the moment.
    ghost puts: { Self → ℕ → ℤ → ℕ → ℕ → Bool → ℕ → Result ℕ Errno → Self → Type 0 };

    /// By the id, the selection, whether its patience ends, and the moment.
    ghost takes: { Self → ℕ → ℤ → Bool → ℕ → Result Taken Errno → Self → Type 0 };

    /// By the id and the moment.
    ghost removes: { Self → ℕ → ℕ → Result ℕ Errno → Self → Type 0 };

    /// Sends a message with this tag, and returns its entry. It waits until the patience ends.
    fn put<R: Wait, T: Patience>(
        &mut self,
        rt: &R,
        shared: &Self::Shared,
        call: &PutCall,
        tag: u64,
        patience: &mut T,
    ) -> Result<u64, Errno>
        ensures calls { MatchResult result (λ _. calls self.new ≡ calls self.old + 1)
            (λ _. calls self.new ≡ calls self.old) }
        ensures done { puts self.old call.now.id call.now.mtype tag call.now.length T.ends
            call.now.moment result self.new };

    /// Receives up to `most` messages, whose texts are spent, as that many calls for one. It waits
    /// for the first alone until the patience ends, and takes what is there.
    fn take_many<R: Wait, T: Patience>(
        &mut self,
        rt: &R,
        shared: &Self::Shared,
        call: &TakeCall,
        patience: &mut T,
        most: usize,
        out: &mut Vec<Taken>,
    ) -> Result<(), Errno>
        requires some { 0 < most }
        requires empty { out.old.items ≡ [] }
        requires room { most ≤ vec_capacity out.old }
        ensures calls { calls self.new ≡ calls self.old + length out.new.items }
        ensures done { TakesMany takes call.now.id call.now.msgtyp T.ends call.now.moment most
            self.old out.new.items result self.new };

    /// Removes a queue, and returns the entry.
    fn remove<R: Wait>(
        &mut self,
        rt: &R,
        shared: &Self::Shared,
        id: Id,
        moment: u64,
    ) -> Result<u64, Errno>
        ensures calls { MatchResult result (λ _. calls self.new ≡ calls self.old + 1)
            (λ _. calls self.new ≡ calls self.old) }
        ensures done { removes self.old id moment result self.new };
}
