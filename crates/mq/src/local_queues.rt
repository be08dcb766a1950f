//! The state that the callers of one thread share: a program of `with_queues` makes its callers
//! from it.

ghost use Rattle.std.specs.Prelude.{◌≡◌};

use crate::LocalCaller;
use mq_local::OneThread;
use std::alloc::Global;
use std::sync::ledger::Ledger;

/// The queues of one thread, with what the callers at all seats share: a simulator's, or a
/// scheduler's that calls for many.
pub struct LocalQueues<L: Ledger> {
    pub queues: OneThread<L>,
    /// The timestamp of the calls, which stime, rtime and ctime show.
    pub moment: u64,
    pub(crate) alloc: Global,
    /// A buffer that a receive reserves before it takes a message, kept for the next one.
    pub(crate) room: Vec<u8>,
}

impl<L: Ledger> LocalQueues<L> {
    /// These queues, with moment 0.
    pub(crate) fn of(alloc: Global, queues: OneThread<L>) -> LocalQueues<L>
        ensures queues { result.queues ≡ queues }
        ensures moment { result.moment ≡ 0 }
    {
        LocalQueues {
            queues,
            moment: 0,
            alloc,
            room: Vec::new(alloc),
        }
    }

    /// The queues alone, to be closed.
    pub(crate) fn into_queues(self) -> OneThread<L>
        ensures { result ≡ self.queues }
    {
        let LocalQueues {
            queues,
            moment: _,
            alloc: _,
            room: _,
        } = self;
        queues
    }

    /// The allocator of its calls.
    pub fn alloc(&self) -> Global {
        self.alloc
    }

    /// The caller at this seat.
    pub fn caller(&mut self, seat: u16) -> LocalCaller<'_, L>
        ensures same_reference { result.of.ghost_name ≡ self.entry.ghost_name }
        ensures now { result.of.now ≡ self.old }
        ensures seat { result.seat ≡ seat }
    {
        LocalCaller { of: self, seat }
    }
}
