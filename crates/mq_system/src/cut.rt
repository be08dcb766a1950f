//! The call that drains a slot's log.

ghost use Rattle.std.specs.Prelude.{◌≡◌, ◌<◌, Some, length, MatchResult};
ghost use Rattle.mq_table.specs.Cut.{IsCutOf, cut_shown};
ghost use Rattle.mq_calls.specs.declared.errno.Errno.TheVariants.{ENOMEM};
ghost use Rattle.mq_system.specs.Outcome.{IsLook};
ghost use Rattle.mq_system.specs.Seat.{front_of};

use crate::{Cut, Names, Pledge, Refused, Seat, System};
use std::sync::{MutexGuard, Wait};

impl<P: Pledge, N: Names> System<P, N> {
    /// Drains the slot's list, and returns what was retained of it, to be stored or dropped: of the
    /// front that the seat then has, the entries from the cut's `first` to the end, with what is
    /// known of those before. No other call is affected: all count on from the whole list. It is no
    /// change, adds to no count and publishes nothing. ENOMEM alone.
    pub fn cut_log<R: Wait>(&self, rt: &R, seat: &mut Seat<N>, slot: u8) -> Result<Cut, Refused>
        requires within { slot < N.slots }
        ensures answer { MatchResult result
            (λ cut. IsCutOf (front_of seat.new slot) (cut_shown cut))
            (λ r. r ≡ record {
              errno = ENOMEM;
              entry = Some (length (front_of seat.new slot));
            }) }
        ensures look { IsLook seat.old seat.new }
    {
        let mut held = self.monitors[slot as usize].enter(rt, seat, slot);
        let answer = held.cut();
        MutexGuard::unlock(held);
        answer
    }
}
