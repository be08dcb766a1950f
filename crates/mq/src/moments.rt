//! The timestamps of calls: set by the caller, or read from a clock.

ghost use Rattle.std.specs.Prelude.{◌≡◌, true, false};
ghost use Rattle.mq.specs.Moments.{IsTimed};

use std::time::Clock;

/// The timestamps of a caller's calls, which stime, rtime and ctime show (msgctl(2)).
#[derive(Clone, Copy, Debug, PartialEq, Eq)]
pub struct Moments {
    /// The timestamp of the last call, and of the next one where no clock is read.
    pub now: u64,
    /// Whether each call reads the clock before it begins, in seconds since 1970.
    pub by_clock: bool,
}

impl Moments {
    /// This moment for each call, until another is set.
    pub fn at(now: u64) -> Moments
        ensures now { result.now ≡ now }
        ensures clock { result.by_clock ≡ false }
    {
        Moments {
            now,
            by_clock: false,
        }
    }

    /// The clock's, or 0 until it can be read.
    pub fn by_clock() -> Moments
        ensures clock { result.by_clock ≡ true }
        ensures now { result.now ≡ 0 }
    {
        Moments {
            now: 0,
            by_clock: true,
        }
    }

    /// Those of a call that begins. Where the clock cannot be read, or is before 1970, the last
    /// timestamp stays.
    #[inline(always)]
    pub(crate) fn of_call(self, clock: &impl Clock) -> Moments
        ensures { IsTimed self result }
    {
        if !self.by_clock {
            return self;
        }
        match clock.since_1970() {
            Ok(since) => Moments {
                now: since.as_secs(),
                by_clock: true,
            },
            Err(_) => self,
        }
    }
}

impl Default for Moments {
    fn default() -> Moments
        ensures clock { result.by_clock ≡ true }
        ensures now { result.now ≡ 0 }
    {
        Moments::by_clock()
    }
}
