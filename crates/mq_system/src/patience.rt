//! Timeout policies of the calls that wait: for ever, not at all, or until a deadline.

ghost use Rattle.std.specs.Prelude.{◌≡◌, true, false, Bool, IsNone, IfSome, None, Some};
ghost use Rattle.std.specs.Option.{option_map};
ghost use Rattle.core.specs.Duration.{as_nanos, max_nanos};

use std::time::{Clock, Duration, Instant};

/// How long a call waits. A call whose patience does not end does not fail by a timeout.
pub trait Patience {
    ghost ends: { Bool };

    /// How much longer it waits, or that it waits no longer. It is asked with no lock held, and
    /// only where a call has to wait.
    fn left(&mut self) -> Option<Duration>
        ensures { IsNone result → Self.ends ≡ true };
}

/// Waits for as long as it takes.
#[derive(Clone, Copy, Debug, PartialEq, Eq)]
pub struct Forever;

impl Patience for Forever {
    ghost ends = { false };

    fn left(&mut self) -> Option<Duration>
        ensures value { option_map as_nanos result ≡ Some max_nanos }
    {
        Some(Duration::MAX)
    }
}

/// Does not wait, as IPC_NOWAIT.
#[derive(Clone, Copy, Debug, PartialEq, Eq)]
pub struct NoWait;

impl Patience for NoWait {
    ghost ends = { true };

    fn left(&mut self) -> Option<Duration>
        ensures value { result ≡ None }
    {
        None
    }
}

/// Where a wait ends.
#[derive(Clone, Copy)]
enum End {
    /// So long after it begins.
    After(Duration),
    At(Instant),
}

impl End {
    ghost use Rattle.std.specs.Time.{FitsClock, instant_nanos};
    ghost use Rattle.mq_system.specs.Patience.{IsHeldAt, IsLeftAt};

    /// How much longer it is until this end at that time. From then on the end of a span is a time,
    /// if the clock ever reads it.
    fn left_at(&mut self, now: Instant) -> Option<Duration>
        requires { FitsClock (instant_nanos now) }
        ensures left { IsLeftAt (instant_nanos now) self.old result }
        ensures held { IsHeldAt (instant_nanos now) self.old self.new }
    {
        let end = match *self {
            End::At(end) => end,
            End::After(span) => {
                let Some(end) = now.checked_add(span) else {
                    return Some(span);
                };
                *self = End::At(end);
                end
            }
        };
        let left = end.checked_duration_since(now)?;
        if left.is_zero() { None } else { Some(left) }
    }
}

/// Waits until its end, by the monotonic time of this clock. Where the clock can't be read, it
/// doesn't wait.
#[derive(Clone, Copy)]
pub struct Until<'a, C: Clock> {
    clock: &'a C,
    end: End,
}

impl<'a, C: Clock> Until<'a, C> {
    /// For so long, from when a call first has to wait: until then no clock is read. Its end then
    /// holds for all calls that are given this patience. A time that the clock never reaches does
    /// not end.
    pub fn within(clock: &'a C, span: Duration) -> Until<'a, C>
        ensures { result.end ≡ End.After span }
    {
        let end = End::After(span);
        Until { clock, end }
    }

    /// Until the clock reads this time.
    pub fn at(clock: &'a C, time: Instant) -> Until<'a, C>
        ensures { result.end ≡ End.At time }
    {
        let end = End::At(time);
        Until { clock, end }
    }
}

impl<'a, C: Clock> Patience for Until<'a, C> {
    ghost use Rattle.mq_system.specs.Patience.{IsHeld, IsLeft};

    ghost ends = { true };

    #[tactic(auto, using(crate::proofs::PatienceLemmas::left_of, crate::proofs::PatienceLemmas::held_of))]
    fn left(&mut self) -> Option<Duration>
        ensures some { IfSome result (IsLeft self.old.end) }
        ensures kept { IsHeld self.old.end self.new.end }
    {
        let Ok(now) = Instant::now(self.clock) else {
            return None;
        };
        self.end.left_at(now)
    }
}
