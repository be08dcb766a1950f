//! The axis of time: which column a time has, and where the ticks are.

ghost use Rattle.std.specs.Prelude.{◌≤◌};

/// The column of the first time.
pub(crate) const LEFT: u64 = 152;
/// The column in which the last time ends.
pub(crate) const RIGHT: u64 = 1176;

const WIDTH: u64 = 1024;

/// How many digits a number has.
pub(crate) fn digits(number: u64) -> u64
    ensures { result ≤ 20 }
{
    u64::from(number.checked_ilog10().unwrap_or(0).min(19)) + 1
}

/// The times of a run.
#[derive(Clone, Copy)]
pub(crate) struct Axis {
    begin: u64,
    last: u64,
    /// What is between two ticks: 1, 2 or 5, or so many tens, hundreds ..
    step: u64,
}

impl Axis {
    pub(crate) fn new(begin: u64, last: u64) -> Axis {
        let most = (WIDTH / (digits(last) * 7 + 24)).min(10);
        let step = tick_step(last.saturating_sub(begin), most);
        Axis { begin, last, step }
    }

    /// The column of a time. The last time has a width too, so that each entry is seen.
    pub(crate) fn column(self, time: u64) -> u64
        ensures from { LEFT ≤ result }
        ensures to { result ≤ RIGHT }
    {
        let span = u128::from(self.last.saturating_sub(self.begin)) + 1;
        let past = u128::from(time.saturating_sub(self.begin));
        let column = (past * u128::from(WIDTH) / span).min(u128::from(WIDTH));
        LEFT + column as u64
    }

    /// The time of the tick with this number, from 0, if it is within the run.
    pub(crate) fn tick(self, i: u64) -> Option<u64> {
        let step = self.step.max(1);
        let before = self.begin / step;
        let first = if self.begin % step == 0 {
            before
        } else {
            before.saturating_add(1)
        };
        let time = first.checked_add(i)?.checked_mul(step)?;
        if time <= self.last { Some(time) } else { None }
    }
}

/// The least of 1, 2, 5, 10, 20, 50 .. of which at most so many fit into the span.
fn tick_step(span: u64, most: u64) -> u64 {
    let mut ten: u64 = 1;
    for _ in 0..20 {
        for factor in [1, 2, 5] {
            let step = ten.saturating_mul(factor).max(1);
            if span / step <= most {
                return step;
            }
        }
        ten = ten.saturating_mul(10);
    }
    ten
}
