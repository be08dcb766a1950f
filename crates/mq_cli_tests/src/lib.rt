//! Tests of runs of scripts, answered and recorded, over readers and writers of their own, of what
//! is long, and of the workers of threads scripts.

#![tactic(auto)]

ghost use Rattle.std.specs.Prelude.{◌≡◌, true};

#[cfg(test)]
use std::process::Abort;

/// Ends the test with this text where something does not hold.
#[cfg(test)]
fn holds(rt: &impl Abort, is: bool, what: &str)
    ensures { is ≡ true }
{
    if !is {
        panic!(rt; "{what}");
    }
}

/// `assert!` as a call: a branch at each place would make the proof of a test grow.
#[cfg(test)]
macro_rules! holds {
    ($rt:expr; $is:expr $(,)?) => {
        $crate::holds(&$rt, $is, stringify!($is))
    };
    ($rt:expr; $is:expr, $what:expr $(,)?) => {
        $crate::holds(&$rt, $is, $what)
    };
}

#[cfg(test)]
mod fakes;
#[cfg(test)]
mod faults;
#[cfg(test)]
mod flushes;
#[cfg(test)]
mod long;
#[cfg(test)]
mod prompt;
#[cfg(test)]
mod record;
#[cfg(test)]
mod sizes;
#[cfg(test)]
mod texts;
#[cfg(test)]
mod threads;
#[cfg(test)]
mod workers;
