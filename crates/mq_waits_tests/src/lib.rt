//! Tests of calls that wait, of the calls that wake them, and of the slots that calls reach.

#![tactic(auto)]

ghost use Rattle.std.specs.Prelude.{◌≡◌, true};

#[cfg(test)]
use std::process::Abort;

/// Ends the test with this text where something does not hold.
#[cfg(test)]
fn holds(rt: &impl Abort, is: bool, what: &str)
    ensures { is ≡ true }
{
    if !is {
        panic!(rt; "{what}");
    }
}

/// Ends the test where a number is another than the expected one, and prints both.
#[cfg(test)]
fn is_same(rt: &impl Abort, found: u64, wanted: u64, what: &str) {
    if found != wanted {
        panic!(rt; "{what}: {found}, not {wanted}");
    }
}

/// `assert!` as a call: a branch at each place would make the proof of a test grow.
#[cfg(test)]
macro_rules! holds {
    ($rt:expr; $is:expr $(,)?) => {
        $crate::holds(&$rt, $is, stringify!($is))
    };
    ($rt:expr; $is:expr, $what:expr $(,)?) => {
        $crate::holds(&$rt, $is, $what)
    };
}

#[cfg(test)]
mod calls;
#[cfg(test)]
mod churn;
#[cfg(test)]
mod crowd;
#[cfg(test)]
mod drafts;
#[cfg(test)]
mod ends;
#[cfg(test)]
mod pages;
#[cfg(test)]
mod sleeps;
#[cfg(test)]
mod slots;
#[cfg(test)]
mod waits;
#[cfg(test)]
mod watch;
