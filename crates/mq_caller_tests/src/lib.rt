//! Tests of callers of a system: each call of one, and one thread at all seats; that calls succeed
//! while there is enough memory, and that each error is the documented one.

#![tactic(auto)]

ghost use Rattle.std.specs.Prelude.{◌≡◌, true};

#[cfg(test)]
use std::process::Abort;

/// Ends the test with this text where something does not hold.
#[cfg(test)]
fn holds(rt: &impl Abort, is: bool, what: &str)
    ensures { is ≡ true }
{
    if !is {
        panic!(rt; "{what}");
    }
}

/// `assert!` as a call: a branch at each place would make the proof of a test grow.
#[cfg(test)]
macro_rules! holds {
    ($rt:expr; $is:expr $(,)?) => {
        $crate::holds(&$rt, $is, stringify!($is))
    };
    ($rt:expr; $is:expr, $what:expr $(,)?) => {
        $crate::holds(&$rt, $is, $what)
    };
}

#[cfg(test)]
mod batches;
#[cfg(test)]
mod callers;
#[cfg(test)]
mod errors;
#[cfg(test)]
mod forms;
#[cfg(test)]
mod memory;
#[cfg(test)]
mod runs;
#[cfg(test)]
mod seat_calls;
#[cfg(test)]
mod seats;
#[cfg(test)]
mod value_batches;
