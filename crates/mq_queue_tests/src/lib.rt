//! Tests of pending lists, plain and indexed by type, of one queue, of texts on their way through
//! queues, and of the table of queues.

#![tactic(auto)]

ghost use Rattle.std.specs.Prelude.{◌≡◌, true};

#[cfg(test)]
use std::process::Abort;

/// Ends the test with this text where something does not hold.
#[cfg(test)]
fn holds(rt: &impl Abort, is: bool, what: &str)
    ensures { is ≡ true }
{
    if !is {
        panic!(rt; "{what}");
    }
}

/// `assert!` as a call: a branch at each place would make the proof of a test grow.
#[cfg(test)]
macro_rules! holds {
    ($rt:expr; $is:expr $(,)?) => {
        $crate::holds(&$rt, $is, stringify!($is))
    };
    ($rt:expr; $is:expr, $what:expr $(,)?) => {
        $crate::holds(&$rt, $is, $what)
    };
}

#[cfg(test)]
mod bases;
#[cfg(test)]
mod calls;
#[cfg(test)]
mod cut_often;
#[cfg(test)]
mod cuts;
#[cfg(test)]
mod forms;
#[cfg(test)]
mod headers;
#[cfg(test)]
mod lists;
#[cfg(test)]
mod logs;
#[cfg(test)]
mod notices;
#[cfg(test)]
mod parts;
#[cfg(test)]
mod steps;
#[cfg(test)]
mod table;
#[cfg(test)]
mod texts;
