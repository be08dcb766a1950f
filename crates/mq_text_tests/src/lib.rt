//! Tests of the order tree, of blocks, and of texts in pages.

#![tactic(auto)]

ghost use Rattle.std.specs.Prelude.{◌≡◌, true};

#[cfg(test)]
use std::process::Abort;

/// Ends the test with this text where something does not hold.
#[cfg(test)]
fn holds(rt: &impl Abort, is: bool, what: &str)
    ensures { is ≡ true }
{
    if !is {
        panic!(rt; "{what}");
    }
}

/// `assert!` as a call: a branch at each place would make the proof of a test grow.
#[cfg(test)]
macro_rules! holds {
    ($rt:expr; $is:expr $(,)?) => {
        $crate::holds(&$rt, $is, stringify!($is))
    };
    ($rt:expr; $is:expr, $what:expr $(,)?) => {
        $crate::holds(&$rt, $is, $what)
    };
}

#[cfg(test)]
mod arenas;
#[cfg(test)]
mod blocks;
#[cfg(test)]
mod bytes;
#[cfg(test)]
mod day;
#[cfg(test)]
mod in_block;
#[cfg(test)]
mod in_text;
#[cfg(test)]
mod lender;
#[cfg(test)]
mod magazines;
#[cfg(test)]
mod taking;
#[cfg(test)]
mod texts;
#[cfg(test)]
mod threads;
#[cfg(test)]
mod tree;
