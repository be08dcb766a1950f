//! Tests of the queues of several threads, by one thread, and of what the locks protect: a slot,
//! the keys, the seats.

#![tactic(auto)]

ghost use Rattle.std.specs.Prelude.{◌≡◌, true};

#[cfg(test)]
use std::process::Abort;

/// Ends the test with this text where something does not hold.
#[cfg(test)]
fn holds(rt: &impl Abort, is: bool, what: &str)
    ensures { is ≡ true }
{
    if !is {
        panic!(rt; "{what}");
    }
}

#[cfg(test)]
mod batches;
#[cfg(test)]
mod calls;
#[cfg(test)]
mod cuts;
#[cfg(test)]
mod day;
#[cfg(test)]
mod granted;
#[cfg(test)]
mod ids;
#[cfg(test)]
mod limits;
#[cfg(test)]
mod list;
#[cfg(test)]
mod magazines;
#[cfg(test)]
mod many;
#[cfg(test)]
mod many_waits;
#[cfg(test)]
mod parts;
#[cfg(test)]
mod place;
#[cfg(test)]
mod seats;
#[cfg(test)]
mod seen;
#[cfg(test)]
mod shared;
#[cfg(test)]
mod shown;
#[cfg(test)]
mod slot_calls;
#[cfg(test)]
mod system;
#[cfg(test)]
mod table;
#[cfg(test)]
mod texts;
#[cfg(test)]
mod waiters;
#[cfg(test)]
mod worked;
