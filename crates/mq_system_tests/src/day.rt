//! The day of a system: it is made, a test calls it by its seats, and it is closed.
ghost use Rattle.std.specs.Prelude.{◌≤◌};
ghost use Rattle.mq_system.specs.Sizes.{AreNames};

use crate::system::Calls;
use mq_arena::LEDGER_PARTS;
use mq_system::{Blanks, Closed, ClosedSlot, Config, Names, Pledge, SysError, System};
use std::alloc::Global;
use std::marker::Brand;
use std::process::Abort;
use std::sync::Wait;
use std::thread::Threads;

/// Nothing is pledged of what is sent.
pub(crate) struct Anything;

impl Pledge for Anything {
    ghost kept = { λ seat tag mtype bytes. Unit {0} };
}

/// What a test does with a system that was just made.
pub(crate) trait Day {
    fn spend<S: Calls, R: Abort + Threads + Wait>(&self, rt: &R, system: &S, seats: &mut [S::Seat]);
}

/// What a system leaves at its end.
#[derive(Drop)]
pub(crate) struct Left {
    pub(crate) slots: Vec<ClosedSlot>,
    pub(crate) free_pages: u32,
}

fn lived<N: Names, D: Day, R: Abort + Threads + Wait>(
    rt: &R,
    alloc: Global,
    config: Config,
    blanks: Blanks,
    day: &D,
) -> Result<Left, SysError>
    requires names { AreNames N.Names.own N.Naming blanks config }
    requires enough { LEDGER_PARTS ≤ blanks.pages.parts }
{
    let (system, mut seats) = System::<Anything, N>::new(alloc, rt, config, blanks)?;
    day.spend(rt, &system, seats.as_mut_slice());
    let Closed { slots, arena } = system.close(rt, seats);
    Ok(Left {
        slots,
        free_pages: arena.free_pages(),
    })
}

fn lives_once<D: Day, R: Abort + Threads + Wait>(
    rt: &R,
    alloc: Global,
    config: Config,
    day: &D,
) -> Result<Left, SysError> {
    let blanks = Blanks::of(alloc, config)?;
    lived::<Brand, D, R>(rt, alloc, config, blanks, day)
}

/// A system of this size lives this day. It is made once more where there was no memory for it.
pub(crate) fn lives<D: Day, R: Abort + Threads + Wait>(
    rt: &R,
    alloc: Global,
    config: Config,
    day: &D,
) -> Result<Left, SysError> {
    match lives_once(rt, alloc, config, day) {
        Err(SysError::Memory) => lives_once(rt, alloc, config, day),
        answer => answer,
    }
}

/// What a system leaves that is of a size within the limits.
pub(crate) fn left_by<D: Day, R: Abort + Threads + Wait>(
    rt: &R,
    alloc: Global,
    config: Config,
    day: &D,
) -> Left {
    match lives(rt, alloc, config, day) {
        Ok(left) => left,
        Err(refusal) => panic!(rt; "{refusal}"),
    }
}

pub(crate) fn config(height: u8, slots: u8, last_seq: u32) -> Config {
    Config {
        height,
        slots,
        seats: 2,
        last_seq,
    }
}
