//! The day of a system: it is made, a test calls it, and it is closed.
ghost use Rattle.std.specs.Prelude.{◌≡◌, ◌<◌};

use crate::holds;
use crate::system::Calls;
use mq_calls::{Closed, Config, SysError};
use mq_local::OneThread;
use std::alloc::Global;
use std::marker::Brand;
use std::process::Abort;
use std::sync::ledger::{Blank, Ledger};

/// More than an arena has pages.
pub(crate) const PARTS: u64 = 1025;

/// What a test does with a system that was just made.
pub(crate) trait Day {
    fn spend<S: Calls, R: Abort>(&self, rt: &R, system: &mut S);
}

pub(crate) fn config(height: u8, slots: u8, last_seq: u32) -> Config {
    Config {
        height,
        slots,
        seats: 2,
        last_seq,
    }
}

pub(crate) fn made<L: Ledger>(
    rt: &impl Abort,
    alloc: Global,
    config: Config,
    ledger: Blank,
) -> OneThread<L>
    requires name { ledger.name ≡ L.name }
    requires parts { ledger.parts ≡ L.parts }
    requires enough { 1024 < ledger.parts }
{
    match OneThread::new(alloc, config, ledger) {
        Ok(system) => system,
        Err(SysError::Memory) => panic!(rt; "out of memory"),
        Err(SysError::Config) => panic!(rt; "no system"),
    }
}

fn lived<L: Ledger, D: Day, R: Abort>(rt: &R, alloc: Global, config: Config, ledger: Blank, day: &D)
    requires name { ledger.name ≡ L.name }
    requires parts { ledger.parts ≡ L.parts }
    requires enough { 1024 < ledger.parts }
{
    let mut system = made::<L>(rt, alloc, config, ledger);
    day.spend(rt, &mut system);
    let Closed { slots: _, arena } = system.close();
    let free = arena.free_pages() == arena.pages();
    holds(rt, free, "all pages are free at the end");
}

/// A system of this size lives this day, and all its pages are free at the end.
pub(crate) fn lives<D: Day, R: Abort>(rt: &R, alloc: Global, config: Config, day: &D) {
    lived::<Brand, D, R>(rt, alloc, config, Blank::new(PARTS), day);
}
