//! The day of an arena: it is made, and a test takes blocks and texts out of it.
ghost use Rattle.std.specs.Prelude.{◌≡◌, ◌^◌, ◌<◌};

use crate::lender::Lender;
use mq_arena::{LEDGER_PARTS, Unopened};
use std::alloc::Global;
use std::marker::Brand;
use std::process::Abort;
use std::sync::ledger::{Blank, Ledger};
use std::test::Fail;
use std::thread::Threads;

/// What a test does with an arena of which nothing is lent.
pub(crate) trait Day {
    fn spend<A: Lender, R: Abort + Threads>(&self, rt: &R, arena: &mut A);
}

pub(crate) fn opened<L: Ledger, D: Day, R: Abort + Threads>(
    rt: &R,
    unopened: Unopened,
    ledger: Blank,
    day: &D,
)
    requires name { ledger.name ≡ L.name }
    requires parts { ledger.parts ≡ L.parts }
    requires enough { 2 ^ unopened < ledger.parts }
{
    let mut arena = unopened.open::<L>(ledger);
    day.spend(rt, &mut arena);
}

/// An arena of that height lives this day.
pub(crate) fn lives<D: Day, R: Abort + Threads>(
    rt: &R,
    alloc: Global,
    height: u8,
    day: &D,
) -> Result<(), Fail> {
    let unopened = Unopened::new(alloc, height)?;
    opened::<Brand, D, R>(rt, unopened, Blank::new(LEDGER_PARTS), day);
    Ok(())
}
