//! The limits of a system's size.
ghost use Rattle.std.specs.Prelude.{◌≡◌, ◌<◌};

use crate::day::PARTS;
use crate::holds;
use mq_calls::{Closed, Config, MAX_SEATS, SysError};
use mq_local::OneThread;
use mq_table::{MAX_SEQ, MAX_SLOTS};
use std::alloc::Global;
use std::marker::Brand;
use std::process::Abort;
use std::sync::ledger::{Blank, Ledger};

/// The pages and slots of a new system, or why it is not made.
type Size = Result<(u32, u8), SysError>;

/// A new system has so many pages and slots, or is not made.
fn sized<L: Ledger, R: Abort>(rt: &R, alloc: Global, config: Config, ledger: Blank, wanted: Size)
    requires name { ledger.name ≡ L.name }
    requires parts { ledger.parts ≡ L.parts }
    requires enough { 1024 < ledger.parts }
{
    match OneThread::<L>::new(alloc, config, ledger) {
        Ok(system) => {
            let size = Ok((system.pages(), system.slots()));
            holds(rt, size == wanted, "a system of another size");
            let Closed { slots: _, arena: _ } = system.close();
        }
        Err(SysError::Memory) => panic!(rt; "out of memory"),
        Err(SysError::Config) => holds(rt, wanted == Err(SysError::Config), "no system"),
    }
}

fn size<R: Abort>(rt: &R, alloc: Global, config: Config, wanted: Size) {
    sized::<Brand, R>(rt, alloc, config, Blank::new(PARTS), wanted);
}

const SMALL: Config = Config {
    height: 0,
    slots: 1,
    seats: 1,
    last_seq: 0,
};

const LARGE: Config = Config {
    height: 10,
    slots: MAX_SLOTS,
    seats: MAX_SEATS,
    last_seq: MAX_SEQ,
};

#[test]
fn the_bounds_of_a_configuration_are_taken(rt: HostRuntime) {
    holds!(rt; SMALL.is_valid());
    holds!(rt; LARGE.is_valid());
    size(&rt, rt.alloc(), SMALL, Ok((1, 1)));
    size(&rt, rt.alloc(), LARGE, Ok((1024, 64)));
}

#[test]
fn a_configuration_past_a_bound_is_refused(rt: HostRuntime) {
    let cases: [Config; 10] = [
        Config { slots: 0, ..SMALL },
        Config { slots: 65, ..LARGE },
        Config {
            slots: 255,
            ..LARGE
        },
        Config { seats: 0, ..SMALL },
        Config { seats: 17, ..LARGE },
        Config {
            height: 11,
            ..LARGE
        },
        Config {
            height: 255,
            ..SMALL
        },
        Config {
            last_seq: 32_768,
            ..LARGE
        },
        Config {
            last_seq: u32::MAX,
            ..SMALL
        },
        Config {
            seats: u16::MAX,
            slots: 0,
            ..LARGE
        },
    ];
    for config in cases {
        assert!(rt; !config.is_valid(), "{config:?}");
        size(&rt, rt.alloc(), config, Err(SysError::Config));
    }
}
