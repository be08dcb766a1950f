//! The queues behind C: one exported function, a loop that reads calls by the C library's `read`
//! and writes results by `write`, both supplied by the C side.

#![tactic(auto)]

ghost use Rattle.std.specs.Prelude.{◌≡◌, ◌≤◌};
ghost use Rattle.mq_arena.specs.declared.limits.TheConstants.{LEDGER_PARTS};

mod program;

use mq_arena::LEDGER_PARTS;
use mq_calls::{Config, Errno, MAX_SEATS, MAX_SEQ, SysError};
use mq_local::OneThread;
use std::alloc::Global;
use std::marker::Brand;
use std::sync::ledger::{Blank, Ledger};

/// Makes queues of this size, answers calls until they end, and closes the queues. 0, or the number
/// of EINVAL or ENOMEM where no queues are made.
#[unsafe(no_mangle)]
pub extern "C" fn civdrax_serve(alloc: Global, calls: i32, height: u8, slots: u8) -> i32 {
    let config = Config {
        height,
        slots,
        seats: MAX_SEATS,
        last_seq: MAX_SEQ,
    };
    match serve::<Brand>(alloc, config, Blank::new(LEDGER_PARTS), calls) {
        Ok(()) => 0,
        Err(SysError::Config) => Errno::EINVAL.number(),
        Err(SysError::Memory) => Errno::ENOMEM.number(),
    }
}

fn serve<L: Ledger>(
    alloc: Global,
    config: Config,
    ledger: Blank,
    calls: i32,
) -> Result<(), SysError>
    requires name { ledger.name ≡ L.name }
    requires parts { ledger.parts ≡ L.parts }
    requires enough { LEDGER_PARTS ≤ ledger.parts }
{
    let mut queues = OneThread::<L>::new(alloc, config, ledger)?;
    program::answer_all(&mut queues, calls);
    queues.close();
    Ok(())
}
