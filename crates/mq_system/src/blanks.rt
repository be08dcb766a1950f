//! What `System::new` is given: the ledgers and boards of a valid `Config`, which have no brand
//! yet.

ghost use Rattle.std.specs.Prelude.{◌≡◌, ◌↔◌, ◌+◌, false, vec_len, IfOk, IsErrOf};
ghost use Rattle.mq_calls.specs.Limits.{keeps_limits};

use mq_arena::LEDGER_PARTS;
use mq_board::{OpenedBoard, open_boards};
use mq_calls::{Config, SysError};
use std::alloc::Global;
use std::sync::ledger::Blank;

/// The unbranded resources of which a system's ledgers and boards are made, before its brand is
/// chosen.
#[derive(Drop)]
pub struct Blanks {
    pub pages: Blank,
    pub entries: Blank,
    /// A board for each slot, the last slot's first.
    pub boards: Vec<OpenedBoard>,
}

impl Blanks {
    /// As many as a system of this size needs. `Config` where a number is out of its limits, then
    /// `Memory`.
    pub fn of(alloc: Global, config: Config) -> Result<Blanks, SysError>
        ensures pages { IfOk result (λ blanks. blanks.pages.parts ≡ LEDGER_PARTS) }
        ensures entries { IfOk result (λ blanks.
            blanks.entries.parts ≡ config.slots + config.seats) }
        ensures boards { IfOk result (λ blanks. vec_len blanks.boards ≡ config.slots) }
        ensures err { IsErrOf result SysError.Config ↔ (keeps_limits config ≡ false) }
    {
        if !config.is_valid() {
            return Err(SysError::Config);
        }
        let Ok(boards) = open_boards(alloc, config.slots) else {
            return Err(SysError::Memory);
        };
        Ok(Blanks {
            pages: Blank::new(LEDGER_PARTS),
            entries: Blank::new(config.slots as u64 + config.seats as u64),
            boards,
        })
    }
}
