//! A block whose pages were not cleared when it was taken.
ghost use Rattle.std.specs.Prelude.{◌≡◌, ◌-◌, ◌*◌, ◌^◌, ◌≤◌, ◌++◌, [], length, replicate};
ghost use Rattle.std.specs.List.{concat};
ghost use Rattle.mq_arena.specs.Bytes.{pages_with};

use crate::block::Block;
use crate::page::PAGE_LEN;
use std::marker::Model;
use std::sync::ledger::Ledger;

/// A block in which bytes of an earlier text may lie. It exposes none of them and can't be dropped:
/// its owner has a `Block` only once all of it is written over.
pub struct Unwritten<L: Ledger> {
    block: Block<L>,
}

impl<L: Ledger> Model for Unwritten<L> {
    ghost use Rattle.mq_arena.specs.OwnedBlock.{OwnedBlock};

    ghost Value = { OwnedBlock };

    ghost view = { λ u. u.block };
}

impl<L: Ledger> Unwritten<L> {
    pub(crate) fn of(block: Block<L>) -> Unwritten<L>
        ensures { result ≡ block }
    {
        Unwritten { block }
    }

    pub fn start(&self) -> u32
        ensures { result ≡ self.now.start }
    {
        self.block.start()
    }

    /// The block with these bytes in its first ones, as many as fit, and zeros behind them.
    #[tactic(auto, using(crate::proofs::Overwriting::written))]
    pub fn overwrite(self, bytes: &[u8]) -> Block<L>
        ensures start { result.start ≡ self.start }
        ensures order { result.order ≡ self.order }
        ensures pages { result.pages ≡ pages_with (2 ^ self.order) bytes.now }
        ensures zero { bytes.now ≡ []
            → result.pages ≡ replicate (2 ^ self.order) (replicate PAGE_LEN 0) }
        ensures bytes { length bytes.now ≤ PAGE_LEN * 2 ^ self.order
            → concat result.pages ≡ bytes.now
            ++ replicate (PAGE_LEN * 2 ^ self.order - length bytes.now) 0 }
    {
        let Unwritten { mut block } = self;
        block.write_over(bytes);
        block
    }
}
