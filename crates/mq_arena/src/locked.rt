//! An arena under a mutex.
ghost use Rattle.std.specs.Prelude.{ℕ, ◌≡◌, ◌*◌, ◌^◌, ◌<◌, ◌≤◌, ◌-◌, ◌++◌, [], length, replicate, IfOk, IsErrOf};
ghost use Rattle.std.specs.List.{concat};
ghost use Rattle.mq_arena.specs.Bytes.{pages_with};

use crate::block::Block;
use crate::homecoming::Homecoming;
use crate::limits::{INLINE_ORDER, MAX_ORDER};
use crate::magazine::Magazine;
use crate::page::PAGE_LEN;
use crate::state::ArenaState;
use crate::take_error::TakeError;
use crate::unwritten::Unwritten;
use std::marker::{Brand, Model};
use std::sync::ledger::Ledger;
use std::sync::{Mutex, Wait};

/// A ledger that names the height of its arena.
pub trait OfHeight: Ledger {
    ghost height: { ℕ };
}

impl OfHeight for Brand {
    ghost height = { 0 };
}

/// What the lock protects.
#[derive(Drop)]
struct Held<L: OfHeight> {
    state: ArenaState<L>,
}

impl<L: OfHeight> Model for Held<L> {
    ghost use Rattle.std.specs.Prelude.{◌≡◌};
    ghost use Rattle.mq_tree.specs.LentSet.{Lending};

    ghost Value = { Lending };

    ghost view = { λ held. held.state };

    ghost invariant = { λ held. held.state.height ≡ L.height };
}

/// An arena for several threads. Its lock is held while a block is allocated or freed, and not
/// while pages are written: those of a block are its owner's.
#[derive(Drop)]
pub struct Arena<L: OfHeight> {
    held: Mutex<Held<L>>,
}

impl<L: OfHeight> Arena<L> {
    pub fn new(state: ArenaState<L>) -> Arena<L>
        requires { state.height ≡ L.height }
    {
        Arena {
            held: Mutex::new(Held { state }),
        }
    }

    /// Allocates a block of that order, with all bytes zero. `NoRun` where none fitted, then
    /// `Memory`, which an order up to `INLINE_ORDER` never meets.
    #[tactic(auto, using(crate::proofs::Overwriting::no_bytes))]
    pub fn take<R: Wait>(&self, rt: &R, order: u8) -> Result<Block<L>, TakeError>
        requires { order ≤ MAX_ORDER }
        ensures order { IfOk result (λ b. b.order ≡ order) }
        ensures zero { IfOk result (λ b. b.pages ≡ replicate (2 ^ order) (replicate PAGE_LEN 0)) }
        ensures memory { IsErrOf result TakeError.Memory → INLINE_ORDER < order }
    {
        self.take_filled(rt, order, &[])
    }

    /// Takes a block as `take` does, with these bytes in its first ones and zeros behind them.
    #[tactic(auto, using(crate::proofs::Overwriting::concat_bytes))]
    pub fn take_filled<R: Wait>(
        &self,
        rt: &R,
        order: u8,
        bytes: &[u8],
    ) -> Result<Block<L>, TakeError>
        requires order { order ≤ MAX_ORDER }
        requires fits { length bytes.now ≤ PAGE_LEN * 2 ^ order }
        ensures order { IfOk result (λ b. b.order ≡ order) }
        ensures pages { IfOk result (λ b. b.pages ≡ pages_with (2 ^ order) bytes.now) }
        ensures bytes { IfOk result (λ b. concat b.pages
            ≡ bytes.now ++ replicate (PAGE_LEN * 2 ^ order - length bytes.now) 0) }
        ensures memory { IsErrOf result TakeError.Memory → INLINE_ORDER < order }
    {
        let taken = self.take_unwritten(rt, order)?;
        Ok(taken.overwrite(bytes))
    }

    /// Takes a block as `take` does, which must be written over before a byte of it is read.
    pub fn take_unwritten<R: Wait>(&self, rt: &R, order: u8) -> Result<Unwritten<L>, TakeError>
        requires { order ≤ MAX_ORDER }
        ensures order { IfOk result (λ b. b.order ≡ order) }
        ensures memory { IsErrOf result TakeError.Memory → INLINE_ORDER < order }
    {
        let block = self.held.lock(rt).state.take_block(order)?;
        Ok(Unwritten::of(block))
    }

    /// Frees a block that this arena has allocated; another one is a `Stray`.
    pub fn put<R: Wait>(&self, rt: &R, block: Block<L>) -> Homecoming {
        self.held.lock(rt).state.put(block)
    }

    /// Frees all blocks of the magazine.
    pub fn put_all<R: Wait>(&self, rt: &R, magazine: &mut Magazine<L>)
        ensures { magazine.new ≡ [] }
    {
        self.held.lock(rt).state.unload(magazine);
    }

    /// The arena without its lock. No other thread has it any more, so this does not block.
    pub fn into_state(self) -> ArenaState<L>
        ensures { result.height ≡ L.height }
    {
        let Arena { held } = self;
        let Held { state } = held.into_inner();
        state
    }
}
