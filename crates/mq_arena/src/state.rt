//! The arena: a pool of pages, with the buddy tree that allocates them in blocks.
ghost use Rattle.std.specs.Prelude.{◌≡◌, ◌+◌, ◌-◌, ◌*◌, ◌^◌, ◌<◌, ◌≤◌, ◌↔◌, ◌++◌, Some, None, length, replicate, IfOk, OnErr, IsErrOf, IsTrue};
ghost use Rattle.std.specs.List.{concat};
ghost use Rattle.mq_tree.specs.LentSet.{is_lent, free_pages};
ghost use Rattle.mq_tree.specs.Fit.{largest};
ghost use Rattle.mq_arena.specs.Account.{pages_of};
ghost use Rattle.mq_arena.specs.Bytes.{pages_with};
ghost use Rattle.mq_arena.specs.Lent.{place, lend, gives_back, lent_pages};

use crate::account::{audit, page_count};
use crate::block::Block;
use crate::homecoming::Homecoming;
use crate::homes::{put_pages, take_pages};
use crate::limits::{INLINE_ORDER, MAX_ORDER};
use crate::page::{PAGE_LEN, Page};
use crate::shell::Shell;
use crate::take_error::TakeError;
use mq_tree::OrderTree;
use std::marker::Model;
use std::sync::ledger::{Book, Ledger, Share};

/// The pages of an arena, lent in blocks by Knowlton's buddy system ("A fast storage allocator",
/// CACM 1965). Each free page is in `homes`, at the index of its number. The ledger `L`
/// counts the pages of the allocated blocks, wherever they are: its book is here, and each
/// block carries its share.
#[derive(Drop)]
pub struct ArenaState<L: Ledger> {
    pub(crate) tree: OrderTree,
    pub(crate) homes: Vec<Page>,
    /// One for each block that could still be allocated.
    pub(crate) shells: Vec<Shell>,
    pub(crate) out: Book<L>,
    pub(crate) parts: Share<L>,
}

impl<L: Ledger> Model for ArenaState<L> {
    ghost use Rattle.std.specs.Prelude.{vec_len, vec_capacity};
    ghost use Rattle.mq_tree.specs.LentSet.{Lending};
    ghost use Rattle.mq_arena.specs.Stocked.{IsArena};

    ghost Value = { Lending };

    ghost view = { λ a. a.tree };

    ghost invariant = { λ a. IsArena a.tree a.homes.items (vec_len a.shells)
        (vec_capacity a.shells) a.out.total a.parts.parts };
}

impl<L: Ledger> ArenaState<L> {
    /// Allocates the block of that order with the least start, with all bytes zero: the pages move
    /// into the block. `NoRun` where no block of that order fits, then `Memory`, which an order up
    /// to `INLINE_ORDER` never meets.
    #[tactic(auto, using(crate::proofs::Overwriting::no_bytes))]
    pub fn take(&mut self, order: u8) -> Result<Block<L>, TakeError>
        requires { order ≤ MAX_ORDER }
        ensures lent { IfOk result (λ b. lend self.old order ≡ Some (place b, self.new)) }
        ensures order { IfOk result (λ b. b.order ≡ order) }
        ensures zero { IfOk result (λ b. b.pages ≡ replicate (2 ^ order) (replicate PAGE_LEN 0)) }
        ensures no_run { IsErrOf result TakeError.NoRun ↔ (lend self.old order ≡ None) }
        ensures memory { IsErrOf result TakeError.Memory → INLINE_ORDER < order }
        ensures unchanged { OnErr result (self.new ≡ self.old) }
    {
        self.take_filled(order, &[])
    }

    /// Takes the block that `take` would, with these bytes in its first ones and zeros behind them.
    #[tactic(auto, using(crate::proofs::Overwriting::concat_bytes))]
    pub fn take_filled(&mut self, order: u8, bytes: &[u8]) -> Result<Block<L>, TakeError>
        requires order { order ≤ MAX_ORDER }
        requires fits { length bytes.now ≤ PAGE_LEN * 2 ^ order }
        ensures lent { IfOk result (λ b. lend self.old order ≡ Some (place b, self.new)) }
        ensures order { IfOk result (λ b. b.order ≡ order) }
        ensures pages { IfOk result (λ b. b.pages ≡ pages_with (2 ^ order) bytes.now) }
        ensures bytes { IfOk result (λ b. concat b.pages
            ≡ bytes.now ++ replicate (PAGE_LEN * 2 ^ order - length bytes.now) 0) }
        ensures no_run { IsErrOf result TakeError.NoRun ↔ (lend self.old order ≡ None) }
        ensures memory { IsErrOf result TakeError.Memory → INLINE_ORDER < order }
        ensures unchanged { OnErr result (self.new ≡ self.old) }
    {
        let mut block = self.take_block(order)?;
        block.write_over(bytes);
        Ok(block)
    }

    /// Takes the block that `take` would, with the bytes that its pages had.
    pub(crate) fn take_block(&mut self, order: u8) -> Result<Block<L>, TakeError>
        requires { order ≤ MAX_ORDER }
        ensures lent { IfOk result (λ b. lend self.old order ≡ Some (place b, self.new)) }
        ensures order { IfOk result (λ b. b.order ≡ order) }
        ensures no_run { IsErrOf result TakeError.NoRun ↔ (lend self.old order ≡ None) }
        ensures memory { IsErrOf result TakeError.Memory → INLINE_ORDER < order }
        ensures unchanged { OnErr result (self.new ≡ self.old) }
    {
        let Some(start) = self.tree.lend(order) else {
            return Err(TakeError::NoRun);
        };
        let Some(shell) = self.shells.pop() else {
            unreachable!()
        };
        let count = page_count(order);
        let places = match shell.into_places(order) {
            Ok(places) => places,
            Err(shell) => {
                self.shells.push_reserved(shell);
                self.tree.give(start, order);
                return Err(TakeError::Memory);
            }
        };
        let alloc = *self.homes.allocator();
        let homes = self.homes.as_mut_slice();
        let pages = take_pages(alloc, homes, start as usize, count as usize, places);
        let mut share = self.parts.split_off(count as u64, 0);
        self.out.add(&mut share, count as u64);
        Ok(Block {
            start,
            order,
            pages,
            share,
        })
    }

    /// Frees a block, where this arena has that very block allocated; else it is a `Stray`.
    // Inlined, so that the block's fields go to registers one by one: as one value it is copied in
    // pieces that overlap, and each copy waits for the one before it.
    #[inline(always)]
    pub fn put(&mut self, block: Block<L>) -> Homecoming
        ensures home { (result ≡ Homecoming.Home) ↔ IsTrue (is_lent (place block) self.old.lent) }
        ensures back { self.new ≡ gives_back (place block) self.old }
        ensures stray { result ≡ Homecoming.Stray → self.new ≡ self.old }
    {
        let Block {
            start,
            order,
            pages,
            mut share,
        } = block;
        if !self.tree.give(start, order) {
            self.parts.merge(share);
            return Homecoming::Stray;
        }
        self.out.sub(&mut share, page_count(order) as u64);
        self.parts.merge(share);
        let places = put_pages(self.homes.as_mut_slice(), start as usize, pages);
        self.shells.push_reserved(Shell::of(places));
        Homecoming::Home
    }

    /// How many pages the arena has.
    pub fn pages(&self) -> u32
        ensures { result ≡ 2 ^ self.now.height }
    {
        self.tree.pages()
    }

    /// How many pages are free.
    pub fn free_pages(&self) -> u32
        ensures { result ≡ free_pages self.now.height self.now.lent }
    {
        self.tree.free_pages()
    }

    /// How many pages the allocated blocks have.
    pub fn lent_pages(&self) -> u32
        ensures blocks { result ≡ lent_pages self.now.lent }
        ensures account { free_pages self.now.height self.now.lent + result ≡ 2 ^ self.now.height }
    {
        let all = self.tree.pages();
        all - self.tree.free_pages()
    }

    /// Shows that every block is counted, wherever it is: the pages of these and the free ones are
    /// no more than the arena's. It changes nothing.
    pub fn account(&mut self, blocks: &mut [Block<L>])
        ensures counted { free_pages self.old.height self.old.lent + pages_of blocks.old
            ≤ 2 ^ self.old.height }
        ensures arena { self.new ≡ self.old }
        ensures blocks { blocks.new ≡ blocks.old }
    {
        audit(&mut self.out, &mut self.parts, blocks);
    }

    /// The largest order of which a block is free. It may be over `MAX_ORDER`, the most for `take`.
    pub fn largest(&self) -> Option<u8>
        ensures { result ≡ largest self.now.height self.now.lent }
    {
        self.tree.largest()
    }
}
