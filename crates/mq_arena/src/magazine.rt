//! A thread's cache of free blocks: a draft that finds one there takes no lock.
ghost use Rattle.std.specs.Prelude.{◌≡◌, ◌==◌, ◌+◌, ◌^◌, ◌<◌, ◌≤◌, ◌++◌, ◌∷◌, [], List};
ghost use Rattle.std.specs.Prelude.{IfNone, IfOk, IfErr, IfSome, OnOk, OnErr, option_to_list, position};
ghost use Rattle.std.specs.List.Sorted.{IsPermutation};
ghost use Rattle.mq_arena.specs.Account.{pages_of};
ghost use Rattle.mq_arena.specs.Magazine.{HasMoved};
ghost use Rattle.mq_arena.specs.OwnedBlock.{OwnedBlock};

use crate::account::page_count;
use crate::block::Block;
use crate::limits::{INLINE_ORDER, MAX_ORDER};
use crate::state::ArenaState;
use crate::unwritten::Unwritten;
use std::alloc::{AllocError, Global};
use std::marker::Model;
use std::sync::ledger::Ledger;

/// The most pages that a magazine caches: those of two texts of 8,192 bytes, or of a batch of 16 of
/// one page each.
pub const MAGAZINE_PAGES: u32 = 2 << INLINE_ORDER;

/// Lent blocks that no text uses, kept where the next draft finds one without the arena's lock
/// (Bonwick and Adams, "Magazines and Vmem", USENIX 2001). It can't be dropped, since blocks can't:
/// its owner frees them.
pub struct Magazine<L: Ledger> {
    blocks: Vec<Block<L>>,
    /// How many pages these have.
    pages: u32,
}

impl<L: Ledger> Model for Magazine<L> {
    ghost use Rattle.std.specs.Prelude.{List, vec_capacity};
    ghost use Rattle.mq_arena.specs.Magazine.{IsMagazine};
    ghost use Rattle.mq_arena.specs.OwnedBlock.{OwnedBlock};

    ghost Value = { List OwnedBlock };

    ghost view = { λ m. m.blocks.items };

    ghost invariant = { λ m. IsMagazine m.blocks.items m.pages (vec_capacity m.blocks) };
}

/// The index of the first block of that order.
fn index_of<L: Ledger>(blocks: &[Block<L>], order: u8) -> Option<usize>
    ensures { result ≡ position (λ b. b.order == order) blocks.now }
{
    blocks.iter().position(|block| block.order == order)
}

impl<L: Ledger> Magazine<L> {
    /// An empty one, which allocates no memory later. `Err` means out of memory.
    pub fn new(alloc: Global) -> Result<Magazine<L>, AllocError>
        ensures { IfOk result (λ m. m ≡ []) }
    {
        let blocks = Vec::with_capacity(alloc, MAGAZINE_PAGES as usize)?;
        Ok(Magazine { blocks, pages: 0 })
    }

    /// Takes out a block of that order, if there is one.
    pub fn take(&mut self, order: u8) -> Option<Unwritten<L>>
        requires { order ≤ MAX_ORDER }
        ensures order { IfSome result (λ b. b.order ≡ order) }
        ensures taken { IfSome result (λ b. IsPermutation (b ∷ self.new) self.old) }
        ensures none { IfNone result (position (λ b. b.order == order) self.old ≡ None) }
        ensures unchanged { IfNone result (self.new ≡ self.old) }
    {
        let index = index_of(&self.blocks, order)?;
        let block = self.blocks.swap_remove(index);
        self.pages -= page_count(order);
        Some(Unwritten::of(block))
    }

    /// Caches a block, or returns it where more than `MAGAZINE_PAGES` pages would be cached then.
    pub fn put(&mut self, block: Block<L>) -> Result<(), Block<L>>
        ensures kept { OnOk result (self.new ≡ self.old ++ block ∷ []) }
        ensures handed_back { IfErr result (λ b. b ≡ block) }
        ensures full { OnErr result (MAGAZINE_PAGES < pages_of self.old + 2 ^ block.order) }
        ensures unchanged { OnErr result (self.new ≡ self.old) }
    {
        let pages = self.pages + page_count(block.order());
        if MAGAZINE_PAGES < pages {
            return Err(block);
        }
        self.blocks.push_reserved(block);
        self.pages = pages;
        Ok(())
    }

    /// Takes out the last block of the list.
    pub fn pop(&mut self) -> Option<Block<L>>
        ensures none { IfNone result (self.new ≡ []) }
        ensures last { self.old ≡ self.new ++ option_to_list result }
    {
        let block = self.blocks.pop()?;
        self.pages -= page_count(block.order());
        Some(block)
    }

    /// Moves blocks from the end of its list to another magazine, one after another, as long as
    /// the next one fits there.
    pub fn move_to(&mut self, other: &mut Magazine<L>)
        ensures moved { HasMoved self.old self.new other.old other.new }
        ensures most { (rest : List OwnedBlock) → (b : OwnedBlock) → self.new ≡ rest ++ b ∷ []
            → MAGAZINE_PAGES < pages_of other.new + 2 ^ b.order }
    {
        while let Some(block) = self.blocks.pop() {
            let pages = page_count(block.order());
            match other.put(block) {
                Ok(()) => self.pages -= pages,
                Err(block) => {
                    self.blocks.push_reserved(block);
                    return;
                }
            }
        }
    }

    /// Ends an empty magazine.
    pub fn end(self)
        requires { self ≡ [] }
    {
        let Magazine { blocks, pages: _ } = self;
        blocks.destroy_empty();
    }
}

impl<L: Ledger> ArenaState<L> {
    /// Frees all blocks of the magazine.
    pub(crate) fn unload(&mut self, magazine: &mut Magazine<L>)
        ensures height { self.new.height ≡ self.old.height }
        ensures all { magazine.new ≡ [] }
    {
        while let Some(block) = magazine.pop() {
            self.put(block);
        }
    }
}
