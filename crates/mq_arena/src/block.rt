//! A block: `2 ^ order` pages that one owner holds.
ghost use Rattle.std.specs.Prelude.{◌≡◌, ◌+◌, ◌-◌, ◌*◌, ◌^◌, ◌<◌, ◌≤◌, [], ◌++◌, length, take, drop, replicate, slice_index_or};
ghost use Rattle.std.specs.List.{concat};
ghost use Rattle.std.specs.Borrow.{sem};
ghost use Rattle.mq_arena.specs.Bytes.{cut_parts, pages_with};
ghost use Rattle.mq_arena.specs.Halves.{AreWritten, TakesPages, KeepsPages};

use crate::halves::write_both;
use crate::page::{PAGE_LEN, Page};
use crate::parts::Parts;
use crate::shell::Places;
use crate::writes;
use std::marker::Model;
use std::sync::ledger::{Ledger, Share};
use std::thread::{Threads, join_mut};

/// A block of `2 ^ order` pages that begins at the page `start` of its arena, with its share of the
/// arena's count of allocated pages. It can't be dropped: its owner frees it by the arena's `put`.
pub struct Block<L: Ledger> {
    // The pointer comes first: with padding in front of it, code that moves a block and reads its
    // order copies the rest in two pieces that overlap, and each copy waits for the one before it.
    pub(crate) pages: Places,
    pub(crate) start: u32,
    pub(crate) order: u8,
    pub(crate) share: Share<L>,
}

impl<L: Ledger> Model for Block<L> {
    ghost use Rattle.mq_arena.specs.OwnedBlock.{OwnedBlock, owned, HasItsShare};

    ghost Value = { OwnedBlock };

    ghost view = { λ b. owned b.start b.order b.pages.value.items };

    ghost invariant = { λ b. HasItsShare (owned b.start b.order b.pages.value.items)
        b.share.amount b.share.parts };
}

impl<L: Ledger> Block<L> {
    ghost use Rattle.mq_arena.specs.Lends.{LendsBlockPage};
    ghost use Rattle.mq_arena.specs.OwnedBlock.{IsBlock};

    pub fn start(&self) -> u32
        ensures { result ≡ self.now.start }
    {
        self.start
    }

    pub fn order(&self) -> u8
        ensures order { result ≡ self.now.order }
        ensures block { IsBlock self.now }
    {
        self.order
    }

    pub fn part(&self, i: usize) -> &[u8]
        requires { i < 2 ^ self.now.order }
        ensures value { result.now ≡ slice_index_or self.now.pages i [] }
        ensures len { length result.now ≡ PAGE_LEN }
    {
        self.pages[i].bytes()
    }

    pub fn part_mut(&mut self, i: usize) -> &mut [u8]
        requires { i < 2 ^ self.old.order }
        ensures* writes_back { sem 𝓛 (LendsBlockPage L.row L.Ledger self.entry i result) }
        ensures value { result.now ≡ slice_index_or self.old.pages i [] }
        ensures len { length result.now ≡ PAGE_LEN }
    {
        match self.pages.get_mut(i) {
            Some(page) => page.bytes_mut(),
            None => unreachable!(),
        }
    }

    /// The first `len` bytes of that page, to be written in place.
    pub fn front_mut(&mut self, page: usize, len: usize) -> &mut [u8]
        requires page { page < 2 ^ self.old.order }
        requires within { len ≤ PAGE_LEN }
        ensures* writes_back { sem 𝓛 (LendsBlockPage L.row L.Ledger self.entry page result) }
        ensures value { result.now ≡ take len (slice_index_or self.old.pages page []) }
    {
        match self.pages.get_mut(page) {
            Some(whole) => whole.front_mut(len),
            None => unreachable!(),
        }
    }

    /// All pages in order.
    #[tactic(auto, using(crate::proofs::Cuts::cut_whole))]
    pub fn parts(&self) -> Parts<'_>
        ensures { result ≡ self.now.pages }
    {
        Parts {
            pages: self.pages.as_slice(),
            len: PAGE_LEN * self.pages.len(),
        }
    }

    /// The pages of the first `len` bytes, the last one truncated where they end.
    #[tactic(auto, using(crate::proofs::Cuts::concat_cut_parts))]
    pub fn parts_to(&self, len: usize) -> Parts<'_>
        ensures parts { result ≡ cut_parts len self.now.pages }
        ensures bytes { concat result ≡ take len (concat self.now.pages) }
    {
        Parts {
            pages: self.pages.as_slice(),
            len,
        }
    }

    /// Writes the bytes over the first ones of the block, and leaves the rest as it is.
    pub fn fill(&mut self, bytes: &[u8])
        requires { length bytes.now ≤ PAGE_LEN * 2 ^ self.old.order }
        ensures start { self.new.start ≡ self.old.start }
        ensures order { self.new.order ≡ self.old.order }
        ensures bytes { concat self.new.pages
            ≡ bytes.now ++ drop (length bytes.now) (concat self.old.pages) }
    {
        writes::fill(self.pages.as_mut_slice(), bytes);
    }

    /// Writes the bytes over the first ones of the block, as many as fit, and zeros over the rest:
    /// each byte once.
    #[tactic(auto, using(crate::proofs::Overwriting::written))]
    pub fn overwrite(&mut self, bytes: &[u8])
        ensures start { self.new.start ≡ self.old.start }
        ensures order { self.new.order ≡ self.old.order }
        ensures zero { bytes.now ≡ []
            → self.new.pages ≡ replicate (2 ^ self.old.order) (replicate PAGE_LEN 0) }
        ensures bytes { length bytes.now ≤ PAGE_LEN * 2 ^ self.old.order
            → concat self.new.pages ≡ bytes.now
            ++ replicate (PAGE_LEN * 2 ^ self.old.order - length bytes.now) 0 }
        ensures full { PAGE_LEN * 2 ^ self.old.order ≤ length bytes.now
            → concat self.new.pages ≡ take (PAGE_LEN * 2 ^ self.old.order) bytes.now }
    {
        self.write_over(bytes);
    }

    /// What `overwrite` does, seen page by page.
    pub(crate) fn write_over(&mut self, bytes: &[u8])
        ensures start { self.new.start ≡ self.old.start }
        ensures order { self.new.order ≡ self.old.order }
        ensures pages { self.new.pages ≡ pages_with (2 ^ self.old.order) bytes.now }
    {
        writes::overwrite(self.pages.as_mut_slice(), bytes);
    }

    /// Writes zeros over all bytes but the first `len`.
    pub(crate) fn clear_from(&mut self, len: usize)
        ensures start { self.new.start ≡ self.old.start }
        ensures order { self.new.order ≡ self.old.order }
        ensures block { IsBlock self.new }
        ensures bytes { concat self.new.pages ≡ take len (concat self.old.pages)
            ++ replicate (PAGE_LEN * 2 ^ self.old.order - len) 0 }
    {
        writes::clear_from(self.pages.as_mut_slice(), len);
    }

    /// Fills the pages below `i` and those from `i` on, on two threads.
    #[tactic(auto, using(crate::proofs::Filling::both_filled))]
    pub fn fill_halves(&mut self, rt: &impl Threads, i: usize, front: &[u8], back: &[u8])
        requires within { i ≤ 2 ^ self.old.order }
        requires front_fits { length front.now ≡ PAGE_LEN * i }
        requires back_fits { length front.now + length back.now ≤ PAGE_LEN * 2 ^ self.old.order }
        ensures start { self.new.start ≡ self.old.start }
        ensures order { self.new.order ≡ self.old.order }
        ensures bytes { concat self.new.pages
            ≡ front.now ++ back.now
            ++ drop (length front.now + length back.now) (concat self.old.pages) }
    {
        let (first, rest) = self.pages.as_mut_slice().split_at_mut(i);
        join_mut(
            rt,
            &mut || writes::fill(first, front),
            &mut || writes::fill(rest, back),
        );
    }

    /// Lends the pages below `i` to `f` and those from `i` on to `g`, on two threads.
    pub fn write_halves<R: Threads, F: FnMut(&mut [Page]) + Send, G: FnMut(&mut [Page])>(
        &mut self,
        rt: &R,
        i: usize,
        f: F,
        g: G,
    )
        requires within { i ≤ 2 ^ self.old.order }
        requires front_taken { TakesPages (F.pre f) i }
        requires front_kept { KeepsPages (F.step f) i }
        requires back_taken { TakesPages (G.pre g) (2 ^ self.old.order - i) }
        requires back_kept { KeepsPages (G.step g) (2 ^ self.old.order - i) }
        ensures start { self.new.start ≡ self.old.start }
        ensures order { self.new.order ≡ self.old.order }
        ensures block { IsBlock self.old }
        ensures halves { AreWritten (F.step f) (G.step g) i self.old.pages self.new.pages }
    {
        write_both(rt, self.pages.as_mut_slice(), i, f, g);
    }
}
