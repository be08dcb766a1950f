//! What is written into a text.
ghost use Rattle.std.specs.Prelude.{◌≡◌, ◌+◌, ◌*◌, ◌≤◌, ◌<◌, List, ℕ, ◌++◌, length, min, ◌-◌, ◌^◌, IsSome, IfSome};
ghost use Rattle.std.specs.Borrow.{sem};
ghost use Rattle.mq_arena.specs.Halves.{AreWritten, TakesPages, KeepsPages};
ghost use Rattle.mq_arena.specs.OwnedBlock.{IsBlock};
ghost use Rattle.mq_arena.specs.Text.{count_of, text_part, ArePagesOf, AreItsAlone};

use crate::text::{Text, part_len};
use crate::{Block, PAGE_LEN, Page};
use std::marker::Send;
use std::sync::ledger::Ledger;
use std::thread::Threads;

impl<L: Ledger> Text<L> {
    ghost use Rattle.mq_arena.specs.TextLends.{LendsPart};

    /// The bytes in page `i`, up to the text's end, to be written in place.
    pub fn part_mut(&mut self, i: usize) -> &mut [u8]
        requires { i < count_of (length self.old.bytes) }
        ensures* writes_back { sem 𝓛 (LendsPart L.row L.Ledger self.entry i result) }
        ensures value { result.now ≡ text_part self.old.bytes i }
    {
        let len = part_len(self.len, i);
        match &mut self.block {
            Some(block) => block.front_mut(i, len),
            None => unreachable!(),
        }
    }

    /// Writes these bytes over the text's.
    #[tactic(auto, using(crate::proofs::Texts::text_length, crate::proofs::Written::filled_text))]
    pub fn fill(&mut self, bytes: &[u8])
        requires { length bytes.now ≡ length self.old.bytes }
        ensures { self.new ≡ record { bytes = bytes.now; block = self.old.block } }
    {
        let Some(block) = &mut self.block else {
            return;
        };
        block.fill(bytes);
        still_whole(block);
    }

    /// Fills the parts below `i` and those from `i` on, on two threads unless `back` is empty.
    #[tactic(auto, using(crate::proofs::Texts::text_length, crate::proofs::Written::filled_text))]
    pub fn fill_halves(&mut self, rt: &impl Threads, i: usize, front: &[u8], back: &[u8])
        requires within { i ≤ count_of (length self.old.bytes) }
        requires front_fits { length front.now ≡ min (PAGE_LEN * i) (length self.old.bytes) }
        requires back_fits { length front.now + length back.now ≡ length self.old.bytes }
        ensures { self.new ≡ record { bytes = front.now ++ back.now; block = self.old.block } }
    {
        if back.is_empty() {
            self.fill(front);
            return;
        }
        let Some(block) = &mut self.block else {
            return;
        };
        block.fill_halves(rt, i, front, back);
        still_whole(block);
    }

    /// Lends the block's pages below `i` to `f` and those from `i` on to `g`, on two threads. The
    /// text's bytes are the first ones of these pages, and zeros stand behind them: nothing of
    /// what was truncated is lent.
    pub fn write_halves<R: Threads, F: FnMut(&mut [Page]) + Send, G: FnMut(&mut [Page])>(
        &mut self,
        rt: &R,
        i: usize,
        f: F,
        g: G,
    )
        requires block { IsSome self.old.block }
        requires within { i ≤ count_of (length self.old.bytes) }
        requires front_taken { TakesPages (F.pre f) i }
        requires front_kept { KeepsPages (F.step f) i }
        requires back_taken { IfSome self.old.block (λ b. TakesPages (G.pre g) (2 ^ b.order - i)) }
        requires back_kept { IfSome self.old.block (λ b. KeepsPages (G.step g) (2 ^ b.order - i)) }
        ensures len { length self.new.bytes ≡ length self.old.bytes }
        ensures block { self.new.block ≡ self.old.block }
        ensures halves { (old new : List (List ℕ)) × AreItsAlone self.old old
            × ArePagesOf self.new new × AreWritten (F.step f) (G.step g) i old new }
    {
        let len = self.len;
        let Some(block) = &mut self.block else {
            unreachable!()
        };
        block.clear_from(len);
        block.write_halves(rt, i, f, g);
        still_whole(block);
    }
}

/// Shows that a block has all its pages. It changes nothing.
fn still_whole<L: Ledger>(block: &Block<L>)
    ensures { IsBlock block.now }
{
    block.order();
}
