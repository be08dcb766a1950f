//! Message buffers: the bytes of a text, in a block of pages.
ghost use Rattle.std.specs.Prelude.{◌≡◌, ℕ, ◌-◌, ◌*◌, ◌^◌, ◌<◌, ◌≤◌, ◌↔◌, [], Some, None, length, take};
ghost use Rattle.std.specs.Prelude.{replicate, min, slice_index_or, IfSome, IfNone, IfOk, OnErr, IsErrOf};
ghost use Rattle.std.specs.List.{concat};
ghost use Rattle.std.specs.Option.{option_map};
ghost use Rattle.mq_arena.specs.Lent.{place};
ghost use Rattle.mq_arena.specs.Text.{no_text, count_of, order_for, text_in, text_part};

use crate::order::{INLINE_LEN, TEXT_LEN, order_for};
use crate::{ArenaState, Block, MAX_ORDER, PAGE_LEN, Parts, TakeError};
use mq_message::Body;
use std::marker::Model;
use std::sync::ledger::Ledger;

/// A text in a block, or the empty one without a block. It can't be dropped: its owner takes the
/// block out and frees it.
pub struct Text<L: Ledger> {
    pub(crate) len: usize,
    pub(crate) block: Option<Block<L>>,
}

impl<L: Ledger> Model for Text<L> {
    ghost use Rattle.mq_arena.specs.Text.{PlainText};
    ghost use Rattle.mq_arena.specs.TextHeld.{text_of, IsText};

    ghost Value = { PlainText };

    ghost view = { λ t. text_of t.len t.block };

    ghost invariant = { λ t. IsText t.len t.block };
}

impl<L: Ledger> Text<L> {
    /// The text of no bytes, which has no block.
    pub fn empty() -> Text<L>
        ensures { result ≡ no_text }
    {
        Text {
            len: 0,
            block: None,
        }
    }

    /// The first `len` bytes of the block, which has the order that `order_for` answers. Those of
    /// a block that was just taken are all zero.
    #[tactic(auto, using(crate::proofs::Drafts::zeros))]
    pub fn of(block: Block<L>, len: usize) -> Text<L>
        requires some { 0 < len }
        requires most { len ≤ TEXT_LEN }
        requires order { block.order ≡ order_for len }
        ensures text { result
            ≡ record { bytes = take len (concat block.pages); block = Some (place block) } }
        ensures zero { block.pages ≡ replicate (2 ^ block.order) (replicate PAGE_LEN 0)
            → result.bytes ≡ replicate len 0 }
    {
        prove!(len <= PAGE_LEN << block.order());
        Text {
            len,
            block: Some(block),
        }
    }

    /// The text of these bytes, in a block that the arena allocates: the least with room.
    /// Each byte of the block is written once.
    pub fn of_bytes(arena: &mut ArenaState<L>, bytes: &[u8]) -> Result<Text<L>, TakeError>
        requires some { 0 < length bytes.now }
        requires most { length bytes.now ≤ TEXT_LEN }
        ensures ok { IfOk result (λ text. text_in arena.old bytes.now ≡ Some (text, arena.new)) }
        ensures no_run { IsErrOf result TakeError.NoRun ↔ (text_in arena.old bytes.now ≡ None) }
        ensures memory { IsErrOf result TakeError.Memory → INLINE_LEN < length bytes.now }
        ensures unchanged { OnErr result (arena.new ≡ arena.old) }
    {
        let order = order_for(bytes.len());
        let block = arena.take_filled(order, bytes)?;
        Ok(Text::of(block, bytes.len()))
    }

    /// How many parts it has: one for each page that its bytes begin.
    #[tactic(auto, using(crate::proofs::Texts::text_length))]
    pub fn count(&self) -> usize
        ensures { result ≡ count_of (length self.now.bytes) }
    {
        self.len.div_ceil(PAGE_LEN)
    }

    /// The bytes in page `i`, up to the text's end.
    pub fn part(&self, i: usize) -> &[u8]
        requires { i < count_of (length self.now.bytes) }
        ensures { result.now ≡ text_part self.now.bytes i }
    {
        match &self.block {
            Some(block) => &block.part(i)[..part_len(self.len, i)],
            None => unreachable!(),
        }
    }

    /// All parts in order.
    pub fn parts(&self) -> Parts<'_>
        ensures bytes { concat result ≡ self.now.bytes }
        ensures count { length result ≡ count_of (length self.now.bytes) }
        ensures parts { (i : ℕ) → i < count_of (length self.now.bytes)
            → slice_index_or result i [] ≡ text_part self.now.bytes i }
    {
        match &self.block {
            Some(block) => block.parts_to(self.len),
            None => Parts::empty(),
        }
    }

    /// The first page of the block.
    pub fn start(&self) -> Option<u32>
        ensures { result ≡ option_map (λ b. b.start) self.now.block }
    {
        match &self.block {
            Some(block) => Some(block.start()),
            None => None,
        }
    }

    /// The order of the block, which has room for the text's bytes.
    pub fn order(&self) -> Option<u8>
        ensures value { result ≡ option_map (λ b. b.order) self.now.block }
        ensures low { IfSome result (λ order. order ≤ MAX_ORDER) }
        ensures room { IfSome self.now.block
            (λ b. length self.now.bytes ≤ PAGE_LEN * 2 ^ b.order) }
        ensures none { IfNone self.now.block (self.now.bytes ≡ []) }
    {
        match &self.block {
            Some(block) => Some(block.order()),
            None => None,
        }
    }

    /// The block, if it has one, with all its bytes: those of the text come first.
    pub fn into_block(self) -> Option<Block<L>>
        ensures block { option_map place result ≡ self.block }
        ensures bytes { IfSome result
            (λ b. take (length self.bytes) (concat b.pages) ≡ self.bytes) }
    {
        let Text { len: _, block } = self;
        block
    }
}

/// How many bytes of a text of that length lie in page `i`.
pub(crate) fn part_len(len: usize, i: usize) -> usize
    requires { PAGE_LEN * i ≤ len }
    ensures { result ≡ min PAGE_LEN (len - PAGE_LEN * i) }
{
    PAGE_LEN.min(len - PAGE_LEN * i)
}

impl<L: Ledger> Body for Text<L> {
    ghost bytes = { λ text. text.bytes };

    ghost keeps = { λ old new. new.block ≡ old.block };

    #[tactic(auto, using(crate::proofs::Texts::text_length))]
    fn len(&self) -> u64 {
        self.len as u64
    }

    fn cut(&mut self, n: u64) {
        self.len = self.len.min(usize::try_from(n).unwrap_or(usize::MAX));
    }
}
