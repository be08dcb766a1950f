//! An iterator over the bytes of a block, page by page.
ghost use Rattle.std.specs.Prelude.{◌≡◌, []};
ghost use Rattle.std.specs.Iterator.{YieldsFirstBy, item_count};

use crate::page::{PAGE_LEN, Page};
use std::iter::FusedIterator;
use std::marker::Model;

/// The parts that are left, each a whole page but for the last one, which may be truncated.
#[derive(Drop)]
pub struct Parts<'a> {
    pub(crate) pages: &'a [Page],
    pub(crate) len: usize,
}

impl<'a> Model for Parts<'a> {
    ghost use Rattle.std.specs.Prelude.{ℕ, List};
    ghost use Rattle.mq_arena.specs.Bytes.{cut_parts};

    ghost Value = { List (List ℕ) };

    ghost view = { λ parts. cut_parts parts.len parts.pages.now };
}

impl<'a> Parts<'a> {
    /// No parts: those of a text that has no block.
    pub fn empty() -> Parts<'a>
        ensures { result ≡ [] }
    {
        Parts { pages: &[], len: 0 }
    }
}

impl<'a> Iterator for Parts<'a> {
    type Item = &'a [u8];

    ghost next_gives = { YieldsFirstBy (λ part. part.now) (λ rest. rest) };

    ghost remaining = { item_count (λ rest. rest) };

    #[tactic(auto, using(crate::proofs::Cuts::cut_none))]
    fn next(&mut self) -> Option<&'a [u8]> {
        if self.len == 0 {
            return None;
        }
        let (first, rest) = self.pages.split_first()?;
        let bytes = first.bytes();
        let len = self.len.min(bytes.len());
        self.pages = rest;
        self.len = self.len.saturating_sub(PAGE_LEN);
        Some(&bytes[..len])
    }
}

impl<'a> FusedIterator for Parts<'a> {}
