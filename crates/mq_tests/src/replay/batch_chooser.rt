//! What a seat asks for by a call of several texts.

use crate::replay::calls::{Asked, HowLong, KeptLetter};
use crate::replay::chooser::{Chooser, mostly_sends};
use mq::{MSGMAX, Selection};
use std::alloc::Global;

/// The tags of the letters that one call sends are so far from one another, and from those of
/// other calls.
const TAGS: u64 = 1_000_000;

impl Chooser {
    /// How many texts one call is asked for: seldom about as many as it does, or more.
    fn several(&mut self) -> u64 {
        if self.one_of(12) {
            self.below(10) + 60
        } else {
            self.below(21)
        }
    }

    /// A letter that takes no page, or one; few are long.
    fn letter(&mut self, tag: u64) -> KeptLetter {
        let length = match self.below(64) {
            0 => self.below(16_384),
            1..=31 => 0,
            _ => self.below(64),
        };
        KeptLetter {
            mtype: self.mtype(128),
            tag,
            length,
        }
    }

    /// `None` where there is no memory for the list.
    pub(crate) fn send_texts(
        &mut self,
        alloc: Global,
        tag: u64,
        how_long: HowLong,
    ) -> Option<Asked> {
        let id = self.id();
        let count = self.several();
        let mut letters = Vec::with_capacity(alloc, count as usize).ok()?;
        for place in 0..count {
            let step = place.wrapping_add(1).wrapping_mul(TAGS);
            letters.push(self.letter(tag.wrapping_add(step))).ok()?;
        }
        Some(Asked::SendTexts {
            id,
            how_long,
            letters,
        })
    }

    /// Seldom of a type that no message has.
    fn selection(&mut self) -> Selection {
        let bound = self.below(5) + 1;
        match self.below(16) {
            0..=7 => Selection::Any,
            8..=10 => Selection::Exact(bound as i64),
            11 | 12 => Selection::Except(bound as i64),
            13 | 14 => Selection::UpTo(bound),
            _ => Selection::Exact(0),
        }
    }

    pub(crate) fn receive_texts(&mut self, how_long: HowLong) -> Asked {
        let short = self.one_of(3);
        let size = if short { self.below(64) } else { MSGMAX };
        Asked::ReceiveTexts {
            id: self.id(),
            selection: self.selection(),
            size,
            noerror: short && self.one_of(2),
            most: self.several() as usize,
            how_long,
        }
    }

    /// A call of several texts, which does not wait, or not long.
    pub(crate) fn batch(&mut self, alloc: Global, step: u64, tag: u64) -> Option<Asked> {
        let how_long = if self.one_of(4) {
            HowLong::Within(self.below(1_000))
        } else {
            HowLong::NoWait
        };
        let sends = if mostly_sends(step) { 2 } else { 1 };
        if self.below(3) < sends {
            self.send_texts(alloc, tag, how_long)
        } else {
            Some(self.receive_texts(how_long))
        }
    }
}
