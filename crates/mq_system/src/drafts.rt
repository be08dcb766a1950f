//! Drafts of several texts, whose blocks are taken out of the seat's magazine, as far as it has
//! them, under one hold of its lock.
ghost use Rattle.std.specs.Prelude.{◌≡◌, ◌+◌, ◌≤◌, ◌||◌, [], IfErr, IfOk, OnErr, drop, length};
ghost use Rattle.std.specs.VecDeque.{deque_capacity, deque_len};
ghost use Rattle.mq_system.specs.Drafts.{AreBlocksFor, AreDrafted, IsDraft};
ghost use Rattle.mq_system.specs.Drafts.{IsDraftRefused, IsFirstBlockFor};

use crate::system::text_in;
use crate::{DraftError, Letter, Names, NoWait, Pages, Patience, Pledge, Seat, System, TextOf};
use mq_arena::Unwritten;
use std::alloc::Global;
use std::collections::VecDeque;
use std::sync::Wait;

impl<P: Pledge, N: Names> System<P, N> {
    /// Drafts texts of these letters' bytes as so many calls of `draft_by_within`, and adds them to
    /// the list. It waits for pages for the first alone. The first refusal ends it.
    pub fn draft_texts_by_within<R: Wait, T: Patience>(
        &self,
        alloc: Global,
        rt: &R,
        seat: &Seat<N>,
        letters: &[Letter<&[u8]>],
        patience: &mut T,
        texts: &mut VecDeque<Letter<TextOf<N>>>,
    ) -> Result<(), DraftError>
        requires room { deque_len texts.old + length letters.now ≤ deque_capacity texts.old }
        ensures answer { AreDrafted (λ r. r.now) N.height T.ends letters.now texts.old.items
            texts.new.items result }
    {
        let mut blocks = self.blocks_for(alloc, rt, seat, letters);
        for place in 0..letters.len() {
            let letter = &letters[place];
            match self.draft_next(rt, seat, letter.text, place > 0, patience, &mut blocks) {
                Ok(text) => texts.push_back_reserved(Letter {
                    mtype: letter.mtype,
                    tag: letter.tag,
                    text,
                }),
                Err(refused) => {
                    blocks.destroy_empty();
                    return Err(refused);
                }
            }
        }
        blocks.destroy_empty();
        Ok(())
    }

    /// Blocks of the seat's magazine for the first of these letters; none where the first needs
    /// none, or where there is no memory to list them.
    fn blocks_for<R: Wait>(
        &self,
        alloc: Global,
        rt: &R,
        seat: &Seat<N>,
        letters: &[Letter<&[u8]>],
    ) -> VecDeque<Unwritten<Pages<N>>>
        ensures { AreBlocksFor (λ r. r.now) result.items letters.now }
    {
        seat.holds();
        let mut blocks = VecDeque::new(alloc);
        let needs_one = match letters.first() {
            Some(letter) => !letter.text.is_empty(),
            None => false,
        };
        if needs_one && blocks.reserve(letters.len()).is_ok() {
            self.magazines
                .take_first(rt, seat.number(), letters, &mut blocks);
        }
        blocks
    }

    /// Drafts the next of several texts in the first of these blocks, or else by a draft of its
    /// own, which may wait if it is the first.
    fn draft_next<R: Wait, T: Patience>(
        &self,
        rt: &R,
        seat: &Seat<N>,
        bytes: &[u8],
        nowait: bool,
        patience: &mut T,
        blocks: &mut VecDeque<Unwritten<Pages<N>>>,
    ) -> Result<TextOf<N>, DraftError>
        requires block { IsFirstBlockFor (length bytes.now) blocks.old.items }
        ensures ok { IfOk result (IsDraft bytes.now) }
        ensures refused { IfErr result (IsDraftRefused (T.ends || nowait) N.height
            (length bytes.now)) }
        ensures rest { blocks.new.items ≡ drop 1 blocks.old.items }
        ensures none { OnErr result (blocks.new.items ≡ []) }
    {
        match blocks.pop_front() {
            Some(block) => {
                seat.holds();
                self.magazines.note(block.start(), seat.number() - 1);
                Ok(text_in(block, bytes))
            }
            None if nowait => self.draft_by(rt, seat, bytes),
            None => self.draft_by_within(rt, seat, bytes, patience),
        }
    }
}
