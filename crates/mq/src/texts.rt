//! The texts that a caller writes in place.
ghost use Rattle.std.specs.Prelude.{◌≡◌, false, true, length, replicate, IfErr, IfOk};
ghost use Rattle.std.specs.VecDeque.{deque_capacity, deque_len};
ghost use Rattle.mq_system.specs.Drafts.{IsInLeast};
ghost use Rattle.mq.specs.Batches.{AreTextsDrafted};
ghost use Rattle.mq.specs.Caller.{IsNotDraftedWithin};

use crate::Caller;
use mq_calls::{Delivered, Errno};
use mq_system::{Forever, Letter, Names, NoWait, Patience, Pledge, TextOf, Until};
use std::collections::VecDeque;
use std::sync::Wait;
use std::time::{Clock, Duration, Instant};

impl<'a, P: Pledge, N: Names, R: Wait + Clock> Caller<'a, P, N, R> {
    /// A zeroed text of `len` bytes in pages of its own, which is written in place, and sent or
    /// spent. It waits where no pages are free.
    pub fn draft(&self, len: u64) -> Result<TextOf<N>, Errno>
        ensures zero { IfOk result (λ text. text.bytes ≡ replicate len 0) }
        ensures block { IfOk result (IsInLeast len) }
        ensures refused { IfErr result
            (IsNotDraftedWithin false N.height len self.now.seat self.now.seat) }
    {
        self.draft_within(len, &mut Forever)
    }

    /// A text as `draft` makes it, without a wait: ENOMEM where no pages are free.
    pub fn try_draft(&self, len: u64) -> Result<TextOf<N>, Errno>
        ensures zero { IfOk result (λ text. text.bytes ≡ replicate len 0) }
        ensures block { IfOk result (IsInLeast len) }
        ensures refused { IfErr result
            (IsNotDraftedWithin true N.height len self.now.seat self.now.seat) }
    {
        self.draft_within(len, &mut NoWait)
    }

    /// A text as `draft` makes it, which waits no longer than the timeout: ENOMEM then.
    pub fn draft_timeout(&self, len: u64, timeout: Duration) -> Result<TextOf<N>, Errno>
        ensures zero { IfOk result (λ text. text.bytes ≡ replicate len 0) }
        ensures block { IfOk result (IsInLeast len) }
        ensures refused { IfErr result
            (IsNotDraftedWithin true N.height len self.now.seat self.now.seat) }
    {
        let mut until = Until::within(self.rt, timeout);
        self.draft_within(len, &mut until)
    }

    /// A text as `draft` makes it, which waits no longer than until the deadline, by its runtime's
    /// clock: ENOMEM then.
    pub fn draft_deadline(&self, len: u64, deadline: Instant) -> Result<TextOf<N>, Errno>
        ensures zero { IfOk result (λ text. text.bytes ≡ replicate len 0) }
        ensures block { IfOk result (IsInLeast len) }
        ensures refused { IfErr result
            (IsNotDraftedWithin true N.height len self.now.seat self.now.seat) }
    {
        let mut until = Until::at(self.rt, deadline);
        self.draft_within(len, &mut until)
    }

    /// A text as `draft` makes it, which waits for pages until the patience ends: ENOMEM then.
    /// EINVAL for more than `MSGMAX` bytes.
    pub fn draft_within<T: Patience>(&self, len: u64, patience: &mut T) -> Result<TextOf<N>, Errno>
        ensures zero { IfOk result (λ text. text.bytes ≡ replicate len 0) }
        ensures block { IfOk result (IsInLeast len) }
        ensures refused { IfErr result
            (IsNotDraftedWithin T.ends N.height len self.now.seat self.now.seat) }
    {
        match self.system.draft_within(self.rt, len, patience) {
            Ok(text) => Ok(text),
            Err(error) => Err(error.errno()),
        }
    }

    /// Drafts texts of these letters' bytes, and adds them to the list, as that many calls of
    /// `draft` and `Text::fill`. It waits for pages for the first alone. The first refusal ends it,
    /// with the errors of `draft`; ENOMEM and no text where there is no memory to list them.
    pub fn draft_texts(
        &self,
        letters: &[Letter<&[u8]>],
        texts: &mut VecDeque<Letter<TextOf<N>>>,
    ) -> Result<(), Errno>
        ensures { AreTextsDrafted (λ r. r.now) N.height false (deque_capacity texts.old)
            letters.now texts.old.items texts.new.items result }
    {
        self.draft_texts_within(letters, texts, &mut Forever)
    }

    /// Drafts texts as `draft_texts` does, and does not wait.
    pub fn try_draft_texts(
        &self,
        letters: &[Letter<&[u8]>],
        texts: &mut VecDeque<Letter<TextOf<N>>>,
    ) -> Result<(), Errno>
        ensures { AreTextsDrafted (λ r. r.now) N.height true (deque_capacity texts.old)
            letters.now texts.old.items texts.new.items result }
    {
        self.draft_texts_within(letters, texts, &mut NoWait)
    }

    /// Drafts texts as `draft_texts` does, and waits for pages for the first until the patience
    /// ends.
    pub fn draft_texts_within<T: Patience>(
        &self,
        letters: &[Letter<&[u8]>],
        texts: &mut VecDeque<Letter<TextOf<N>>>,
        patience: &mut T,
    ) -> Result<(), Errno>
        ensures { AreTextsDrafted (λ r. r.now) N.height T.ends (deque_capacity texts.old)
            letters.now texts.old.items texts.new.items result }
    {
        if texts.reserve(letters.len()).is_err() {
            return Err(Errno::ENOMEM);
        }
        let (alloc, rt, seat) = (self.alloc, self.rt, &self.seat);
        match self
            .system
            .draft_texts_by_within(alloc, rt, seat, letters, patience, texts)
        {
            Ok(()) => Ok(()),
            Err(refused) => Err(refused.errno()),
        }
    }

    /// Spends a text that is not sent. Its pages are kept for the next texts of this seat, or
    /// freed.
    pub fn spend(&self, text: TextOf<N>) {
        self.system.spend_by(self.rt, &self.seat, text);
    }

    /// Spends all texts of the list, as one call of `spend` each, and leaves it empty.
    pub fn spend_texts(&self, texts: &mut VecDeque<Delivered<TextOf<N>>>)
        ensures { deque_len texts.new ≡ 0 }
    {
        self.system.spend_texts_by(self.rt, &self.seat, texts);
    }
}
