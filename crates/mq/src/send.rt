//! How a caller sends.
ghost use Rattle.std.specs.Prelude.{◌≡◌, ◌<◌, false, true, length, IfErr, MatchResult};
ghost use Rattle.mq_table.specs.Ids.{seq_of, slot_of};
ghost use Rattle.mq_system.specs.Outcome.{IsNotSent, IsRefusal, IsSent};
ghost use Rattle.mq_system.specs.Refusals.{MaySend, never_sent};
ghost use Rattle.mq_system.specs.Seen.{send_verdict};
ghost use Rattle.mq.specs.Caller.{IsNotDraftedWithin, IsNotSentFrom};
ghost use Rattle.mq.specs.Moments.{IsTimed};

use crate::{Caller, Message};
use mq_calls::{Errno, SendRefused};
use mq_system::{Forever, Names, NoWait, Patience, Pledge, SendFlags, TextOf, Until};
use mq_table::Id;
use std::sync::Wait;
use std::time::{Clock, Duration, Instant};

impl<'a, P: Pledge, N: Names, R: Wait + Clock> Caller<'a, P, N, R> {
    /// Sends a message, and returns its entry (msgop(2), msgsnd). It waits where no pages are free
    /// for the text, and where the queue is full.
    pub fn send(&mut self, id: Id, message: Message<'_>) -> Result<u64, Errno>
        requires pledge { P.kept self.old.seat.number message.tag message.mtype message.bytes.now }
        ensures answer { MatchResult result
            (IsSent N.slots id message.entry.mtype message.entry.tag
            (length message.entry.bytes.now) self.new.moments.now self.old.seat self.new.seat)
            (IsNotSentFrom (IsNotDraftedWithin false N.height (length message.entry.bytes.now)
            self.old.seat self.new.seat) N.slots id message.entry.mtype
            (length message.entry.bytes.now) false self.old.seat self.new.seat) }
        ensures moments { IsTimed self.old.moments self.new.moments }
    {
        self.send_within(id, message, &mut Forever)
    }

    /// Sends a message, and does not wait (IPC_NOWAIT): ENOMEM where no pages are free, EAGAIN
    /// where the queue is full.
    pub fn try_send(&mut self, id: Id, message: Message<'_>) -> Result<u64, Errno>
        requires pledge { P.kept self.old.seat.number message.tag message.mtype message.bytes.now }
        ensures answer { MatchResult result
            (IsSent N.slots id message.entry.mtype message.entry.tag
            (length message.entry.bytes.now) self.new.moments.now self.old.seat self.new.seat)
            (IsNotSentFrom (IsNotDraftedWithin true N.height (length message.entry.bytes.now)
            self.old.seat self.new.seat) N.slots id message.entry.mtype
            (length message.entry.bytes.now) true self.old.seat self.new.seat) }
        ensures moments { IsTimed self.old.moments self.new.moments }
    {
        self.send_within(id, message, &mut NoWait)
    }

    /// Sends a message, and waits no longer than the timeout: ENOMEM or EAGAIN then.
    pub fn send_timeout(
        &mut self,
        id: Id,
        message: Message<'_>,
        timeout: Duration,
    ) -> Result<u64, Errno>
        requires pledge { P.kept self.old.seat.number message.tag message.mtype message.bytes.now }
        ensures answer { MatchResult result
            (IsSent N.slots id message.entry.mtype message.entry.tag
            (length message.entry.bytes.now) self.new.moments.now self.old.seat self.new.seat)
            (IsNotSentFrom (IsNotDraftedWithin true N.height (length message.entry.bytes.now)
            self.old.seat self.new.seat) N.slots id message.entry.mtype
            (length message.entry.bytes.now) true self.old.seat self.new.seat) }
        ensures moments { IsTimed self.old.moments self.new.moments }
    {
        let mut until = Until::within(self.rt, timeout);
        self.send_within(id, message, &mut until)
    }

    /// Sends a message, and waits no longer than until the deadline, by its runtime's clock: ENOMEM
    /// or EAGAIN then.
    pub fn send_deadline(
        &mut self,
        id: Id,
        message: Message<'_>,
        deadline: Instant,
    ) -> Result<u64, Errno>
        requires pledge { P.kept self.old.seat.number message.tag message.mtype message.bytes.now }
        ensures answer { MatchResult result
            (IsSent N.slots id message.entry.mtype message.entry.tag
            (length message.entry.bytes.now) self.new.moments.now self.old.seat self.new.seat)
            (IsNotSentFrom (IsNotDraftedWithin true N.height (length message.entry.bytes.now)
            self.old.seat self.new.seat) N.slots id message.entry.mtype
            (length message.entry.bytes.now) true self.old.seat self.new.seat) }
        ensures moments { IsTimed self.old.moments self.new.moments }
    {
        let mut until = Until::at(self.rt, deadline);
        self.send_within(id, message, &mut until)
    }

    /// Sends a message, and waits for pages, and then for room, until the patience ends: one end
    /// holds for both. Then it returns ENOMEM or EAGAIN. EINVAL of the type and of the slot, EINVAL
    /// and ENOMEM of the draft, then the refusals of `System::msgsnd`.
    #[inline]
    pub fn send_within<T: Patience>(
        &mut self,
        id: Id,
        message: Message<'_>,
        patience: &mut T,
    ) -> Result<u64, Errno>
        requires pledge { P.kept self.old.seat.number message.tag message.mtype message.bytes.now }
        ensures answer { MatchResult result
            (IsSent N.slots id message.entry.mtype message.entry.tag
            (length message.entry.bytes.now) self.new.moments.now self.old.seat self.new.seat)
            (IsNotSentFrom (IsNotDraftedWithin T.ends N.height (length message.entry.bytes.now)
            self.old.seat self.new.seat) N.slots id message.entry.mtype
            (length message.entry.bytes.now) T.ends self.old.seat self.new.seat) }
        ensures moments { IsTimed self.old.moments self.new.moments }
    {
        let Message { mtype, tag, bytes } = message;
        if mtype < 1 || id.slot() >= self.slots() {
            return Err(Errno::EINVAL);
        }
        match self
            .system
            .draft_by_within(self.rt, &self.seat, bytes, patience)
        {
            Ok(text) => self.send_drafted(id, mtype, tag, text, patience),
            Err(error) => Err(error.errno()),
        }
    }

    /// Sends a text, which is spent where it is refused.
    #[inline(always)]
    fn send_drafted<T: Patience>(
        &mut self,
        id: Id,
        mtype: i64,
        tag: u64,
        text: TextOf<N>,
        patience: &mut T,
    ) -> Result<u64, Errno>
        requires pledge { P.kept self.old.seat.number tag mtype text.bytes }
        ensures answer { MatchResult result
            (IsSent N.slots id mtype tag (length text.bytes) self.new.moments.now
            self.old.seat self.new.seat)
            (IsRefusal (never_sent N.slots id mtype) (MaySend T.ends) (slot_of id)
            (send_verdict (seq_of id) mtype (length text.bytes)) self.old.seat self.new.seat) }
        ensures moments { IsTimed self.old.moments self.new.moments }
    {
        match self.send_text_within(id, mtype, tag, text, patience) {
            Ok(entry) => Ok(entry),
            Err(refusal) => {
                let SendRefused { refused, text } = refusal;
                self.spend(text);
                Err(refused.errno)
            }
        }
    }

    /// Sends a text by a move, and waits where the queue is full. Where it is refused it is
    /// returned.
    pub fn send_text(
        &mut self,
        id: Id,
        mtype: i64,
        tag: u64,
        text: TextOf<N>,
    ) -> Result<u64, SendRefused<TextOf<N>>>
        requires pledge { P.kept self.old.seat.number tag mtype text.bytes }
        ensures answer { MatchResult result
            (IsSent N.slots id mtype tag (length text.bytes) self.new.moments.now
            self.old.seat self.new.seat)
            (λ r. IsNotSent N.slots id mtype (length text.bytes) false
            self.old.seat self.new.seat r.refused) }
        ensures handed_back { IfErr result (λ r. r.text ≡ text) }
        ensures moments { IsTimed self.old.moments self.new.moments }
    {
        self.send_text_within(id, mtype, tag, text, &mut Forever)
    }

    /// Sends a text as `send_text` does, and does not wait: EAGAIN where the queue is full.
    pub fn try_send_text(
        &mut self,
        id: Id,
        mtype: i64,
        tag: u64,
        text: TextOf<N>,
    ) -> Result<u64, SendRefused<TextOf<N>>>
        requires pledge { P.kept self.old.seat.number tag mtype text.bytes }
        ensures answer { MatchResult result
            (IsSent N.slots id mtype tag (length text.bytes) self.new.moments.now
            self.old.seat self.new.seat)
            (λ r. IsNotSent N.slots id mtype (length text.bytes) true
            self.old.seat self.new.seat r.refused) }
        ensures handed_back { IfErr result (λ r. r.text ≡ text) }
        ensures moments { IsTimed self.old.moments self.new.moments }
    {
        self.send_text_within(id, mtype, tag, text, &mut NoWait)
    }

    /// Sends a text as `send_text` does, and waits no longer than the timeout: EAGAIN then.
    pub fn send_text_timeout(
        &mut self,
        id: Id,
        mtype: i64,
        tag: u64,
        text: TextOf<N>,
        timeout: Duration,
    ) -> Result<u64, SendRefused<TextOf<N>>>
        requires pledge { P.kept self.old.seat.number tag mtype text.bytes }
        ensures answer { MatchResult result
            (IsSent N.slots id mtype tag (length text.bytes) self.new.moments.now
            self.old.seat self.new.seat)
            (λ r. IsNotSent N.slots id mtype (length text.bytes) true
            self.old.seat self.new.seat r.refused) }
        ensures handed_back { IfErr result (λ r. r.text ≡ text) }
        ensures moments { IsTimed self.old.moments self.new.moments }
    {
        let mut patience = Until::within(self.rt, timeout);
        self.send_text_within(id, mtype, tag, text, &mut patience)
    }

    /// Sends a text as `send_text` does, and waits no longer than until the deadline, by its
    /// runtime's clock: EAGAIN then.
    pub fn send_text_deadline(
        &mut self,
        id: Id,
        mtype: i64,
        tag: u64,
        text: TextOf<N>,
        deadline: Instant,
    ) -> Result<u64, SendRefused<TextOf<N>>>
        requires pledge { P.kept self.old.seat.number tag mtype text.bytes }
        ensures answer { MatchResult result
            (IsSent N.slots id mtype tag (length text.bytes) self.new.moments.now
            self.old.seat self.new.seat)
            (λ r. IsNotSent N.slots id mtype (length text.bytes) true
            self.old.seat self.new.seat r.refused) }
        ensures handed_back { IfErr result (λ r. r.text ≡ text) }
        ensures moments { IsTimed self.old.moments self.new.moments }
    {
        let mut patience = Until::at(self.rt, deadline);
        self.send_text_within(id, mtype, tag, text, &mut patience)
    }

    /// Sends a text as `send_text` does, and waits for room until the patience ends: EAGAIN then.
    /// EINVAL for the type and the slot, then the refusals of `System::msgsnd`.
    #[inline(always)]
    pub fn send_text_within<T: Patience>(
        &mut self,
        id: Id,
        mtype: i64,
        tag: u64,
        text: TextOf<N>,
        patience: &mut T,
    ) -> Result<u64, SendRefused<TextOf<N>>>
        requires pledge { P.kept self.old.seat.number tag mtype text.bytes }
        ensures answer { MatchResult result
            (IsSent N.slots id mtype tag (length text.bytes) self.new.moments.now
            self.old.seat self.new.seat)
            (λ r. IsNotSent N.slots id mtype (length text.bytes) T.ends
            self.old.seat self.new.seat r.refused) }
        ensures handed_back { IfErr result (λ r. r.text ≡ text) }
        ensures moments { IsTimed self.old.moments self.new.moments }
    {
        let flags = SendFlags { nowait: false };
        self.begin();
        self.system.msgsnd_within(
            self.rt,
            &mut self.seat,
            id,
            mtype,
            tag,
            text,
            flags,
            patience,
            self.moments.now,
        )
    }
}
