//! msgctl(2) on one queue: IPC_SET of the quota, and IPC_RMID.

ghost use Rattle.std.specs.Prelude.{◌≡◌, unwrap_or, IfOk, MatchResult};
ghost use Rattle.mq_queue.specs.Answer.{set_refusal};
ghost use Rattle.mq_queue.specs.Base.{figures_from};
ghost use Rattle.mq_queue.specs.LawfulFrom.{LawfulFrom};
ghost use Rattle.mq_queue.specs.QueueCalls.{IsEndedQueue, IsQuotaSet, IsRefusedBy};

use crate::log::{append, reserve, whole_count};
use crate::{Event, Figures, Log, MSGMNB, NO_FIGURES, Notice, QueueError, QueueState};
use mq_message::{Body, Waiting};

impl<B: Body, W: Waiting<B>> QueueState<B, W> {
    /// Sets the quota, and returns the place of the event (msgctl(2), IPC_SET of msg_qbytes). The
    /// pending messages stay, also where they are more than the new quota. The notice is given the
    /// event, with the figures after it.
    pub fn set<N: Notice>(
        &mut self,
        qbytes: u64,
        seat: u16,
        moment: u64,
        notice: &mut N,
    ) -> Result<u64, QueueError>
        ensures answer { MatchResult result
            (IsQuotaSet qbytes seat moment self.old self.new)
            (IsRefusedBy (unwrap_or (set_refusal qbytes) QueueError.Memory) self.old self.new) }
        ensures noticed { MatchResult result
            (λ _. N.takes notice.old (Event.Changed seat moment qbytes)
            (figures_from self.new.base self.new.tail) notice.new)
            (λ _. notice.new ≡ notice.old) }
    {
        let kept = self.kept;
        if qbytes > MSGMNB {
            return Err(QueueError::OverLimit);
        }
        let place = whole_count(self.base.places, &self.tail);
        let changed = Event::Changed {
            seat,
            moment,
            qbytes,
        };
        let after = Figures {
            qbytes,
            ctime: moment,
            ..kept
        };
        let Ok(()) = reserve(&mut self.tail, changed, after, notice) else {
            return Err(QueueError::Memory);
        };
        self.kept = after;
        append(&mut self.tail, changed);
        Ok(place)
    }

    /// Removes the queue, and returns its log and the pending messages (msgctl(2), IPC_RMID). `Err`
    /// means out of memory, and returns the queue. The notice is given the event, with figures that
    /// are all 0.
    pub fn remove<N: Notice>(
        self,
        seat: u16,
        moment: u64,
        notice: &mut N,
    ) -> Result<(Log, W), QueueState<B, W>>
        ensures answer { MatchResult result
            (λ r. IsEndedQueue seat moment self r.0 (W.messages r.1))
            (λ q. q ≡ self) }
        ensures lawful { IfOk result (λ r. LawfulFrom r.0.base r.0.tail) }
        ensures noticed { MatchResult result
            (λ r. N.takes notice.old (Event.Removed seat moment)
            (figures_from r.0.base r.0.tail) notice.new)
            (λ _. notice.new ≡ notice.old) }
    {
        let mut queue = self;
        let removed = Event::Removed { seat, moment };
        let Ok(()) = reserve(&mut queue.tail, removed, NO_FIGURES, notice) else {
            return Err(queue);
        };
        let QueueState {
            base,
            mut tail,
            waiting,
            kept: _,
            body: _,
        } = queue;
        append(&mut tail, removed);
        Ok((Log::of(base, tail), waiting))
    }
}
