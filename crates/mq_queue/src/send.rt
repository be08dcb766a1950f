//! msgsnd with IPC_NOWAIT on one queue (msgop(2)).

ghost use Rattle.std.specs.Prelude.{◌≡◌, ◌+◌, ◌<◌, ◌^◌, ◌&&◌, length, nat_le, unwrap_or, MatchResult};
ghost use Rattle.mq_queue.specs.Answer.{send_refusal};
ghost use Rattle.mq_queue.specs.Base.{figures_from, quota_from, waiting_from};
ghost use Rattle.mq_queue.specs.QueueCalls.{IsHandedBack, IsQueued, sending};

use crate::log::{append, reserve, whole_count};
use crate::{Event, Figures, MSGMAX, Notice, QueueError, QueueState};
use mq_message::{Body, Message, Waiting};

/// Whether a queue in which so many messages and bytes are pending has room for a text of this
/// length.
fn has_room(count: u64, bytes: u64, length: u64, quota: u64) -> bool
    requires messages { count + 1 < 2 ^ 64 }
    requires sum { bytes + length < 2 ^ 64 }
    ensures { result ≡ (nat_le (bytes + length) quota && nat_le (count + 1) quota) }
{
    bytes + length <= quota && count + 1 <= quota
}

impl<B: Body, W: Waiting<B>> QueueState<B, W> {
    /// Why a message of this type and length would be refused now (msgop(2), msgsnd with
    /// IPC_NOWAIT), or `None` where it could at most be out of memory.
    #[tactic(auto, using(crate::proofs::Keeps::room_shown))]
    pub fn refuses_send(&self, mtype: i64, length: u64) -> Option<QueueError>
        ensures { result ≡ send_refusal (waiting_from self.now.base self.now.tail)
            (quota_from self.now.base self.now.tail) mtype length }
    {
        if mtype < 1 {
            return Some(QueueError::TypeInvalid);
        }
        if length > MSGMAX {
            return Some(QueueError::TooLong);
        }
        if !has_room(self.kept.qnum, self.kept.cbytes, length, self.kept.qbytes) {
            return Some(QueueError::Full);
        }
        None
    }

    /// Adds a message at the end, and returns its place (msgop(2), msgsnd with IPC_NOWAIT). A
    /// message that is refused is returned. The notice is given the event, with the figures after
    /// it.
    pub fn send<N: Notice>(
        &mut self,
        message: Message<B>,
        moment: u64,
        notice: &mut N,
    ) -> Result<u64, (QueueError, Message<B>)>
        ensures answer { MatchResult result
            (IsQueued B.bytes message moment self.old self.new)
            (IsHandedBack (unwrap_or (send_refusal (waiting_from self.old.base self.old.tail)
            (quota_from self.old.base self.old.tail) message.mtype (length (B.bytes message.body)))
            QueueError.Memory) message self.old self.new) }
        ensures noticed { MatchResult result
            (λ _. N.takes notice.old (sending B.bytes message moment)
            (figures_from self.new.base self.new.tail) notice.new)
            (λ _. notice.new ≡ notice.old) }
    {
        let kept = self.kept;
        let length = message.body.len();
        if let Some(refusal) = self.refuses_send(message.mtype, length) {
            return Err((refusal, message));
        }
        let Ok(()) = self.waiting.prepare(message.mtype) else {
            return Err((QueueError::Memory, message));
        };
        let place = whole_count(self.base.places, &self.tail);
        let sent = Event::Sent {
            seat: message.sender,
            moment,
            tag: message.tag,
            mtype: message.mtype,
            length,
        };
        let after = Figures {
            qnum: kept.qnum + 1,
            cbytes: kept.cbytes + length,
            stime: moment,
            lspid: message.sender,
            ..kept
        };
        let Ok(()) = reserve(&mut self.tail, sent, after, notice) else {
            return Err((QueueError::Memory, message));
        };
        self.kept = after;
        append(&mut self.tail, sent);
        self.waiting.put_prepared(place, message);
        Ok(place)
    }
}
