//! msgrcv with IPC_NOWAIT on one queue (msgop(2)).

ghost use Rattle.std.specs.Prelude.{◌≡◌, ◌||◌, length, nat_le, true, Err, Some, None};
ghost use Rattle.std.specs.Prelude.{IfErr, IfOk, IfSome, MatchResult, OnOk};
ghost use Rattle.std.specs.Option.{option_map};
ghost use Rattle.mq_message.specs.Selection.{pick};
ghost use Rattle.mq_message.specs.Waiting.{message_at};
ghost use Rattle.mq_queue.specs.Answer.{receive_answer, receive_refusal};
ghost use Rattle.mq_queue.specs.Base.{figures_from, waiting_from};
ghost use Rattle.mq_queue.specs.Memory.{or_memory};
ghost use Rattle.mq_queue.specs.QueueCalls.{IsHandedOut, IsRefusedBy, IsWhatWaited};

use crate::log::{append, reserve, whole_count};
use crate::{Event, Figures, Notice, QueueError, QueueState, Received};
use mq_message::{Body, Selection, Waiting};

/// Whether a receiver of this size gets a text of this length, be it truncated.
fn is_accepted(length: u64, size: u64, noerror: bool) -> bool
    ensures { result ≡ (noerror || nat_le length size) }
{
    noerror || length <= size
}

/// The message that a receive picks: the place of its sending, and its length.
#[derive(Drop)]
struct Chosen {
    place: u64,
    length: u64,
}

impl<B: Body, W: Waiting<B>> QueueState<B, W> {
    /// The message that this receiver gets, or why it gets none.
    fn choose(&self, size: u64, selection: Selection, noerror: bool) -> Result<Chosen, QueueError>
        ensures refused { IfErr result (λ e.
            receive_answer (waiting_from self.now.base self.now.tail) size selection noerror
            ≡ Err e) }
        ensures accepted { OnOk result (receive_refusal
            (waiting_from self.now.base self.now.tail) size selection noerror ≡ None) }
        ensures picked { IfOk result (λ c. Some c.place
            ≡ option_map (λ m. m.0) (pick (λ m. m.1.mtype) self.now.messages selection)) }
        ensures length { IfOk result (λ c. IfSome (message_at c.place self.now.messages) (λ m.
            c.length ≡ length (B.bytes m.body))) }
        ensures fits { IfOk result (λ c. (noerror || nat_le c.length size) ≡ true) }
    {
        let Some(place) = self.waiting.find(selection) else {
            return Err(QueueError::NoMessage);
        };
        let length = self.waiting.length_of(place);
        if !is_accepted(length, size, noerror) {
            return Err(QueueError::TooBig);
        }
        Ok(Chosen { place, length })
    }

    /// Why this receiver would be refused now (msgop(2), msgrcv with IPC_NOWAIT), or `None` where
    /// it could at most be out of memory.
    pub fn refuses_receive(
        &self,
        size: u64,
        selection: Selection,
        noerror: bool,
    ) -> Option<QueueError>
        ensures { result ≡ receive_refusal (waiting_from self.now.base self.now.tail) size
            selection noerror }
    {
        self.choose(size, selection, noerror).err()
    }

    /// Removes and returns the message that the selection picks (msgop(2), msgrcv with IPC_NOWAIT).
    /// With `noerror`, the flag MSG_NOERROR, a longer text is truncated to `size` bytes. A receive
    /// adds an event to the log, for which there may be no memory. The notice is given the event,
    /// with the figures after it.
    pub fn receive<N: Notice>(
        &mut self,
        size: u64,
        selection: Selection,
        noerror: bool,
        seat: u16,
        moment: u64,
        notice: &mut N,
    ) -> Result<Received<B>, QueueError>
        ensures answer { MatchResult result
            (IsHandedOut size selection noerror seat moment self.old self.new)
            (IsRefusedBy (or_memory QueueError.Memory (receive_answer
            (waiting_from self.old.base self.old.tail) size selection noerror))
            self.old self.new) }
        ensures body { IfOk result (IsWhatWaited B.bytes B.keeps size self.old.messages) }
        ensures noticed { MatchResult result
            (λ r. N.takes notice.old
            (Event.Received seat noerror moment r.place selection size)
            (figures_from self.new.base self.new.tail) notice.new)
            (λ _. notice.new ≡ notice.old) }
    {
        let kept = self.kept;
        let Chosen { place, length } = self.choose(size, selection, noerror)?;
        let entry = whole_count(self.base.places, &self.tail);
        let received = Event::Received {
            seat,
            moment,
            place,
            selection,
            size,
            noerror,
        };
        let after = Figures {
            qnum: kept.qnum - 1,
            cbytes: kept.cbytes - length,
            rtime: moment,
            lrpid: seat,
            ..kept
        };
        let Ok(()) = reserve(&mut self.tail, received, after, notice) else {
            return Err(QueueError::Memory);
        };
        let mut message = self.waiting.take(place);
        self.kept = after;
        append(&mut self.tail, received);
        message.body.cut(size);
        Ok(Received {
            entry,
            place,
            mtype: message.mtype,
            sender: message.sender,
            tag: message.tag,
            length,
            body: message.body,
        })
    }
}
