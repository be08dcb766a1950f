//! The calls on the live queue of a slot, none of which blocks: msgsnd and msgrcv (msgop(2)),
//! IPC_SET and IPC_STAT (msgctl(2)).

ghost use Rattle.std.specs.Prelude.{◌≡◌, true, Ok, MatchResult};
ghost use Rattle.mq_queue.specs.Answer.{receive_refusal, send_refusal};
ghost use Rattle.mq_queue.specs.Memory.{or_memory};
ghost use Rattle.mq_queue.specs.QueueCalls.{IsHandedBack, IsRefusedBy, sending};
ghost use Rattle.mq_table.specs.Kept.{is_live_kept, kept_figures, quota_now, waiting_now};
ghost use Rattle.mq_table.specs.KeptCalls.{kept_receives, kept_sends, kept_sets};
ghost use Rattle.mq_table.specs.SlotCalls.{IsTakenIn};

use crate::Slot;
use mq_message::{Body, Message, Selection, Waiting};
use mq_queue::{Event, Figures, Notice, QueueError, Received};

impl<B: Body, W: Waiting<B>> Slot<B, W> {
    /// Why a message of this type and length would be refused now (msgop(2), msgsnd with
    /// IPC_NOWAIT), or `None` if the call can fail only by being out of memory.
    pub fn refuses_send(&self, mtype: i64, length: u64) -> Option<QueueError>
        requires live { is_live_kept self.now ≡ true }
        ensures { result ≡ send_refusal (waiting_now self.now) (quota_now self.now) mtype length }
    {
        match &self.live {
            Some(queue) => queue.refuses_send(mtype, length),
            None => unreachable!(),
        }
    }

    /// Why this receiver would be refused now (msgop(2), msgrcv with IPC_NOWAIT), or `None` if the
    /// call can fail only by being out of memory.
    pub fn refuses_receive(
        &self,
        size: u64,
        selection: Selection,
        noerror: bool,
    ) -> Option<QueueError>
        requires live { is_live_kept self.now ≡ true }
        ensures { result ≡ receive_refusal (waiting_now self.now) size selection noerror }
    {
        match &self.live {
            Some(queue) => queue.refuses_receive(size, selection, noerror),
            None => unreachable!(),
        }
    }

    /// Sends a message to the queue that is in the slot, and answers the entry of the event in the
    /// slot list (msgop(2), msgsnd with IPC_NOWAIT). A message that is refused is returned. The
    /// notice takes the event in, with the figures after it.
    pub fn send<N: Notice>(
        &mut self,
        message: Message<B>,
        moment: u64,
        notice: &mut N,
    ) -> Result<u64, (QueueError, Message<B>)>
        requires live { is_live_kept self.old ≡ true }
        ensures answer { MatchResult result
            (λ entry. kept_sends B.bytes self.old message moment ≡ Ok (entry, self.new))
            (IsHandedBack (or_memory QueueError.Memory (kept_sends B.bytes self.old message moment))
            message self.old self.new) }
        ensures noticed { MatchResult result
            (λ _. N.takes notice.old (sending B.bytes message moment) (kept_figures self.new)
            notice.new)
            (λ _. notice.new ≡ notice.old) }
    {
        let entry = self.events();
        let Some(queue) = &mut self.live else {
            unreachable!()
        };
        queue.send(message, moment, notice)?;
        queue.holds();
        Ok(entry)
    }

    /// Receives a message from the queue that is in the slot (msgop(2), msgrcv with IPC_NOWAIT).
    /// The entry that is answered counts from the beginning of the slot list. The notice takes the
    /// event in, with the figures after it.
    pub fn receive<N: Notice>(
        &mut self,
        size: u64,
        selection: Selection,
        noerror: bool,
        seat: u16,
        moment: u64,
        notice: &mut N,
    ) -> Result<Received<B>, QueueError>
        requires live { is_live_kept self.old ≡ true }
        ensures answer { MatchResult result
            (IsTakenIn B.bytes B.keeps size selection noerror seat moment self.old self.new)
            (IsRefusedBy (or_memory QueueError.Memory
            (kept_receives self.old size selection noerror seat moment)) self.old self.new) }
        ensures noticed { MatchResult result
            (λ r. N.takes notice.old
            (Event.Received seat noerror moment r.place selection size)
            (kept_figures self.new) notice.new)
            (λ _. notice.new ≡ notice.old) }
    {
        let entry = self.events();
        let Some(queue) = &mut self.live else {
            unreachable!()
        };
        let received = queue.receive(size, selection, noerror, seat, moment, notice)?;
        queue.holds();
        Ok(Received { entry, ..received })
    }

    /// Sets the quota of the queue that is in the slot, and answers the entry of the event in the
    /// slot list (msgctl(2), IPC_SET). The notice takes the event in, with the figures after it.
    pub fn set<N: Notice>(
        &mut self,
        qbytes: u64,
        seat: u16,
        moment: u64,
        notice: &mut N,
    ) -> Result<u64, QueueError>
        requires live { is_live_kept self.old ≡ true }
        ensures answer { MatchResult result
            (λ entry. kept_sets self.old qbytes seat moment ≡ Ok (entry, self.new))
            (IsRefusedBy (or_memory QueueError.Memory (kept_sets self.old qbytes seat moment))
            self.old self.new) }
        ensures noticed { MatchResult result
            (λ _. N.takes notice.old (Event.Changed seat moment qbytes) (kept_figures self.new)
            notice.new)
            (λ _. notice.new ≡ notice.old) }
    {
        let entry = self.events();
        let Some(queue) = &mut self.live else {
            unreachable!()
        };
        queue.set(qbytes, seat, moment, notice)?;
        queue.holds();
        Ok(entry)
    }

    /// What IPC_STAT shows of the queue that is in the slot (msgctl(2)).
    pub fn figures(&self) -> Figures
        requires live { is_live_kept self.now ≡ true }
        ensures { result ≡ kept_figures self.now }
    {
        match &self.live {
            Some(queue) => queue.figures(),
            None => unreachable!(),
        }
    }
}
