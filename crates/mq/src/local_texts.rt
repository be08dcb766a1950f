//! The texts that a caller of one thread writes in place.
ghost use Rattle.std.specs.Prelude.{◌≡◌};
ghost use Rattle.std.specs.VecDeque.{deque_len};
ghost use Rattle.mq_calls.specs.Calls.{msgsnd};
ghost use Rattle.mq_calls.specs.Look.{refused_at};
ghost use Rattle.mq_calls.specs.Texts.{text_spent};
ghost use Rattle.mq_local.specs.Outcome.{AnswersSend};
ghost use Rattle.mq.specs.Local.{AnswersDraft, AnswersText};
ghost use Rattle.mq.specs.LocalBatches.{texts_spent};

use crate::LocalCaller;
use crate::msgtyp::msgtyp_of;
use mq_arena::Text;
use mq_calls::{Delivered, Errno, SendRefused};
use mq_message::Selection;
use mq_queue::MSGMAX;
use mq_table::Id;
use std::collections::VecDeque;
use std::sync::ledger::Ledger;

impl<'a, L: Ledger> LocalCaller<'a, L> {
    /// A zeroed text of `len` bytes in pages of its own, which is written in place, and sent or
    /// spent. EINVAL for more than `MSGMAX` bytes, ENOMEM where no pages are free.
    pub fn draft(&mut self, len: u64) -> Result<Text<L>, Errno>
        ensures same_reference { self.new.of.ghost_name ≡ self.old.of.ghost_name }
        ensures answer { AnswersDraft self.old.of.now.queues len self.new.of.now.queues result }
        ensures seat { self.new.seat ≡ self.old.seat }
        ensures moment { self.new.of.now.moment ≡ self.old.of.now.moment }
    {
        match self.of.queues.draft(len) {
            Ok(text) => Ok(text),
            Err(error) => Err(error.errno()),
        }
    }

    /// Sends a text by a move. Where it is refused it is returned.
    pub fn send_text(
        &mut self,
        id: Id,
        mtype: i64,
        tag: u64,
        text: Text<L>,
    ) -> Result<u64, SendRefused<Text<L>>>
        ensures same_reference { self.new.of.ghost_name ≡ self.old.of.ghost_name }
        ensures answer { AnswersSend (msgsnd self.old.of.now.queues self.old.seat id mtype tag text
            self.old.of.now.moment) (refused_at self.old.of.now.queues id Errno.ENOMEM)
            self.old.of.now.queues self.new.of.now.queues text result }
        ensures seat { self.new.seat ≡ self.old.seat }
        ensures moment { self.new.of.now.moment ≡ self.old.of.now.moment }
    {
        let moment = self.of.moment;
        self.of
            .queues
            .msgsnd(self.seat, id, mtype, tag, text, moment)
    }

    /// Receives the text itself of the first message that the selection matches, and copies
    /// nothing. It is to be spent, or sent on.
    pub fn receive_text(
        &mut self,
        id: Id,
        selection: Selection,
    ) -> Result<Delivered<Text<L>>, Errno>
        ensures same_reference { self.new.of.ghost_name ≡ self.old.of.ghost_name }
        ensures answer { AnswersText self.old.of.now.queues self.old.seat id selection
            self.old.of.now.moment self.new.of.now.queues result }
        ensures seat { self.new.seat ≡ self.old.seat }
        ensures moment { self.new.of.now.moment ≡ self.old.of.now.moment }
    {
        let Some((msgtyp, except)) = msgtyp_of(selection) else {
            return Err(Errno::EINVAL);
        };
        let moment = self.of.moment;
        match self
            .of
            .queues
            .msgrcv(self.seat, id, MSGMAX, msgtyp, except, false, moment)
        {
            Ok(received) => Ok(received),
            Err(refused) => Err(refused.errno),
        }
    }

    /// Spends a text that is not sent: its pages are freed.
    pub fn spend(&mut self, text: Text<L>)
        ensures same_reference { self.new.of.ghost_name ≡ self.old.of.ghost_name }
        ensures back { self.new.of.now.queues ≡ text_spent text self.old.of.now.queues }
        ensures seat { self.new.seat ≡ self.old.seat }
        ensures moment { self.new.of.now.moment ≡ self.old.of.now.moment }
    {
        self.of.queues.spend(text);
    }

    /// Spends all texts of the list, as one call of `spend` each, and leaves it empty.
    pub fn spend_texts(&mut self, texts: &mut VecDeque<Delivered<Text<L>>>)
        ensures same_reference { self.new.of.ghost_name ≡ self.old.of.ghost_name }
        ensures none { deque_len texts.new ≡ 0 }
        ensures back { self.new.of.now.queues ≡ texts_spent texts.old.items self.old.of.now.queues }
        ensures seat { self.new.seat ≡ self.old.seat }
        ensures moment { self.new.of.now.moment ≡ self.old.of.now.moment }
    {
        while let Some(delivered) = texts.pop_front() {
            self.spend(delivered.text);
        }
    }
}
