//! How a caller of one thread sends and receives several texts by one call.
ghost use Rattle.std.specs.Prelude.{◌≡◌, min};
ghost use Rattle.mq_system.specs.declared.many.TheConstants.{MAX_BATCH};
ghost use Rattle.mq.specs.LocalBatches.{AnswersLetters, AnswersTexts};

use crate::msgtyp::msgtyp_of;
use crate::{BatchReceived, LocalCaller};
use mq_arena::Text;
use mq_calls::{Errno, SendRefused};
use mq_message::Selection;
use mq_queue::MSGMAX;
use mq_system::{BatchSent, Letter, MAX_BATCH};
use mq_table::Id;
use std::collections::VecDeque;
use std::sync::ledger::Ledger;

impl<'a, L: Ledger> LocalCaller<'a, L> {
    /// Sends letters by moves, at most `MAX_BATCH` by one call, as that many calls of `send_text`
    /// at consecutive entries of the queue's log. The first refusal ends it; that letter and those
    /// behind it stay in the list.
    pub fn send_texts(&mut self, id: Id, letters: &mut VecDeque<Letter<Text<L>>>) -> BatchSent
        ensures same_reference { self.new.of.ghost_name ≡ self.old.of.ghost_name }
        ensures answer { AnswersLetters self.old.seat id self.old.of.now.moment MAX_BATCH
            self.old.of.now.queues self.new.of.now.queues letters.old.items letters.new.items
            result.first result.ended }
        ensures seat { self.new.seat ≡ self.old.seat }
        ensures moment { self.new.of.now.moment ≡ self.old.of.now.moment }
    {
        let mut first = None;
        for _done in 0..MAX_BATCH {
            let Some(letter) = letters.pop_front() else {
                return BatchSent {
                    first,
                    ended: Ok(()),
                };
            };
            let Letter { mtype, tag, text } = letter;
            match self.send_text(id, mtype, tag, text) {
                Ok(entry) => first = first.or(Some(entry)),
                Err(SendRefused { refused, text }) => {
                    letters.push_front_reserved(Letter { mtype, tag, text });
                    return BatchSent {
                        first,
                        ended: Err(refused),
                    };
                }
            }
        }
        BatchSent {
            first,
            ended: Ok(()),
        }
    }

    /// Receives up to `most` texts that the selection matches, at most `MAX_BATCH` by one call, as
    /// that many calls of `receive_text` at consecutive entries of the queue's log. The first
    /// refusal ends it. Where there is no memory for the list of texts the call is refused with
    /// ENOMEM.
    pub fn receive_texts(
        &mut self,
        id: Id,
        selection: Selection,
        most: usize,
    ) -> BatchReceived<Text<L>>
        ensures same_reference { self.new.of.ghost_name ≡ self.old.of.ghost_name }
        ensures answer { AnswersTexts self.old.seat id selection self.old.of.now.moment
            (min most MAX_BATCH) self.old.of.now.queues self.new.of.now.queues result.texts.items
            result.ended }
        ensures seat { self.new.seat ≡ self.old.seat }
        ensures moment { self.new.of.now.moment ≡ self.old.of.now.moment }
    {
        let alloc = self.of.alloc;
        let most = most.min(MAX_BATCH);
        let Some((msgtyp, except)) = msgtyp_of(selection) else {
            return BatchReceived::none(alloc, Errno::EINVAL);
        };
        let Ok(mut texts) = Vec::with_capacity(alloc, most) else {
            return BatchReceived::none(alloc, Errno::ENOMEM);
        };
        let moment = self.of.moment;
        let ended = self.of.queues.msgrcv_many(
            self.seat, id, MSGMAX, msgtyp, except, false, most, moment, &mut texts,
        );
        BatchReceived {
            texts: VecDeque::from_vec(texts),
            ended,
        }
    }
}
