//! How a caller sends and receives several texts by one call.
ghost use Rattle.std.specs.Prelude.{◌≡◌, [], All, Err, false, true, min};
ghost use Rattle.mq_calls.specs.Look.{refused_early};
ghost use Rattle.mq_queue.specs.declared.limits.TheConstants.{MSGMAX};
ghost use Rattle.mq_system.specs.SeenMany.{AreSent};
ghost use Rattle.mq_system.specs.declared.many.TheConstants.{MAX_BATCH};
ghost use Rattle.mq.specs.Batches.{AreReceivedTexts};
ghost use Rattle.mq.specs.Moments.{IsTimed};

use crate::msgtyp::msgtyp_of;
use crate::{Caller, ReceiveOptions};
use mq_calls::{Delivered, Errno, Refused};
use mq_message::Selection;
use mq_system::{
    BatchSent, Forever, Letter, MAX_BATCH, Names, NoWait, Patience, Pledge, ReceiveRequest, TextOf,
};
use mq_table::Id;
use std::alloc::Global;
use std::collections::VecDeque;
use std::sync::Wait;
use std::time::Clock;

/// Texts that were received by one call.
pub struct BatchReceived<T> {
    /// In the order in which they were received.
    pub texts: VecDeque<Delivered<T>>,
    /// Why there are fewer than were asked for.
    pub ended: Result<(), Refused>,
}

impl<T> BatchReceived<T> {
    /// No texts, for this refusal, before the queue was called.
    pub(crate) fn none(alloc: Global, errno: Errno) -> BatchReceived<T>
        ensures texts { result.texts.items ≡ [] }
        ensures ended { result.ended ≡ Err (refused_early errno) }
    {
        BatchReceived {
            texts: VecDeque::new(alloc),
            ended: Err(Refused { errno, entry: None }),
        }
    }
}

impl<'a, P: Pledge, N: Names, R: Wait + Clock> Caller<'a, P, N, R> {
    /// Sends letters by moves, at most `MAX_BATCH` by one call, as that many calls of `send_text`
    /// at consecutive entries of the queue's log. It waits for room for the first alone. The first
    /// refusal ends it; that letter and those behind it stay in the list.
    pub fn send_texts(&mut self, id: Id, letters: &mut VecDeque<Letter<TextOf<N>>>) -> BatchSent
        requires pledge { All (λ l. P.kept self.old.seat.number l.tag l.mtype l.text.bytes)
            letters.old.items }
        ensures answer { AreSent N.slots id false self.new.moments.now MAX_BATCH self.old.seat
            self.new.seat letters.old.items letters.new.items result.first result.ended }
        ensures moments { IsTimed self.old.moments self.new.moments }
    {
        self.send_texts_within(id, letters, &mut Forever)
    }

    /// Sends letters as `send_texts` does, and does not wait.
    pub fn try_send_texts(&mut self, id: Id, letters: &mut VecDeque<Letter<TextOf<N>>>) -> BatchSent
        requires pledge { All (λ l. P.kept self.old.seat.number l.tag l.mtype l.text.bytes)
            letters.old.items }
        ensures answer { AreSent N.slots id true self.new.moments.now MAX_BATCH self.old.seat
            self.new.seat letters.old.items letters.new.items result.first result.ended }
        ensures moments { IsTimed self.old.moments self.new.moments }
    {
        self.send_texts_within(id, letters, &mut NoWait)
    }

    /// Sends letters as `send_texts` does, and waits for room for the first no longer than until
    /// the patience ends.
    pub fn send_texts_within<T: Patience>(
        &mut self,
        id: Id,
        letters: &mut VecDeque<Letter<TextOf<N>>>,
        patience: &mut T,
    ) -> BatchSent
        requires pledge { All (λ l. P.kept self.old.seat.number l.tag l.mtype l.text.bytes)
            letters.old.items }
        ensures answer { AreSent N.slots id T.ends self.new.moments.now MAX_BATCH self.old.seat
            self.new.seat letters.old.items letters.new.items result.first result.ended }
        ensures moments { IsTimed self.old.moments self.new.moments }
    {
        self.begin();
        self.system.msgsnd_many_within(
            self.rt,
            &mut self.seat,
            id,
            letters,
            patience,
            self.moments.now,
        )
    }

    /// Receives up to `most` texts that the selection matches, at most `MAX_BATCH` by one call, as
    /// that many calls of `receive_text` at consecutive entries of the queue's log. It waits for
    /// the first alone, and takes what is there. The first refusal ends it.
    pub fn receive_texts(
        &mut self,
        id: Id,
        selection: Selection,
        most: usize,
    ) -> BatchReceived<TextOf<N>>
        ensures answer { AreReceivedTexts P.kept N.slots id MSGMAX selection false false
            self.new.moments.now (min most MAX_BATCH) self.old.seat self.new.seat
            result.texts.items result.ended }
        ensures moments { IsTimed self.old.moments self.new.moments }
    {
        self.receive_texts_within(id, selection, ReceiveOptions::new(), most, &mut Forever)
    }

    /// Receives texts as `receive_texts` does, and does not wait.
    pub fn try_receive_texts(
        &mut self,
        id: Id,
        selection: Selection,
        most: usize,
    ) -> BatchReceived<TextOf<N>>
        ensures answer { AreReceivedTexts P.kept N.slots id MSGMAX selection false true
            self.new.moments.now (min most MAX_BATCH) self.old.seat self.new.seat
            result.texts.items result.ended }
        ensures moments { IsTimed self.old.moments self.new.moments }
    {
        self.receive_texts_within(id, selection, ReceiveOptions::new(), most, &mut NoWait)
    }

    /// Receives texts as `receive_texts` does, as the options say, and waits for the first no
    /// longer than until the patience ends. A selection that no msgtyp stands for is refused with
    /// EINVAL, and where there is no memory for the list of texts the call with ENOMEM.
    pub fn receive_texts_within<T: Patience>(
        &mut self,
        id: Id,
        selection: Selection,
        options: ReceiveOptions,
        most: usize,
        patience: &mut T,
    ) -> BatchReceived<TextOf<N>>
        ensures answer { AreReceivedTexts P.kept N.slots id options.size selection options.noerror
            T.ends self.new.moments.now (min most MAX_BATCH) self.old.seat self.new.seat
            result.texts.items result.ended }
        ensures moments { IsTimed self.old.moments self.new.moments }
    {
        if msgtyp_of(selection).is_none() {
            return BatchReceived::none(self.alloc, Errno::EINVAL);
        }
        let Ok(mut texts) = Vec::with_capacity(self.alloc, most.min(MAX_BATCH)) else {
            return BatchReceived::none(self.alloc, Errno::ENOMEM);
        };
        self.begin();
        let request = ReceiveRequest {
            id,
            size: options.size,
            selection,
            noerror: options.noerror,
            moment: self.moments.now,
        };
        let seat = &mut self.seat;
        let ended = self
            .system
            .msgrcv_many_within(self.rt, seat, &request, patience, most, &mut texts);
        BatchReceived {
            texts: VecDeque::from_vec(texts),
            ended,
        }
    }
}
