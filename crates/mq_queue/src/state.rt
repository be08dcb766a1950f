//! The state of one queue: its log and the pending messages. They always agree: a replay of the log
//! leaves just these messages pending.

ghost use Rattle.std.specs.Prelude.{◌≡◌, ◌<◌, ◌≤◌, ◌+◌, ◌^◌, length, IfOk, MatchResult};
ghost use Rattle.mq_queue.specs.Base.{event_from, figures_from};
ghost use Rattle.mq_queue.specs.Queue.{IsSoundFrom};
ghost use Rattle.mq_queue.specs.QueueCalls.{IsNewQueue};
ghost use Rattle.mq_queue.specs.declared.limits.TheConstants.{MAX_CUT};

use crate::log::{append, event_at, whole_count};
use crate::{Base, Event, Figures, Log, MSGMNB, Notice};
use mq_message::{Body, Waiting};
use std::alloc::{AllocError, Global};
use std::marker::{Model, PhantomData};

/// A queue, seen as the base of the drained events of its log, the events since then, and the
/// pending messages, each with the place of its sending in the whole log. A queue can't be dropped:
/// `remove` or `into_parts` takes it.
pub struct QueueState<B: Body, W: Waiting<B>> {
    pub(crate) base: Base,
    pub(crate) tail: Vec<Event>,
    pub(crate) waiting: W,
    /// The figures of the whole log, so that no call replays it.
    pub(crate) kept: Figures,
    pub(crate) body: PhantomData<B>,
}

impl<B: Body, W: Waiting<B>> Model for QueueState<B, W> {
    ghost use Rattle.mq_queue.specs.Queue.{Queue, IsKeptQueue};

    ghost Value = { Queue B };

    ghost view = { λ q. record {
      base = q.base;
      tail = q.tail.items;
      messages = W.messages q.waiting;
    } };

    ghost invariant = { λ q. IsKeptQueue B.bytes q.base q.tail.items
        (W.messages q.waiting) q.kept };
}

impl<B: Body, W: Waiting<B>> QueueState<B, W> {
    /// A new queue, with no message and the greatest quota (msgget(2)). `Err` means out of memory.
    /// The notice is given the event, with the figures after it.
    #[tactic(auto, using(crate::proofs::Keeps::made_kept, crate::proofs::Keeps::shown_kept))]
    pub fn made<N: Notice>(
        alloc: Global,
        key: i32,
        seat: u16,
        moment: u64,
        notice: &mut N,
    ) -> Result<QueueState<B, W>, AllocError>
        ensures answer { IfOk result (IsNewQueue seat moment key) }
        ensures noticed { MatchResult result
            (λ q. N.takes notice.old (Event.Made seat moment key)
            (figures_from q.base q.tail) notice.new)
            (λ _. notice.new ≡ notice.old) }
    {
        let mut tail = Vec::with_capacity(alloc, 1)?;
        let made = Event::Made { seat, moment, key };
        let kept = Figures {
            qnum: 0,
            cbytes: 0,
            qbytes: MSGMNB,
            stime: 0,
            rtime: 0,
            ctime: moment,
            lspid: 0,
            lrpid: 0,
        };
        notice.prepare(made, kept)?;
        append(&mut tail, made);
        Ok(QueueState {
            base: Base::empty(alloc),
            tail,
            waiting: W::fresh(alloc),
            kept,
            body: PhantomData,
        })
    }

    /// What holds of each queue: it is not removed, and the pending messages are those that its log
    /// leaves pending.
    pub fn holds(&self)
        ensures { IsSoundFrom B.bytes self.now.base self.now.tail self.now.messages }
    {
        let _ = &self.base;
    }

    /// What IPC_STAT shows (msgctl(2)). It does not replay the log.
    pub fn figures(&self) -> Figures
        ensures { result ≡ figures_from self.now.base self.now.tail }
    {
        self.kept
    }

    /// How many events the whole log has.
    pub fn log_len(&self) -> u64
        ensures value { result ≡ self.now.base.places + length self.now.tail }
        ensures small { length self.now.tail < 2 ^ 63 }
    {
        whole_count(self.base.places, &self.tail)
    }

    /// How many of them there are since the last drain.
    pub fn tail_len(&self) -> u64
        ensures value { result ≡ length self.now.tail }
        ensures small { result < 2 ^ 63 }
    {
        self.tail.len() as u64
    }

    /// How many of them were drained.
    pub fn first(&self) -> u64
        ensures value { result ≡ self.now.base.places }
        ensures few { result ≤ MAX_CUT }
    {
        self.base.places
    }

    /// The base of the drained events.
    pub fn base(&self) -> &Base
        ensures { result.now ≡ self.now.base }
    {
        &self.base
    }

    /// The event at this place of the whole log, or `None` where it was drained or is past the end.
    pub fn event(&self, i: u64) -> Option<Event>
        ensures { result ≡ event_from self.now.base.places self.now.tail i }
    {
        event_at(self.base.places, &self.tail, i)
    }

    /// The log and the pending messages. It adds no event, and allocates nothing.
    pub fn into_parts(self) -> (Log, W)
        ensures base { result.0.base ≡ self.base }
        ensures tail { result.0.tail ≡ self.tail }
        ensures messages { W.messages result.1 ≡ self.messages }
    {
        let QueueState {
            base,
            tail,
            waiting,
            kept: _,
            body: _,
        } = self;
        (Log::of(base, tail), waiting)
    }
}
