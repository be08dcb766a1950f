//! How a caller sends and receives values.
ghost use Rattle.std.specs.Prelude.{◌≡◌, false, true, length, MatchResult};
ghost use Rattle.mq_queue.specs.declared.limits.TheConstants.{MSGMAX};
ghost use Rattle.mq_system.specs.Outcome.{IsSent};
ghost use Rattle.mq.specs.Caller.{IsNotReceivedFrom, IsNotSentFrom, IsReceivedOf};
ghost use Rattle.mq.specs.Moments.{IsTimed};
ghost use Rattle.mq.specs.Values.{IsNoValue, IsNotMade};

use crate::carries::ValuePledge;
use crate::delivered::join_text;
use crate::{Caller, Message, NotReceived, ReceiveOptions};
use mq_calls::{Delivered, Errno};
use mq_message::Selection;
use mq_system::{Forever, Names, NoWait, Patience, Until};
use mq_table::Id;
use mq_wire::{UnreadError, Wire};
use std::mem::replace;
use std::sync::Wait;
use std::time::{Clock, Duration, Instant};

impl<'a, P: ValuePledge, N: Names, R: Wait + Clock> Caller<'a, P, N, R> {
    /// Sends a value, and returns its entry. It waits where no pages are free for its bytes, and
    /// where the queue is full.
    pub fn send_value(
        &mut self,
        id: Id,
        mtype: i64,
        tag: u64,
        value: &P::Value,
    ) -> Result<u64, Errno>
        requires vow { P.vowed self.old.seat.number tag mtype value.now }
        ensures answer { MatchResult result
            (IsSent N.slots id mtype tag (length (P.Value.bytes_of value.now))
            self.new.moments.now self.old.seat self.new.seat)
            (IsNotSentFrom (IsNotMade false N.height (length (P.Value.bytes_of value.now))
            self.old.seat self.new.seat) N.slots id mtype (length (P.Value.bytes_of value.now))
            false self.old.seat self.new.seat) }
        ensures moments { IsTimed self.old.moments self.new.moments }
    {
        self.send_value_within(id, mtype, tag, value, &mut Forever)
    }

    /// Sends a value, and does not wait: ENOMEM where no pages are free, EAGAIN where the queue is
    /// full.
    pub fn try_send_value(
        &mut self,
        id: Id,
        mtype: i64,
        tag: u64,
        value: &P::Value,
    ) -> Result<u64, Errno>
        requires vow { P.vowed self.old.seat.number tag mtype value.now }
        ensures answer { MatchResult result
            (IsSent N.slots id mtype tag (length (P.Value.bytes_of value.now))
            self.new.moments.now self.old.seat self.new.seat)
            (IsNotSentFrom (IsNotMade true N.height (length (P.Value.bytes_of value.now))
            self.old.seat self.new.seat) N.slots id mtype (length (P.Value.bytes_of value.now))
            true self.old.seat self.new.seat) }
        ensures moments { IsTimed self.old.moments self.new.moments }
    {
        self.send_value_within(id, mtype, tag, value, &mut NoWait)
    }

    /// Sends a value, and waits no longer than the timeout: ENOMEM or EAGAIN then.
    pub fn send_value_timeout(
        &mut self,
        id: Id,
        mtype: i64,
        tag: u64,
        value: &P::Value,
        timeout: Duration,
    ) -> Result<u64, Errno>
        requires vow { P.vowed self.old.seat.number tag mtype value.now }
        ensures answer { MatchResult result
            (IsSent N.slots id mtype tag (length (P.Value.bytes_of value.now))
            self.new.moments.now self.old.seat self.new.seat)
            (IsNotSentFrom (IsNotMade true N.height (length (P.Value.bytes_of value.now))
            self.old.seat self.new.seat) N.slots id mtype (length (P.Value.bytes_of value.now))
            true self.old.seat self.new.seat) }
        ensures moments { IsTimed self.old.moments self.new.moments }
    {
        let mut until = Until::within(self.rt, timeout);
        self.send_value_within(id, mtype, tag, value, &mut until)
    }

    /// Sends a value, and waits no longer than until the deadline, by its runtime's clock: ENOMEM
    /// or EAGAIN then.
    pub fn send_value_deadline(
        &mut self,
        id: Id,
        mtype: i64,
        tag: u64,
        value: &P::Value,
        deadline: Instant,
    ) -> Result<u64, Errno>
        requires vow { P.vowed self.old.seat.number tag mtype value.now }
        ensures answer { MatchResult result
            (IsSent N.slots id mtype tag (length (P.Value.bytes_of value.now))
            self.new.moments.now self.old.seat self.new.seat)
            (IsNotSentFrom (IsNotMade true N.height (length (P.Value.bytes_of value.now))
            self.old.seat self.new.seat) N.slots id mtype (length (P.Value.bytes_of value.now))
            true self.old.seat self.new.seat) }
        ensures moments { IsTimed self.old.moments self.new.moments }
    {
        let mut patience = Until::at(self.rt, deadline);
        self.send_value_within(id, mtype, tag, value, &mut patience)
    }

    /// Sends a value, and waits for pages, and then for room, until the patience ends. EINVAL where
    /// its bytes are more than `MSGMAX`, ENOMEM without memory for them; then the refusals of
    /// `send_within`.
    pub fn send_value_within<T: Patience>(
        &mut self,
        id: Id,
        mtype: i64,
        tag: u64,
        value: &P::Value,
        patience: &mut T,
    ) -> Result<u64, Errno>
        requires vow { P.vowed self.old.seat.number tag mtype value.now }
        ensures answer { MatchResult result
            (IsSent N.slots id mtype tag (length (P.Value.bytes_of value.now))
            self.new.moments.now self.old.seat self.new.seat)
            (IsNotSentFrom (IsNotMade T.ends N.height (length (P.Value.bytes_of value.now))
            self.old.seat self.new.seat) N.slots id mtype (length (P.Value.bytes_of value.now))
            T.ends self.old.seat self.new.seat) }
        ensures moments { IsTimed self.old.moments self.new.moments }
    {
        let mut bytes = replace(&mut self.room, Vec::new(self.alloc));
        bytes.clear();
        let answer = match value.write(&mut bytes) {
            Ok(()) => self.send_within(id, Message::new(mtype, &bytes).tagged(tag), patience),
            Err(_) => Err(Errno::ENOMEM),
        };
        self.room = bytes;
        answer
    }

    /// Receives the first value that the selection matches, and waits where there is none.
    pub fn receive_value(
        &mut self,
        id: Id,
        selection: Selection,
    ) -> Result<Delivered<P::Value>, NotReceived>
        ensures answer { MatchResult result
            (λ d. P.vowed d.sender d.tag d.mtype d.text
            × IsReceivedOf P.kept N.slots id MSGMAX selection false
            self.new.moments.now self.old.seat self.new.seat d (P.Value.bytes_of d.text))
            (IsNoValue (IsNotReceivedFrom N.slots id MSGMAX selection false false
            self.old.seat self.new.seat)
            (λ d. (P.Value.allocates ≡ true)
            × IsReceivedOf P.kept N.slots id MSGMAX selection false
            self.new.moments.now self.old.seat self.new.seat d d.text.items)) }
        ensures moments { IsTimed self.old.moments self.new.moments }
    {
        self.receive_value_within(id, selection, &mut Forever)
    }

    /// Receives a value, and does not wait: ENOMSG where there is none.
    pub fn try_receive_value(
        &mut self,
        id: Id,
        selection: Selection,
    ) -> Result<Delivered<P::Value>, NotReceived>
        ensures answer { MatchResult result
            (λ d. P.vowed d.sender d.tag d.mtype d.text
            × IsReceivedOf P.kept N.slots id MSGMAX selection false
            self.new.moments.now self.old.seat self.new.seat d (P.Value.bytes_of d.text))
            (IsNoValue (IsNotReceivedFrom N.slots id MSGMAX selection false true
            self.old.seat self.new.seat)
            (λ d. (P.Value.allocates ≡ true)
            × IsReceivedOf P.kept N.slots id MSGMAX selection false
            self.new.moments.now self.old.seat self.new.seat d d.text.items)) }
        ensures moments { IsTimed self.old.moments self.new.moments }
    {
        self.receive_value_within(id, selection, &mut NoWait)
    }

    /// Receives a value, and waits no longer than the timeout: ENOMSG then.
    pub fn receive_value_timeout(
        &mut self,
        id: Id,
        selection: Selection,
        timeout: Duration,
    ) -> Result<Delivered<P::Value>, NotReceived>
        ensures answer { MatchResult result
            (λ d. P.vowed d.sender d.tag d.mtype d.text
            × IsReceivedOf P.kept N.slots id MSGMAX selection false
            self.new.moments.now self.old.seat self.new.seat d (P.Value.bytes_of d.text))
            (IsNoValue (IsNotReceivedFrom N.slots id MSGMAX selection false true
            self.old.seat self.new.seat)
            (λ d. (P.Value.allocates ≡ true)
            × IsReceivedOf P.kept N.slots id MSGMAX selection false
            self.new.moments.now self.old.seat self.new.seat d d.text.items)) }
        ensures moments { IsTimed self.old.moments self.new.moments }
    {
        let mut until = Until::within(self.rt, timeout);
        self.receive_value_within(id, selection, &mut until)
    }

    /// Receives a value, and waits no longer than until the deadline, by its runtime's clock:
    /// ENOMSG then.
    pub fn receive_value_deadline(
        &mut self,
        id: Id,
        selection: Selection,
        deadline: Instant,
    ) -> Result<Delivered<P::Value>, NotReceived>
        ensures answer { MatchResult result
            (λ d. P.vowed d.sender d.tag d.mtype d.text
            × IsReceivedOf P.kept N.slots id MSGMAX selection false
            self.new.moments.now self.old.seat self.new.seat d (P.Value.bytes_of d.text))
            (IsNoValue (IsNotReceivedFrom N.slots id MSGMAX selection false true
            self.old.seat self.new.seat)
            (λ d. (P.Value.allocates ≡ true)
            × IsReceivedOf P.kept N.slots id MSGMAX selection false
            self.new.moments.now self.old.seat self.new.seat d d.text.items)) }
        ensures moments { IsTimed self.old.moments self.new.moments }
    {
        let mut end = Until::at(self.rt, deadline);
        self.receive_value_within(id, selection, &mut end)
    }

    /// Receives a value, and waits for one no longer than until the patience ends. What arrives is
    /// the value that was sent; where there is no memory for it beside its bytes, they are
    /// returned.
    pub fn receive_value_within<T: Patience>(
        &mut self,
        id: Id,
        selection: Selection,
        patience: &mut T,
    ) -> Result<Delivered<P::Value>, NotReceived>
        ensures answer { MatchResult result
            (λ d. P.vowed d.sender d.tag d.mtype d.text
            × IsReceivedOf P.kept N.slots id MSGMAX selection false
            self.new.moments.now self.old.seat self.new.seat d (P.Value.bytes_of d.text))
            (IsNoValue (IsNotReceivedFrom N.slots id MSGMAX selection false T.ends
            self.old.seat self.new.seat)
            (λ d. (P.Value.allocates ≡ true)
            × IsReceivedOf P.kept N.slots id MSGMAX selection false
            self.new.moments.now self.old.seat self.new.seat d d.text.items)) }
        ensures moments { IsTimed self.old.moments self.new.moments }
    {
        let mut bytes = replace(&mut self.room, Vec::new(self.alloc));
        bytes.clear();
        let options = ReceiveOptions::new();
        let received = match self.receive_into_within(
            id, selection, options, &mut bytes, patience,
        ) {
            Ok(received) => received,
            Err(errno) => {
                self.room = bytes;
                return Err(NotReceived::Refused(errno));
            }
        };
        match P::Value::read(self.alloc, &mut bytes.as_slice()) {
            Ok(value) => {
                self.room = bytes;
                Ok(join_text(received, value))
            }
            Err(UnreadError::NoMemory) => Err(NotReceived::NoMemory(join_text(received, bytes))),
            Err(UnreadError::NoValue) => unreachable!(),
        }
    }
}
