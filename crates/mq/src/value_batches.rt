//! How a caller sends and receives several values by one call.
ghost use Rattle.std.specs.Prelude.{◌≡◌, ◌≤◌, ◌||◌, [], All, Err, IfErr, IfOk, false, length, min};
ghost use Rattle.std.specs.Prelude.{true, vec_capacity};
ghost use Rattle.mq_queue.specs.declared.limits.TheConstants.{MSGMAX};
ghost use Rattle.mq_system.specs.declared.many.TheConstants.{MAX_BATCH};
ghost use Rattle.mq.specs.Batches.{AreReceivedTexts};
ghost use Rattle.mq.specs.Moments.{IsTimed};
ghost use Rattle.mq.specs.ValueBatches.{AreDrafted, AreValuesRead, AreValuesSent, HasNoText};
ghost use Rattle.mq.specs.ValueBatches.{IsReadable, IsValueOf, MayNotMake, texts_of};

use crate::bytes::copy_out;
use crate::carries::ValuePledge;
use crate::delivered::{join_text, split_text};
use crate::{BatchReceived, Caller, ReceiveOptions};
use mq_calls::{Delivered, Errno, Refused};
use mq_message::Selection;
use mq_queue::MSGMAX;
use mq_system::{Forever, Letter, MAX_BATCH, Names, NoWait, Patience, SendFlags, TextOf};
use mq_table::Id;
use mq_wire::{UnreadError, Wire};
use std::alloc::Global;
use std::collections::VecDeque;
use std::mem::replace;
use std::sync::Wait;
use std::time::Clock;

/// What became of values that were sent.
#[derive(Clone, Copy, Debug, PartialEq, Eq)]
pub struct ValuesSent {
    /// How many were sent, which are the first of them.
    pub count: usize,
    /// The entry of the first that was sent, if any was; those of the others follow it.
    pub first: Option<u64>,
    /// Why the first of those that are left was not sent, if it was refused.
    pub ended: Result<(), Refused>,
}

/// Values that were received by one call.
pub struct ValuesReceived<V, B> {
    /// In the order in which they were received.
    pub values: VecDeque<Delivered<V>>,
    /// The texts behind them, where there was no memory for the value of the first of these.
    pub unread: VecDeque<Delivered<B>>,
    /// Why there are fewer than were asked for.
    pub ended: Result<(), Refused>,
}

impl<V, B> ValuesReceived<V, B> {
    /// No values, since the queue was not called.
    fn none(alloc: Global, ended: Result<(), Refused>) -> ValuesReceived<V, B>
        ensures values { result.values.items ≡ [] }
        ensures unread { result.unread.items ≡ [] }
        ensures ended { result.ended ≡ ended }
    {
        ValuesReceived {
            values: VecDeque::new(alloc),
            unread: VecDeque::new(alloc),
            ended,
        }
    }
}

impl<'a, P: ValuePledge, N: Names, R: Wait + Clock> Caller<'a, P, N, R> {
    /// Sends values, at most `MAX_BATCH` by one call, as that many calls of `send_value` at
    /// consecutive entries of the queue's log. It waits for pages and for room for the first alone.
    /// The first refusal ends it. The values stay with the caller.
    pub fn send_values(&mut self, id: Id, letters: &[Letter<P::Value>]) -> ValuesSent
        requires vow { All (λ l. P.vowed self.old.seat.number l.tag l.mtype l.text) letters.now }
        ensures answer { AreValuesSent P.Value.bytes_of N.slots N.height id false
            self.new.moments.now self.old.seat self.new.seat letters.now result }
        ensures moments { IsTimed self.old.moments self.new.moments }
    {
        self.send_values_within(id, letters, &mut Forever)
    }

    /// Sends values as `send_values` does, and does not wait.
    pub fn try_send_values(&mut self, id: Id, letters: &[Letter<P::Value>]) -> ValuesSent
        requires vow { All (λ l. P.vowed self.old.seat.number l.tag l.mtype l.text) letters.now }
        ensures answer { AreValuesSent P.Value.bytes_of N.slots N.height id true
            self.new.moments.now self.old.seat self.new.seat letters.now result }
        ensures moments { IsTimed self.old.moments self.new.moments }
    {
        self.send_values_within(id, letters, &mut NoWait)
    }

    /// Sends values as `send_values` does, and waits for the first no longer than until the
    /// patience ends. Texts that were drafted and not sent are spent.
    pub fn send_values_within<T: Patience>(
        &mut self,
        id: Id,
        letters: &[Letter<P::Value>],
        patience: &mut T,
    ) -> ValuesSent
        requires vow { All (λ l. P.vowed self.old.seat.number l.tag l.mtype l.text) letters.now }
        ensures answer { AreValuesSent P.Value.bytes_of N.slots N.height id T.ends
            self.new.moments.now self.old.seat self.new.seat letters.now result }
        ensures moments { IsTimed self.old.moments self.new.moments }
    {
        let Ok(mut texts) = Vec::with_capacity(self.alloc, letters.len().min(MAX_BATCH)) else {
            let ended = Err(Refused {
                errno: Errno::ENOMEM,
                entry: None,
            });
            return ValuesSent {
                count: 0,
                first: None,
                ended,
            };
        };
        let drafted = self.draft_values(id, letters, &mut texts, patience);
        let count = texts.len();
        let mut texts = VecDeque::from_vec(texts);
        let sent = self.send_texts_within(id, &mut texts, patience);
        let count = count - texts.len();
        let first = sent.first;
        self.spend_letters(texts);
        match sent.ended {
            Ok(()) => ValuesSent {
                count,
                first,
                ended: drafted,
            },
            Err(refused) => ValuesSent {
                count,
                first,
                ended: Err(refused),
            },
        }
    }

    /// Drafts the first of these values, at most `MAX_BATCH`, or returns why the next has no text.
    /// It waits for pages for the first alone.
    fn draft_values<T: Patience>(
        &mut self,
        id: Id,
        letters: &[Letter<P::Value>],
        texts: &mut Vec<Letter<TextOf<N>>>,
        patience: &mut T,
    ) -> Result<(), Refused>
        requires vow { All (λ l. P.vowed self.old.seat.number l.tag l.mtype l.text) letters.now }
        requires empty { texts.old.items ≡ [] }
        requires room { min (length letters.now) MAX_BATCH ≤ vec_capacity texts.old }
        ensures answer { AreDrafted P.Value.bytes_of N.slots N.height id T.ends letters.now
            texts.new.items result }
        ensures pledge { All (λ l. P.kept self.old.seat.number l.tag l.mtype l.text.bytes)
            texts.new.items }
        ensures seat { self.new.seat ≡ self.old.seat }
        ensures moments { self.new.moments ≡ self.old.moments }
    {
        for place in 0..letters.len().min(MAX_BATCH) {
            let letter = &letters[place];
            let flags = SendFlags { nowait: place > 0 };
            match self.draft_next(id, letter, flags, patience) {
                Ok(text) => texts.push_reserved(Letter {
                    mtype: letter.mtype,
                    tag: letter.tag,
                    text,
                }),
                Err(errno) => return Err(Refused { errno, entry: None }),
            }
        }
        Ok(())
    }

    /// Drafts a value as `draft_value` does, and does not wait with the flag.
    fn draft_next<T: Patience>(
        &mut self,
        id: Id,
        letter: &Letter<P::Value>,
        flags: SendFlags,
        patience: &mut T,
    ) -> Result<TextOf<N>, Errno>
        ensures bytes { IfOk result (λ t. t.bytes ≡ P.Value.bytes_of letter.now.text) }
        ensures refused { IfErr result (HasNoText P.Value.bytes_of N.slots N.height id
            (T.ends || flags.nowait) letter.now) }
        ensures seat { self.new.seat ≡ self.old.seat }
        ensures moments { self.new.moments ≡ self.old.moments }
    {
        if flags.nowait {
            self.draft_value(id, letter, &mut NoWait)
        } else {
            self.draft_value(id, letter, patience)
        }
    }

    /// Drafts a text of a value's bytes. EINVAL of the type and of the slot, ENOMEM without memory
    /// for the bytes, then the refusals of `draft_within`.
    fn draft_value<T: Patience>(
        &mut self,
        id: Id,
        letter: &Letter<P::Value>,
        patience: &mut T,
    ) -> Result<TextOf<N>, Errno>
        ensures bytes { IfOk result (λ t. t.bytes ≡ P.Value.bytes_of letter.now.text) }
        ensures refused { IfErr result (HasNoText P.Value.bytes_of N.slots N.height id T.ends
            letter.now) }
        ensures seat { self.new.seat ≡ self.old.seat }
        ensures moments { self.new.moments ≡ self.old.moments }
    {
        if letter.mtype < 1 || id.slot() >= self.slots() {
            return Err(Errno::EINVAL);
        }
        let mut bytes = replace(&mut self.room, Vec::new(self.alloc));
        bytes.clear();
        let drafted = match letter.text.write(&mut bytes) {
            Ok(()) => self.draft_of(&bytes, patience),
            Err(_) => Err(Errno::ENOMEM),
        };
        self.room = bytes;
        drafted
    }

    /// Drafts a text of these bytes.
    fn draft_of<T: Patience>(&self, bytes: &[u8], patience: &mut T) -> Result<TextOf<N>, Errno>
        ensures bytes { IfOk result (λ t. t.bytes ≡ bytes.now) }
        ensures refused { IfErr result (MayNotMake T.ends N.height (length bytes.now)) }
    {
        match self
            .system
            .draft_by_within(self.rt, &self.seat, bytes, patience)
        {
            Ok(text) => Ok(text),
            Err(error) => Err(error.errno()),
        }
    }

    /// Spends letters that were not sent.
    fn spend_letters(&self, mut letters: VecDeque<Letter<TextOf<N>>>) {
        while let Some(letter) = letters.pop_front() {
            self.system.spend_by(self.rt, &self.seat, letter.text);
        }
        letters.destroy_empty();
    }

    /// Receives up to `most` values that the selection matches, at most `MAX_BATCH` by one call,
    /// as that many calls of `receive_value` at consecutive entries of the queue's log. It waits
    /// for the first alone, and takes what is there. The first refusal ends it.
    pub fn receive_values(
        &mut self,
        id: Id,
        selection: Selection,
        most: usize,
    ) -> ValuesReceived<P::Value, TextOf<N>>
        ensures answer { AreReceivedTexts P.kept N.slots id MSGMAX selection false false
            self.new.moments.now (min most MAX_BATCH) self.old.seat self.new.seat
            (texts_of P.Value.bytes_of result.values.items result.unread.items) result.ended }
        ensures vow { All (λ d. P.vowed d.sender d.tag d.mtype d.text) result.values.items }
        ensures memory { P.Value.allocates ≡ false → result.unread.items ≡ [] }
        ensures moments { IsTimed self.old.moments self.new.moments }
    {
        self.receive_values_within(id, selection, most, &mut Forever)
    }

    /// Receives values as `receive_values` does, and does not wait.
    pub fn try_receive_values(
        &mut self,
        id: Id,
        selection: Selection,
        most: usize,
    ) -> ValuesReceived<P::Value, TextOf<N>>
        ensures answer { AreReceivedTexts P.kept N.slots id MSGMAX selection false true
            self.new.moments.now (min most MAX_BATCH) self.old.seat self.new.seat
            (texts_of P.Value.bytes_of result.values.items result.unread.items) result.ended }
        ensures vow { All (λ d. P.vowed d.sender d.tag d.mtype d.text) result.values.items }
        ensures memory { P.Value.allocates ≡ false → result.unread.items ≡ [] }
        ensures moments { IsTimed self.old.moments self.new.moments }
    {
        self.receive_values_within(id, selection, most, &mut NoWait)
    }

    /// Receives values as `receive_values` does, and waits for the first no longer than until the
    /// patience ends. It first reserves a buffer for the longest text; where there is no memory for
    /// that, or for the list of values, the call is refused with ENOMEM. A value without memory for
    /// it is returned as its text, with those behind it, to be spent or sent on.
    pub fn receive_values_within<T: Patience>(
        &mut self,
        id: Id,
        selection: Selection,
        most: usize,
        patience: &mut T,
    ) -> ValuesReceived<P::Value, TextOf<N>>
        ensures answer { AreReceivedTexts P.kept N.slots id MSGMAX selection false T.ends
            self.new.moments.now (min most MAX_BATCH) self.old.seat self.new.seat
            (texts_of P.Value.bytes_of result.values.items result.unread.items) result.ended }
        ensures vow { All (λ d. P.vowed d.sender d.tag d.mtype d.text) result.values.items }
        ensures memory { P.Value.allocates ≡ false → result.unread.items ≡ [] }
        ensures moments { IsTimed self.old.moments self.new.moments }
    {
        if most == 0 {
            return ValuesReceived::none(self.alloc, Ok(()));
        }
        let lacking = Err(Refused {
            errno: Errno::ENOMEM,
            entry: None,
        });
        let Ok(mut values) = Vec::with_capacity(self.alloc, most.min(MAX_BATCH)) else {
            return ValuesReceived::none(self.alloc, lacking);
        };
        let mut room = replace(&mut self.room, Vec::new(self.alloc));
        room.clear();
        let reserved = room.reserve(MSGMAX as usize);
        if reserved.is_err() {
            self.room = room;
            return ValuesReceived::none(self.alloc, lacking);
        }
        let options = ReceiveOptions::new();
        let BatchReceived { texts, ended } = self.receive_texts_within(
            id, selection, options, most, patience,
        );
        self.room = room;
        let mut unread = texts;
        self.read_values(&mut unread, &mut values);
        ValuesReceived {
            values: VecDeque::from_vec(values),
            unread,
            ended,
        }
    }

    /// Reads the values of texts in their order, until there is no memory for one.
    fn read_values(
        &mut self,
        texts: &mut VecDeque<Delivered<TextOf<N>>>,
        values: &mut Vec<Delivered<P::Value>>,
    )
        requires texts { All (IsReadable P.kept (vec_capacity self.old.room)) texts.old.items }
        requires empty { values.old.items ≡ [] }
        requires room { length texts.old.items ≤ vec_capacity values.old }
        ensures answer { AreValuesRead P.Value.bytes_of P.vowed P.Value.allocates texts.old.items
            values.new.items texts.new.items }
        ensures seat { self.new.seat ≡ self.old.seat }
        ensures moments { self.new.moments ≡ self.old.moments }
    {
        for _done in 0..texts.len() {
            let Some(delivered) = texts.pop_front() else {
                return;
            };
            match self.read_value(delivered) {
                Ok(value) => values.push_reserved(value),
                Err(delivered) => {
                    texts.push_front_reserved(delivered);
                    return;
                }
            }
        }
    }

    /// Reads the value of a text, which is spent; the text is returned where there is no memory for
    /// the value.
    fn read_value(
        &mut self,
        delivered: Delivered<TextOf<N>>,
    ) -> Result<Delivered<P::Value>, Delivered<TextOf<N>>>
        requires text { IsReadable P.kept (vec_capacity self.old.room) delivered }
        ensures value { IfOk result (IsValueOf P.Value.bytes_of P.vowed delivered) }
        ensures handed_back { IfErr result (λ d. d ≡ delivered) }
        ensures memory { IfErr result (λ d. P.Value.allocates ≡ true) }
        ensures room { vec_capacity self.old.room ≤ vec_capacity self.new.room }
        ensures seat { self.new.seat ≡ self.old.seat }
        ensures moments { self.new.moments ≡ self.old.moments }
    {
        let mut bytes = replace(&mut self.room, Vec::new(self.alloc));
        bytes.clear();
        copy_out(&delivered.text, &mut bytes);
        match P::Value::read(self.alloc, &mut bytes.as_slice()) {
            Ok(value) => {
                self.room = bytes;
                let (header, text) = split_text(delivered);
                self.spend(text);
                Ok(join_text(header, value))
            }
            Err(UnreadError::NoMemory) => {
                self.room = bytes;
                Err(delivered)
            }
            Err(UnreadError::NoValue) => unreachable!(),
        }
    }
}
