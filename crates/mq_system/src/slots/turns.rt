//! Calls under a slot's lock, of which several may follow one another before their entries are
//! published on the slot's board, all at once.

ghost use Rattle.std.specs.Prelude.{◌≡◌, ◌<◌, ◌≤◌, ◌+◌, ◌-◌, ◌^◌, [], true, length, vec_capacity};
ghost use Rattle.std.specs.Prelude.{All, IfErr, IfOk, MatchResult, OnOk};
ghost use Rattle.mq_queue.specs.Row.{is_live, made_count};
ghost use Rattle.mq_table.specs.Ids.{slot_of};
ghost use Rattle.mq_table.specs.KeptPart.{IsKeptPart, whole};
ghost use Rattle.mq_table.specs.declared.limits.TheConstants.{MAX_SEQ};
ghost use Rattle.mq_system.specs.Answer.{looks_in_slot, receive_in_slot, refused_here};
ghost use Rattle.mq_system.specs.Answer.{send_in_slot};
ghost use Rattle.mq_system.specs.Held.{HasAppended, HasNoted, HasRefused, MayBegin};
ghost use Rattle.mq_system.specs.Many.{HasReceivedMany, HasSentMany, message_of, under_all};
ghost use Rattle.mq_system.specs.Pledge.{MeetsItsPledge};
ghost use Rattle.mq_system.specs.Seat.{front_of, noted_more};
ghost use Rattle.mq_system.specs.Shared.{IsBehind, IsDue, IsShared, all_events, locked, locked_all};
ghost use Rattle.mq_system.specs.Shared.{unpublished, with_pending};

use super::ReceiveRequest;
use crate::{Letter, Names, Pledge, Seat, SlotOf, SlotParts, TextOf};
use mq_board::Rest;
use mq_calls::{Delivered, Errno, Refused, SendRefused};
use mq_message::Message;
use mq_queue::NoNotice;
use mq_table::Id;
use std::collections::VecDeque;
use std::marker::PhantomData;
use std::sync::Wait;

/// The entries that a slot's list has beyond those that its board has.
pub struct Entered<N: Names> {
    of: PhantomData<N>,
}

impl<N: Names> Rest<SlotOf<N>> for Entered<N> {
    ghost use Rattle.mq_system.specs.Shared.{unpublished};

    ghost rest = { λ slot count. unpublished count slot };
}

impl<N: Names> SlotParts<N> {
    /// Publishes the event by which the slot was just changed, and notes it in the seat that made
    /// it.
    pub(crate) fn publish<P: Pledge, R: Wait>(&mut self, rt: &R, seat: &mut Seat<N>)
        requires due { IsDue P.kept N.slots N.last_seq seat.old.number self.old.writer.board
            self.old.writer.events self.old.writer.pending self.old.slot self.old.entries.parts
            self.old.entries.amount }
        requires known { front_of seat.old self.old.slot.number ≡ self.old.writer.events }
        ensures shared { IsShared P.kept N.slots N.last_seq self.new.writer.board
            self.new.writer.events self.new.writer.pending self.new.slot self.new.entries.parts
            self.new.entries.amount }
        ensures slot { self.new.slot ≡ self.old.slot }
        ensures events { self.new.writer.events
            ≡ with_pending self.old.writer.events self.old.writer.pending }
        ensures noted { HasNoted seat.old seat.new self.old.slot.number self.new.writer.events }
    {
        self.writer.publish(rt);
        seat.note(&mut self.entries, self.slot.number(), self.writer.tell(), 1);
    }

    /// Publishes at once what this seat appended to the slot's list, if it appended anything, and
    /// notes it in the seat.
    pub(crate) fn publish_rest<P: Pledge, R: Wait>(&mut self, rt: &R, seat: &mut Seat<N>)
        requires behind { IsBehind P.kept N.slots N.last_seq seat.old.number self.old.writer
            self.old.slot self.old.entries.parts self.old.entries.amount }
        requires known { front_of seat.old self.old.slot.number ≡ self.old.writer.events }
        ensures shared { IsShared P.kept N.slots N.last_seq self.new.writer.board
            self.new.writer.events self.new.writer.pending self.new.slot self.new.entries.parts
            self.new.entries.amount }
        ensures slot { self.new.slot ≡ self.old.slot }
        ensures events { self.new.writer.events
            ≡ all_events self.old.writer.events self.old.slot }
        ensures within { self.old.slot.number < length seat.old.by_slot }
        ensures noted { seat.new ≡ noted_more seat.old self.old.slot.number
            (length (unpublished (length self.old.writer.events) self.old.slot))
            self.new.writer.events }
    {
        seat.holds();
        let count = self.slot.events();
        let published = self.writer.count();
        if count == published {
            return;
        }
        let row = self.slot.row();
        self.writer
            .publish_rest::<SlotOf<N>, Entered<N>, R>(rt, &self.slot, count, row);
        let told = self.writer.tell();
        seat.note(
            &mut self.entries,
            self.slot.number(),
            told,
            count - published,
        );
    }

    /// How long the whole list can be.
    pub(crate) fn holds(&self)
        requires kept { IsKeptPart (all_events self.now.writer.events self.now.slot)
            self.now.slot }
        ensures few { length (all_events self.now.writer.events self.now.slot) < 2 ^ 64 - 1 }
        ensures made { made_count (all_events self.now.writer.events self.now.slot)
            ≤ MAX_SEQ + 1 }
    {
        self.slot.events();
        self.slot.made();
    }

    /// Whether this id's queue is in the slot, or why not.
    pub(crate) fn look(&self, id: Id) -> Result<(), Refused>
        requires kept { IsKeptPart (all_events self.now.writer.events self.now.slot)
            self.now.slot }
        requires id { slot_of id ≡ self.now.slot.number }
        ensures value { result
            ≡ looks_in_slot (locked_all self.now.writer.events self.now.slot).whole id }
        ensures live { OnOk result
            (is_live (all_events self.now.writer.events self.now.slot) ≡ true) }
    {
        match self.slot.look(id) {
            Ok(()) => Ok(()),
            Err(refusal) => Err(self.refused(Errno::from(refusal))),
        }
    }

    /// The refusal after all that has happened in the slot.
    pub(crate) fn refused(&self, errno: Errno) -> Refused
        requires kept { IsKeptPart (all_events self.now.writer.events self.now.slot)
            self.now.slot }
        ensures { result
            ≡ refused_here (locked_all self.now.writer.events self.now.slot).whole errno }
    {
        Refused {
            errno,
            entry: Some(self.slot.events()),
        }
    }

    /// Sends a text as this seat, as the locked slot does, but for its entry, which is not
    /// published yet.
    #[inline(always)]
    pub(crate) fn send<P: Pledge>(
        &mut self,
        seat: &Seat<N>,
        id: Id,
        letter: Letter<TextOf<N>>,
        moment: u64,
    ) -> Result<u64, SendRefused<TextOf<N>>>
        requires behind { IsBehind P.kept N.slots N.last_seq seat.now.number self.old.writer
            self.old.slot self.old.entries.parts self.old.entries.amount }
        requires id { slot_of id ≡ self.old.slot.number }
        requires pledge { P.kept seat.now.number letter.tag letter.mtype letter.text.bytes }
        ensures behind { IsBehind P.kept N.slots N.last_seq seat.now.number self.new.writer
            self.new.slot self.new.entries.parts self.new.entries.amount }
        ensures writer { self.new.writer ≡ self.old.writer }
        ensures answer { MatchResult result
            (HasAppended (send_in_slot
            (locked_all self.old.writer.events self.old.slot).whole id
            (message_of seat.now.number letter) moment)
            (locked_all self.old.writer.events self.old.slot)
            (locked_all self.new.writer.events self.new.slot) seat.now.number)
            (λ r. HasRefused (send_in_slot
            (locked_all self.old.writer.events self.old.slot).whole id
            (message_of seat.now.number letter) moment)
            (locked_all self.old.writer.events self.old.slot)
            (locked_all self.new.writer.events self.new.slot) seat.now seat.now r.refused) }
        ensures slot { IfErr result (λ _. self.new.slot ≡ self.old.slot) }
        ensures handed_back { IfErr result (λ r. r.text ≡ letter.text) }
    {
        let Letter { mtype, tag, text } = letter;
        if mtype < 1 {
            let refused = Refused {
                errno: Errno::EINVAL,
                entry: None,
            };
            return Err(SendRefused { refused, text });
        }
        match self.look(id) {
            Ok(()) => (),
            Err(refused) => return Err(SendRefused { refused, text }),
        }
        self.holds();
        let message = Message {
            mtype,
            tag,
            body: text,
            sender: seat.number(),
        };
        match self.slot.send(message, moment, &mut NoNotice) {
            Ok(entry) => Ok(entry),
            Err((refusal, message)) => Err(SendRefused {
                refused: self.refused(Errno::from(refusal)),
                text: message.into_body(),
            }),
        }
    }

    /// Receives the first message that the selection names, as the locked slot does, but for its
    /// entry, which is not published yet.
    #[inline(always)]
    pub(crate) fn receive<P: Pledge>(
        &mut self,
        seat: &Seat<N>,
        request: &ReceiveRequest,
    ) -> Result<Delivered<TextOf<N>>, Refused>
        requires behind { IsBehind P.kept N.slots N.last_seq seat.now.number self.old.writer
            self.old.slot self.old.entries.parts self.old.entries.amount }
        requires id { slot_of request.now.id ≡ self.old.slot.number }
        ensures behind { IsBehind P.kept N.slots N.last_seq seat.now.number self.new.writer
            self.new.slot self.new.entries.parts self.new.entries.amount }
        ensures writer { self.new.writer ≡ self.old.writer }
        ensures answer { MatchResult result
            (HasAppended (receive_in_slot
            (locked_all self.old.writer.events self.old.slot).whole request.now.id
            request.now.size request.now.selection request.now.noerror seat.now.number
            request.now.moment)
            (locked_all self.old.writer.events self.old.slot)
            (locked_all self.new.writer.events self.new.slot) seat.now.number)
            (HasRefused (receive_in_slot
            (locked_all self.old.writer.events self.old.slot).whole request.now.id
            request.now.size request.now.selection request.now.noerror seat.now.number
            request.now.moment)
            (locked_all self.old.writer.events self.old.slot)
            (locked_all self.new.writer.events self.new.slot) seat.now seat.now) }
        ensures slot { IfErr result (λ _. self.new.slot ≡ self.old.slot) }
        ensures pledge { IfOk result
            (MeetsItsPledge P.kept request.now.size request.now.noerror) }
    {
        let ReceiveRequest {
            id,
            size,
            selection,
            noerror,
            moment,
        } = *request;
        self.look(id)?;
        self.holds();
        let number = seat.number();
        match self
            .slot
            .receive(size, selection, noerror, number, moment, &mut NoNotice)
        {
            Ok(received) => Ok(Delivered::of(received)),
            Err(refusal) => Err(self.refused(Errno::from(refusal))),
        }
    }

    /// Receives up to `n` messages that the selection names, one after another, up to the first
    /// refusal. Their entries are not published yet.
    pub(crate) fn receive_many<P: Pledge>(
        &mut self,
        seat: &Seat<N>,
        request: &ReceiveRequest,
        n: usize,
        out: &mut Vec<Delivered<TextOf<N>>>,
    ) -> Result<(), Refused>
        requires shared { IsShared P.kept N.slots N.last_seq self.old.writer.board
            self.old.writer.events self.old.writer.pending self.old.slot self.old.entries.parts
            self.old.entries.amount }
        requires begun { MayBegin request.now.id (whole self.old.writer.events self.old.slot)
            seat.now }
        requires empty { out.old.items ≡ [] }
        requires room { n ≤ vec_capacity out.old }
        ensures behind { IsBehind P.kept N.slots N.last_seq seat.now.number self.new.writer
            self.new.slot self.new.entries.parts self.new.entries.amount }
        ensures writer { self.new.writer ≡ self.old.writer }
        ensures answer { HasReceivedMany request.now.id request.now.size request.now.selection
            request.now.noerror request.now.moment n
            (record { slot = locked self.old.writer.events self.old.slot; seat = seat.now })
            (under_all self.new.writer.events self.new.slot seat.now) out.new.items result }
        ensures pledge { All (MeetsItsPledge P.kept request.now.size request.now.noerror)
            out.new.items }
        ensures capacity { vec_capacity out.new ≡ vec_capacity out.old }
    {
        seat.holds();
        for _done in 0..n {
            match self.receive::<P>(seat, request) {
                Ok(delivered) => out.push_reserved(delivered),
                Err(refused) => return Err(refused),
            }
        }
        Ok(())
    }

    /// Sends up to `most` letters as this seat, one after another, up to the first refusal; that
    /// letter and those behind it stay in the list. The entries are not published yet.
    pub(crate) fn send_many<P: Pledge>(
        &mut self,
        seat: &Seat<N>,
        id: Id,
        letters: &mut VecDeque<Letter<TextOf<N>>>,
        most: usize,
        moment: u64,
    ) -> Result<(), Refused>
        requires shared { IsShared P.kept N.slots N.last_seq self.old.writer.board
            self.old.writer.events self.old.writer.pending self.old.slot self.old.entries.parts
            self.old.entries.amount }
        requires begun { MayBegin id (whole self.old.writer.events self.old.slot) seat.now }
        requires pledge { All (λ l. P.kept seat.now.number l.tag l.mtype l.text.bytes)
            letters.old.items }
        ensures behind { IsBehind P.kept N.slots N.last_seq seat.now.number self.new.writer
            self.new.slot self.new.entries.parts self.new.entries.amount }
        ensures writer { self.new.writer ≡ self.old.writer }
        ensures answer { HasSentMany id moment most
            (record { slot = locked self.old.writer.events self.old.slot; seat = seat.now })
            (under_all self.new.writer.events self.new.slot seat.now)
            letters.old.items letters.new.items result }
    {
        seat.holds();
        for _done in 0..most {
            let Some(letter) = letters.pop_front() else {
                return Ok(());
            };
            let (mtype, tag) = (letter.mtype, letter.tag);
            match self.send::<P>(seat, id, letter, moment) {
                Ok(_entry) => (),
                Err(SendRefused { refused, text }) => {
                    letters.push_front_reserved(Letter { mtype, tag, text });
                    return Err(refused);
                }
            }
        }
        Ok(())
    }
}
