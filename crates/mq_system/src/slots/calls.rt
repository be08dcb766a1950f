//! The calls that change a slot, under its lock.
ghost use Rattle.std.specs.Prelude.{◌≡◌, ◌≢◌, ◌≤◌, pos, true, false, None};
ghost use Rattle.std.specs.Prelude.{IfOk, IfErr, MatchResult};
ghost use Rattle.mq_table.specs.Keys.{id_of_key, forget};
ghost use Rattle.mq_table.specs.Slot.{last_id};
ghost use Rattle.mq_table.specs.SlotList.{is_free, IsSlotList};
ghost use Rattle.mq_table.specs.declared.limits.TheConstants.{MAX_SEQ};
ghost use Rattle.mq_system.specs.Answer.{receive_in_slot, remove_in_slot};
ghost use Rattle.mq_system.specs.Answer.{send_in_slot, set_in_slot};
ghost use Rattle.mq_system.specs.Held.{HasChanged, HasMade, HasNoted, HasRefused, MayBegin};
ghost use Rattle.mq_system.specs.Many.{message_of};
ghost use Rattle.mq_system.specs.Pledge.{MeetsItsPledge};
ghost use Rattle.mq_system.specs.Seat.{front_of};
ghost use Rattle.mq_system.specs.Shared.{IsDue, IsShared, with_pending};

use crate::{
    Entries, Keys, Letter, Names, Pledge, Seat, SharedSlot, SlotOf, SlotParts, TextOf, WaitingOf,
};
use mq_board::BoardWriter;
use mq_calls::{Delivered, Errno, Got, Refused, Removal, SendRefused};
use mq_message::{Message, Selection};
use mq_table::{Id, make_under, remove_under};
use std::alloc::AllocError;
use std::sync::Wait;
use std::sync::ledger::Share;

/// What a receive asks for (msgop(2)).
#[derive(Clone, Copy)]
pub struct ReceiveRequest {
    pub id: Id,
    /// The most bytes of the text.
    pub size: u64,
    pub selection: Selection,
    /// Whether a longer text is truncated (MSG_NOERROR).
    pub noerror: bool,
    /// The time at which it is made, the queue's `rtime`.
    pub moment: u64,
}

impl<P: Pledge, N: Names> SharedSlot<P, N> {
    /// Sends a text as this seat (msgop(2), msgsnd with IPC_NOWAIT), and returns the entry. EINVAL
    /// for the type, EINVAL for the id, EIDRM, EAGAIN, then ENOMEM; the text is then returned.
    #[inline(never)]
    pub fn send<R: Wait>(
        &mut self,
        rt: &R,
        seat: &mut Seat<N>,
        id: Id,
        letter: Letter<TextOf<N>>,
        moment: u64,
    ) -> Result<u64, SendRefused<TextOf<N>>>
        requires begun { MayBegin id self.old.whole seat.old }
        requires pledge { P.kept seat.old.number letter.tag letter.mtype letter.text.bytes }
        ensures answer { MatchResult result
            (HasChanged (send_in_slot self.old.whole id
            (message_of seat.old.number letter) moment)
            self.old self.new seat.old seat.new)
            (λ r. HasRefused (send_in_slot self.old.whole id
            (message_of seat.old.number letter) moment)
            self.old self.new seat.old seat.new r.refused) }
        ensures handed_back { IfErr result (λ r. r.text ≡ letter.text) }
    {
        let answer = self.parts.send::<P>(seat, id, letter, moment);
        self.parts.publish_rest::<P, R>(rt, seat);
        answer
    }

    /// Receives the first message that the selection names (msgop(2), msgrcv with IPC_NOWAIT).
    /// EINVAL, EIDRM, ENOMSG, E2BIG, then ENOMEM.
    #[inline(never)]
    pub fn receive<R: Wait>(
        &mut self,
        rt: &R,
        seat: &mut Seat<N>,
        request: &ReceiveRequest,
    ) -> Result<Delivered<TextOf<N>>, Refused>
        requires begun { MayBegin request.now.id self.old.whole seat.old }
        ensures answer { MatchResult result
            (HasChanged (receive_in_slot self.old.whole request.now.id request.now.size
            request.now.selection request.now.noerror seat.old.number request.now.moment)
            self.old self.new seat.old seat.new)
            (HasRefused (receive_in_slot self.old.whole request.now.id request.now.size
            request.now.selection request.now.noerror seat.old.number request.now.moment)
            self.old self.new seat.old seat.new) }
        ensures pledge { IfOk result
            (MeetsItsPledge P.kept request.now.size request.now.noerror) }
    {
        let answer = self.parts.receive::<P>(seat, request);
        self.parts.publish_rest::<P, R>(rt, seat);
        answer
    }

    /// Sets the quota (msgctl(2), IPC_SET of msg_qbytes), and returns the entry. EINVAL, EIDRM,
    /// EPERM over MSGMNB, then ENOMEM.
    pub fn set<R: Wait>(
        &mut self,
        rt: &R,
        seat: &mut Seat<N>,
        id: Id,
        qbytes: u64,
        moment: u64,
    ) -> Result<u64, Refused>
        requires begun { MayBegin id self.old.whole seat.old }
        ensures answer { MatchResult result
            (HasChanged (set_in_slot self.old.whole id qbytes seat.old.number moment)
            self.old self.new seat.old seat.new)
            (HasRefused (set_in_slot self.old.whole id qbytes seat.old.number moment)
            self.old self.new seat.old seat.new) }
    {
        self.look(id)?;
        self.holds();
        let number = seat.number();
        let desk = &mut self.parts.writer;
        match self.parts.slot.set(qbytes, number, moment, desk) {
            Ok(entry) => {
                self.parts.publish::<P, R>(rt, seat);
                Ok(entry)
            }
            Err(refusal) => Err(self.refused(Errno::from(refusal))),
        }
    }

    /// Makes a queue, and enters its key, which is new or 0 (msgget(2), IPC_CREAT). An `Err` means
    /// that memory ran out.
    pub fn make<R: Wait>(
        &mut self,
        rt: &R,
        keys: &mut Keys<N>,
        seat: &mut Seat<N>,
        key: i32,
        moment: u64,
    ) -> Result<Got, AllocError>
        requires known { front_of seat.old self.old.whole.number ≡ self.old.whole.events }
        requires free { is_free N.last_seq self.old.whole.events ≡ true }
        requires bounded { N.last_seq ≤ MAX_SEQ }
        requires absent { key ≢ pos 0 → id_of_key keys.old key ≡ None }
        ensures answer { MatchResult result
            (HasMade key moment self.old self.new keys.old keys.new seat.old seat.new)
            (λ _. (self.new ≡ self.old) × (keys.new ≡ keys.old) × (seat.new ≡ seat.old)) }
    {
        self.holds();
        let entry = self.parts.slot.events();
        let number = seat.number();
        let table = &mut keys.table;
        let desk = &mut self.parts.writer;
        let id = make_under(table, &mut self.parts.slot, key, number, moment, desk)?;
        self.parts.publish::<P, R>(rt, seat);
        Ok(Got {
            id,
            made: Some(entry),
        })
    }

    /// Removes the queue, and forgets its key (msgctl(2), IPC_RMID). The pending messages are
    /// returned. EINVAL, EIDRM, then ENOMEM.
    pub fn remove<R: Wait>(
        &mut self,
        rt: &R,
        keys: &mut Keys<N>,
        seat: &mut Seat<N>,
        id: Id,
        moment: u64,
    ) -> Result<(Removal, WaitingOf<N>), Refused>
        requires begun { MayBegin id self.old.whole seat.old }
        ensures answer { MatchResult result
            (λ r. HasChanged
            (remove_in_slot self.old.whole id seat.old.number moment r.0.log.base.places)
            self.old self.new seat.old seat.new r.0)
            (HasRefused (remove_in_slot self.old.whole id seat.old.number moment 0)
            self.old self.new seat.old seat.new) }
        ensures keys { MatchResult result
            (λ _. keys.new ≡ forget (last_id self.old.whole) keys.old)
            (λ _. keys.new ≡ keys.old) }
        ensures waited { IfOk result (λ r. r.1.messages ≡ self.old.whole.messages) }
        ensures lawful { IsSlotList N.last_seq self.new.whole.events }
    {
        self.look(id)?;
        self.holds();
        let entry = self.parts.slot.events();
        let number = seat.number();
        let table = &mut keys.table;
        let desk = &mut self.parts.writer;
        let removed = remove_under(table, &mut self.parts.slot, number, moment, desk);
        let Ok((log, waiting)) = removed else {
            return Err(self.refused(Errno::ENOMEM));
        };
        self.parts.publish::<P, R>(rt, seat);
        Ok((Removal { entry, log }, waiting))
    }
}
