//! Calls that do several under one hold of a slot's lock.
ghost use Rattle.std.specs.Prelude.{◌≡◌, ◌≤◌, [], All, length, min, vec_capacity};
ghost use Rattle.mq_system.specs.Held.{MayBegin};
ghost use Rattle.mq_system.specs.Many.{HasReceivedMany, HasSentMany};
ghost use Rattle.mq_system.specs.Pledge.{MeetsItsPledge};
ghost use Rattle.mq_system.specs.SeenMany.{AreReceived, AreSent};
ghost use Rattle.mq_system.specs.declared.many.TheConstants.{MAX_BATCH};

use crate::messages::too_early;
use crate::{
    Delivered, Errno, Names, Patience, Pledge, ReceiveRequest, Refused, Seat, SharedSlot, System,
    TextOf,
};
use mq_table::Id;
use std::collections::VecDeque;
use std::sync::{MutexGuard, Wait};

/// The most messages that one call sends or receives: as long as it does, it holds the slot's lock.
pub const MAX_BATCH: usize = 64;

/// A text that is to be sent.
#[derive(Drop)]
pub struct Letter<B> {
    pub mtype: i64,
    /// The sender's own number of the message.
    pub tag: u64,
    pub text: B,
}

/// What became of letters that were sent.
#[derive(Clone, Copy, Debug, PartialEq, Eq)]
pub struct BatchSent {
    /// The entry of the first that was sent, if any was; those of the others follow it.
    pub first: Option<u64>,
    /// Why the first of those that are left was not sent, if it was refused.
    pub ended: Result<(), Refused>,
}

impl<P: Pledge, N: Names> SharedSlot<P, N> {
    /// Receives up to `n` messages that the selection names, as so many calls of `receive`, one
    /// after another. The first refusal ends it.
    pub fn receive_many<R: Wait>(
        &mut self,
        rt: &R,
        seat: &mut Seat<N>,
        request: &ReceiveRequest,
        n: usize,
        out: &mut Vec<Delivered<TextOf<N>>>,
    ) -> Result<(), Refused>
        requires begun { MayBegin request.now.id self.old.whole seat.old }
        requires empty { out.old.items ≡ [] }
        requires room { n ≤ vec_capacity out.old }
        ensures answer { HasReceivedMany request.now.id request.now.size request.now.selection
            request.now.noerror request.now.moment n
            (record { slot = self.old; seat = seat.old })
            (record { slot = self.new; seat = seat.new }) out.new.items result }
        ensures pledge { All (MeetsItsPledge P.kept request.now.size request.now.noerror)
            out.new.items }
        ensures capacity { vec_capacity out.new ≡ vec_capacity out.old }
    {
        let answer = self.parts.receive_many::<P>(seat, request, n, out);
        self.parts.publish_rest::<P, R>(rt, seat);
        answer
    }

    /// The entry of the next change.
    pub fn next_entry(&self) -> u64
        ensures { result ≡ length self.now.whole.events }
    {
        self.parts.slot.events()
    }

    /// Sends up to `most` letters as this seat, as so many calls of `send`, one after another. The
    /// first refusal ends it; that letter and those behind it stay in the list.
    pub fn send_many<R: Wait>(
        &mut self,
        rt: &R,
        seat: &mut Seat<N>,
        id: Id,
        letters: &mut VecDeque<Letter<TextOf<N>>>,
        most: usize,
        moment: u64,
    ) -> Result<(), Refused>
        requires begun { MayBegin id self.old.whole seat.old }
        requires pledge { All (λ l. P.kept seat.old.number l.tag l.mtype l.text.bytes)
            letters.old.items }
        ensures answer { HasSentMany id moment most (record { slot = self.old; seat = seat.old })
            (record { slot = self.new; seat = seat.new }) letters.old.items letters.new.items
            result }
    {
        let answer = self.parts.send_many::<P>(seat, id, letters, most, moment);
        self.parts.publish_rest::<P, R>(rt, seat);
        answer
    }
}

impl<P: Pledge, N: Names> System<P, N> {
    /// Receives up to `n` messages, at most `MAX_BATCH`, as so many calls of `msgrcv`, one after
    /// another at consecutive entries. It waits for the first alone, and not for `n`, no longer
    /// than until the patience ends. The first refusal ends it.
    #[tactic(auto, using(crate::proofs::LaterLemmas::look_self))]
    pub fn msgrcv_many_within<R: Wait, T: Patience>(
        &self,
        rt: &R,
        seat: &mut Seat<N>,
        request: &ReceiveRequest,
        patience: &mut T,
        n: usize,
        out: &mut Vec<Delivered<TextOf<N>>>,
    ) -> Result<(), Refused>
        requires empty { out.old.items ≡ [] }
        requires room { min n MAX_BATCH ≤ vec_capacity out.old }
        ensures answer { AreReceived P.kept N.slots request.now.id request.now.size
            request.now.selection request.now.noerror T.ends request.now.moment
            (min n MAX_BATCH) seat.old seat.new out.new.items result }
        ensures capacity { vec_capacity out.new ≡ vec_capacity out.old }
    {
        let most = n.min(MAX_BATCH);
        if most == 0 {
            return Ok(());
        }
        let slot = request.id.slot();
        if slot as usize >= self.monitors.len() {
            return Err(too_early());
        }
        let monitor = &self.monitors[slot as usize];
        for _ in rt.forever() {
            let mut held = monitor.enter(rt, seat, slot);
            match held.receive_many(rt, seat, request, most, out) {
                Ok(()) => {
                    MutexGuard::unlock(held);
                    monitor.wake_senders();
                    return Ok(());
                }
                Err(refused) => {
                    if !out.is_empty() {
                        MutexGuard::unlock(held);
                        monitor.wake_senders();
                        return Err(refused);
                    }
                    if refused.errno != Errno::ENOMSG {
                        MutexGuard::unlock(held);
                        return Err(refused);
                    }
                    let receiver = monitor.add_receiver(&*held, request);
                    MutexGuard::unlock(held);
                    let Some(longest) = patience.left() else {
                        return Err(refused);
                    };
                    receiver.wait(rt, longest);
                }
            }
        }
        unreachable!()
    }

    /// Sends letters, at most `MAX_BATCH`, as so many calls of `msgsnd`, one after another at
    /// consecutive entries. It waits for room for the first alone, no longer than until the
    /// patience ends. The first refusal ends it; that letter and those behind it stay in the list,
    /// and so do those past `MAX_BATCH`.
    #[tactic(auto, using(crate::proofs::LaterLemmas::look_self))]
    pub fn msgsnd_many_within<R: Wait, T: Patience>(
        &self,
        rt: &R,
        seat: &mut Seat<N>,
        id: Id,
        letters: &mut VecDeque<Letter<TextOf<N>>>,
        patience: &mut T,
        moment: u64,
    ) -> BatchSent
        requires pledge { All (λ l. P.kept seat.old.number l.tag l.mtype l.text.bytes)
            letters.old.items }
        ensures answer { AreSent N.slots id T.ends moment MAX_BATCH seat.old seat.new
            letters.old.items letters.new.items result.first result.ended }
    {
        let count = letters.len();
        if count == 0 {
            return BatchSent {
                first: None,
                ended: Ok(()),
            };
        }
        let slot = id.slot();
        if slot as usize >= self.monitors.len() {
            return BatchSent {
                first: None,
                ended: Err(too_early()),
            };
        }
        let monitor = &self.monitors[slot as usize];
        for _ in rt.forever() {
            let mut held = monitor.enter(rt, seat, slot);
            let first = Some(held.next_entry());
            match held.send_many(rt, seat, id, letters, MAX_BATCH, moment) {
                Ok(()) => {
                    MutexGuard::unlock(held);
                    monitor.wake_receivers();
                    return BatchSent {
                        first,
                        ended: Ok(()),
                    };
                }
                Err(refused) => {
                    let ended = Err(refused);
                    if letters.len() < count {
                        MutexGuard::unlock(held);
                        monitor.wake_receivers();
                        return BatchSent { first, ended };
                    }
                    if refused.errno != Errno::EAGAIN {
                        MutexGuard::unlock(held);
                        return BatchSent { first: None, ended };
                    }
                    let Some(letter) = letters.front() else {
                        unreachable!()
                    };
                    let sender = monitor.add_sender(&*held, id, letter.mtype, &letter.text);
                    MutexGuard::unlock(held);
                    let Some(longest) = patience.left() else {
                        return BatchSent { first: None, ended };
                    };
                    sender.wait(rt, longest);
                }
            }
        }
        unreachable!()
    }
}
