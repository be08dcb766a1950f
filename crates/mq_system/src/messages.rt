//! The calls that wait for a message or for room.
ghost use Rattle.std.specs.Prelude.{◌≡◌, ◌||◌, length, IfErr, MatchResult};
ghost use Rattle.mq_message.specs.Selection.{selection_of};
ghost use Rattle.mq_calls.specs.Look.{refused_early};
ghost use Rattle.mq_calls.specs.declared.errno.Errno.TheVariants.{EINVAL};
ghost use Rattle.mq_system.specs.Outcome.{IsNotReceived, IsNotSent, IsReceived, IsSent};

use crate::{
    Delivered, Errno, Forever, Letter, Names, Patience, Pledge, ReceiveRequest, RecvFlags, Refused,
    Seat, SendFlags, SendRefused, System, TextOf,
};
use mq_message::Selection;
use mq_table::Id;
use std::sync::{MutexGuard, Wait};

impl<P: Pledge, N: Names> System<P, N> {
    /// Sends a text (msgop(2), msgsnd), and returns the entry. Where the queue is full it waits for
    /// room, unless the flags say not to. EINVAL for the type, EINVAL for the id, EIDRM, EAGAIN,
    /// then ENOMEM; the text is then returned.
    pub fn msgsnd<R: Wait>(
        &self,
        rt: &R,
        seat: &mut Seat<N>,
        id: Id,
        mtype: i64,
        tag: u64,
        text: TextOf<N>,
        flags: SendFlags,
        moment: u64,
    ) -> Result<u64, SendRefused<TextOf<N>>>
        requires pledge { P.kept seat.old.number tag mtype text.bytes }
        ensures answer { MatchResult result
            (IsSent N.slots id mtype tag (length text.bytes) moment seat.old seat.new)
            (λ r. IsNotSent N.slots id mtype (length text.bytes) flags.nowait seat.old seat.new
            r.refused) }
        ensures handed_back { IfErr result (λ r. r.text ≡ text) }
    {
        let patience = &mut Forever;
        self.msgsnd_within(rt, seat, id, mtype, tag, text, flags, patience, moment)
    }

    /// Sends a text as `msgsnd` does, and waits for room no longer than until the patience ends.
    /// Then it returns EAGAIN, which is what it saw last, as with IPC_NOWAIT.
    #[tactic(auto, using(crate::proofs::LaterLemmas::look_self))]
    pub fn msgsnd_within<R: Wait, T: Patience>(
        &self,
        rt: &R,
        seat: &mut Seat<N>,
        id: Id,
        mtype: i64,
        tag: u64,
        text: TextOf<N>,
        flags: SendFlags,
        patience: &mut T,
        moment: u64,
    ) -> Result<u64, SendRefused<TextOf<N>>>
        requires pledge { P.kept seat.old.number tag mtype text.bytes }
        ensures answer { MatchResult result
            (IsSent N.slots id mtype tag (length text.bytes) moment seat.old seat.new)
            (λ r. IsNotSent N.slots id mtype (length text.bytes) (T.ends || flags.nowait)
            seat.old seat.new r.refused) }
        ensures handed_back { IfErr result (λ r. r.text ≡ text) }
    {
        let slot = id.slot();
        if mtype < 1 || slot as usize >= self.monitors.len() {
            let refused = too_early();
            return Err(SendRefused { refused, text });
        }
        let monitor = &self.monitors[slot as usize];
        let mut text = text;
        for _ in rt.forever() {
            let mut held = monitor.enter(rt, seat, slot);
            match held.send(rt, seat, id, Letter { mtype, tag, text }, moment) {
                Ok(entry) => {
                    MutexGuard::unlock(held);
                    monitor.wake_receivers();
                    return Ok(entry);
                }
                Err(refusal) => {
                    if refusal.refused.errno != Errno::EAGAIN || flags.nowait {
                        MutexGuard::unlock(held);
                        return Err(refusal);
                    }
                    let sender = monitor.add_sender(&*held, id, mtype, &refusal.text);
                    MutexGuard::unlock(held);
                    let Some(longest) = patience.left() else {
                        return Err(refusal);
                    };
                    let (_, again) = refusal.into_text();
                    text = again;
                    sender.wait(rt, longest);
                }
            }
        }
        unreachable!()
    }

    /// Receives the first message that the selection names (msgop(2), msgrcv). Where there is none
    /// it waits for one, unless the flags say not to. EINVAL, EIDRM, ENOMSG, E2BIG, then ENOMEM.
    pub fn msgrcv<R: Wait>(
        &self,
        rt: &R,
        seat: &mut Seat<N>,
        id: Id,
        size: u64,
        msgtyp: i64,
        flags: RecvFlags,
        moment: u64,
    ) -> Result<Delivered<TextOf<N>>, Refused>
        ensures answer { MatchResult result
            (IsReceived P.kept N.slots id size (selection_of msgtyp flags.except) flags.noerror
            moment seat.old seat.new)
            (IsNotReceived N.slots id size (selection_of msgtyp flags.except) flags.noerror
            flags.nowait seat.old seat.new) }
    {
        self.msgrcv_within(rt, seat, id, size, msgtyp, flags, &mut Forever, moment)
    }

    /// Receives a message as `msgrcv` does, and waits for one no longer than until the patience
    /// ends. Then it returns ENOMSG, which is what it saw last, as with IPC_NOWAIT.
    #[tactic(auto, using(crate::proofs::LaterLemmas::look_self))]
    pub fn msgrcv_within<R: Wait, T: Patience>(
        &self,
        rt: &R,
        seat: &mut Seat<N>,
        id: Id,
        size: u64,
        msgtyp: i64,
        flags: RecvFlags,
        patience: &mut T,
        moment: u64,
    ) -> Result<Delivered<TextOf<N>>, Refused>
        ensures answer { MatchResult result
            (IsReceived P.kept N.slots id size (selection_of msgtyp flags.except) flags.noerror
            moment seat.old seat.new)
            (IsNotReceived N.slots id size (selection_of msgtyp flags.except) flags.noerror
            (T.ends || flags.nowait) seat.old seat.new) }
    {
        let slot = id.slot();
        if slot as usize >= self.monitors.len() {
            return Err(too_early());
        }
        let monitor = &self.monitors[slot as usize];
        let request = ReceiveRequest {
            id,
            size,
            selection: Selection::read(msgtyp, flags.except),
            noerror: flags.noerror,
            moment,
        };
        for _ in rt.forever() {
            let mut held = monitor.enter(rt, seat, slot);
            match held.receive(rt, seat, &request) {
                Ok(delivered) => {
                    MutexGuard::unlock(held);
                    monitor.wake_senders();
                    return Ok(delivered);
                }
                Err(refused) => {
                    if refused.errno != Errno::ENOMSG || flags.nowait {
                        MutexGuard::unlock(held);
                        return Err(refused);
                    }
                    let receiver = monitor.add_receiver(&*held, &request);
                    MutexGuard::unlock(held);
                    let Some(longest) = patience.left() else {
                        return Err(refused);
                    };
                    receiver.wait(rt, longest);
                }
            }
        }
        unreachable!()
    }
}

/// What the type or the number of slots alone refuses.
pub(crate) fn too_early() -> Refused
    ensures { result ≡ refused_early EINVAL }
{
    Refused {
        errno: Errno::EINVAL,
        entry: None,
    }
}
