//! How a caller receives.
ghost use Rattle.std.specs.Prelude.{◌≡◌, ◌≤◌, ◌+◌, false, true, length, IfOk, OnErr, MatchResult};
ghost use Rattle.std.specs.Prelude.{vec_capacity, vec_len};
ghost use Rattle.mq_queue.specs.declared.limits.TheConstants.{MSGMAX};
ghost use Rattle.mq_table.specs.Ids.{seq_of, slot_of};
ghost use Rattle.mq_system.specs.Outcome.{IsReceived};
ghost use Rattle.mq_system.specs.Refusals.{MayReceive, out_of_slots};
ghost use Rattle.mq_system.specs.Seen.{receive_verdict};
ghost use Rattle.mq.specs.Moments.{IsTimed};
ghost use Rattle.mq.specs.Caller.{IsAppended, IsNotReceivedFrom, IsReceivedOf, IsTurnedBack, IsUnselectable};

use crate::bytes::{FIRST_ROOM, copy_out};
use crate::delivered::{join_text, split_text};
use crate::msgtyp::msgtyp_of;
use crate::receive_options::ReceiveCall;
use crate::{Caller, ReceiveOptions};
use mq_calls::{Delivered, Errno};
use mq_message::{Body, Selection};
use mq_queue::MSGMAX;
use mq_system::{Forever, Names, NoWait, Patience, Pledge, RecvFlags, Seat, System, TextOf, Until};
use mq_table::Id;
use std::mem::replace;
use std::sync::Wait;
use std::time::{Clock, Duration, Instant};

impl<'a, P: Pledge, N: Names, R: Wait + Clock> Caller<'a, P, N, R> {
    /// Receives the first message that the selection matches, of any length, and waits where there
    /// is none (msgop(2), msgrcv).
    pub fn receive(&mut self, id: Id, selection: Selection) -> Result<Delivered<Vec<u8>>, Errno>
        ensures answer { MatchResult result
            (λ d. IsReceivedOf P.kept N.slots id MSGMAX selection false self.new.moments.now
            self.old.seat self.new.seat d d.text.items)
            (IsNotReceivedFrom N.slots id MSGMAX selection false false
            self.old.seat self.new.seat) }
        ensures moments { IsTimed self.old.moments self.new.moments }
    {
        self.receive_within(id, selection, ReceiveOptions::new(), &mut Forever)
    }

    /// Receives a message as the options say, and waits where there is none.
    pub fn receive_with(
        &mut self,
        id: Id,
        selection: Selection,
        options: ReceiveOptions,
    ) -> Result<Delivered<Vec<u8>>, Errno>
        ensures answer { MatchResult result
            (λ d. IsReceivedOf P.kept N.slots id options.size selection options.noerror
            self.new.moments.now self.old.seat self.new.seat d d.text.items)
            (IsNotReceivedFrom N.slots id options.size selection options.noerror false
            self.old.seat self.new.seat) }
        ensures moments { IsTimed self.old.moments self.new.moments }
    {
        self.receive_within(id, selection, options, &mut Forever)
    }

    /// Receives a message of any length, and does not wait (IPC_NOWAIT): ENOMSG where there is
    /// none.
    pub fn try_receive(&mut self, id: Id, selection: Selection) -> Result<Delivered<Vec<u8>>, Errno>
        ensures answer { MatchResult result
            (λ d. IsReceivedOf P.kept N.slots id MSGMAX selection false self.new.moments.now
            self.old.seat self.new.seat d d.text.items)
            (IsNotReceivedFrom N.slots id MSGMAX selection false true
            self.old.seat self.new.seat) }
        ensures moments { IsTimed self.old.moments self.new.moments }
    {
        self.receive_within(id, selection, ReceiveOptions::new(), &mut NoWait)
    }

    /// Receives a message of any length, and waits no longer than the timeout: ENOMSG then.
    pub fn receive_timeout(
        &mut self,
        id: Id,
        selection: Selection,
        timeout: Duration,
    ) -> Result<Delivered<Vec<u8>>, Errno>
        ensures answer { MatchResult result
            (λ d. IsReceivedOf P.kept N.slots id MSGMAX selection false self.new.moments.now
            self.old.seat self.new.seat d d.text.items)
            (IsNotReceivedFrom N.slots id MSGMAX selection false true
            self.old.seat self.new.seat) }
        ensures moments { IsTimed self.old.moments self.new.moments }
    {
        let mut until = Until::within(self.rt, timeout);
        self.receive_within(id, selection, ReceiveOptions::new(), &mut until)
    }

    /// Receives a message of any length, and waits no longer than until the deadline, by its
    /// runtime's clock: ENOMSG then.
    pub fn receive_deadline(
        &mut self,
        id: Id,
        selection: Selection,
        deadline: Instant,
    ) -> Result<Delivered<Vec<u8>>, Errno>
        ensures answer { MatchResult result
            (λ d. IsReceivedOf P.kept N.slots id MSGMAX selection false self.new.moments.now
            self.old.seat self.new.seat d d.text.items)
            (IsNotReceivedFrom N.slots id MSGMAX selection false true
            self.old.seat self.new.seat) }
        ensures moments { IsTimed self.old.moments self.new.moments }
    {
        let mut until = Until::at(self.rt, deadline);
        self.receive_within(id, selection, ReceiveOptions::new(), &mut until)
    }

    /// Receives a message as the options say, and waits for one no longer than until the patience
    /// ends: ENOMSG then. A selection that no msgtyp stands for is refused with EINVAL. Where there
    /// is no memory for the bytes it returns ENOMEM, and the message stays.
    #[inline]
    pub fn receive_within<T: Patience>(
        &mut self,
        id: Id,
        selection: Selection,
        options: ReceiveOptions,
        patience: &mut T,
    ) -> Result<Delivered<Vec<u8>>, Errno>
        ensures answer { MatchResult result
            (λ d. IsReceivedOf P.kept N.slots id options.size selection options.noerror
            self.new.moments.now self.old.seat self.new.seat d d.text.items)
            (IsNotReceivedFrom N.slots id options.size selection options.noerror T.ends
            self.old.seat self.new.seat) }
        ensures moments { IsTimed self.old.moments self.new.moments }
    {
        self.begin();
        self.room.clear();
        let received = take(
            self.rt,
            self.system,
            &mut self.seat,
            &mut self.room,
            ReceiveCall {
                id,
                selection,
                options,
                moment: self.moments.now,
            },
            patience,
        )?;
        let mut bytes = match Vec::with_capacity(self.alloc, received.text.len() as usize) {
            Ok(bytes) => bytes,
            // No message is lost: `room` is large enough, and the next receive makes its own.
            Err(_) => replace(&mut self.room, Vec::new(self.alloc)),
        };
        let (header, text) = split_text(received);
        copy_out(&text, &mut bytes);
        self.system.spend_by(self.rt, &self.seat, text);
        Ok(join_text(header, bytes))
    }

    /// Receives a message of any length, and appends its bytes: a buffer that is used again needs
    /// no allocation. It waits where there is none. Where it is refused the bytes stay as they
    /// were.
    pub fn receive_into(
        &mut self,
        id: Id,
        selection: Selection,
        bytes: &mut Vec<u8>,
    ) -> Result<Delivered<()>, Errno>
        ensures answer { MatchResult result
            (λ d. IsAppended bytes.old.items bytes.new.items (IsReceivedOf P.kept N.slots id MSGMAX
            selection false self.new.moments.now self.old.seat self.new.seat d))
            (IsNotReceivedFrom N.slots id MSGMAX selection false false
            self.old.seat self.new.seat) }
        ensures unchanged { OnErr result (bytes.new.items ≡ bytes.old.items) }
        ensures moments { IsTimed self.old.moments self.new.moments }
    {
        let options = ReceiveOptions::new();
        self.receive_into_within(id, selection, options, bytes, &mut Forever)
    }

    /// Receives a message as `receive_into` does, and does not wait: ENOMSG where there is none.
    pub fn try_receive_into(
        &mut self,
        id: Id,
        selection: Selection,
        bytes: &mut Vec<u8>,
    ) -> Result<Delivered<()>, Errno>
        ensures answer { MatchResult result
            (λ d. IsAppended bytes.old.items bytes.new.items (IsReceivedOf P.kept N.slots id MSGMAX
            selection false self.new.moments.now self.old.seat self.new.seat d))
            (IsNotReceivedFrom N.slots id MSGMAX selection false true
            self.old.seat self.new.seat) }
        ensures unchanged { OnErr result (bytes.new.items ≡ bytes.old.items) }
        ensures moments { IsTimed self.old.moments self.new.moments }
    {
        let options = ReceiveOptions::new();
        self.receive_into_within(id, selection, options, bytes, &mut NoWait)
    }

    /// Receives a message as `receive_into` does, and waits no longer than the timeout: ENOMSG
    /// then.
    pub fn receive_into_timeout(
        &mut self,
        id: Id,
        selection: Selection,
        bytes: &mut Vec<u8>,
        timeout: Duration,
    ) -> Result<Delivered<()>, Errno>
        ensures answer { MatchResult result
            (λ d. IsAppended bytes.old.items bytes.new.items (IsReceivedOf P.kept N.slots id MSGMAX
            selection false self.new.moments.now self.old.seat self.new.seat d))
            (IsNotReceivedFrom N.slots id MSGMAX selection false true
            self.old.seat self.new.seat) }
        ensures unchanged { OnErr result (bytes.new.items ≡ bytes.old.items) }
        ensures moments { IsTimed self.old.moments self.new.moments }
    {
        let options = ReceiveOptions::new();
        let mut end = Until::within(self.rt, timeout);
        self.receive_into_within(id, selection, options, bytes, &mut end)
    }

    /// Receives a message as `receive_into` does, and waits no longer than until the deadline, by
    /// its runtime's clock: ENOMSG then.
    pub fn receive_into_deadline(
        &mut self,
        id: Id,
        selection: Selection,
        bytes: &mut Vec<u8>,
        deadline: Instant,
    ) -> Result<Delivered<()>, Errno>
        ensures answer { MatchResult result
            (λ d. IsAppended bytes.old.items bytes.new.items (IsReceivedOf P.kept N.slots id MSGMAX
            selection false self.new.moments.now self.old.seat self.new.seat d))
            (IsNotReceivedFrom N.slots id MSGMAX selection false true
            self.old.seat self.new.seat) }
        ensures unchanged { OnErr result (bytes.new.items ≡ bytes.old.items) }
        ensures moments { IsTimed self.old.moments self.new.moments }
    {
        let options = ReceiveOptions::new();
        let mut end = Until::at(self.rt, deadline);
        self.receive_into_within(id, selection, options, bytes, &mut end)
    }

    /// Receives a message as `receive_within` does, and appends its bytes.
    pub fn receive_into_within<T: Patience>(
        &mut self,
        id: Id,
        selection: Selection,
        options: ReceiveOptions,
        bytes: &mut Vec<u8>,
        patience: &mut T,
    ) -> Result<Delivered<()>, Errno>
        ensures answer { MatchResult result
            (λ d. IsAppended bytes.old.items bytes.new.items (IsReceivedOf P.kept N.slots id
            options.size selection options.noerror self.new.moments.now
            self.old.seat self.new.seat d))
            (IsNotReceivedFrom N.slots id options.size selection options.noerror T.ends
            self.old.seat self.new.seat) }
        ensures unchanged { OnErr result (bytes.new.items ≡ bytes.old.items) }
        ensures moments { IsTimed self.old.moments self.new.moments }
    {
        self.begin();
        let received = take(
            self.rt,
            self.system,
            &mut self.seat,
            bytes,
            ReceiveCall {
                id,
                selection,
                options,
                moment: self.moments.now,
            },
            patience,
        )?;
        let (header, text) = split_text(received);
        copy_out(&text, bytes);
        self.system.spend_by(self.rt, &self.seat, text);
        Ok(header)
    }

    /// Receives the text itself of the first message that the selection matches, and copies
    /// nothing. It waits where there is none. The text is to be spent, or sent on.
    pub fn receive_text(
        &mut self,
        id: Id,
        selection: Selection,
    ) -> Result<Delivered<TextOf<N>>, Errno>
        ensures answer { MatchResult result
            (IsReceived P.kept N.slots id MSGMAX selection false self.new.moments.now
            self.old.seat self.new.seat)
            (IsTurnedBack (IsUnselectable selection) (out_of_slots N.slots id)
            (MayReceive false false) (slot_of id)
            (receive_verdict (seq_of id) MSGMAX selection false)
            self.old.seat self.new.seat) }
        ensures moments { IsTimed self.old.moments self.new.moments }
    {
        self.receive_text_within(id, selection, ReceiveOptions::new(), &mut Forever)
    }

    /// Receives a text as `receive_text` does, and does not wait: ENOMSG where there is none.
    pub fn try_receive_text(
        &mut self,
        id: Id,
        selection: Selection,
    ) -> Result<Delivered<TextOf<N>>, Errno>
        ensures answer { MatchResult result
            (IsReceived P.kept N.slots id MSGMAX selection false self.new.moments.now
            self.old.seat self.new.seat)
            (IsTurnedBack (IsUnselectable selection) (out_of_slots N.slots id)
            (MayReceive true false) (slot_of id)
            (receive_verdict (seq_of id) MSGMAX selection false)
            self.old.seat self.new.seat) }
        ensures moments { IsTimed self.old.moments self.new.moments }
    {
        self.receive_text_within(id, selection, ReceiveOptions::new(), &mut NoWait)
    }

    /// Receives a text as `receive_text` does, and waits no longer than the timeout: ENOMSG then.
    pub fn receive_text_timeout(
        &mut self,
        id: Id,
        selection: Selection,
        timeout: Duration,
    ) -> Result<Delivered<TextOf<N>>, Errno>
        ensures answer { MatchResult result
            (IsReceived P.kept N.slots id MSGMAX selection false self.new.moments.now
            self.old.seat self.new.seat)
            (IsTurnedBack (IsUnselectable selection) (out_of_slots N.slots id)
            (MayReceive true false) (slot_of id)
            (receive_verdict (seq_of id) MSGMAX selection false)
            self.old.seat self.new.seat) }
        ensures moments { IsTimed self.old.moments self.new.moments }
    {
        let mut patience = Until::within(self.rt, timeout);
        self.receive_text_within(id, selection, ReceiveOptions::new(), &mut patience)
    }

    /// Receives a text as `receive_text` does, and waits no longer than until the deadline, by its
    /// runtime's clock: ENOMSG then.
    pub fn receive_text_deadline(
        &mut self,
        id: Id,
        selection: Selection,
        deadline: Instant,
    ) -> Result<Delivered<TextOf<N>>, Errno>
        ensures answer { MatchResult result
            (IsReceived P.kept N.slots id MSGMAX selection false self.new.moments.now
            self.old.seat self.new.seat)
            (IsTurnedBack (IsUnselectable selection) (out_of_slots N.slots id)
            (MayReceive true false) (slot_of id)
            (receive_verdict (seq_of id) MSGMAX selection false)
            self.old.seat self.new.seat) }
        ensures moments { IsTimed self.old.moments self.new.moments }
    {
        let mut patience = Until::at(self.rt, deadline);
        self.receive_text_within(id, selection, ReceiveOptions::new(), &mut patience)
    }

    /// Receives a text as `receive_text` does, as the options say, and waits for one no longer than
    /// until the patience ends.
    pub fn receive_text_within<T: Patience>(
        &mut self,
        id: Id,
        selection: Selection,
        options: ReceiveOptions,
        patience: &mut T,
    ) -> Result<Delivered<TextOf<N>>, Errno>
        ensures answer { MatchResult result
            (IsReceived P.kept N.slots id options.size selection options.noerror
            self.new.moments.now self.old.seat self.new.seat)
            (IsTurnedBack (IsUnselectable selection) (out_of_slots N.slots id)
            (MayReceive T.ends options.noerror) (slot_of id)
            (receive_verdict (seq_of id) options.size selection options.noerror)
            self.old.seat self.new.seat) }
        ensures moments { IsTimed self.old.moments self.new.moments }
    {
        let Some((msgtyp, except)) = msgtyp_of(selection) else {
            return Err(Errno::EINVAL);
        };
        let flags = RecvFlags {
            nowait: false,
            noerror: options.noerror,
            except,
        };
        self.begin();
        match self.system.msgrcv_within(
            self.rt,
            &mut self.seat,
            id,
            options.size,
            msgtyp,
            flags,
            patience,
            self.moments.now,
        ) {
            Ok(received) => Ok(received),
            Err(refused) => Err(refused.errno),
        }
    }
}

/// Receives the text of the first message that is selected, once there is room for its bytes: a
/// call with too little is refused with E2BIG, and repeated with twice as much.
#[inline(always)]
fn take<P: Pledge, N: Names, R: Wait, T: Patience>(
    rt: &R,
    system: &System<P, N>,
    seat: &mut Seat<N>,
    room: &mut Vec<u8>,
    call: ReceiveCall,
    patience: &mut T,
) -> Result<Delivered<TextOf<N>>, Errno>
    ensures answer { MatchResult result
        (λ d. IsReceivedOf P.kept N.slots call.id call.options.size call.selection
        call.options.noerror call.moment seat.old seat.new d d.text.bytes)
        (IsNotReceivedFrom N.slots call.id call.options.size call.selection
        call.options.noerror T.ends seat.old seat.new) }
    ensures items { room.new.items ≡ room.old.items }
    ensures len { vec_len room.new ≡ vec_len room.old }
    ensures room { IfOk result
        (λ d. vec_len room.new + length d.text.bytes ≤ vec_capacity room.new) }
{
    let ReceiveCall {
        id,
        selection,
        options,
        moment,
    } = call;
    let Some((msgtyp, except)) = msgtyp_of(selection) else {
        return Err(Errno::EINVAL);
    };
    let flags = RecvFlags {
        nowait: false,
        noerror: options.noerror,
        except,
    };
    let most = options.size;
    let mut size = if options.noerror {
        most.min(MSGMAX)
    } else {
        most.min(FIRST_ROOM.max((room.capacity() - room.len()) as u64))
    };
    loop {
        if room.reserve(size as usize).is_err() {
            return Err(Errno::ENOMEM);
        }
        match system.msgrcv_within(rt, seat, id, size, msgtyp, flags, patience, moment) {
            Ok(received) => return Ok(received),
            Err(refused) => {
                if refused.errno != Errno::E2BIG || size >= most {
                    return Err(refused.errno);
                }
            }
        }
        size = most.min(size.saturating_mul(2));
    }
}
