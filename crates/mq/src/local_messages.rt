//! How a caller of one thread sends and receives.
ghost use Rattle.std.specs.Prelude.{◌≡◌, ◌≤◌, ◌+◌, false, length, IfOk, MatchResult, OnErr};
ghost use Rattle.std.specs.Prelude.{vec_capacity, vec_len};
ghost use Rattle.mq_queue.specs.declared.limits.TheConstants.{MSGMAX};
ghost use Rattle.mq_calls.specs.Look.{refused_at};
ghost use Rattle.mq.specs.Bytes.{AnswersBytes, MayLackMemory, with_text};
ghost use Rattle.mq.specs.Caller.{IsAppended};
ghost use Rattle.mq.specs.Local.{IsCopiedOut, IsNotTaken, IsTaken, sends_message};

use crate::bytes::{FIRST_ROOM, copy_out, send_bytes};
use crate::delivered::{join_text, split_text};
use crate::msgtyp::msgtyp_of;
use crate::receive_options::ReceiveCall;
use crate::{LocalCaller, Message, ReceiveOptions};
use mq_arena::Text;
use mq_calls::{Delivered, Errno};
use mq_local::OneThread;
use mq_message::{Body, Selection};
use mq_queue::MSGMAX;
use mq_table::Id;
use std::mem::replace;
use std::sync::ledger::Ledger;

impl<'a, L: Ledger> LocalCaller<'a, L> {
    /// Sends a message, and returns its entry (msgop(2), msgsnd). EINVAL of the type and of the
    /// slot, EINVAL and ENOMEM of the draft, then the refusals of `OneThread::msgsnd`.
    pub fn send(&mut self, id: Id, message: Message<'_>) -> Result<u64, Errno>
        ensures same_reference { self.new.of.ghost_name ≡ self.old.of.ghost_name }
        ensures answer { AnswersBytes result (λ entry. entry)
            (sends_message self.old.of.now.queues self.old.seat id message.entry.mtype
            message.entry.tag message.entry.bytes.now self.old.of.now.moment)
            (refused_at self.old.of.now.queues id Errno.ENOMEM)
            (MayLackMemory self.old.of.now.queues message.entry.bytes.now)
            self.old.of.now.queues self.new.of.now.queues }
        ensures seat { self.new.seat ≡ self.old.seat }
        ensures moment { self.new.of.now.moment ≡ self.old.of.now.moment }
    {
        if message.mtype < 1 || id.slot() >= self.slots() {
            return Err(Errno::EINVAL);
        }
        let moment = self.of.moment;
        send_bytes(&mut self.of.queues, self.seat, id, message, moment)
    }

    /// Sends a message as `send` does, which does not wait either.
    pub fn try_send(&mut self, id: Id, message: Message<'_>) -> Result<u64, Errno>
        ensures same_reference { self.new.of.ghost_name ≡ self.old.of.ghost_name }
        ensures answer { AnswersBytes result (λ entry. entry)
            (sends_message self.old.of.now.queues self.old.seat id message.entry.mtype
            message.entry.tag message.entry.bytes.now self.old.of.now.moment)
            (refused_at self.old.of.now.queues id Errno.ENOMEM)
            (MayLackMemory self.old.of.now.queues message.entry.bytes.now)
            self.old.of.now.queues self.new.of.now.queues }
        ensures seat { self.new.seat ≡ self.old.seat }
        ensures moment { self.new.of.now.moment ≡ self.old.of.now.moment }
    {
        self.send(id, message)
    }

    /// Receives the first message that the selection matches, of any length (msgop(2), msgrcv).
    /// EINVAL of the selection, then the refusals of `OneThread::msgrcv`. Where there is no memory
    /// for the bytes it returns ENOMEM, and the message stays.
    pub fn receive(&mut self, id: Id, selection: Selection) -> Result<Delivered<Vec<u8>>, Errno>
        ensures same_reference { self.new.of.ghost_name ≡ self.old.of.ghost_name }
        ensures answer { MatchResult result
            (λ d. IsCopiedOut self.old.of.now.queues self.old.seat id MSGMAX selection false
            self.old.of.now.moment (with_text d d.text.items) self.new.of.now.queues)
            (IsNotTaken self.old.of.now.queues self.old.seat id MSGMAX selection false
            self.old.of.now.moment) }
        ensures unchanged { OnErr result (self.new.of.now.queues ≡ self.old.of.now.queues) }
        ensures seat { self.new.seat ≡ self.old.seat }
        ensures moment { self.new.of.now.moment ≡ self.old.of.now.moment }
    {
        self.receive_with(id, selection, ReceiveOptions::new())
    }

    /// Receives a message as `receive` does, which does not wait either.
    pub fn try_receive(&mut self, id: Id, selection: Selection) -> Result<Delivered<Vec<u8>>, Errno>
        ensures same_reference { self.new.of.ghost_name ≡ self.old.of.ghost_name }
        ensures answer { MatchResult result
            (λ d. IsCopiedOut self.old.of.now.queues self.old.seat id MSGMAX selection false
            self.old.of.now.moment (with_text d d.text.items) self.new.of.now.queues)
            (IsNotTaken self.old.of.now.queues self.old.seat id MSGMAX selection false
            self.old.of.now.moment) }
        ensures unchanged { OnErr result (self.new.of.now.queues ≡ self.old.of.now.queues) }
        ensures seat { self.new.seat ≡ self.old.seat }
        ensures moment { self.new.of.now.moment ≡ self.old.of.now.moment }
    {
        self.receive(id, selection)
    }

    /// Receives a message as the options say.
    pub fn receive_with(
        &mut self,
        id: Id,
        selection: Selection,
        options: ReceiveOptions,
    ) -> Result<Delivered<Vec<u8>>, Errno>
        ensures same_reference { self.new.of.ghost_name ≡ self.old.of.ghost_name }
        ensures answer { MatchResult result
            (λ d. IsCopiedOut self.old.of.now.queues self.old.seat id options.size selection
            options.noerror self.old.of.now.moment (with_text d d.text.items)
            self.new.of.now.queues)
            (IsNotTaken self.old.of.now.queues self.old.seat id options.size selection
            options.noerror self.old.of.now.moment) }
        ensures unchanged { OnErr result (self.new.of.now.queues ≡ self.old.of.now.queues) }
        ensures seat { self.new.seat ≡ self.old.seat }
        ensures moment { self.new.of.now.moment ≡ self.old.of.now.moment }
    {
        let alloc = self.of.alloc;
        let moment = self.of.moment;
        let mut room = replace(&mut self.of.room, Vec::new(alloc));
        room.clear();
        let received = take(
            &mut self.of.queues,
            &mut room,
            self.seat,
            ReceiveCall {
                id,
                selection,
                options,
                moment,
            },
        );
        self.of.room = room;
        let (header, text) = split_text(received?);
        let mut bytes = match Vec::with_capacity(alloc, text.len() as usize) {
            Ok(bytes) => bytes,
            // No message is lost: `room` is large enough, and the next receive makes its own.
            Err(_) => replace(&mut self.of.room, Vec::new(alloc)),
        };
        copy_out(&text, &mut bytes);
        self.of.queues.spend(text);
        Ok(join_text(header, bytes))
    }

    /// Receives a message of any length, and appends its bytes: a buffer that is used again needs
    /// no allocation. Where it is refused the bytes stay as they were.
    pub fn receive_into(
        &mut self,
        id: Id,
        selection: Selection,
        bytes: &mut Vec<u8>,
    ) -> Result<Delivered<()>, Errno>
        ensures same_reference { self.new.of.ghost_name ≡ self.old.of.ghost_name }
        ensures answer { MatchResult result
            (λ d. IsAppended bytes.old.items bytes.new.items (λ b. IsCopiedOut
            self.old.of.now.queues self.old.seat id MSGMAX selection false
            self.old.of.now.moment (with_text d b) self.new.of.now.queues))
            (IsNotTaken self.old.of.now.queues self.old.seat id MSGMAX selection false
            self.old.of.now.moment) }
        ensures kept { OnErr result (bytes.new.items ≡ bytes.old.items) }
        ensures unchanged { OnErr result (self.new.of.now.queues ≡ self.old.of.now.queues) }
        ensures seat { self.new.seat ≡ self.old.seat }
        ensures moment { self.new.of.now.moment ≡ self.old.of.now.moment }
    {
        let moment = self.of.moment;
        let (header, text) = split_text(take(
            &mut self.of.queues,
            bytes,
            self.seat,
            ReceiveCall {
                id,
                selection,
                options: ReceiveOptions::new(),
                moment,
            },
        )?);
        copy_out(&text, bytes);
        self.of.queues.spend(text);
        Ok(header)
    }
}

/// Receives the text of the first message that is selected, once there is room for its bytes: a
/// call with too little is refused with E2BIG, and repeated with twice as much.
fn take<L: Ledger>(
    queues: &mut OneThread<L>,
    room: &mut Vec<u8>,
    seat: u16,
    call: ReceiveCall,
) -> Result<Delivered<Text<L>>, Errno>
    ensures answer { MatchResult result
        (λ d. IsTaken queues.old seat call.id call.options.size call.selection
        call.options.noerror call.moment d queues.new)
        (IsNotTaken queues.old seat call.id call.options.size call.selection
        call.options.noerror call.moment) }
    ensures unchanged { OnErr result (queues.new ≡ queues.old) }
    ensures items { room.new.items ≡ room.old.items }
    ensures len { vec_len room.new ≡ vec_len room.old }
    ensures room { IfOk result
        (λ d. vec_len room.new + length d.text.bytes ≤ vec_capacity room.new) }
{
    let ReceiveCall {
        id,
        selection,
        options,
        moment,
    } = call;
    let Some((msgtyp, except)) = msgtyp_of(selection) else {
        return Err(Errno::EINVAL);
    };
    let most = options.size;
    let mut size = if options.noerror {
        most.min(MSGMAX)
    } else {
        most.min(FIRST_ROOM.max((room.capacity() - room.len()) as u64))
    };
    loop {
        if room.reserve(size as usize).is_err() {
            return Err(Errno::ENOMEM);
        }
        match queues.msgrcv(seat, id, size, msgtyp, except, options.noerror, moment) {
            Ok(received) => return Ok(received),
            Err(refused) => {
                if refused.errno != Errno::E2BIG || size >= most {
                    return Err(refused.errno);
                }
            }
        }
        size = most.min(size.saturating_mul(2));
    }
}
