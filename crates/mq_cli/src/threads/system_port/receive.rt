//! How a worker receives: one message, or a batch. The texts are spent.

ghost use Rattle.std.specs.Prelude.{◌≡◌, ◌+◌, ◌<◌, ◌≤◌, [], length, map, MatchResult};
ghost use Rattle.std.specs.Prelude.{vec_capacity};
ghost use Rattle.std.specs.List.{sum};
ghost use Rattle.mq_cli.specs.Batches.{TakesMany};
ghost use Rattle.mq_cli.specs.Ports.{Receives, taken_of};

use super::{Letters, SystemPort};
use crate::{TakeCall, Taken};
use mq_calls::{Delivered, Errno};
use mq_message::Selection;
use mq_queue::MSGMAX;
use mq_system::{MAX_BATCH, Names, Patience, ReceiveRequest, RecvFlags, Seat, System, TextOf};
use std::collections::VecDeque;
use std::sync::Wait;

/// A worker receives texts of any length, and waits.
const ALL_OF_A_TEXT: RecvFlags = RecvFlags {
    nowait: false,
    noerror: false,
    except: false,
};

impl<'a, N: Names> SystemPort<'a, N> {
    /// Receives one message.
    pub(super) fn take_one<R: Wait, T: Patience>(
        &mut self,
        rt: &R,
        system: &System<Letters, N>,
        call: &TakeCall,
        patience: &mut T,
    ) -> Result<Taken, Errno>
        ensures calls { MatchResult result
            (λ _. sum self.new.seat.now.by_slot ≡ sum self.old.seat.now.by_slot + 1)
            (λ _. sum self.new.seat.now.by_slot ≡ sum self.old.seat.now.by_slot) }
        ensures done { Receives N.slots self.old.seat.now self.new.seat.now call.now.id
            call.now.msgtyp T.ends call.now.moment result }
    {
        let TakeCall { id, msgtyp, moment } = *call;
        let flags = ALL_OF_A_TEXT;
        match system.msgrcv_within(rt, self.seat, id, MSGMAX, msgtyp, flags, patience, moment) {
            Ok(delivered) => Ok(spend(rt, system, self.seat, delivered)),
            Err(refused) => Err(refused.errno),
        }
    }

    /// Receives as many messages as this batch has room for, as so many calls of `take_one`. It
    /// waits for the first alone.
    pub(super) fn take_batch<R: Wait, T: Patience>(
        &mut self,
        rt: &R,
        system: &System<Letters, N>,
        call: &TakeCall,
        patience: &mut T,
        batch: Vec<Delivered<TextOf<N>>>,
        out: &mut Vec<Taken>,
    ) -> Result<(), Errno>
        requires some { 0 < vec_capacity batch }
        requires few { vec_capacity batch ≤ MAX_BATCH }
        requires none { batch.items ≡ [] }
        requires empty { out.old.items ≡ [] }
        requires room { vec_capacity batch ≤ vec_capacity out.old }
        ensures calls { sum self.new.seat.now.by_slot
            ≡ sum self.old.seat.now.by_slot + length out.new.items }
        ensures done { TakesMany (λ old id msgtyp ends moment answer new. Receives N.slots
            old.seat.now new.seat.now id msgtyp ends moment answer) call.now.id call.now.msgtyp
            T.ends call.now.moment (vec_capacity batch) self.old out.new.items result self.new }
    {
        let TakeCall { id, msgtyp, moment } = *call;
        let mut batch = batch;
        let n = batch.capacity();
        let request = ReceiveRequest {
            id,
            size: MSGMAX,
            selection: Selection::read(msgtyp, false),
            noerror: false,
            moment,
        };
        let ended = system.msgrcv_many_within(rt, self.seat, &request, patience, n, &mut batch);
        spend_all(rt, system, self.seat, batch, out);
        match ended {
            Ok(()) => Ok(()),
            Err(refused) => {
                if refused.errno != Errno::ENOMSG || out.is_empty() {
                    return Err(refused.errno);
                }
                Ok(())
            }
        }
    }
}

/// Spends the text of a message, and returns the rest.
fn spend<N: Names, R: Wait>(
    rt: &R,
    system: &System<Letters, N>,
    seat: &Seat<N>,
    delivered: Delivered<TextOf<N>>,
) -> Taken
    ensures { result ≡ taken_of delivered }
{
    let Delivered {
        entry: _,
        mtype,
        sender,
        tag,
        length,
        text,
    } = delivered;
    system.spend_by(rt, seat, text);
    Taken {
        sender,
        tag,
        mtype,
        length,
    }
}

/// Spends the texts of messages, and appends the rest of each to `out`, where there is room.
fn spend_all<N: Names, R: Wait>(
    rt: &R,
    system: &System<Letters, N>,
    seat: &Seat<N>,
    batch: Vec<Delivered<TextOf<N>>>,
    out: &mut Vec<Taken>,
)
    requires empty { out.old.items ≡ [] }
    requires room { length batch.items ≤ vec_capacity out.old }
    ensures { out.new.items ≡ map taken_of batch.items }
{
    let mut left = VecDeque::from_vec(batch);
    while let Some(delivered) = left.pop_front() {
        out.push_reserved(spend(rt, system, seat, delivered));
    }
    left.destroy_empty();
}
