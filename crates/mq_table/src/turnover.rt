//! How a slot gets a new queue and gives one up, whose events become past ones of the slot list.

ghost use Rattle.std.specs.Prelude.{◌≡◌, ◌+◌, ◌≤◌, ◌++◌, [], ℕ, None, Some, true, false, length};
ghost use Rattle.std.specs.Prelude.{OnOk, IfOk, MatchResult, vec_len, vec_capacity};
ghost use Rattle.std.specs.Option.{option_or};
ghost use Rattle.mq_queue.specs.QueueCalls.{IsNewQueue};
ghost use Rattle.mq_table.specs.Kept.{is_live_kept, kept_figures, made_of};
ghost use Rattle.mq_table.specs.SlotCalls.{IsTakenOut};
ghost use Rattle.mq_table.specs.SlotParts.{some_base};

use crate::{MAX_PAST, MAX_SEQ, Slot};
use mq_message::{Body, Waiting};
use mq_queue::{Base, Event, Log, Notice, QueueState};
use std::alloc::{AllocError, Global};

/// Puts a queue where none is.
fn put_in<B: Body, W: Waiting<B>>(live: &mut Option<QueueState<B, W>>, queue: QueueState<B, W>)
    requires { live.old ≡ None }
    ensures { live.new ≡ Some queue }
{
    match live.replace(queue) {
        None => (),
        Some(_) => unreachable!(),
    }
}

/// Appends the retained events of a log, for which there is room.
fn append(past: &mut Vec<Event>, log: &Log)
    requires { vec_len past.old + length log.now.tail ≤ vec_capacity past.old }
    ensures { past.new.items ≡ past.old.items ++ log.now.tail }
{
    let first = log.first();
    for i in 0..log.len() - first {
        let Some(event) = log.get(first + i) else {
            unreachable!()
        };
        past.push_reserved(event);
    }
}

/// The first base if there is one, or else the other.
pub(crate) fn either(base: Option<Base>, other: Option<Base>) -> Option<Base>
    ensures { result ≡ option_or base other }
{
    match base {
        Some(base) => Some(base),
        None => other,
    }
}

/// Prepares a removal: reserves room for the events of the queue's log and of the removal, and
/// copies its base, if that covers any event. `Err` means out of memory.
fn prepare_end<B: Body, W: Waiting<B>>(
    past: &mut Vec<Event>,
    queue: &QueueState<B, W>,
) -> Result<Option<Base>, AllocError>
    ensures base { IfOk result (λ base. base ≡ some_base queue.now.base) }
    ensures items { past.new.items ≡ past.old.items }
    ensures room { OnOk result
        (vec_len past.new + (length queue.now.tail + 1) ≤ vec_capacity past.new) }
{
    let alloc = *past.allocator();
    let base = queue.base();
    let kept = if base.places == 0 {
        None
    } else {
        Some(base.copied(alloc)?)
    };
    let room = queue.tail_len() as usize + 1;
    past.reserve(room)?;
    Ok(kept)
}

impl<B: Body, W: Waiting<B>> Slot<B, W> {
    pub(crate) fn allocator(&self) -> Global {
        *self.past.allocator()
    }

    /// Puts a new queue into the slot.
    pub(crate) fn put(&mut self, key: i32, queue: QueueState<B, W>)
        requires empty { is_live_kept self.old ≡ false }
        requires unused { made_of self.old ≤ MAX_SEQ }
        requires made { (seat : ℕ) × (moment : ℕ) × IsNewQueue seat moment key queue }
        ensures { self.new ≡ record self.old { key = key; last = queue.tail; messages = [] } }
    {
        self.made += 1;
        self.key = key;
        put_in(&mut self.live, queue);
    }

    /// Takes the queue out of the slot. The retained events of its log are copied to the past
    /// events. The notice takes the event in, and no figures with it.
    pub(crate) fn take_out<N: Notice>(
        &mut self,
        seat: u16,
        moment: u64,
        notice: &mut N,
    ) -> Result<(Log, W), AllocError>
        requires live { is_live_kept self.old ≡ true }
        ensures answer { MatchResult result
            (λ r. IsTakenOut seat moment self.old self.new r.0 (W.messages r.1))
            (λ _. self.new ≡ self.old) }
        ensures noticed { MatchResult result
            (λ _. N.takes notice.old (Event.Removed seat moment) (kept_figures self.new)
            notice.new)
            (λ _. notice.new ≡ notice.old) }
    {
        let entries = self.events();
        if entries >= MAX_PAST {
            return Err(AllocError);
        }
        let Some(queue) = &self.live else {
            unreachable!()
        };
        let kept = prepare_end(&mut self.past, queue)?;
        let Some(queue) = self.live.take() else {
            unreachable!()
        };
        match queue.remove(seat, moment, notice) {
            Ok((log, waiting)) => {
                self.key = 0;
                self.base = either(kept, self.base.take());
                append(&mut self.past, &log);
                Ok((log, waiting))
            }
            Err(queue) => {
                put_in(&mut self.live, queue);
                Err(AllocError)
            }
        }
    }
}
