//! The calls that change a slot and the key table together: either both change, or neither does.

ghost use Rattle.std.specs.Prelude.{◌≡◌, ◌≢◌, ◌<◌, ◌≤◌, ℕ, ℤ, List, None, pos, true, false, length};
ghost use Rattle.std.specs.Prelude.{MatchResult};
ghost use Rattle.mq_table.specs.Keys.{id_of_key, entered};
ghost use Rattle.mq_table.specs.Kept.{is_live_kept, kept_figures, made_of};
ghost use Rattle.mq_table.specs.SlotCalls.{IsMadeUnder, IsRemovedUnder};

use crate::{Id, KeyTable, MAX_SEQ, Slot};
use mq_message::{Body, Waiting};
use mq_queue::{Event, Log, Notice, QueueState};
use std::alloc::AllocError;

/// Makes a queue in the slot, and enters its key, which is new or 0 (msgget(2), IPC_CREAT). `Err`
/// means out of memory. The notice takes the event in, with the figures after it.
pub fn make_under<B: Body, W: Waiting<B>, N: Notice>(
    keys: &mut KeyTable,
    slot: &mut Slot<B, W>,
    key: i32,
    seat: u16,
    moment: u64,
    notice: &mut N,
) -> Result<Id, AllocError>
    requires empty { is_live_kept slot.old ≡ false }
    requires unused { made_of slot.old ≤ MAX_SEQ }
    requires absent { key ≢ pos 0 → id_of_key keys.old key ≡ None }
    ensures answer { MatchResult result
        (IsMadeUnder key seat moment slot.old slot.new keys.old keys.new)
        (λ _. (slot.new ≡ slot.old) × (keys.new ≡ keys.old)) }
    ensures noticed { MatchResult result
        (λ _. N.takes notice.old (Event.Made seat moment key) (kept_figures slot.new) notice.new)
        (λ _. notice.new ≡ notice.old) }
{
    slot.holds();
    let id = Id::of(slot.number(), slot.made());
    enter_key(keys, key, id)?;
    match QueueState::made(slot.allocator(), key, seat, moment, notice) {
        Ok(queue) => {
            slot.put(key, queue);
            Ok(id)
        }
        Err(refused) => {
            leave_key(keys, key);
            Err(refused)
        }
    }
}

/// Enters a key that is not 0.
fn enter_key(keys: &mut KeyTable, key: i32, id: Id) -> Result<(), AllocError>
    requires { key ≢ pos 0 → id_of_key keys.old key ≡ None }
    ensures { MatchResult result (λ _. keys.new ≡ entered key id keys.old)
        (λ _. keys.new ≡ keys.old) }
{
    if key == 0 {
        return Ok(());
    }
    keys.enter(key, id)
}

/// Takes a key out again that was just entered.
fn leave_key(keys: &mut KeyTable, key: i32)
    requires { key ≢ pos 0 → 0 < length keys.old }
    ensures { (before : List (ℤ × ℕ)) (id : ℕ) →
        keys.old ≡ entered key id before → keys.new ≡ before }
{
    if key != 0 {
        keys.drop_last();
    }
}

/// Removes the queue from the slot, and forgets its key (msgctl(2), IPC_RMID). Returns the queue's
/// log and its pending messages. `Err` means out of memory. The notice takes the event in, and no
/// figures with it.
pub fn remove_under<B: Body, W: Waiting<B>, N: Notice>(
    keys: &mut KeyTable,
    slot: &mut Slot<B, W>,
    seat: u16,
    moment: u64,
    notice: &mut N,
) -> Result<(Log, W), AllocError>
    requires live { is_live_kept slot.old ≡ true }
    ensures answer { MatchResult result
        (λ r. IsRemovedUnder seat moment slot.old slot.new keys.old keys.new r.0
        (W.messages r.1))
        (λ _. (slot.new ≡ slot.old) × (keys.new ≡ keys.old)) }
    ensures noticed { MatchResult result
        (λ _. N.takes notice.old (Event.Removed seat moment) (kept_figures slot.new) notice.new)
        (λ _. notice.new ≡ notice.old) }
{
    slot.holds();
    let id = Id::of(slot.number(), slot.made() - 1);
    let removed = slot.take_out(seat, moment, notice)?;
    keys.forget(id);
    Ok(removed)
}
