//! What a seat sees of a queue that is made and removed in a slot whose changes are published, by
//! itself or by another. Seat 1 makes, sends, sets and removes, and seat 2 receives.
ghost use Rattle.std.specs.Prelude.{◌≡◌, ◌<◌, ◌≤◌};

use crate::day::Anything;
use crate::holds;
use crate::parts::{drafted, figures_of, not_shown, spent};
use crate::shared::{Day, apart_once};
use crate::slot_calls::{cut, entered, made, received, removed, sent};
use mq_arena::ArenaState;
use mq_calls::{Config, Errno};
use mq_system::{Keys, Names, Pages, Seat, SharedSlot};
use mq_table::{Id, MAX_SEQ};
use std::process::Abort;
use std::sync::Wait;

/// A seat shows so many messages and such a quota.
fn shows<N: Names>(rt: &impl Abort, seat: &mut Seat<N>, qnum: u64, qbytes: u64)
    requires slots { 0 < N.slots }
{
    let figures = figures_of(rt, seat);
    holds(rt, figures.qnum == qnum, "as many messages");
    holds(rt, figures.qbytes == qbytes, "the quota");
}

/// A quota of 100 bytes is set.
fn narrowed<N: Names, R: Abort + Wait>(
    rt: &R,
    slot: &mut SharedSlot<Anything, N>,
    seat: &mut Seat<N>,
)
    requires number { slot.old.whole.number ≡ 0 }
    ensures number { slot.new.whole.number ≡ 0 }
{
    entered(rt, slot, seat);
    match slot.set(rt, seat, Id::of(0, 0), 100, 7) {
        Ok(entry) => holds(rt, entry == 3, "it is set by entry 3"),
        Err(_) => panic!(rt; "out of memory"),
    }
}

/// What the first seat sees of a queue that is made and removed, by its own changes and by the
/// other's receipt.
pub(crate) fn followed<N: Names, R: Abort + Wait>(
    rt: &R,
    slot: SharedSlot<Anything, N>,
    keys: &mut Keys<N>,
    arena: &mut ArenaState<Pages<N>>,
    first: &mut Seat<N>,
    second: &mut Seat<N>,
    last_seq: u32,
) -> SharedSlot<Anything, N>
    requires slots { N.slots ≡ 1 }
    requires last_seq { last_seq ≡ N.last_seq }
    requires bounded { N.last_seq ≤ MAX_SEQ }
    requires number { slot.whole.number ≡ 0 }
{
    let mut slot = slot;
    not_shown(rt, first, Errno::EINVAL);
    made(rt, &mut slot, keys, first, last_seq);
    shows(rt, first, 0, 131_072);
    let text = drafted(rt, arena);
    sent(rt, &mut slot, first, text);
    shows(rt, first, 1, 131_072);
    cut(rt, &mut slot);
    shows(rt, first, 1, 131_072);
    let text = received(rt, &mut slot, second);
    spent(rt, arena, text);
    shows(rt, first, 0, 131_072);
    narrowed(rt, &mut slot, first);
    shows(rt, first, 0, 100);
    removed(rt, &mut slot, keys, first);
    not_shown(rt, first, Errno::EIDRM);
    slot
}

#[test]
fn a_seat_sees_a_queue_come_and_go(rt: HostRuntime) {
    let config = Config {
        height: 0,
        slots: 1,
        seats: 2,
        last_seq: 9,
    };
    match apart_once(&rt, rt.alloc(), config, Day::Seat) {
        Ok(()) => (),
        Err(_) => panic!(rt; "out of memory"),
    }
}
