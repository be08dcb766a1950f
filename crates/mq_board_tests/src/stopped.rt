//! Readers that stop inside the copies of a board, and what others read and publish meanwhile.

ghost use Rattle.std.specs.Prelude.{◌≡◌, ◌<◌, ◌≤◌, ◌∷◌, [], pos, IfOk};

use crate::posts::publish;
use mq_board::{BoardReader, BoardReading, BoardWriter, MAX_PLACES, Naming, OpenedBoard, board};
use mq_queue::{Event, Figures, MSGMNB};
use std::alloc::{AllocError, Global};
use std::hint::spin_loop;
use std::marker::Brand;
use std::process::Abort;
use std::sync::Wait;
use std::sync::atomic::{AtomicU64, Ordering};
use std::test::*;
use std::thread::{Threads, join};

pub(crate) const MADE: Event = Event::Made {
    seat: 1,
    moment: 3,
    key: 9,
};

pub(crate) const AFTER_MADE: Figures = Figures {
    qnum: 0,
    cbytes: 0,
    qbytes: MSGMNB,
    stime: 0,
    rtime: 0,
    ctime: 3,
    lspid: 0,
    lrpid: 0,
};

const REMOVED: Event = Event::Removed { seat: 1, moment: 4 };

const AFTER_REMOVED: Figures = Figures {
    qnum: 0,
    cbytes: 0,
    qbytes: 0,
    stime: 0,
    rtime: 0,
    ctime: 0,
    lspid: 0,
    lrpid: 0,
};

/// Enters the copy that is published now, and stays there.
pub(crate) fn stop<J: Naming>(rt: &impl Abort, reader: &BoardReader<J>) -> BoardReading<J> {
    reader.enter().expect(rt, "no place is free")
}

/// Publishes that a queue is made.
fn make<J: Naming, R: Wait>(rt: &R, writer: &mut BoardWriter<J>) -> Result<(), AllocError>
    requires empty { writer.old.events ≡ [] }
    requires idle { writer.old.pending ≡ [] }
    ensures { IfOk result (λ _. (writer.new.events ≡ Event.Made 1 3 (pos 9) ∷ [])
        × (writer.new.pending ≡ [])) }
{
    publish(rt, writer, MADE, AFTER_MADE)
}

/// How many queues a reader sees after a making while others are stopped inside a copy, and after
/// they have left.
fn seen_beside<J: Naming, R: Abort + Wait>(
    rt: &R,
    alloc: Global,
    opened: OpenedBoard,
    readers: usize,
    stopped: usize,
) -> Result<(u32, u32), AllocError>
    requires named { (opened.history.seen.book ≡ J.board 0) × (opened.roll.seen.book ≡ J.roll 0) }
    requires readers { (0 < readers) × (readers ≤ 16) }
{
    let (mut writer, mut readers) = board::<J, R>(alloc, rt, opened, 0, readers)?;
    let Ok(mut inside) = Vec::with_capacity(alloc, stopped) else {
        writer.close(rt);
        return Err(AllocError);
    };
    let mut last = readers.pop().expect(rt, "no reader");
    for _ in 0..stopped {
        if let Err(refused) = inside.push(stop(rt, &last)) {
            refused.value.leave();
        }
    }
    let made = make(rt, &mut writer);
    let meanwhile = last.row().made;
    while let Some(stopped) = inside.pop() {
        stopped.leave();
    }
    inside.destroy_empty();
    let then = last.row().made;
    writer.close(rt);
    made?;
    Ok((meanwhile, then))
}

fn seen_by_last_of<R: Abort + Wait>(
    rt: &R,
    alloc: Global,
    readers: usize,
    stopped: usize,
) -> Result<(u32, u32), AllocError>
    requires { (0 < readers) × (readers ≤ 16) }
{
    seen_beside::<Brand, R>(rt, alloc, OpenedBoard::new(), readers, stopped)
}

#[test]
fn a_reader_that_finds_all_places_taken_answers_its_front(rt: HostRuntime) -> Result<(), Fail> {
    let seen = seen_by_last_of(&rt, rt.alloc(), 16, MAX_PLACES)?;
    assert_eq!(rt; seen, (0, 1));
    Ok(())
}

#[test]
fn as_many_readers_as_places_never_find_all_taken(rt: HostRuntime) -> Result<(), Fail> {
    for readers in 1..MAX_PLACES + 1 {
        let seen = seen_by_last_of(&rt, rt.alloc(), readers, readers - 1)?;
        assert_eq!(rt; seen, (1, 1), "of {readers}");
    }
    Ok(())
}

/// Waits until so much was counted.
fn wait_until<R: Wait>(rt: &R, counted: &AtomicU64, wanted: u64) {
    for _ in rt.forever() {
        if counted.load(Ordering::SeqCst) >= wanted {
            return;
        }
    }
    unreachable!()
}

/// Publishes a making once a reader is inside, and then a removal. `step` is 1 where the reader is
/// inside, 2 after the first change, and 3 after the second.
fn make_and_remove<J: Naming, R: Wait>(
    rt: &R,
    writer: &mut BoardWriter<J>,
    step: &AtomicU64,
) -> Result<(), AllocError>
    requires empty { writer.old.events ≡ [] }
    requires idle { writer.old.pending ≡ [] }
{
    wait_until(rt, step, 1);
    make(rt, writer)?;
    step.store(2, Ordering::SeqCst);
    publish(rt, writer, REMOVED, AFTER_REMOVED)?;
    step.store(3, Ordering::SeqCst);
    Ok(())
}

/// Stops inside the copy until some time after the first change, and then leaves. Whether the
/// second was published meanwhile.
fn stop_for_long<J: Naming, R: Abort + Wait>(
    rt: &R,
    reader: &BoardReader<J>,
    step: &AtomicU64,
) -> bool {
    let stopped = stop(rt, reader);
    step.store(1, Ordering::SeqCst);
    wait_until(rt, step, 2);
    for _turn in 0..1_000_000 {
        spin_loop();
    }
    let passed = step.load(Ordering::SeqCst) > 2;
    stopped.leave();
    passed
}

/// How many queues a reader sees after both changes, and whether the second passed the one that
/// stopped inside.
fn changed_beside<J: Naming + Send + Sync, R: Abort + Threads + Wait + Sync>(
    rt: &R,
    alloc: Global,
    opened: OpenedBoard,
) -> Result<(u32, bool), AllocError>
    requires named { (opened.history.seen.book ≡ J.board 0) × (opened.roll.seen.book ≡ J.roll 0) }
{
    let (mut writer, mut readers) = board::<J, R>(alloc, rt, opened, 0, 2)?;
    let step = AtomicU64::new(0);
    let (changed, passed) = join(
        rt,
        || make_and_remove(rt, &mut writer, &step),
        || stop_for_long(rt, &readers[0], &step),
    );
    let row = readers[1].row();
    writer.close(rt);
    changed?;
    Ok((row.made, passed || row.live))
}

fn changed_by<R: Abort + Threads + Wait + Sync>(
    rt: &R,
    alloc: Global,
) -> Result<(u32, bool), AllocError> {
    changed_beside::<Brand, R>(rt, alloc, OpenedBoard::new())
}

#[test]
fn the_next_but_one_change_waits_for_a_reader_inside(rt: HostRuntime) -> Result<(), Fail> {
    assert_eq!(rt; changed_by(&rt, rt.alloc())?, (1, false));
    Ok(())
}
