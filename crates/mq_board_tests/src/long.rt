//! Long runs of events, for which a board takes no memory, alone and beside readers.

ghost use Rattle.std.specs.Prelude.{◌≡◌, ◌+◌, ◌*◌, ◌<◌, ◌≤◌, ◌^◌, [], length, IfOk};

use crate::posts::publish;
use mq_board::{BoardReader, BoardWriter, Naming, OpenedBoard, board};
use mq_queue::{BoardRow, Event, Figures, MSGMNB, NO_FIGURES};
use std::alloc::{AllocError, Global};
use std::marker::Brand;
use std::process::Abort;
use std::sync::Wait;
use std::test::*;
use std::thread::{Threads, join, map_vec};

/// How many queues are made and removed.
const QUEUES: u64 = 100_000;

/// Publishes that a queue is made at this moment, and then that it is removed.
fn come_and_go<J: Naming, R: Wait>(
    rt: &R,
    writer: &mut BoardWriter<J>,
    moment: u64,
) -> Result<(), AllocError>
    requires length { length writer.old.events < 2 ^ 62 }
    requires idle { writer.old.pending ≡ [] }
    ensures { IfOk result (λ _. (length writer.new.events ≡ length writer.old.events + 2)
        × (writer.new.pending ≡ [])) }
{
    let made = Event::Made {
        seat: 1,
        moment,
        key: 9,
    };
    if writer.row().made >= 1 << 20 {
        return Err(AllocError);
    }
    publish(
        rt,
        writer,
        made,
        Figures {
            qbytes: MSGMNB,
            ctime: moment,
            ..NO_FIGURES
        },
    )?;
    let removed = Event::Removed { seat: 1, moment };
    publish(rt, writer, removed, NO_FIGURES)
}

/// Publishes the events of the queues from the one with this number on, before that with the other.
fn run_long<J: Naming, R: Wait>(
    rt: &R,
    writer: &mut BoardWriter<J>,
    from: u64,
    to: u64,
) -> Result<(), AllocError>
    requires few { (from ≤ to) × (to ≤ QUEUES) }
    requires length { length writer.old.events ≡ 2 * from }
    requires idle { writer.old.pending ≡ [] }
    ensures { IfOk result (λ _. (length writer.new.events ≡ 2 * to) × (writer.new.pending ≡ [])) }
{
    for turn in from..to {
        come_and_go(rt, writer, turn + 1)?;
    }
    Ok(())
}

/// What a reader shows after half of the events, and after all.
fn ran<J: Naming, R: Wait>(
    rt: &R,
    alloc: Global,
    opened: OpenedBoard,
) -> Result<[BoardRow; 2], AllocError>
    requires { (opened.history.seen.book ≡ J.board 0) × (opened.roll.seen.book ≡ J.roll 0) }
{
    let (mut writer, mut readers) = board::<J, R>(alloc, rt, opened, 0, 2)?;
    let half = run_long(rt, &mut writer, 0, QUEUES / 2);
    let first = readers[0].row();
    let rest = match half {
        Ok(()) => run_long(rt, &mut writer, QUEUES / 2, QUEUES),
        Err(error) => Err(error),
    };
    let last = readers[0].row();
    writer.close(rt);
    rest?;
    Ok([first, last])
}

fn run<R: Wait>(rt: &R, alloc: Global) -> Result<[BoardRow; 2], AllocError> {
    ran::<Brand, R>(rt, alloc, OpenedBoard::new())
}

#[test]
fn two_hundred_thousand_events_are_shown(rt: HostRuntime) -> Result<(), Fail> {
    let [first, last] = run(&rt, rt.alloc())?;
    holds!(rt; first.made == 50_000 && !first.live && first.key == 0);
    holds!(rt; last.made == 100_000 && !last.live && last.key == 0);
    Ok(())
}

/// After how many events this row is shown; `None` where it is the row of no prefix of them.
fn place_of(row: BoardRow) -> Option<u64> {
    let made = u64::from(row.made);
    let figures = Figures {
        qbytes: MSGMNB,
        ctime: made,
        ..NO_FIGURES
    };
    if row.live {
        let is_whole = made > 0 && row.key == 9 && row.figures == figures;
        is_whole.then_some((2 * made).saturating_sub(1))
    } else {
        (row.key == 0 && row.figures == NO_FIGURES).then_some(2 * made)
    }
}

/// A reader that took many snapshots, and whether each was that of a prefix and of none before.
#[derive(Drop)]
struct Looked<J: Naming> {
    reader: BoardReader<J>,
    is_right: bool,
}

fn look_often<J: Naming>(reader: BoardReader<J>) -> Looked<J> {
    let mut reader = reader;
    let mut last = 0;
    let mut is_right = true;
    for _ in 0..20_000 {
        match place_of(reader.row()) {
            Some(place) if place >= last => last = place,
            _ => is_right = false,
        }
    }
    Looked { reader, is_right }
}

/// Whether all readers saw rows of prefixes alone, each no shorter than the one before, and all
/// events at last.
fn watched<J: Naming + Send + Sync, R: Threads + Wait + Sync>(
    rt: &R,
    alloc: Global,
    opened: OpenedBoard,
    readers: usize,
) -> Result<bool, AllocError>
    requires named { (opened.history.seen.book ≡ J.board 0) × (opened.roll.seen.book ≡ J.roll 0) }
    requires readers { (0 < readers) × (readers ≤ 16) }
{
    let (mut writer, readers) = board::<J, R>(alloc, rt, opened, 0, readers)?;
    let (ran, looked) = join(
        rt,
        || run_long(rt, &mut writer, 0, QUEUES),
        || map_vec(rt, readers, &|reader| look_often(reader)),
    );
    let mut right = true;
    if let Ok(looked) = looked {
        for Looked { reader, is_right } in looked {
            let mut reader = reader;
            right = right && is_right && place_of(reader.row()) == Some(2 * QUEUES);
        }
    }
    writer.close(rt);
    ran?;
    Ok(right)
}

fn watched_by<R: Threads + Wait + Sync>(
    rt: &R,
    alloc: Global,
    readers: usize,
) -> Result<bool, AllocError>
    requires { (0 < readers) × (readers ≤ 16) }
{
    watched::<Brand, R>(rt, alloc, OpenedBoard::new(), readers)
}

#[test]
fn rows_are_those_of_prefixes_beside_two_readers(rt: HostRuntime) -> Result<(), Fail> {
    holds!(rt; watched_by(&rt, rt.alloc(), 2)?);
    Ok(())
}

#[test]
fn rows_are_those_of_prefixes_beside_sixteen_readers(rt: HostRuntime) -> Result<(), Fail> {
    holds!(rt; watched_by(&rt, rt.alloc(), 16)?);
    Ok(())
}
