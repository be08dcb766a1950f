//! Readers that take snapshots while a writer publishes.

ghost use Rattle.std.specs.Prelude.{◌≡◌, ◌<◌, ◌≤◌, []};

use crate::posts::{close, learns, open, send};
use mq_board::{BoardReader, BoardWriter, Naming, OpenedBoard, board};
use std::alloc::{AllocError, Global};
use std::marker::Brand;
use std::process::Abort;
use std::sync::Wait;
use std::test::*;
use std::thread::{Threads, join, map_vec};

/// A reader that took many snapshots, and whether a count in one was below one before.
#[derive(Drop)]
struct Looked<J: Naming> {
    reader: BoardReader<J>,
    fell: bool,
}

fn look_often<J: Naming>(reader: BoardReader<J>) -> Looked<J> {
    let mut reader = reader;
    let mut last = 0;
    let mut fell = false;
    for _ in 0..1000 {
        let seen = reader.row().figures.qnum;
        if seen < last {
            fell = true;
        }
        last = seen;
    }
    Looked { reader, fell }
}

/// Publishes a making and a hundred sendings.
fn publish_often<J: Naming, R: Wait>(
    rt: &R,
    alloc: Global,
    writer: &mut BoardWriter<J>,
) -> Result<(), AllocError>
    requires empty { writer.old.events ≡ [] }
    requires idle { writer.old.pending ≡ [] }
{
    let mut queue = open(rt, alloc, writer)?;
    for _ in 0..100 {
        if let Err(refused) = send(rt, alloc, &mut queue, writer) {
            close(queue);
            return Err(refused);
        }
    }
    close(queue);
    Ok(())
}

/// Whether each reader saw no count fall, took one more snapshot and then learned the published
/// list, with a hundred messages both times.
fn all_saw<J: Naming>(writer: &mut BoardWriter<J>, looked: Vec<Looked<J>>) -> bool {
    let mut right = true;
    for Looked { reader, fell } in looked {
        let mut reader = reader;
        let shown = reader.row().figures.qnum;
        let learned = learns(&mut reader, writer.tell());
        let answered = reader.row().figures.qnum;
        if fell || shown != 100 || !learned || answered != 100 {
            right = false;
        }
    }
    right
}

fn watched<J: Naming + Send + Sync, R: Threads + Wait + Sync>(
    rt: &R,
    alloc: Global,
    opened: OpenedBoard,
    readers: usize,
) -> Result<bool, AllocError>
    requires named { (opened.history.seen.book ≡ J.board 0) × (opened.roll.seen.book ≡ J.roll 0) }
    requires readers { (0 < readers) × (readers ≤ 16) }
{
    let (mut writer, readers) = board::<J, R>(alloc, rt, opened, 0, readers)?;
    let (published, looked) = join(
        rt,
        || publish_often(rt, alloc, &mut writer),
        || map_vec(rt, readers, &|reader| look_often(reader)),
    );
    let right = match looked {
        Ok(looked) => Ok(all_saw(&mut writer, looked)),
        Err(refused) => Err(refused),
    };
    writer.close(rt);
    published?;
    right
}

fn watched_by<R: Threads + Wait + Sync>(
    rt: &R,
    alloc: Global,
    readers: usize,
) -> Result<bool, AllocError>
    requires { (0 < readers) × (readers ≤ 16) }
{
    watched::<Brand, R>(rt, alloc, OpenedBoard::new(), readers)
}

#[test]
fn what_waits_never_falls_beside_two_readers(rt: HostRuntime) -> Result<(), Fail> {
    let right = watched_by(&rt, rt.alloc(), 2)?;
    holds!(rt; right);
    Ok(())
}

#[test]
fn what_waits_never_falls_beside_sixteen_readers(rt: HostRuntime) -> Result<(), Fail> {
    let right = watched_by(&rt, rt.alloc(), 16)?;
    holds!(rt; right);
    Ok(())
}
