//! Boards that are given up with their readers.

ghost use Rattle.std.specs.Prelude.{◌≡◌, ◌<◌, ◌≤◌, []};

use crate::posts::{are_of, close, open, send};
use mq_board::{BoardReader, BoardWriter, Naming, OpenedBoard, board};
use std::alloc::{AllocError, Global};
use std::marker::Brand;
use std::process::Abort;
use std::sync::Wait;
use std::test::*;

/// The reader has this place, and sees one message.
fn looks<J: Naming>(rt: &impl Abort, reader: &mut BoardReader<J>, place: u16) {
    assert!(rt; reader.place() == place, "at {place}");
    assert!(rt; reader.row().figures.qnum == 1, "seen at {place}");
}

/// The readers have the places from 1 on, and each sees the message that was sent.
fn look_all<J: Naming, R: Abort + Wait>(
    rt: &R,
    alloc: Global,
    writer: &mut BoardWriter<J>,
    readers: &mut Vec<BoardReader<J>>,
) -> Result<(), AllocError>
    requires empty { writer.old.events ≡ [] }
    requires idle { writer.old.pending ≡ [] }
{
    let mut queue = open(rt, alloc, writer)?;
    let sent = send(rt, alloc, &mut queue, writer);
    close(queue);
    sent?;
    let mut place = 0u16;
    for reader in readers.iter_mut() {
        place = place.wrapping_add(1);
        looks(rt, reader, place);
    }
    Ok(())
}

/// A board with so many readers shows them what happens, and is given up with all of them.
fn ended<J: Naming, R: Abort + Wait>(
    rt: &R,
    alloc: Global,
    opened: OpenedBoard,
    count: usize,
) -> Result<(), AllocError>
    requires named { (opened.history.seen.book ≡ J.board 0) × (opened.roll.seen.book ≡ J.roll 0) }
    requires readers { (0 < count) × (count ≤ 16) }
{
    let (mut writer, mut readers) = board::<J, R>(alloc, rt, opened, 0, count)?;
    let looked = look_all(rt, alloc, &mut writer, &mut readers);
    holds!(rt; readers.len() == count, "other readers");
    if are_of(readers.as_slice(), writer.board()) {
        writer.end(rt, readers);
    } else {
        panic!(rt; "a reader is of another board");
    }
    looked
}

fn ends<R: Abort + Wait>(rt: &R, alloc: Global, count: usize) -> Result<(), AllocError>
    requires { (0 < count) × (count ≤ 16) }
{
    ended::<Brand, R>(rt, alloc, OpenedBoard::new(), count)
}

#[test]
fn a_board_ends_with_one_two_and_sixteen_readers(rt: HostRuntime) -> Result<(), Fail> {
    ends(&rt, rt.alloc(), 1)?;
    ends(&rt, rt.alloc(), 2)?;
    ends(&rt, rt.alloc(), 16)?;
    Ok(())
}
