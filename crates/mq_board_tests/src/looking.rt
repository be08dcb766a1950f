//! After each event of a board a reader takes a snapshot.

ghost use Rattle.std.specs.Prelude.{◌≡◌, []};

use crate::posts::{close, open, send};
use mq_board::{BoardReader, BoardWriter, Naming, OpenedBoard, board};
use std::alloc::{AllocError, Global};
use std::marker::Brand;
use std::process::Abort;
use std::sync::Wait;
use std::test::*;

/// The reader shows all that was published.
fn shows_all<J: Naming>(
    rt: &impl Abort,
    reader: &mut BoardReader<J>,
    writer: &BoardWriter<J>,
    what: &str,
) {
    holds!(rt; reader.row() == writer.row(), what);
}

/// Publishes a making and nine sendings, each of which the reader shows at once.
fn follow<J: Naming, R: Abort + Wait>(
    rt: &R,
    alloc: Global,
    writer: &mut BoardWriter<J>,
    reader: &mut BoardReader<J>,
) -> Result<(), AllocError>
    requires empty { writer.old.events ≡ [] }
    requires idle { writer.old.pending ≡ [] }
{
    let mut queue = open(rt, alloc, writer)?;
    shows_all(rt, reader, writer, "the making is not shown");
    for _ in 0..9 {
        if let Err(refused) = send(rt, alloc, &mut queue, writer) {
            close(queue);
            return Err(refused);
        }
        shows_all(rt, reader, writer, "a sending is not shown");
    }
    close(queue);
    Ok(())
}

/// One reader takes a snapshot after each of ten events, and another one only after the last.
fn followed<J: Naming, R: Abort + Wait>(
    rt: &R,
    alloc: Global,
    opened: OpenedBoard,
) -> Result<(), AllocError>
    requires { (opened.history.seen.book ≡ J.board 0) × (opened.roll.seen.book ≡ J.roll 0) }
{
    let (mut writer, mut readers) = board::<J, R>(alloc, rt, opened, 0, 2)?;
    let outcome = follow(rt, alloc, &mut writer, &mut readers[0]);
    shows_all(rt, &mut readers[1], &writer, "not all is shown at last");
    writer.close(rt);
    outcome
}

fn run<R: Abort + Wait>(rt: &R, alloc: Global) -> Result<(), AllocError> {
    followed::<Brand, R>(rt, alloc, OpenedBoard::new())
}

#[test]
fn a_reader_polls_after_each_of_ten_events(rt: HostRuntime) -> Result<(), Fail> {
    run(&rt, rt.alloc())?;
    Ok(())
}
