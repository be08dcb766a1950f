//! Boards that were opened together and are made one after another.

ghost use Rattle.std.specs.Prelude.{◌≡◌, vec_len};
ghost use Rattle.mq_board.specs.Named.{AreNamed};

use mq_board::{Naming, OpenedBoard, next_board, open_boards};
use std::alloc::{AllocError, Global};
use std::marker::Brand;
use std::process::Abort;
use std::sync::Wait;
use std::test::*;

/// Whether each of two boards has its number and two readers, and none is left.
fn play<J: Naming, R: Wait>(
    rt: &R,
    alloc: Global,
    opened: Vec<OpenedBoard>,
) -> Result<bool, AllocError>
    requires two { vec_len opened ≡ 2 }
    requires named { AreNamed J.board J.roll 0 opened.items }
{
    let mut opened = opened;
    let (writer, readers) = next_board::<J, R>(alloc, rt, &mut opened, 0, 2)?;
    let first = writer.board() == 0 && readers.len() == 2;
    writer.close(rt);
    let (writer, readers) = next_board::<J, R>(alloc, rt, &mut opened, 1, 2)?;
    let second = writer.board() == 1 && readers.len() == 2;
    writer.close(rt);
    Ok(first && second && opened.is_empty())
}

fn run<R: Wait>(rt: &R, alloc: Global) -> Result<bool, AllocError> {
    let opened = open_boards(alloc, 2)?;
    play::<Brand, R>(rt, alloc, opened)
}

#[test]
fn boards_that_are_opened_together_are_made_by_their_numbers(rt: HostRuntime) -> Result<(), Fail> {
    holds!(rt; run(&rt, rt.alloc())?);
    Ok(())
}
