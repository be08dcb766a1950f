//! Construction of a board: its writer, and its readers at their places.

ghost use Rattle.std.specs.Prelude.{◌≡◌, ◌+◌, ◌<◌, ◌≤◌, [], vec_len, IfOk};
ghost use Rattle.mq_board.specs.Named.{AreNamed};
ghost use Rattle.mq_board.specs.Readers.{new_reader, new_readers};

use crate::copies::Copies;
use crate::history::HistoryWriter;
use crate::naming::Naming;
use crate::opened::OpenedBoard;
use crate::reader::BoardReader;
use crate::roll::Roll;
use crate::row::EMPTY;
use crate::snapshot::Snapshot;
use crate::told::ToldList;
use crate::writer::BoardWriter;
use std::alloc::{AllocError, Global};
use std::sync::Wait;

/// The most places of a board: so many readers can be inside its copies at once. Each publish
/// visits each place. As many readers as places never find all taken.
pub const MAX_PLACES: usize = 2;

/// So many boards, opened before there are names for them. `Err` means out of memory.
pub fn open_boards(alloc: Global, count: u8) -> Result<Vec<OpenedBoard>, AllocError>
    ensures { IfOk result (λ opened. vec_len opened ≡ count) }
{
    let mut opened = Vec::with_capacity(alloc, count as usize)?;
    for _board in 0..count {
        opened.push_reserved(OpenedBoard::new());
    }
    Ok(opened)
}

/// Makes the last of the boards, whose number this is, with so many readers. `Err` means out of
/// memory; the board is then given up.
pub fn next_board<J: Naming, R: Wait>(
    alloc: Global,
    rt: &R,
    opened: &mut Vec<OpenedBoard>,
    number: u8,
    readers: u16,
) -> Result<(BoardWriter<J>, Vec<BoardReader<J>>), AllocError>
    requires some { 0 < vec_len opened.old }
    requires named { AreNamed J.board J.roll number opened.old.items }
    requires readers { (0 < readers) × (readers ≤ 16) }
    ensures number { IfOk result (λ made. made.0.board ≡ number) }
    ensures empty { IfOk result (λ made. (made.0.events ≡ []) × (made.0.pending ≡ [])) }
    ensures out { IfOk result (λ made. made.0.home ≡ []) }
    ensures readers { IfOk result (λ made. made.1.items ≡ new_readers number readers) }
    ensures named { AreNamed J.board J.roll (number + 1) opened.new.items }
    ensures left { vec_len opened.new + 1 ≡ vec_len opened.old }
{
    let Some(next) = opened.pop() else {
        unreachable!()
    };
    board(alloc, rt, next, number, readers as usize)
}

/// Makes a board with this number and so many readers. `Err` means out of memory; what
/// was made is then given up, which waits for no reader.
pub fn board<J: Naming, R: Wait>(
    alloc: Global,
    rt: &R,
    opened: OpenedBoard,
    number: u8,
    readers: usize,
) -> Result<(BoardWriter<J>, Vec<BoardReader<J>>), AllocError>
    requires named { (opened.history.seen.book ≡ J.board number)
        × (opened.roll.seen.book ≡ J.roll number) }
    requires readers { (0 < readers) × (readers ≤ 16) }
    ensures number { IfOk result (λ made. made.0.board ≡ number) }
    ensures empty { IfOk result (λ made. (made.0.events ≡ []) × (made.0.pending ≡ [])) }
    ensures out { IfOk result (λ made. made.0.home ≡ []) }
    ensures readers { IfOk result (λ made. made.1.items ≡ new_readers number readers) }
{
    let OpenedBoard { history, roll } = opened;
    let history = history.writer::<J>(alloc, number)?;
    let roll = roll.number::<J>(number);
    let first = history.snapshot(EMPTY);
    let copies = Copies::new(alloc, rt, &first, readers.min(MAX_PLACES))?;
    let Ok(made) = make_readers(alloc, &copies, &roll, &first, &history, readers as u16) else {
        copies.close(rt);
        return Err(AllocError);
    };
    Ok((BoardWriter::new(copies, history, roll), made))
}

/// So many readers, with the places from 1 on.
fn make_readers<J: Naming>(
    alloc: Global,
    copies: &Copies<J>,
    roll: &Roll<J>,
    first: &Snapshot,
    history: &HistoryWriter<J>,
    count: u16,
) -> Result<Vec<BoardReader<J>>, AllocError>
    requires board { (roll.now.board ≡ first.now.board) × (history.now.board ≡ first.now.board) }
    requires empty { first.now.events ≡ [] }
    requires named { first.now.book ≡ J.board first.now.board }
    requires count { count ≤ 16 }
    ensures { IfOk result (λ readers. readers.items ≡ new_readers first.now.board count) }
{
    let mut readers = Vec::new(alloc);
    for given in 0..count {
        let reader = make_reader(copies, roll, first, history, given)?;
        readers.push(reader)?;
    }
    Ok(readers)
}

/// The next reader, where so many have their place.
fn make_reader<J: Naming>(
    copies: &Copies<J>,
    roll: &Roll<J>,
    first: &Snapshot,
    history: &HistoryWriter<J>,
    given: u16,
) -> Result<BoardReader<J>, AllocError>
    requires board { (roll.now.board ≡ first.now.board) × (history.now.board ≡ first.now.board) }
    requires empty { first.now.events ≡ [] }
    requires named { first.now.book ≡ J.board first.now.board }
    requires given { given < 16 }
    ensures { IfOk result (λ reader. reader ≡ new_reader first.now.board (given + 1)) }
{
    let Some(place) = roll.give_out(given) else {
        return Err(AllocError);
    };
    let counter = history.counter()?;
    let copies = copies.factory()?;
    let front = ToldList::new(first.duplicate());
    Ok(BoardReader::new(copies, place, front, counter))
}
