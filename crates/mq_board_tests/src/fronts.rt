//! What a reader sees and learns.

ghost use Rattle.std.specs.Prelude.{◌≡◌, [], length};

use crate::posts::{close, learns, open, send};
use mq_board::{BoardReader, BoardWriter, Naming, OpenedBoard, ToldList, board};
use mq_queue::BoardRow;
use std::alloc::{AllocError, Global};
use std::marker::Brand;
use std::process::Abort;
use std::sync::Wait;
use std::test::*;

/// What two readers saw, of a making and a sending.
#[derive(Drop)]
struct Seen {
    before: BoardRow,
    made: BoardRow,
    sent: BoardRow,
    told: BoardRow,
    learned: Learned,
}

/// What two readers learned.
#[derive(Drop)]
struct Learned {
    /// The first one learned a list that is shorter than its front, and the list of its front.
    shorter: bool,
    same: bool,
    /// The second one, which had taken no snapshot, learned that list.
    longer: bool,
    row: BoardRow,
}

/// The first reader learns an earlier list, and the first and the second one the last list.
fn tell<J: Naming>(
    earlier: ToldList<J>,
    writer: &mut BoardWriter<J>,
    readers: &mut [BoardReader<J>],
) -> Learned
    requires three { length readers.old ≡ 3 }
{
    Learned {
        shorter: learns(&mut readers[0], earlier),
        same: learns(&mut readers[0], writer.tell()),
        longer: learns(&mut readers[1], writer.tell()),
        row: readers[1].row(),
    }
}

fn follow<J: Naming, R: Wait>(
    rt: &R,
    alloc: Global,
    writer: &mut BoardWriter<J>,
    readers: &mut [BoardReader<J>],
) -> Result<Seen, AllocError>
    requires empty { writer.old.events ≡ [] }
    requires idle { writer.old.pending ≡ [] }
    requires three { length readers.old ≡ 3 }
{
    let before = readers[0].row();
    let nothing = writer.tell();
    let mut queue = open(rt, alloc, writer)?;
    let made = readers[0].row();
    let outcome = send(rt, alloc, &mut queue, writer);
    close(queue);
    outcome?;
    Ok(Seen {
        before,
        made,
        sent: readers[0].row(),
        told: writer.row(),
        learned: tell(nothing, writer, readers),
    })
}

/// What the rows are of a reader that saw all, and of one that never took a snapshot, once the
/// board was given up.
#[derive(Drop)]
struct Left {
    saw_all: BoardRow,
    never_looked: BoardRow,
}

/// What the first two saw, and what is left of the board to those that are out.
fn followed<J: Naming, R: Wait>(
    rt: &R,
    alloc: Global,
    opened: OpenedBoard,
) -> Result<(Seen, Left), AllocError>
    requires { (opened.history.seen.book ≡ J.board 0) × (opened.roll.seen.book ≡ J.roll 0) }
{
    let (mut writer, mut readers) = board::<J, R>(alloc, rt, opened, 0, 3)?;
    let seen = follow(rt, alloc, &mut writer, readers.as_mut_slice());
    let left = Left {
        saw_all: readers[0].row(),
        never_looked: readers[2].row(),
    };
    writer.close(rt);
    Ok((seen?, left))
}

fn run<R: Wait>(rt: &R, alloc: Global) -> Result<(Seen, Left), AllocError> {
    followed::<Brand, R>(rt, alloc, OpenedBoard::new())
}

#[test]
fn a_reader_looks(rt: HostRuntime) -> Result<(), Fail> {
    let (seen, _left) = run(&rt, rt.alloc())?;
    holds!(rt; seen.before.made == 0 && !seen.before.live);
    holds!(rt; seen.made.made == 1 && seen.made.live && seen.made.key == 7);
    holds!(rt; seen.made.figures.qbytes == 131_072 && seen.made.figures.ctime == 10);
    holds!(rt; seen.sent.figures.qnum == 1 && seen.sent.figures.stime == 20);
    holds!(rt; seen.sent == seen.told);
    Ok(())
}

#[test]
fn a_list_is_learned_that_is_not_shorter(rt: HostRuntime) -> Result<(), Fail> {
    let (seen, _left) = run(&rt, rt.alloc())?;
    let Learned {
        shorter,
        same,
        longer,
        row,
    } = seen.learned;
    holds!(rt; !shorter);
    holds!(rt; same);
    holds!(rt; longer);
    holds!(rt; row == seen.told);
    Ok(())
}

#[test]
fn a_reader_of_a_board_given_up_finds_what_was_published(rt: HostRuntime) -> Result<(), Fail> {
    let (seen, left) = run(&rt, rt.alloc())?;
    holds!(rt; left.saw_all == seen.told);
    holds!(rt; left.never_looked == seen.told);
    Ok(())
}
