//! Events of a list that are published at once, and what a reader sees meanwhile.

ghost use Rattle.std.specs.Prelude.{◌≡◌, [], true};
ghost use mathlib.Core.List.{IsPrefix};
ghost use Rattle.mq_queue.specs.Row.{row};

use crate::posts::publish;
use crate::stopped::{AFTER_MADE, MADE, stop};
use mq_board::{BoardReader, BoardWriter, Naming, OpenedBoard, Rest, board};
use mq_queue::{BoardRow, Event, Figures};
use std::alloc::{AllocError, Global};
use std::marker::Brand;
use std::process::Abort;
use std::sync::Wait;
use std::test::*;

const ROW_MADE: BoardRow = BoardRow {
    made: 1,
    live: true,
    key: 9,
    figures: AFTER_MADE,
};

const CHANGED: Event = Event::Changed {
    seat: 1,
    moment: 4,
    qbytes: 100,
};

const SENT: Event = Event::Sent {
    seat: 2,
    moment: 5,
    tag: 6,
    mtype: 7,
    length: 8,
};

const AFTER_BATCH: Figures = Figures {
    qnum: 1,
    cbytes: 8,
    qbytes: 100,
    stime: 5,
    rtime: 0,
    ctime: 4,
    lspid: 2,
    lrpid: 0,
};

const ROW_BATCH: BoardRow = BoardRow {
    made: 1,
    live: true,
    key: 9,
    figures: AFTER_BATCH,
};

const AFTER_ALONE: Figures = Figures {
    qnum: 2,
    cbytes: 16,
    qbytes: 100,
    stime: 5,
    rtime: 0,
    ctime: 4,
    lspid: 2,
    lrpid: 0,
};

/// The events of a `Vec` from a number on.
struct Tail;

impl Rest<Vec<Event>> for Tail {
    ghost use Rattle.std.specs.Prelude.{drop};

    ghost rest = { λ list from. drop from list.items };
}

/// Publishes all events of the list that are not published yet, with their row.
fn publish_list<J: Naming, R: Wait>(
    rt: &R,
    writer: &mut BoardWriter<J>,
    list: &Vec<Event>,
    whole: BoardRow,
)
    requires begins { IsPrefix writer.old.events list.now.items }
    requires row { whole ≡ row list.now.items }
    requires live { whole.live ≡ true }
    ensures events { writer.new.events ≡ list.now.items }
    ensures pending { writer.new.pending ≡ writer.old.pending }
{
    writer.publish_rest::<Vec<Event>, Tail, R>(rt, list, list.len() as u64, whole);
}

/// What a reader sees of a board, and how many events its writer has published.
#[derive(Drop)]
struct Seen {
    row: BoardRow,
    told: BoardRow,
    count: u64,
}

fn see<J: Naming>(writer: &mut BoardWriter<J>, reader: &mut BoardReader<J>) -> Seen
    ensures { writer.new ≡ writer.old }
{
    Seen {
        row: reader.row(),
        told: writer.tell().row(),
        count: writer.count(),
    }
}

/// What is seen after a batch of one event, before and after one of two more, and after an event
/// that is published alone. Another reader is inside a copy while the second batch is published: it
/// would never end if each event changed the copies.
#[derive(Drop)]
struct Steps {
    one: Seen,
    before: Seen,
    batch: Seen,
    alone: Seen,
}

fn publish_batches<J: Naming, R: Abort + Wait>(
    rt: &R,
    alloc: Global,
    writer: &mut BoardWriter<J>,
    other: &BoardReader<J>,
    reader: &mut BoardReader<J>,
) -> Result<Steps, AllocError>
    requires empty { writer.old.events ≡ [] }
    requires idle { writer.old.pending ≡ [] }
{
    let mut list = Vec::with_capacity(alloc, 3)?;
    list.push_reserved(MADE);
    publish_list(rt, writer, &list, ROW_MADE);
    let one = see(writer, reader);
    list.push_reserved(CHANGED);
    list.push_reserved(SENT);
    let inside = stop(rt, other);
    let before = see(writer, reader);
    publish_list(rt, writer, &list, ROW_BATCH);
    let batch = see(writer, reader);
    inside.leave();
    publish(rt, writer, SENT, AFTER_ALONE)?;
    Ok(Steps {
        one,
        before,
        batch,
        alone: see(writer, reader),
    })
}

fn shown_beside<J: Naming, R: Abort + Wait>(
    rt: &R,
    alloc: Global,
    opened: OpenedBoard,
) -> Result<Steps, AllocError>
    requires named { (opened.history.seen.book ≡ J.board 0) × (opened.roll.seen.book ≡ J.roll 0) }
{
    let (mut writer, mut readers) = board::<J, R>(alloc, rt, opened, 0, 2)?;
    let mut reader = readers.pop().expect(rt, "no reader");
    let steps = publish_batches(rt, alloc, &mut writer, &readers[0], &mut reader);
    writer.close(rt);
    steps
}

fn run<R: Abort + Wait>(rt: &R, alloc: Global) -> Result<Steps, AllocError> {
    shown_beside::<Brand, R>(rt, alloc, OpenedBoard::new())
}

/// Whether the reader and the writer both have this row, after so many events.
fn is_seen(seen: &Seen, row: BoardRow, count: u64) -> bool {
    seen.row == row && seen.told == row && seen.count == count
}

#[test]
fn the_events_of_a_batch_are_shown_at_once(rt: HostRuntime) -> Result<(), Fail> {
    let steps = run(&rt, rt.alloc())?;
    holds!(rt; is_seen(&steps.one, ROW_MADE, 1));
    holds!(rt; is_seen(&steps.before, ROW_MADE, 1));
    holds!(rt; is_seen(&steps.batch, ROW_BATCH, 3));
    Ok(())
}

#[test]
fn an_event_alone_follows_a_batch(rt: HostRuntime) -> Result<(), Fail> {
    let Seen { row, told, count } = run(&rt, rt.alloc())?.alone;
    holds!(rt; row.made == 1 && row.live && row.key == 9);
    holds!(rt; row.figures == AFTER_ALONE);
    holds!(rt; told == row);
    holds!(rt; count == 4);
    Ok(())
}
