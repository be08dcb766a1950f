//! A list of calls of a queue whose notice is a board's writer, each made once more where there was
//! no memory. It is run with each allocation refused in turn, and must answer as if none had been.

ghost use Rattle.std.specs.Prelude.{◌≡◌, []};
ghost use Rattle.mq_board_tests.specs.Shown.{IsPending, IsShown};

use crate::answers::{
    CHANGED, RECEIVED, REMOVED, SENT, is_whole, quota_of, row_after, type_of, wanted_at,
};
use crate::calls::{make, receive, remove, send, set, text};
use crate::posts::{Queue, are_of};
use mq_board::{BoardReader, BoardWriter, Naming, OpenedBoard, board};
use mq_message::{Message, discard};
use std::alloc::{AllocError, Global};
use std::marker::Brand;
use std::process::Abort;
use std::sync::Wait;

fn shows<J: Naming>(rt: &impl Abort, reader: &mut BoardReader<J>, place: u64) {
    assert!(rt; reader.row() == row_after(place), "after {place}");
}

fn sends<J: Naming>(
    rt: &impl Abort,
    alloc: Global,
    queue: &mut Queue,
    writer: &mut BoardWriter<J>,
    reader: &mut BoardReader<J>,
    place: u64,
)
    requires { IsShown queue.old.base queue.old.tail writer.old }
    ensures { IsPending queue.new.base queue.new.tail writer.new }
{
    let message = Message {
        mtype: type_of(place),
        sender: 1,
        tag: place,
        body: text(rt, alloc, &place.to_le_bytes()),
    };
    let at = send(rt, queue, writer, reader, message, place);
    assert!(rt; at == place, "sent at {at}");
}

fn sets<J: Naming>(
    rt: &impl Abort,
    queue: &mut Queue,
    writer: &mut BoardWriter<J>,
    reader: &mut BoardReader<J>,
    place: u64,
)
    requires { IsShown queue.old.base queue.old.tail writer.old }
    ensures { IsPending queue.new.base queue.new.tail writer.new }
{
    let at = set(rt, queue, writer, reader, quota_of(place), place);
    assert!(rt; at == place, "set at {at}");
}

fn receives<J: Naming>(
    rt: &impl Abort,
    queue: &mut Queue,
    writer: &mut BoardWriter<J>,
    reader: &mut BoardReader<J>,
    place: u64,
)
    requires { IsShown queue.old.base queue.old.tail writer.old }
    ensures { IsPending queue.new.base queue.new.tail writer.new }
{
    let (selection, sent) = wanted_at(place);
    let received = receive(rt, queue, writer, reader, selection, place);
    assert!(rt;
        received.entry == place && received.place == sent,
        "at {place}"
    );
    assert!(rt; is_whole(&received), "not whole at {place}");
}

/// Makes the call of this place.
fn calls<J: Naming>(
    rt: &impl Abort,
    alloc: Global,
    queue: &mut Queue,
    writer: &mut BoardWriter<J>,
    reader: &mut BoardReader<J>,
    place: u64,
)
    requires { IsShown queue.old.base queue.old.tail writer.old }
    ensures { IsPending queue.new.base queue.new.tail writer.new }
{
    if place <= SENT {
        sends(rt, alloc, queue, writer, reader, place);
    } else if CHANGED < place && place <= RECEIVED {
        receives(rt, queue, writer, reader, place);
    } else {
        sets(rt, queue, writer, reader, place);
    }
}

/// Makes all calls, and takes a snapshot after each.
fn follow<J: Naming, R: Abort + Wait>(
    rt: &R,
    alloc: Global,
    writer: &mut BoardWriter<J>,
    reader: &mut BoardReader<J>,
)
    requires empty { writer.old.events ≡ [] }
    requires idle { writer.old.pending ≡ [] }
{
    let mut queue = make(rt, alloc, writer, reader);
    shows(rt, reader, 0);
    for place in 1..REMOVED {
        calls(rt, alloc, &mut queue, writer, reader, place);
        writer.publish(rt);
        shows(rt, reader, place);
    }
    let (log, waiting) = remove(rt, queue, writer, reader, REMOVED);
    writer.publish(rt);
    shows(rt, reader, REMOVED);
    let left = waiting.len();
    discard(waiting);
    holds!(rt; left == 0 && log.len() == REMOVED + 1);
}

/// `Err` is returned before the first call: the board was out of memory.
fn listed<J: Naming, R: Abort + Wait>(
    rt: &R,
    alloc: Global,
    opened: OpenedBoard,
) -> Result<(), AllocError>
    requires named { (opened.history.seen.book ≡ J.board 0) × (opened.roll.seen.book ≡ J.roll 0) }
{
    let (mut writer, mut readers) = board::<J, R>(alloc, rt, opened, 0, 2)?;
    follow(rt, alloc, &mut writer, &mut readers[0]);
    shows(rt, &mut readers[1], REMOVED);
    let told = writer.row();
    if are_of(readers.as_slice(), writer.board()) {
        writer.end(rt, readers);
    } else {
        panic!(rt; "readers of another board");
    }
    holds!(rt; told == row_after(REMOVED));
    Ok(())
}

fn run<R: Abort + Wait>(rt: &R, alloc: Global) -> Result<(), AllocError> {
    listed::<Brand, R>(rt, alloc, OpenedBoard::new())
}

#[test]
fn a_list_of_calls_answers_as_if_memory_had_never_run_out(rt: HostRuntime) {
    if run(&rt, rt.alloc()).is_err() {
        holds!(rt; run(&rt, rt.alloc()).is_ok(), "no memory for a board");
    }
}
