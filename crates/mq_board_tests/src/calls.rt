//! The calls of a queue whose notice is a board's writer, each made once more where it was refused:
//! the first reader then sees no change, and what was refused is returned.

ghost use Rattle.std.specs.Prelude.{◌≡◌, []};
ghost use Rattle.mq_board_tests.specs.Shown.{IsPending, IsShown};

use crate::posts::{Queue, close, open};
use mq_board::{BoardReader, BoardWriter, Naming};
use mq_message::{Message, Selection, VecBody};
use mq_queue::{BoardRow, Log, Received};
use mq_select::ListWaiting;
use std::alloc::Global;
use std::process::Abort;
use std::sync::Wait;

fn sees<J: Naming>(rt: &impl Abort, reader: &mut BoardReader<J>, row: BoardRow) {
    holds!(rt; reader.row() == row, "what was refused is shown");
}

/// A text of these bytes.
pub(crate) fn text(rt: &impl Abort, alloc: Global, bytes: &[u8]) -> VecBody {
    if let Ok(body) = VecBody::from_slice(alloc, bytes) {
        return body;
    }
    match VecBody::from_slice(alloc, bytes) {
        Ok(body) => body,
        Err(refused) => panic!(rt; "no text: {refused}"),
    }
}

/// A new queue, whose making is published.
pub(crate) fn make<J: Naming, R: Abort + Wait>(
    rt: &R,
    alloc: Global,
    writer: &mut BoardWriter<J>,
    reader: &mut BoardReader<J>,
) -> Queue
    requires empty { writer.old.events ≡ [] }
    requires idle { writer.old.pending ≡ [] }
    ensures { IsShown result.base result.tail writer.new }
{
    let row = reader.row();
    if let Ok(queue) = open(rt, alloc, writer) {
        return queue;
    }
    sees(rt, reader, row);
    match open(rt, alloc, writer) {
        Ok(queue) => queue,
        Err(refused) => panic!(rt; "not made: {refused}"),
    }
}

pub(crate) fn send<J: Naming>(
    rt: &impl Abort,
    queue: &mut Queue,
    writer: &mut BoardWriter<J>,
    reader: &mut BoardReader<J>,
    message: Message<VecBody>,
    moment: u64,
) -> u64
    requires { IsShown queue.old.base queue.old.tail writer.old }
    ensures { IsPending queue.new.base queue.new.tail writer.new }
{
    let _small = queue.log_len();
    let row = reader.row();
    let message = match queue.send(message, moment, writer) {
        Ok(place) => {
            queue.holds();
            return place;
        }
        Err((_refused, message)) => message,
    };
    sees(rt, reader, row);
    match queue.send(message, moment, writer) {
        Ok(place) => {
            queue.holds();
            place
        }
        Err((refused, _message)) => panic!(rt; "not sent: {refused}"),
    }
}

/// What seat 2 receives.
pub(crate) fn receive<J: Naming>(
    rt: &impl Abort,
    queue: &mut Queue,
    writer: &mut BoardWriter<J>,
    reader: &mut BoardReader<J>,
    selection: Selection,
    moment: u64,
) -> Received<VecBody>
    requires { IsShown queue.old.base queue.old.tail writer.old }
    ensures { IsPending queue.new.base queue.new.tail writer.new }
{
    let _small = queue.log_len();
    let row = reader.row();
    if let Ok(received) = queue.receive(8, selection, false, 2, moment, writer) {
        queue.holds();
        return received;
    }
    sees(rt, reader, row);
    match queue.receive(8, selection, false, 2, moment, writer) {
        Ok(received) => {
            queue.holds();
            received
        }
        Err(refused) => panic!(rt; "not received: {refused}"),
    }
}

pub(crate) fn set<J: Naming>(
    rt: &impl Abort,
    queue: &mut Queue,
    writer: &mut BoardWriter<J>,
    reader: &mut BoardReader<J>,
    qbytes: u64,
    moment: u64,
) -> u64
    requires { IsShown queue.old.base queue.old.tail writer.old }
    ensures { IsPending queue.new.base queue.new.tail writer.new }
{
    let _small = queue.log_len();
    let row = reader.row();
    if let Ok(place) = queue.set(qbytes, 1, moment, writer) {
        queue.holds();
        return place;
    }
    sees(rt, reader, row);
    match queue.set(qbytes, 1, moment, writer) {
        Ok(place) => {
            queue.holds();
            place
        }
        Err(refused) => panic!(rt; "not set: {refused}"),
    }
}

/// The log of the queue that is removed, and its pending messages.
pub(crate) fn remove<J: Naming>(
    rt: &impl Abort,
    queue: Queue,
    writer: &mut BoardWriter<J>,
    reader: &mut BoardReader<J>,
    moment: u64,
) -> (Log, ListWaiting<VecBody>)
    requires { IsShown queue.base queue.tail writer.old }
    ensures { IsPending result.0.base result.0.tail writer.new }
{
    let _small = queue.log_len();
    let row = reader.row();
    let queue = match queue.remove(1, moment, writer) {
        Ok(removed) => return removed,
        Err(queue) => queue,
    };
    sees(rt, reader, row);
    match queue.remove(1, moment, writer) {
        Ok(removed) => removed,
        Err(queue) => {
            close(queue);
            panic!(rt; "not removed");
        }
    }
}
