//! A queue whose events are published on a board.

ghost use Rattle.std.specs.Prelude.{◌≡◌, ◌++◌, ◌∷◌, [], IfOk, IsTrue, OnErr};
ghost use Rattle.std.specs.List.{All};
ghost use Rattle.mq_queue.specs.Base.{base_of};
ghost use Rattle.mq_board.specs.Writers.{HasOnePending, posting};

use mq_board::{BoardReader, BoardWriter, Naming, ToldList};
use mq_message::{Message, VecBody, discard};
use mq_queue::{Event, Figures, Notice, QueueState};
use mq_select::ListWaiting;
use std::alloc::{AllocError, Global};
use std::sync::Wait;

pub(crate) type Queue = QueueState<VecBody, ListWaiting<VecBody>>;

/// Publishes an event. `Err` means that it was out of memory twice.
pub(crate) fn publish<J: Naming, R: Wait>(
    rt: &R,
    writer: &mut BoardWriter<J>,
    event: Event,
    after: Figures,
) -> Result<(), AllocError>
    requires ready { HasOnePending writer.old.events (posting event after ∷ []) }
    requires idle { writer.old.pending ≡ [] }
    ensures { IfOk result (λ _. (writer.new.events ≡ writer.old.events ++ event ∷ [])
        × (writer.new.pending ≡ [])) }
{
    if writer.prepare(event, after).is_err() {
        writer.prepare(event, after)?;
    }
    writer.publish(rt);
    Ok(())
}

/// A new queue, whose making is published: the writer is its notice.
pub(crate) fn open<J: Naming, R: Wait>(
    rt: &R,
    alloc: Global,
    writer: &mut BoardWriter<J>,
) -> Result<Queue, AllocError>
    requires empty { writer.old.events ≡ [] }
    requires idle { writer.old.pending ≡ [] }
    ensures ok { IfOk result (λ queue. (queue.base ≡ base_of [])
        × (writer.new.events ≡ queue.tail) × (writer.new.pending ≡ [])) }
    ensures unchanged { OnErr result (writer.new ≡ writer.old) }
{
    let queue = Queue::made(alloc, 7, 1, 10, writer)?;
    queue.holds();
    writer.publish(rt);
    Ok(queue)
}

/// Sends an empty body with the writer as the queue's notice, and publishes the event.
pub(crate) fn send<J: Naming, R: Wait>(
    rt: &R,
    alloc: Global,
    queue: &mut Queue,
    writer: &mut BoardWriter<J>,
) -> Result<(), AllocError>
    requires whole { queue.old.base ≡ base_of [] }
    requires same { writer.old.events ≡ queue.old.tail }
    requires idle { writer.old.pending ≡ [] }
    ensures { IfOk result (λ _. (queue.new.base ≡ base_of [])
        × (writer.new.events ≡ queue.new.tail) × (writer.new.pending ≡ [])) }
{
    let message = Message {
        mtype: 1,
        sender: 1,
        tag: 5,
        body: VecBody::from_slice(alloc, &[])?,
    };
    let _small = queue.log_len();
    let Ok(_place) = queue.send(message, 20, writer) else {
        return Err(AllocError);
    };
    queue.holds();
    writer.publish(rt);
    Ok(())
}

/// Ends the queue with all its pending messages.
pub(crate) fn close(queue: Queue) {
    let (_log, waiting) = queue.into_parts();
    discard(waiting);
}

/// Whether the readers are of this board.
pub(crate) fn are_of<J: Naming>(readers: &[BoardReader<J>], board: u8) -> bool
    ensures { IsTrue result → All (λ r. r.board ≡ board) readers.now }
{
    readers.iter().all(|reader| reader.board() == board)
}

/// Whether the reader learns a list, which has to be of its board.
pub(crate) fn learns<J: Naming>(reader: &mut BoardReader<J>, told: ToldList<J>) -> bool {
    reader.board() == told.board() && reader.learn(told)
}
