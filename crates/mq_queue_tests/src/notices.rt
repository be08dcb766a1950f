//! A notice observes each event with the figures after it, or the call is refused and changes
//! nothing.

use crate::calls::{Queue, close, message};
use mq_message::{Message, Selection, VecBody, discard};
use mq_queue::{Event, Figures, NO_FIGURES, Notice, QueueError};
use std::alloc::{AllocError, Global};
use std::process::Abort;
use std::test::Fail;

/// An event, with the figures after it.
#[derive(Clone, Copy, PartialEq, Eq)]
struct Taken {
    event: Event,
    after: Figures,
}

/// A notice that keeps the last event that it observed, or refuses each event.
#[derive(Clone, Copy)]
struct Last {
    taken: Option<Taken>,
    refuses: bool,
}

impl Notice for Last {
    ghost use Rattle.std.specs.Prelude.{◌≡◌, Some};

    ghost takes = { λ old event after new.
        new ≡ record old { taken = Some (record { event = event; after = after }) } };

    fn prepare(&mut self, event: Event, after: Figures) -> Result<(), AllocError> {
        if self.refuses {
            return Err(AllocError);
        }
        self.taken = Some(Taken { event, after });
        Ok(())
    }
}

const TAKES: Last = Last {
    taken: None,
    refuses: false,
};

const REFUSES: Last = Last {
    taken: None,
    refuses: true,
};

/// Whether the notice observed the queue's last event, with the queue's figures.
fn is_told(queue: &Queue, notice: &Last) -> bool {
    match (notice.taken, queue.event(queue.log_len().saturating_sub(1))) {
        (Some(taken), Some(event)) => taken.event == event && taken.after == queue.figures(),
        _ => false,
    }
}

/// Whether a new queue's notice observes its making, and then each change.
fn tells_each(
    queue: &mut Queue,
    text: Message<VecBody>,
    notice: &mut Last,
) -> Result<bool, QueueError> {
    let made = is_told(queue, notice);
    if let Err((refusal, _)) = queue.send(text, 60, notice) {
        return Err(refusal);
    }
    let sent = is_told(queue, notice);
    queue.receive(1, Selection::Any, true, 4, 70, notice)?;
    let received = is_told(queue, notice);
    queue.set(100, 5, 80, notice)?;
    Ok(made && sent && received && is_told(queue, notice))
}

/// Removes the queue, which the notice observes.
fn remove(rt: &impl Abort, queue: Queue, notice: &mut Last) {
    match queue.remove(2, 90, notice) {
        Ok((_log, waiting)) => discard(waiting),
        Err(queue) => {
            close(queue);
            panic!(rt; "out of memory");
        }
    }
}

#[test]
fn each_event_is_noticed_with_the_figures_after_it(rt: HostRuntime) -> Result<(), Fail> {
    let text = message(rt.alloc(), 5, 3)?;
    let mut notice = TAKES;
    let mut queue = Queue::made(rt.alloc(), 7, 2, 50, &mut notice)?;
    let told = tells_each(&mut queue, text, &mut notice);
    remove(&rt, queue, &mut notice);
    holds!(rt; told?);
    let event = Event::Removed {
        seat: 2,
        moment: 90,
    };
    let after = NO_FIGURES;
    holds!(rt; notice.taken == Some(Taken { event, after }));
    Ok(())
}

fn refusal_of(queue: &mut Queue, text: Message<VecBody>, notice: &mut Last) -> Option<QueueError> {
    match queue.send(text, 70, notice) {
        Ok(_) => None,
        Err((refusal, _)) => Some(refusal),
    }
}

/// What a queue answers whose notice refuses a send, a receipt and a new quota.
fn refusals(queue: &mut Queue, text: Message<VecBody>) -> [Option<QueueError>; 3] {
    let mut notice = REFUSES;
    [
        refusal_of(queue, text, &mut notice),
        queue
            .receive(9, Selection::Any, false, 4, 70, &mut notice)
            .err(),
        queue.set(100, 5, 70, &mut notice).err(),
    ]
}

/// Whether a queue is made whose notice refuses it.
fn is_made(alloc: Global) -> bool {
    let mut notice = REFUSES;
    match Queue::made(alloc, 7, 2, 50, &mut notice) {
        Ok(queue) => {
            close(queue);
            true
        }
        Err(_) => false,
    }
}

/// The queue, whose removal the notice refuses.
fn not_removed(rt: &impl Abort, queue: Queue) -> Queue {
    let mut notice = REFUSES;
    match queue.remove(2, 80, &mut notice) {
        Err(queue) => queue,
        Ok((_log, waiting)) => {
            discard(waiting);
            panic!(rt; "removed");
        }
    }
}

/// Where the notice refuses, the call is out of memory, and nothing has changed.
#[test]
fn a_notice_that_refuses_leaves_the_queue(rt: HostRuntime) -> Result<(), Fail> {
    let first = message(rt.alloc(), 5, 3)?;
    let second = message(rt.alloc(), 5, 4)?;
    let mut takes = TAKES;
    let mut queue = Queue::made(rt.alloc(), 7, 2, 50, &mut takes)?;
    let sent = queue.send(first, 60, &mut takes).is_ok();
    let before = (queue.figures(), queue.log_len());
    let refused = refusals(&mut queue, second);
    let queue = not_removed(&rt, queue);
    let after = (queue.figures(), queue.log_len());
    close(queue);
    holds!(rt; !is_made(rt.alloc()));
    holds!(rt; sent, "out of memory");
    holds!(rt; refused == [Some(QueueError::Memory); 3]);
    holds!(rt; before == after && after.1 == 2);
    Ok(())
}
