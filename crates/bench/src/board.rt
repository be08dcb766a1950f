//! Events that are published on a board, and a reader of it. The events are those of a queue that
//! is made and removed again, one after another.

ghost use Rattle.std.specs.Prelude.{◌≡◌, ◌+◌, ◌*◌, ◌<◌, ◌≤◌, ◌^◌, ◌++◌, ◌∷◌, [], length, IfOk};
ghost use Rattle.mq_board.specs.Writers.{HasOnePending, posting};

use crate::words::Words;
use anyhow::Result;
use mq_board::{BoardReader, BoardWriter, Naming, OpenedBoard, board};
use mq_queue::{Event, Figures, MSGMNB, Notice};
use std::alloc::{AllocError, Global};
use std::marker::Brand;
use std::sync::Wait;

/// What is measured.
#[derive(Clone, Copy, PartialEq, Eq)]
enum What {
    /// Events that are published.
    Events,
    /// The same, of which each second is read.
    News,
    /// Reads that find nothing new.
    Reads,
}

#[derive(Clone, Copy)]
struct Plan {
    what: What,
    readers: usize,
    count: u32,
}

const NONE: Figures = Figures {
    qnum: 0,
    cbytes: 0,
    qbytes: 0,
    stime: 0,
    rtime: 0,
    ctime: 0,
    lspid: 0,
    lrpid: 0,
};

fn publish<J: Naming, R: Wait>(
    rt: &R,
    writer: &mut BoardWriter<J>,
    event: Event,
    after: Figures,
) -> Result<(), AllocError>
    requires ready { HasOnePending writer.old.events (posting event after ∷ []) }
    requires idle { writer.old.pending ≡ [] }
    ensures { IfOk result (λ _. (writer.new.events ≡ writer.old.events ++ event ∷ [])
        × (writer.new.pending ≡ [])) }
{
    writer.prepare(event, after)?;
    writer.publish(rt);
    Ok(())
}

/// Publishes that a queue is made, and then that it is removed.
fn come_and_go<J: Naming, R: Wait>(rt: &R, writer: &mut BoardWriter<J>) -> Result<(), AllocError>
    requires length { length writer.old.events < 2 ^ 62 }
    requires idle { writer.old.pending ≡ [] }
    ensures { IfOk result (λ _. (length writer.new.events ≡ length writer.old.events + 2)
        × (writer.new.pending ≡ [])) }
{
    let made = Event::Made {
        seat: 1,
        moment: 3,
        key: 9,
    };
    if writer.row().made >= 1 << 25 {
        return Err(AllocError);
    }
    let after = Figures {
        qbytes: MSGMNB,
        ctime: 3,
        ..NONE
    };
    publish(rt, writer, made, after)?;
    publish(rt, writer, Event::Removed { seat: 1, moment: 4 }, NONE)
}

/// How many queues the reader saw, added up: after all events, and after each pair if it reads.
fn publish_all<J: Naming, R: Wait>(
    rt: &R,
    writer: &mut BoardWriter<J>,
    reader: &mut BoardReader<J>,
    plan: Plan,
) -> Result<u64, AllocError>
    requires empty { writer.old.events ≡ [] }
    requires idle { writer.old.pending ≡ [] }
{
    let mut seen = 0u64;
    for _pair in 0..plan.count / 2 {
        come_and_go(rt, writer)?;
        if plan.what == What::News {
            seen = seen.wrapping_add(u64::from(reader.row().made));
        }
    }
    Ok(seen.wrapping_add(u64::from(reader.row().made)))
}

/// How many queues the reader saw, added up.
fn read_all<J: Naming>(reader: &mut BoardReader<J>, count: u32) -> u64 {
    let mut seen = 0u64;
    for _ in 0..count {
        seen = seen.wrapping_add(u64::from(reader.row().made));
    }
    seen
}

fn measure<J: Naming, R: Wait>(
    rt: &R,
    writer: &mut BoardWriter<J>,
    readers: &mut [BoardReader<J>],
    plan: Plan,
) -> Result<u64, AllocError>
    requires empty { writer.old.events ≡ [] }
    requires idle { writer.old.pending ≡ [] }
    requires some { 0 < length readers.old }
{
    if plan.what != What::Reads {
        return publish_all(rt, writer, &mut readers[0], plan);
    }
    come_and_go(rt, writer)?;
    Ok(read_all(&mut readers[0], plan.count))
}

fn measured<J: Naming, R: Wait>(
    rt: &R,
    alloc: Global,
    opened: OpenedBoard,
    plan: Plan,
) -> Result<u64, AllocError>
    requires named { (opened.history.seen.book ≡ J.board 0) × (opened.roll.seen.book ≡ J.roll 0) }
    requires readers { (0 < plan.readers) × (plan.readers ≤ 16) }
{
    let (mut writer, mut readers) = board::<J, R>(alloc, rt, opened, 0, plan.readers)?;
    let seen = measure(rt, &mut writer, readers.as_mut_slice(), plan);
    writer.close(rt);
    seen
}

fn seen_on<R: Wait>(rt: &R, alloc: Global, plan: Plan) -> Result<u64, AllocError>
    requires { (0 < plan.readers) × (plan.readers ≤ 16) }
{
    measured::<Brand, R>(rt, alloc, OpenedBoard::new(), plan)
}

/// `board WHAT READERS COUNT`, where WHAT is `events`, `news` or `reads` and READERS is 1 to 16:
/// counts the queues that were seen.
pub(crate) fn run(rt: &(impl Print + Wait), alloc: Global, words: &Words) -> Result<()> {
    let plan = Plan {
        what: match words.word(1) {
            "news" => What::News,
            "reads" => What::Reads,
            _ => What::Events,
        },
        readers: words.number(2, 2)?.clamp(1, 16) as usize,
        count: words.number(3, 10)?,
    };
    let seen = seen_on(rt, alloc, plan)?;
    println!(rt; "{seen} queues seen")?;
    Ok(())
}
