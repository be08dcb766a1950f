//! One thread that sends a text to a queue and receives one, again and again.

use crate::words::Words;
use anyhow::Result;
use mq::{
    Config, DEFAULTS, Delivered, Errno, GetFlags, Id, Ledger, LocalQueues, MAX_HEIGHT, MSGMAX,
    OneThread, QueueProgram, SendRefused, with_queues,
};
use std::alloc::Global;

#[derive(Drop)]
struct Cycles {
    bytes: Vec<u8>,
    /// How many cycles a round has.
    count: u32,
    /// How many texts are pending meanwhile.
    waiting: u32,
    rounds: u32,
    /// Whether the log is drained after each round.
    cuts: bool,
}

#[derive(Drop)]
struct Came {
    bytes: u64,
    /// How many entries the drains returned.
    entries: u64,
}

impl QueueProgram for Cycles {
    type Answer = Result<Came, Errno>;

    fn run<L: Ledger>(self, _config: Config, queues: &mut LocalQueues<L>) -> Result<Came, Errno> {
        let queues = &mut queues.queues;
        let flags = GetFlags {
            create: true,
            exclusive: false,
        };
        let id = queues.msgget(1, 1, flags, 0)?.id;
        let mut came = Came {
            bytes: 0,
            entries: 0,
        };
        // Round 0 only sends. So `msgsnd` has one call site: with a second one the compiler would
        // make another cycle.
        for round in 0..=self.rounds {
            let count = if round == 0 { self.waiting } else { self.count };
            for _ in 0..count {
                let length = cycle(queues, id, &self.bytes, round > 0)?;
                came.bytes = came.bytes.wrapping_add(length);
            }
            if self.cuts {
                came.entries = came.entries.wrapping_add(cut(queues, id)?);
            }
        }
        Ok(came)
    }
}

/// Drains the log; how many entries it had.
fn cut<L: Ledger>(queues: &mut OneThread<L>, id: Id) -> Result<u64, Errno> {
    if id.slot() >= queues.slots() {
        return Ok(0);
    }
    match queues.cut_log(id.slot()) {
        Ok(cut) => Ok(cut.last.len() as u64),
        Err(refused) => Err(refused.errno),
    }
}

/// Sends one text, and receives the first one if asked to; how many bytes were received.
fn cycle<L: Ledger>(
    queues: &mut OneThread<L>,
    id: Id,
    bytes: &[u8],
    receives: bool,
) -> Result<u64, Errno> {
    let text = match queues.draft_of(bytes) {
        Ok(text) => text,
        Err(refused) => return Err(refused.errno()),
    };
    if let Err(refusal) = queues.msgsnd(1, id, 1, 0, text, 1) {
        let SendRefused { refused, text } = refusal;
        queues.spend(text);
        return Err(refused.errno);
    }
    if !receives {
        return Ok(0);
    }
    let received = match queues.msgrcv(2, id, MSGMAX, 0, false, false, 1) {
        Ok(received) => received,
        Err(refused) => return Err(refused.errno),
    };
    let Delivered {
        entry: _,
        mtype: _,
        sender: _,
        tag: _,
        length,
        text,
    } = received;
    queues.spend(text);
    Ok(length)
}

/// `cycle BYTES CYCLES WAITING ROUNDS CUTS`: in each round so many cycles, while so many texts are
/// pending, with a drain of the log after each round unless CUTS is 0. It counts the bytes that
/// were received, and the entries that were drained.
pub(crate) fn run(rt: &impl Print, alloc: Global, words: &Words) -> Result<()> {
    let size = words.number(1, 16)?;
    let cycles = Cycles {
        bytes: vec![in alloc; b'x'; size as usize]?,
        count: words.number(2, 10)?,
        waiting: words.number(3, 0)?,
        rounds: words.number(4, 1)?,
        cuts: words.number(5, 0)? != 0,
    };
    let config = Config {
        height: MAX_HEIGHT,
        ..DEFAULTS
    };
    let ended = with_queues(alloc, config, cycles)?;
    let came = ended.answer?;
    println!(rt;
        "{} bytes came, {} entries cut off, {} pages free",
        came.bytes, came.entries, ended.free_pages
    )?;
    Ok(())
}
