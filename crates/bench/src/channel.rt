//! Threads that send and receive texts through bounded channels of crossbeam_channel, with the same
//! quota of bytes as a queue: what the seats of a system are measured against.

use crate::words::Words;
use anyhow::{Result, bail};
use crossbeam_channel::{Receiver, Sender, bounded};
use mq_jobs::{Job, run_jobs};
use std::alloc::{AllocError, Global};
use std::sync::Wait;
use std::thread::Threads;

type Letter = Vec<u8>;

/// Does so many rounds, in each of which it sends, receives, and sends, where it has such an end.
#[derive(Drop)]
struct Player {
    alloc: Global,
    bytes: Letter,
    rounds: u32,
    sends: Option<Sender<Letter>>,
    receives: Option<Receiver<Letter>>,
    replies: Option<Sender<Letter>>,
}

impl Job for Player {
    type Shared = ();

    type Answer = Option<u64>;

    fn run<R: Wait>(self, rt: &R, _shared: &()) -> Option<u64> {
        let mut came = 0u64;
        for _ in 0..self.rounds {
            if let Some(there) = &self.sends {
                send(rt, self.alloc, there, &self.bytes)?;
            }
            if let Some(here) = &self.receives {
                let letter = here.recv(rt).ok()?;
                came = came.wrapping_add(letter.len() as u64);
            }
            if let Some(there) = &self.replies {
                send(rt, self.alloc, there, &self.bytes)?;
            }
        }
        Some(came)
    }
}

// Sends a letter of these bytes.
fn send<R: Wait>(rt: &R, alloc: Global, there: &Sender<Letter>, bytes: &[u8]) -> Option<()> {
    let mut letter = Vec::with_capacity(alloc, bytes.len()).ok()?;
    letter.extend_from_slice(bytes).ok()?;
    there.send(rt, letter).ok()
}

/// The sizes of a run.
#[derive(Clone, Copy)]
struct Sizes {
    alloc: Global,
    bytes: usize,
    rounds: u32,
    /// How many bytes may be pending, or texts of no bytes.
    quota: usize,
}

impl Sizes {
    fn channel(&self) -> Result<(Sender<Letter>, Receiver<Letter>), AllocError> {
        bounded(
            self.alloc,
            self.quota.checked_div(self.bytes).unwrap_or(self.quota),
        )
    }

    fn player(
        &self,
        rounds: u32,
        sends: Option<Sender<Letter>>,
        receives: Option<Receiver<Letter>>,
        replies: Option<Sender<Letter>>,
    ) -> Result<Player, AllocError> {
        Ok(Player {
            alloc: self.alloc,
            bytes: vec![in self.alloc; b'x'; self.bytes]?,
            rounds,
            sends,
            receives,
            replies,
        })
    }

    fn two(&self) -> Result<Vec<Player>, AllocError> {
        let (there, comes) = self.channel()?;
        let (answers, back) = self.channel()?;
        let first = self.player(self.rounds, Some(there), Some(back), None)?;
        let second = self.player(self.rounds, None, Some(comes), Some(answers))?;
        Ok(vec![in self.alloc; first, second]?)
    }

    // So many that send, and so many that receive their share of what these send.
    fn flow(&self, senders: u32, receivers: u32, share: u32) -> Result<Vec<Player>, AllocError> {
        let (there, here) = self.channel()?;
        let mut players = Vec::new(self.alloc);
        for _ in 0..senders {
            players.push(self.player(self.rounds, Some(there.clone()?), None, None)?)?;
        }
        for _ in 0..receivers {
            players.push(self.player(share, None, Some(here.clone()?), None)?)?;
        }
        Ok(players)
    }
}

/// `channel two BYTES CYCLES`, where two threads make round trips of one text, each sending on a
/// channel of its own; `channel flow BYTES COUNT SENDERS RECEIVERS QUOTA`, as in a system: counts
/// the bytes that were received.
pub(crate) fn run(
    rt: &(impl Print + Threads + Wait + Sync),
    alloc: Global,
    words: &Words,
) -> Result<()> {
    let sizes = Sizes {
        alloc,
        bytes: words.number(2, 16)? as usize,
        rounds: words.number(3, 10)?,
        quota: words.number(6, 131_072)? as usize,
    };
    let players = match words.word(1) {
        "flow" => {
            let (senders, receivers) = (words.number(4, 1)?, words.number(5, 1)?);
            let Some(share) = senders.saturating_mul(sizes.rounds).checked_div(receivers) else {
                bail!("no receiver");
            };
            sizes.flow(senders, receivers, share)?
        }
        _ => sizes.two()?,
    };
    let mut came = 0u64;
    for answer in run_jobs(rt, alloc, &(), players)? {
        let Some(bytes) = answer else {
            bail!("a channel that is closed, or out of memory");
        };
        came = came.wrapping_add(bytes);
    }
    println!(rt; "{came} bytes came")?;
    Ok(())
}
