//! Threads that send and receive several texts by one call.

ghost use Rattle.std.specs.Prelude.{◌≡◌};
ghost use Rattle.std.specs.VecDeque.{deque_len};

use crate::system::Anything;
use crate::words::Words;
use anyhow::{Result, bail};
use mq::{
    BatchReceived, BatchSent, Caller, Config, DEFAULTS, Delivered, Errno, Id, Letter, MAX_HEIGHT,
    Names, Refused, Selection, TextOf, Worker,
};
use std::alloc::{AllocError, Global};
use std::collections::VecDeque;
use std::sync::Wait;
use std::thread::Threads;
use std::time::Clock;

/// Sends so many texts to a queue and receives so many from it, by turns, up to `each` by one call.
#[derive(Drop)]
struct Player {
    bytes: Vec<u8>,
    each: usize,
    key: i32,
    quota: u64,
    sends: usize,
    receives: usize,
}

/// What one call received.
#[derive(Clone, Copy)]
struct Came {
    texts: usize,
    bytes: u64,
}

impl Player {
    /// How many bytes it received. What it could not send is left in the list.
    fn play<N: Names, R: Wait + Clock>(
        &self,
        caller: &mut Caller<'_, Anything, N, R>,
        letters: &mut VecDeque<Letter<TextOf<N>>>,
    ) -> Result<u64, Errno> {
        let id = caller.queue(self.key)?;
        if self.sends > 0 {
            caller.set(id, self.quota)?;
        }
        let messages = self.messages(caller.alloc)?;
        let (mut unsent, mut due, mut bytes) = (self.sends, self.receives, 0u64);
        for _ in caller.rt.forever() {
            if unsent == 0 && due == 0 {
                return Ok(bytes);
            }
            if unsent > 0 {
                fill(caller, letters, &messages, unsent.min(self.each))?;
                unsent = unsent.saturating_sub(send(caller, id, letters)?);
            }
            if due > 0 {
                let came = receive(caller, id, due.min(self.each))?;
                due = due.saturating_sub(came.texts);
                bytes = bytes.wrapping_add(came.bytes);
            }
        }
        unreachable!()
    }

    /// The messages of one call.
    fn messages(&self, alloc: Global) -> Result<Vec<Letter<&[u8]>>, Errno> {
        let mut messages = Vec::new(alloc);
        for _ in 0..self.each {
            let message = Letter {
                mtype: 1,
                tag: 0,
                text: self.bytes.as_slice(),
            };
            if messages.push(message).is_err() {
                return Err(Errno::ENOMEM);
            }
        }
        Ok(messages)
    }
}

impl Worker<Anything> for Player {
    type Answer = Result<u64, Errno>;

    fn work<N: Names, R: Wait + Clock>(
        self,
        caller: &mut Caller<'_, Anything, N, R>,
    ) -> Result<u64, Errno> {
        let mut letters = VecDeque::new(caller.alloc);
        let came = self.play(caller, &mut letters);
        spend_all(caller, &mut letters);
        letters.destroy_empty();
        came
    }
}

/// Adds texts of the first of these messages until there are so many. Those without bytes have no
/// block, and are drafted one by one.
fn fill<N: Names, R: Wait + Clock>(
    caller: &Caller<'_, Anything, N, R>,
    letters: &mut VecDeque<Letter<TextOf<N>>>,
    messages: &[Letter<&[u8]>],
    count: usize,
) -> Result<(), Errno> {
    let lacking = count.saturating_sub(letters.len()).min(messages.len());
    let messages = &messages[..lacking];
    match messages.first() {
        Some(message) if message.text.is_empty() => (),
        _ => return caller.draft_texts(messages, letters),
    }
    for _ in 0..lacking {
        let letter = Letter {
            mtype: 1,
            tag: 0,
            text: caller.draft(0)?,
        };
        if let Err(unsent) = letters.push_back(letter) {
            caller.spend(unsent.value.text);
            return Err(Errno::ENOMEM);
        }
    }
    Ok(())
}

/// Spends the letters that are left.
fn spend_all<N: Names, R: Wait + Clock>(
    caller: &Caller<'_, Anything, N, R>,
    letters: &mut VecDeque<Letter<TextOf<N>>>,
)
    ensures none { deque_len letters.new ≡ 0 }
{
    while let Some(letter) = letters.pop_front() {
        caller.spend(letter.text);
    }
}

/// An error, unless the call did all, or ended since the queue was full or empty.
fn check(ended: Result<(), Refused>) -> Result<(), Errno> {
    match ended {
        Ok(()) => Ok(()),
        Err(refused) => match refused.errno {
            Errno::EAGAIN | Errno::ENOMSG => Ok(()),
            errno => Err(errno),
        },
    }
}

/// Sends what there is room for; how many letters that are.
fn send<N: Names, R: Wait + Clock>(
    caller: &mut Caller<'_, Anything, N, R>,
    id: Id,
    letters: &mut VecDeque<Letter<TextOf<N>>>,
) -> Result<usize, Errno> {
    let before = letters.len();
    let BatchSent { first: _, ended } = caller.send_texts(id, letters);
    check(ended)?;
    Ok(before.saturating_sub(letters.len()))
}

/// Spends the received texts.
fn spend_texts<N: Names, R: Wait + Clock>(
    caller: &Caller<'_, Anything, N, R>,
    texts: &mut VecDeque<Delivered<TextOf<N>>>,
) -> Came
    ensures none { deque_len texts.new ≡ 0 }
{
    let mut came = Came {
        texts: texts.len(),
        bytes: 0,
    };
    for delivered in texts.iter() {
        came.bytes = came.bytes.wrapping_add(delivered.length);
    }
    caller.spend_texts(texts);
    came
}

/// Receives what is there, up to so many texts.
fn receive<N: Names, R: Wait + Clock>(
    caller: &mut Caller<'_, Anything, N, R>,
    id: Id,
    most: usize,
) -> Result<Came, Errno> {
    let BatchReceived { texts, ended } = caller.receive_texts(id, Selection::Any, most);
    let mut texts = texts;
    let came = spend_texts(caller, &mut texts);
    texts.destroy_empty();
    check(ended)?;
    Ok(came)
}

/// The sizes of a run.
#[derive(Clone, Copy)]
struct Sizes {
    alloc: Global,
    bytes: usize,
    each: usize,
    quota: u64,
}

impl Sizes {
    fn player(&self, key: i32, sends: usize, receives: usize) -> Result<Player, AllocError> {
        Ok(Player {
            bytes: vec![in self.alloc; b'x'; self.bytes]?,
            each: self.each,
            key,
            quota: self.quota,
            sends,
            receives,
        })
    }

    /// So many, each of which sends and receives by turns in a queue of its own.
    fn own(&self, threads: u32, rounds: usize) -> Result<Vec<Player>, AllocError> {
        let mut players = Vec::new(self.alloc);
        let mut key = 0i32;
        for _ in 0..threads {
            key = key.saturating_add(1);
            players.push(self.player(key, rounds, rounds)?)?;
        }
        Ok(players)
    }

    /// So many that send, and so many that receive their share of what these send.
    fn flow(
        &self,
        senders: u32,
        receivers: u32,
        rounds: usize,
        share: usize,
    ) -> Result<Vec<Player>, AllocError> {
        let mut players = Vec::new(self.alloc);
        for _ in 0..senders {
            players.push(self.player(1, rounds, 0)?)?;
        }
        for _ in 0..receivers {
            players.push(self.player(1, 0, share)?)?;
        }
        Ok(players)
    }
}

/// `batches flow BYTES COUNT SENDERS RECEIVERS QUOTA EACH`, as `system flow`, and `batches own
/// BYTES CYCLES SEATS RECEIVERS QUOTA EACH`, as `system own`, but that one call sends, or receives,
/// up to EACH texts: counts the bytes that were received. A last word ENTRIES says after how many
/// entries the logs are cut.
pub(crate) fn run(
    rt: &(impl Print + Threads + Wait + Clock + Sync),
    alloc: Global,
    words: &Words,
) -> Result<()> {
    let rounds = words.number(3, 10)?;
    let sizes = Sizes {
        alloc,
        bytes: words.number(2, 16)? as usize,
        each: words.number(7, 16)?.max(1) as usize,
        quota: u64::from(words.number(6, 131_072)?),
    };
    let config = Config {
        height: MAX_HEIGHT,
        ..DEFAULTS
    };
    let (threads, receivers) = (words.number(4, 2)?, words.number(5, 1)?);
    let players = if words.word(1) == "flow" {
        let Some(share) = threads.saturating_mul(rounds).checked_div(receivers) else {
            bail!("no receiver");
        };
        sizes.flow(threads, receivers, rounds as usize, share as usize)?
    } else {
        sizes.own(threads, rounds as usize)?
    };
    let ended = words.setup(8, config)?.with_workers(rt, alloc, players)?;
    let mut came = 0u64;
    for answer in ended.answer {
        came = came.wrapping_add(answer?);
    }
    println!(rt; "{came} bytes came, {} pages free", ended.free_pages)?;
    Ok(())
}
