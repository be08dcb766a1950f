//! Seats that send and receive texts, each on a thread of its own.

use crate::words::Words;
use anyhow::{Result, bail};
use mq::{
    Caller, Config, DEFAULTS, Delivered, Errno, Forever, GetFlags, Id, MAX_HEIGHT, MSGMAX, Names,
    Pledge, RecvFlags, Seat, SendFlags, SendRefused, System, Worker,
};
use std::alloc::{AllocError, Global};
use std::sync::Wait;
use std::thread::Threads;
use std::time::Clock;

/// Nothing is pledged.
pub(crate) struct Anything;

impl Pledge for Anything {
    ghost kept = { λ _ _ _ _. Unit {0} };
}

/// Does so many rounds, in each of which it sends a text of each type to the queue of the first
/// key, receives one from that of the second one, and sends one to that of the third one, where it
/// has such a key.
#[derive(Drop)]
struct Player {
    bytes: Vec<u8>,
    rounds: u32,
    /// How many types it sends, from 1 on.
    types: u32,
    /// The type that it receives, or 0 for any.
    selects: u32,
    /// The quota of the queue that it sends to first.
    quota: u64,
    sends: Option<i32>,
    receives: Option<i32>,
    replies: Option<i32>,
}

impl Worker<Anything> for Player {
    type Answer = Result<u64, Errno>;

    fn work<N: Names, R: Wait + Clock>(
        self,
        caller: &mut Caller<'_, Anything, N, R>,
    ) -> Result<u64, Errno> {
        let (rt, system) = (caller.rt, caller.system);
        let seat = &mut caller.seat;
        let sends = queue(rt, system, seat, self.sends)?;
        let receives = queue(rt, system, seat, self.receives)?;
        let replies = queue(rt, system, seat, self.replies)?;
        if let Some(id) = sends {
            if let Err(refused) = system.set(rt, seat, id, self.quota, 1) {
                return Err(refused.errno);
            }
        }
        let mut came = 0u64;
        for _ in 0..self.rounds {
            if let Some(id) = sends {
                send_each(rt, system, seat, id, self.types, &self.bytes)?;
            }
            if let Some(id) = receives {
                came = came.wrapping_add(receive(rt, system, seat, id, self.selects)?);
            }
            if let Some(id) = replies {
                send(rt, system, seat, id, 1, &self.bytes)?;
            }
        }
        Ok(came)
    }
}

/// The queue of this key, which is made where there is none yet.
pub(crate) fn queue<N: Names, R: Wait>(
    rt: &R,
    system: &System<Anything, N>,
    seat: &mut Seat<N>,
    key: Option<i32>,
) -> Result<Option<Id>, Errno> {
    let flags = GetFlags {
        create: true,
        exclusive: false,
    };
    match key {
        Some(key) => Ok(Some(system.msgget(rt, seat, key, flags, 0)?.id)),
        None => Ok(None),
    }
}

/// Sends a text of these bytes of each type from 1 to the last.
fn send_each<N: Names, R: Wait>(
    rt: &R,
    system: &System<Anything, N>,
    seat: &mut Seat<N>,
    id: Id,
    last: u32,
    bytes: &[u8],
) -> Result<(), Errno> {
    for mtype in 1..=last {
        send(rt, system, seat, id, mtype, bytes)?;
    }
    Ok(())
}

/// Sends a text of this type and these bytes.
pub(crate) fn send<N: Names, R: Wait>(
    rt: &R,
    system: &System<Anything, N>,
    seat: &mut Seat<N>,
    id: Id,
    mtype: u32,
    bytes: &[u8],
) -> Result<(), Errno> {
    let text = match system.draft_by_within(rt, seat, bytes, &mut Forever) {
        Ok(text) => text,
        Err(refused) => return Err(refused.errno()),
    };
    let mtype = i64::from(mtype);
    match system.msgsnd(rt, seat, id, mtype, 0, text, SendFlags { nowait: false }, 1) {
        Ok(_) => Ok(()),
        Err(refusal) => {
            let SendRefused { refused, text } = refusal;
            system.spend_by(rt, seat, text);
            Err(refused.errno)
        }
    }
}

/// Receives the first message of this type, or of any where it is 0; how many bytes it has.
pub(crate) fn receive<N: Names, R: Wait>(
    rt: &R,
    system: &System<Anything, N>,
    seat: &mut Seat<N>,
    id: Id,
    msgtyp: u32,
) -> Result<u64, Errno> {
    let flags = RecvFlags {
        nowait: false,
        noerror: false,
        except: false,
    };
    let received = match system.msgrcv(rt, seat, id, MSGMAX, i64::from(msgtyp), flags, 1) {
        Ok(received) => received,
        Err(refused) => return Err(refused.errno),
    };
    let Delivered {
        entry: _,
        mtype: _,
        sender: _,
        tag: _,
        length,
        text,
    } = received;
    system.spend_by(rt, seat, text);
    Ok(length)
}

/// The sizes of a run.
#[derive(Clone, Copy)]
struct Sizes {
    alloc: Global,
    bytes: usize,
    rounds: u32,
    quota: u64,
}

impl Sizes {
    fn player(
        &self,
        rounds: u32,
        sends: Option<i32>,
        receives: Option<i32>,
        replies: Option<i32>,
    ) -> Result<Player, AllocError> {
        Ok(Player {
            bytes: vec![in self.alloc; b'x'; self.bytes]?,
            rounds,
            types: 1,
            selects: 0,
            quota: self.quota,
            sends,
            receives,
            replies,
        })
    }

    /// One that sends and receives by turns, among so many seats, of which the others end at once.
    fn alone(&self, seats: u32) -> Result<Vec<Player>, AllocError> {
        let mut players = Vec::new(self.alloc);
        players.push(self.player(self.rounds, Some(1), Some(1), None)?)?;
        for _ in 1..seats {
            players.push(self.player(0, None, None, None)?)?;
        }
        Ok(players)
    }

    /// So many, each of which sends and receives by turns in a queue of its own.
    fn own(&self, threads: u32) -> Result<Vec<Player>, AllocError> {
        let mut players = Vec::new(self.alloc);
        let mut key = 0i32;
        for _ in 0..threads {
            key = key.saturating_add(1);
            players.push(self.player(self.rounds, Some(key), Some(key), None)?)?;
        }
        Ok(players)
    }

    /// So many that send a text to each of those that receive by turns, by its type.
    fn types(&self, senders: u32, receivers: u32, share: u32) -> Result<Vec<Player>, AllocError> {
        let mut players = Vec::new(self.alloc);
        for _ in 0..senders {
            let mut player = self.player(self.rounds, Some(1), None, None)?;
            player.types = receivers;
            players.push(player)?;
        }
        for mtype in 1..=receivers {
            let mut player = self.player(share, None, Some(1), None)?;
            player.selects = mtype;
            players.push(player)?;
        }
        Ok(players)
    }

    /// So many that send, and so many that receive their share of what these send.
    fn flow(&self, senders: u32, receivers: u32, share: u32) -> Result<Vec<Player>, AllocError> {
        let mut players = Vec::new(self.alloc);
        for _ in 0..senders {
            players.push(self.player(self.rounds, Some(1), None, None)?)?;
        }
        for _ in 0..receivers {
            players.push(self.player(share, None, Some(1), None)?)?;
        }
        Ok(players)
    }
}

/// `system alone BYTES CYCLES SEATS`, where one of so many seats sends and receives by turns;
/// `system own BYTES CYCLES SEATS`, where each of them does, in a queue of its own; `system two
/// BYTES CYCLES`, where two make round trips of one text; `system flow BYTES COUNT SENDERS
/// RECEIVERS QUOTA`, where each sender sends COUNT texts through one queue of that quota and each
/// receiver takes its share of them; `system types`, of the same words, where each sender sends
/// COUNT texts to each receiver, which takes those of a type of its own: counts the bytes that were
/// received. A seventh word ENTRIES says after how many entries the logs are cut.
pub(crate) fn run(
    rt: &(impl Print + Threads + Wait + Clock + Sync),
    alloc: Global,
    words: &Words,
) -> Result<()> {
    let rounds = words.number(3, 10)?;
    let sizes = Sizes {
        alloc,
        bytes: words.number(2, 16)? as usize,
        rounds,
        quota: u64::from(words.number(6, 131_072)?),
    };
    let config = Config {
        height: MAX_HEIGHT,
        ..DEFAULTS
    };
    let players = match words.word(1) {
        "two" => {
            let first = sizes.player(rounds, Some(1), Some(2), None)?;
            let second = sizes.player(rounds, None, Some(1), Some(2))?;
            vec![in alloc; first, second]?
        }
        "flow" => {
            let (senders, receivers) = (words.number(4, 1)?, words.number(5, 1)?);
            let Some(share) = senders.saturating_mul(rounds).checked_div(receivers) else {
                bail!("no receiver");
            };
            sizes.flow(senders, receivers, share)?
        }
        "types" => {
            let (senders, receivers) = (words.number(4, 1)?, words.number(5, 4)?);
            sizes.types(senders, receivers, senders.saturating_mul(rounds))?
        }
        "own" => sizes.own(words.number(4, 4)?)?,
        _ => sizes.alone(words.number(4, 16)?)?,
    };
    let ended = words.setup(7, config)?.with_workers(rt, alloc, players)?;
    let mut came = 0u64;
    for answer in ended.answer {
        came = came.wrapping_add(answer?);
    }
    println!(rt; "{came} bytes came, {} pages free", ended.free_pages)?;
    Ok(())
}
