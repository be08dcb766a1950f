//! What a seat asks for next: pseudorandom choices, which are the same in each run.
ghost use Rattle.std.specs.Prelude.{◌<◌};

use crate::replay::calls::{Answer, Asked, BatchEnd, SLOTS};
use mq::{Errno, GetFlags};
use std::alloc::Global;

/// How many of each 64 calls are of each kind. Sends and receipts are together so many, by turns
/// more of the one and more of the other, so that queues fill and empty.
const GETS: u64 = 7;

const SENDS_AND_RECEIPTS: u64 = 44;

const SETS: u64 = 3;

const REMOVALS: u64 = 1;

const STATS: u64 = 6;

/// Of how many calls about one drains a slot's list.
const TO_A_CUT: u64 = 200;

/// Of how many calls about one is of several texts.
const TO_A_BATCH: u64 = 12;

/// After so many calls a seat that mostly sent mostly receives.
const TURN: u64 = 64;

/// The ids of so many queues later are never given: the last seq is lower.
pub(crate) const NEVER: u32 = 10_000;

/// A seat's choices.
#[derive(Drop)]
pub(crate) struct Chooser {
    state: u64,
    /// How many queues the seat knows to have been made in each slot.
    made: [u32; SLOTS],
    /// Whether the last id was of no queue that is there.
    lost: bool,
}

impl Chooser {
    pub(crate) fn new(seed: u64) -> Chooser {
        Chooser {
            state: seed.wrapping_mul(0x9e37_79b9_7f4a_7c15),
            made: [0; SLOTS],
            lost: true,
        }
    }

    /// The next number below this one.
    pub(crate) fn below(&mut self, bound: u64) -> u64
        requires { 0 < bound }
        ensures { result < bound }
    {
        self.state = self
            .state
            .wrapping_mul(6_364_136_223_846_793_005)
            .wrapping_add(1_442_695_040_888_963_407);
        (self.state >> 33) % bound
    }

    /// Whether one of so many is chosen.
    pub(crate) fn one_of(&mut self, count: u64) -> bool
        requires { 0 < count }
    {
        self.below(count) == 0
    }

    /// The id of the queue that was made last in the slot, as far as the seat knows; seldom an
    /// older one, one that is never given, or one of no slot.
    fn id_in(&mut self, slot: u32) -> u32 {
        let made = self.made.get(slot as usize).copied().unwrap_or(0);
        let last = made.saturating_sub(1);
        let seq = match self.below(64) {
            0 => last.saturating_sub(1),
            1 => last.wrapping_add(NEVER),
            _ => last,
        };
        let slot = if self.one_of(128) { 63 } else { slot };
        seq.wrapping_mul(64).wrapping_add(slot)
    }

    /// A slot, in one half of the calls slot 0.
    fn slot(&mut self) -> u8 {
        match self.below(4) {
            0 => 1,
            1 => 2,
            _ => 0,
        }
    }

    pub(crate) fn id(&mut self) -> u32 {
        let slot = self.slot();
        self.id_in(u32::from(slot))
    }

    fn get(&mut self) -> Asked {
        let key = if self.one_of(8) {
            0
        } else {
            self.below(4) as i32 + 1
        };
        let kind = self.below(8);
        let flags = GetFlags {
            create: kind > 1,
            exclusive: kind == 0 || kind == 2,
        };
        Asked::Get { key, flags }
    }

    /// Mostly a short one, which takes a page all the same; a few long ones fill a queue.
    fn length(&mut self) -> u64 {
        match self.below(64) {
            0 | 1 => self.below(65_537),
            2 | 3 => self.below(16_384),
            4..=9 => 0,
            _ => self.below(64),
        }
    }

    /// A type, of so many about one that no message has.
    pub(crate) fn mtype(&mut self, to_none: u64) -> i64
        requires { 0 < to_none }
    {
        if self.one_of(to_none) {
            0
        } else {
            self.below(5) as i64 + 1
        }
    }

    pub(crate) fn send(&mut self, tag: u64, nowait: bool) -> Asked {
        Asked::Send {
            id: self.id(),
            mtype: self.mtype(32),
            tag,
            length: self.length(),
            nowait,
        }
    }

    /// A type, 0, or one that is negated.
    fn msgtyp(&mut self) -> i64 {
        let mtype = self.below(5) as i64 + 1;
        match self.below(8) {
            0..=2 => 0,
            3 | 4 => mtype,
            5 | 6 => -mtype,
            _ => i64::MIN,
        }
    }

    pub(crate) fn receive(&mut self, nowait: bool) -> Asked {
        let size = if self.one_of(4) {
            self.below(64)
        } else {
            65_536
        };
        Asked::Receive {
            id: self.id(),
            size,
            msgtyp: self.msgtyp(),
            except: self.one_of(3),
            noerror: self.one_of(2),
            nowait,
        }
    }

    fn set(&mut self) -> Asked {
        let qbytes = match self.below(16) {
            0 => 0,
            1 | 2 => 131_073,
            3 | 4 => self.below(2000),
            _ => 131_072,
        };
        Asked::Set {
            id: self.id(),
            qbytes,
        }
    }

    /// A removal, seldom of slot 0, whose queues live long.
    fn remove(&mut self) -> Asked {
        let slot = match self.below(16) {
            0 => 0,
            1..=8 => 1,
            _ => 2,
        };
        Asked::Remove {
            id: self.id_in(slot),
        }
    }

    /// What is asked for after so many calls, of which none waits for good. `None` where there is
    /// no memory for it.
    pub(crate) fn next(&mut self, alloc: Global, step: u64, tag: u64) -> Option<Asked> {
        if self.lost {
            self.lost = false;
            return Some(if self.one_of(2) {
                Asked::Report
            } else {
                self.get()
            });
        }
        if self.one_of(TO_A_CUT) {
            return Some(Asked::Cut { slot: self.slot() });
        }
        if self.one_of(TO_A_BATCH) {
            return self.batch(alloc, step, tag);
        }
        Some(self.next_of_one(step, tag))
    }

    /// What is asked for after so many calls, which is not of several texts.
    fn next_of_one(&mut self, step: u64, tag: u64) -> Asked {
        let sends = if mostly_sends(step) { 30 } else { 14 };
        let kind = self.below(64);
        if kind < GETS {
            self.get()
        } else if kind < GETS + sends {
            self.send(tag, true)
        } else if kind < GETS + SENDS_AND_RECEIPTS {
            self.receive(true)
        } else if kind < GETS + SENDS_AND_RECEIPTS + SETS {
            self.set()
        } else if kind < GETS + SENDS_AND_RECEIPTS + SETS + REMOVALS {
            self.remove()
        } else if kind < GETS + SENDS_AND_RECEIPTS + SETS + REMOVALS + STATS {
            let id = self.id();
            Asked::Stat { id }
        } else {
            Asked::Report
        }
    }

    /// Learns what was answered.
    pub(crate) fn learn(&mut self, answer: &Answer) {
        match answer {
            Answer::Got(id, _) => {
                if let Some(made) = self.made.get_mut((*id % 64) as usize) {
                    *made = (*id / 64).wrapping_add(1);
                }
            }
            Answer::Rows(rows) => self.made = [rows[0].made, rows[1].made, rows[2].made],
            Answer::Refused(Errno::EIDRM | Errno::EINVAL, _)
            | Answer::SentTexts(_, _, BatchEnd::Refused(Errno::EIDRM, _))
            | Answer::HandedTexts(_, BatchEnd::Refused(Errno::EIDRM, _)) => self.lost = true,
            _ => (),
        }
    }
}

/// Whether a seat sends more than it receives after so many calls.
pub(crate) fn mostly_sends(step: u64) -> bool {
    step / TURN % 2 == 0
}
