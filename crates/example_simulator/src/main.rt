//! A bank is simulated, on one thread: customers arrive, stand in line, and are served by three
//! tellers. The event list is a queue: the type of a message is the time of the event, and the next
//! event is the message of the lowest type. So the queue's log is the trace of the run. The bank is
//! simulated twice, and the traces are compared. The first word says until when the bank is open;
//! behind it `picture` draws the run, and `trace` writes it for Perfetto.

#![tactic(auto)]

use anyhow::{Result, bail, ensure};
use mq::{
    Config, DEFAULTS, Errno, Id, Ledger, LocalQueues, Message, QueueProgram, Selection, with_queues,
};
use mq_trace::{SlotEntries, TimeScale, write_picture, write_trace};
use std::{env, io};

/// The key of the queue of events.
const EVENTS: i32 = 1;

/// The seats: the door sends arrivals, the counter sends departures, and the clock receives both.
const DOOR: u16 = 1;

const COUNTER: u16 = 2;

const CLOCK: u16 = 3;

const TELLERS: u64 = 3;

/// The longest time between two customers, and with one.
const LONGEST_GAP: u32 = 9;

const LONGEST_SERVICE: u32 = 25;

/// One queue, and the least memory: the messages' texts are empty.
const SIZE: Config = Config {
    height: 0,
    slots: 1,
    ..DEFAULTS
};

/// Pseudorandom numbers, the same in each run: a linear congruential generator.
#[derive(Drop)]
struct Random {
    state: u32,
}

impl Random {
    fn draw(&mut self) -> u32 {
        self.state = self
            .state
            .wrapping_mul(1_664_525)
            .wrapping_add(1_013_904_223);
        self.state >> 16
    }
}

/// The bank between two events.
#[derive(Drop)]
struct Bank {
    /// The last moment at which it is open.
    closing: u64,
    now: i64,
    /// How many events there were.
    events: u64,
    /// How many customers have arrived, and how many of them have come to a teller.
    arrived: u64,
    called: u64,
    longest_line: u64,
    free_tellers: u64,
    random: Random,
}

impl Bank {
    fn new(closing: u64) -> Bank {
        Bank {
            closing,
            now: 0,
            events: 0,
            arrived: 0,
            called: 0,
            longest_line: 0,
            free_tellers: TELLERS,
            random: Random { state: 2 },
        }
    }

    /// The next customer is to arrive.
    fn expect_arrival<L: Ledger>(
        &mut self,
        queues: &mut LocalQueues<L>,
        id: Id,
    ) -> Result<(), Errno> {
        let gap = self.random.draw() % LONGEST_GAP + 1;
        let time = self.now.saturating_add(i64::from(gap));
        let customer = self.arrived.saturating_add(1);
        queues
            .caller(DOOR)
            .send(id, Message::new(time, b"").tagged(customer))?;
        Ok(())
    }

    /// Seats the first in line at a free teller, if there are both, and schedules the departure.
    fn call_next<L: Ledger>(&mut self, queues: &mut LocalQueues<L>, id: Id) -> Result<(), Errno> {
        if self.free_tellers == 0 || self.called >= self.arrived {
            return Ok(());
        }
        self.free_tellers -= 1;
        self.called += 1;
        let service = self.random.draw() % LONGEST_SERVICE + 1;
        let time = self.now.saturating_add(i64::from(service));
        queues
            .caller(COUNTER)
            .send(id, Message::new(time, b"").tagged(self.called))?;
        Ok(())
    }

    /// Takes the next event, or `None` at closing time.
    fn next_event<L: Ledger>(
        &mut self,
        queues: &mut LocalQueues<L>,
        id: Id,
    ) -> Result<Option<u16>, Errno> {
        let up_to_closing = Selection::UpTo(self.closing);
        let received = queues.caller(CLOCK).receive(id, up_to_closing);
        match received {
            Ok(event) => {
                self.now = event.mtype;
                // The log gives this moment to what the event leads to.
                queues.moment = event.mtype.unsigned_abs();
                Ok(Some(event.sender))
            }
            Err(Errno::ENOMSG) => Ok(None),
            Err(errno) => Err(errno),
        }
    }
}

impl QueueProgram for Bank {
    /// The bank at closing time.
    type Answer = Result<Bank, Errno>;

    fn run<L: Ledger>(mut self, _: Config, queues: &mut LocalQueues<L>) -> Self::Answer {
        let id = queues.caller(CLOCK).queue(EVENTS)?;
        self.expect_arrival(queues, id)?;
        for _ in 0..u64::MAX {
            let Some(sender) = self.next_event(queues, id)? else {
                break;
            };
            self.events = self.events.saturating_add(1);
            if sender == DOOR {
                self.arrived = self.arrived.saturating_add(1);
                self.expect_arrival(queues, id)?;
            } else {
                self.free_tellers = self.free_tellers.saturating_add(1);
            }
            self.call_next(queues, id)?;
            let line = self.arrived.saturating_sub(self.called);
            self.longest_line = self.longest_line.max(line);
        }
        Ok(self)
    }
}

/// What is written of a run.
#[derive(Clone, Copy)]
enum Form {
    Summary,
    Picture,
    Trace,
}

/// Until when the bank is open, and what is written.
fn wanted(rt: &HostRuntime) -> Result<(u64, Form)> {
    let mut words = env::args(rt)?;
    let _program = words.next();
    let closing = match words.next() {
        Some(word) => word.parse()?,
        None => 250_000,
    };
    let form = match words.next() {
        Some(word) if word.as_str() == "picture" => Form::Picture,
        Some(word) if word.as_str() == "trace" => Form::Trace,
        _ => Form::Summary,
    };
    Ok((closing, form))
}

fn main(rt: HostRuntime) -> Result<()> {
    let (closing, form) = wanted(&rt)?;
    let one = with_queues(rt.alloc(), SIZE, Bank::new(closing))?;
    let other = with_queues(rt.alloc(), SIZE, Bank::new(closing))?;
    let (Some(slot), Some(again)) = (one.slots.first(), other.slots.first()) else {
        bail!("a system without slots");
    };
    ensure!(
        slot.last.as_slice() == again.last.as_slice(),
        "two runs differ"
    );
    let Bank {
        events,
        now,
        longest_line,
        ..
    } = one.answer?;
    let (alloc, mut writer) = (rt.alloc(), io::writer(&rt));
    let run = [SlotEntries::of_closed(0, slot)];
    match form {
        Form::Summary => println!(rt;
            "{events} events until {now}, at most {longest_line} in line, 2 runs alike"
        )?,
        Form::Picture => write_picture(alloc, &mut writer, &run, &[], TimeScale::Moments)?,
        Form::Trace => write_trace(alloc, &mut writer, &run, &[], TimeScale::Moments)?,
    }
    Ok(())
}
