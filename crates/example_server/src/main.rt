//! A server that can run indefinitely: one thread answers the questions of two others, each by a
//! value. The logs are cut as they grow, so that memory stays as it is. The client that ends last
//! removes the queue of questions, and with that the server ends. The first word says how many
//! questions there are, the second after how many entries a log is cut.

#![tactic(auto)]

ghost use Rattle.std.specs.Prelude.{◌≡◌, ◌*◌, IfSome};
ghost use Rattle.example_server.specs.declared.TheConstants.{PRICE};

use mq::{
    Caller, Carries, Clock, Config, DEFAULTS, Duration, Errno, Names, Selection, Setup, Vow, Wait,
    Worker, WorkersError,
};
use std::{env, io};

/// The keys of the queue of questions and of the queue of answers. A question is of type 1, an
/// answer of the type that its client's seat has.
const QUESTIONS: i32 = 1;

const ANSWERS: i32 = 2;

/// The type of the message by which a client says that it has ended.
const ENDED: i64 = 100;

/// What one piece costs.
const PRICE: u64 = 7;

/// The seconds that each waits for another.
const PATIENCE: u64 = 60;

/// Two slots, each of which serves one queue and no other after it: a call after a queue
/// was removed creates none anew.
const SIZE: Config = Config {
    slots: 2,
    last_seq: 0,
    ..DEFAULTS
};

/// What is sent: how many pieces, and in an answer what they cost.
struct Prices;

impl Vow for Prices {
    type Value = (u32, Option<u64>);

    ghost vowed = { λ _seat _tag _mtype sent. IfSome sent.1 (λ cost. cost ≡ sent.0 * PRICE) };
}

/// What a thread does.
#[derive(Drop)]
enum Role {
    /// Answers questions until their queue is removed.
    Serve,
    /// Asks `count` questions, as the client that ends last or as the other one.
    Ask { count: u64, last: bool },
}

/// Answers questions until their queue is removed.
fn serve<N: Names, R: Wait + Clock>(
    caller: &mut Caller<'_, Carries<Prices>, N, R>,
) -> Result<(), Errno> {
    let patience = Duration::from_secs(PATIENCE);
    let questions = caller.queue(QUESTIONS)?;
    let answers = caller.queue(ANSWERS)?;
    for _ in 0..u64::MAX {
        let asked = match caller.receive_value_timeout(questions, Selection::Any, patience) {
            Ok(asked) => asked,
            Err(refusal) if refusal.errno() == Errno::EIDRM => break,
            Err(refusal) => return Err(refusal.errno()),
        };
        let (pieces, _) = asked.text;
        let answer = (pieces, Some(u64::from(pieces) * PRICE));
        caller.send_value(answers, i64::from(asked.sender), asked.tag, &answer)?;
    }
    Ok(())
}

/// Asks `count` questions, and waits for the answer to each.
fn ask<N: Names, R: Wait + Clock>(
    caller: &mut Caller<'_, Carries<Prices>, N, R>,
    count: u64,
    last: bool,
) -> Result<(), Errno> {
    let patience = Duration::from_secs(PATIENCE);
    let questions = caller.queue(QUESTIONS)?;
    let answers = caller.queue(ANSWERS)?;
    let own = i64::from(caller.number());
    for tag in 0..count {
        caller.send_value(questions, 1, tag, &((tag % 100) as u32, None))?;
        caller.receive_value_timeout(answers, Selection::Exact(own), patience)?;
    }
    if last {
        caller.receive_value_timeout(answers, Selection::Exact(ENDED), patience)?;
        caller.remove(questions)?;
    } else {
        caller.send_value(answers, ENDED, 0, &(0, None))?;
    }
    Ok(())
}

impl Worker<Carries<Prices>> for Role {
    type Answer = Result<(), Errno>;

    fn work<N: Names, R: Wait + Clock>(
        self,
        caller: &mut Caller<'_, Carries<Prices>, N, R>,
    ) -> Result<(), Errno> {
        let done = match self {
            Role::Serve => serve(caller),
            Role::Ask { count, last } => ask(caller, count, last),
        };
        if done.is_err() {
            // Then the queues are removed, and calls that wait in them fail with EIDRM.
            for key in [QUESTIONS, ANSWERS] {
                if let Ok(id) = caller.queue(key) {
                    let _ = caller.remove(id);
                }
            }
        }
        done
    }
}

/// Why nothing is printed.
#[derive(Debug, Drop)]
enum Fault {
    Memory,
    Word(io::Error),
    Workers(WorkersError),
    Call(Errno),
    Output(io::Error),
}

/// The numbers of the two words, where there are such words.
fn numbers(rt: &HostRuntime) -> Result<[u64; 2], io::Error> {
    let mut numbers = [100_000, 10_000];
    let mut words = env::args(rt)?;
    let _program = words.next();
    for number in numbers.iter_mut() {
        if let Some(word) = words.next() {
            if let Ok(read) = word.parse() {
                *number = read;
            }
        }
    }
    Ok(numbers)
}

fn main(rt: HostRuntime) -> Result<(), Fault> {
    let [questions, every] = numbers(&rt).map_err(Fault::Word)?;
    let half = questions / 2;
    let mut roles = Vec::new(rt.alloc());
    for role in [
        Role::Serve,
        Role::Ask {
            count: half,
            last: false,
        },
        Role::Ask {
            count: questions - half,
            last: true,
        },
    ] {
        roles.push(role).map_err(|_| Fault::Memory)?;
    }
    let ended = Setup::new(SIZE)
        .cut_logs_after(every)
        .with_workers(&rt, rt.alloc(), roles)
        .map_err(Fault::Workers)?;
    for done in ended.answer {
        done.map_err(Fault::Call)?;
    }
    let mut entries = 0u64;
    for slot in ended.slots.iter() {
        let kept = (slot.past.len() as u64).saturating_add(slot.last.len() as u64);
        entries = entries.saturating_add(slot.first).saturating_add(kept);
    }
    println!(rt; "{questions} requests, {entries} entries").map_err(Fault::Output)
}
