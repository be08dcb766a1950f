//! Queue systems that are made and closed again, with no call between.

use crate::system::Anything;
use crate::words::Words;
use anyhow::Result;
use mq::{
    Caller, Config, DEFAULTS, Ledger, LocalQueues, Names, QueueProgram, SystemProgram, with_queues,
    with_system,
};
use std::alloc::Global;
use std::rt::Files;
use std::sync::Wait;
use std::time::Clock;
use std::{fs, io};

/// Makes no call, and answers what /proc shows of the process's memory, where it is asked to.
#[derive(Drop)]
struct Idle<'a, R> {
    rt: &'a R,
    tells: bool,
}

impl<'a, R: Files + AllocGlobal> Idle<'a, R> {
    fn answer(self) -> io::Result<String> {
        if self.tells {
            fs::read_to_string(self.rt, "/proc/self/smaps_rollup")
        } else {
            Ok(String::new(self.rt.alloc()))
        }
    }
}

impl<'a, F: Files + AllocGlobal> QueueProgram for Idle<'a, F> {
    type Answer = io::Result<String>;

    fn run<L: Ledger>(self, _config: Config, _queues: &mut LocalQueues<L>) -> io::Result<String> {
        self.answer()
    }
}

impl<'a, F: Files + AllocGlobal> SystemProgram<Anything> for Idle<'a, F> {
    type Answer = io::Result<String>;

    fn run<N: Names, R: Wait + Clock>(
        self,
        _config: Config,
        _callers: &mut [Caller<'_, Anything, N, R>],
    ) -> io::Result<String> {
        self.answer()
    }
}

/// `start BODY HEIGHT COUNT WHAT`, where BODY is `one`, a queue system of one thread, `system`, one
/// of 16 seats, or `none`: makes so many, one after another, and counts them. Where WHAT is
/// `memory`, it prints what /proc shows of the process's memory while each is there.
pub(crate) fn run(
    rt: &(impl Print + Files + Wait + Clock + AllocGlobal),
    alloc: Global,
    words: &Words,
) -> Result<()> {
    let config = Config {
        height: u8::try_from(words.number(2, 3)?)?,
        ..DEFAULTS
    };
    let tells = words.word(4) == "memory";
    let mut made = 0u32;
    for _ in 0..words.number(3, 10)? {
        let idle = Idle { rt, tells };
        let answer = match words.word(1) {
            "none" => idle.answer(),
            "system" => with_system::<Anything, _, _>(rt, alloc, config, idle)?.answer,
            _ => with_queues(alloc, config, idle)?.answer,
        };
        print!(rt; "{}", answer?)?;
        made = made.wrapping_add(1);
    }
    println!(rt; "{made} made")?;
    Ok(())
}
