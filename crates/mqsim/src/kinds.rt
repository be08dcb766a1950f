//! A run of either kind, and what is written of it.

ghost use Rattle.mq_cli.specs.Input.{IsRunSize};
ghost use Rattle.mqsim.specs.Runs.{RanKind};

use crate::command_line::{Kind, Output, Task};
use crate::drawn::draw;
use crate::serial::run;
use crate::threads::run_in_threads;
use crate::ticker::Ticker;
use mq_cli::RunFault;
use std::io;
use std::io::Read;
use std::sync::Wait;
use std::thread::{Threads, join_mut};
use std::time::Clock;

/// Runs the reader's script, and prints what the task asks for.
pub fn run_task<R: Read>(
    rt: &(impl AllocGlobal + Print + Threads + Wait + Clock + Sync),
    task: Task,
    reader: &mut R,
) -> Result<(), RunFault>
    requires { IsRunSize task.config }
    ensures ran { RanKind task.kind task.config (R.remaining reader.old) (R.remaining reader.new)
        result }
{
    let writer = io::writer(rt);
    let config = task.config;
    match task.output {
        Output::Answers => match task.kind {
            Kind::Serial => run(rt.alloc(), reader, writer, config),
            Kind::Threads => run_in_threads(rt, rt.alloc(), reader, writer, config),
        },
        Output::Picture | Output::Trace => draw(rt, rt.alloc(), task, reader, writer),
    }
}

/// Runs the reader's script as `run_task` does; where it asks for threads and standard error is a
/// terminal, that shows how long they run.
pub fn run_shown<R: Read>(
    rt: &(impl AllocGlobal + Print + Eprint + Threads + Wait + Clock + Sync),
    task: Task,
    reader: &mut R,
    is_shown: bool,
) -> Result<(), RunFault>
    requires { IsRunSize task.config }
    ensures ran { RanKind task.kind task.config (R.remaining reader.old) (R.remaining reader.new)
        result }
{
    if !is_shown || matches!(task.kind, Kind::Serial) {
        return run_task(rt, task, reader);
    }
    let ticker = Ticker::new();
    let mut shows = || ticker.shows(rt);
    let mut runs = || -> Result<(), RunFault>
        requires { IsRunSize task.config }
        ensures ran { RanKind task.kind task.config (R.remaining reader.entry.now)
            (R.remaining reader.exit.now) result }
    {
        let ended = run_task(rt, task, reader);
        ticker.ends(rt);
        ended
    };
    let ((), ended) = join_mut(rt, &mut shows, &mut runs);
    ended
}
