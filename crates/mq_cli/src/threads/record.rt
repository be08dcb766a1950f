//! A run in several threads that is recorded: it writes nothing, and leaves what happened.

ghost use Rattle.std.specs.Prelude.{◌≡◌, IfOk, length, vec_len};
ghost use Rattle.mq_system.specs.Sizes.{AreNames};
ghost use Rattle.mq_cli.specs.Input.{IsRunSize};
ghost use Rattle.mq_cli.specs.RecordedThreads.{RecordedThreads, RecordsParts, RecordsWanted};
ghost use Rattle.mq_cli.specs.ThreadsParsed.{wanted_seen};
ghost use Rattle.mq_cli.specs.ThreadsRun.{CanRunScript, HaveSeats};

use super::main_part::record_main;
use super::run_sections;
use super::script::{ThreadsScript, read_threads_script};
use super::system_port::Letters;
use crate::recorded::left_of;
use crate::script::read_script;
use crate::{Recorded, RunFault};
use mq_calls::{Closed, Config};
use mq_system::{Blanks, Names, Seat, System};
use mq_trace::Refusal;
use std::alloc::Global;
use std::io::Read;
use std::marker::Brand;
use std::sync::Wait;
use std::thread::Threads;
use std::time::Clock;

/// Reads a threads script whole and runs it as `run_threads` does, and returns what it leaves: the
/// refusals are those of the main part.
pub fn record_threads<T: Threads + Wait + Clock + Sync, R: Read>(
    rt: &T,
    alloc: Global,
    reader: &mut R,
    config: Config,
) -> Result<Recorded, RunFault>
    requires { IsRunSize config }
    ensures recorded { RecordedThreads config (R.remaining reader.old) (R.remaining reader.new)
        result }
{
    let script = read_script(alloc, reader)?;
    let wanted = read_threads_script(alloc, &script)?;
    // Each seat takes memory of its own: there is one for each section, and the first.
    let seats = wanted.sections.len() as u16 + 1;
    let Ok(blanks) = Blanks::of(alloc, Config { seats, ..config }) else {
        return Err(RunFault::Memory);
    };
    record_wanted::<Brand, T>(rt, alloc, config, seats, blanks, &wanted)
}

/// Runs a script that has been read, on a system of `seats` seats.
fn record_wanted<N: Names + Send + Sync, T: Threads + Wait + Clock + Sync>(
    rt: &T,
    alloc: Global,
    config: Config,
    seats: u16,
    blanks: Blanks,
    wanted: &ThreadsScript,
) -> Result<Recorded, RunFault>
    requires names { AreNames N.Names.own N.Naming blanks (record config { seats = seats }) }
    requires run { CanRunScript config blanks.pages.parts seats wanted.now.sections }
    ensures { RecordsWanted config (wanted_seen wanted.now) result }
{
    let sized = Config { seats, ..config };
    let Ok((system, mut seats)) = System::<Letters, N>::new(alloc, rt, sized, blanks) else {
        return Err(RunFault::Memory);
    };
    let ran = match seats.split_first_mut() {
        Some((main, others)) => record_parts(rt, alloc, &system, main, others, wanted),
        None => unreachable!(),
    };
    let Closed { slots, arena: _ } = system.close(rt, seats);
    left_of(ran, slots)
}

/// Makes the calls of the main part by its seat, and then runs each section at the seat of its
/// place among the others.
fn record_parts<N: Names + Send + Sync, T: Threads + Wait + Clock + Sync>(
    rt: &T,
    alloc: Global,
    system: &System<Letters, N>,
    main: &mut Seat<N>,
    others: &mut [Seat<N>],
    wanted: &ThreadsScript,
) -> Result<Vec<Refusal>, RunFault>
    requires { HaveSeats (vec_len wanted.now.sections) (length others.old)
        wanted.now.sections.items }
    ensures count { length others.new ≡ length others.old }
    ensures ran { RecordsParts N.slots N.last_seq (wanted_seen wanted.now) main.old main.new
        result }
{
    let Ok(refusals) = record_main(rt, alloc, system, main, &wanted.calls) else {
        return Err(RunFault::Memory);
    };
    match run_sections(rt, alloc, system, others, &wanted.sections) {
        Ok(_) => Ok(refusals),
        Err(fault) => Err(fault),
    }
}
