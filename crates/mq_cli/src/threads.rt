//! Threads scripts, each section of which runs on a thread of its own. This file has the run of a
//! script: its main part, its workers, and the summary.

ghost use Rattle.std.specs.Prelude.{◌≡◌, length, vec_len};
ghost use Rattle.mq_system.specs.Sizes.{AreNames};
ghost use Rattle.mq_cli.specs.Input.{IsRunSize};
ghost use Rattle.mq_cli.specs.Threads.{Flushes, RanParts, RanWorkers, TellsEnd};
ghost use Rattle.mq_cli.specs.ThreadsParsed.{wanted_seen};
ghost use Rattle.mq_cli.specs.ThreadsRun.{CanRunScript, HaveSeats, RanThreads, RanWanted};

use crate::RunFault;
use crate::output::{WriteFailed, write_bytes};
use crate::script::read_script;
use closing::closing_text;
use main_part::run_main;
use mq_calls::{Closed, ClosedSlot, Config};
use mq_system::{Blanks, Names, Seat, System};
use script::{ThreadsScript, read_threads_script};
use std::alloc::Global;
use std::io::{Read, Write};
use std::marker::Brand;
use std::sync::Wait;
use std::thread::Threads;
use std::time::Clock;
use system_port::ports_of;

mod call;
mod closing;
mod line;
mod main_part;
mod notes;
mod outcome;
mod plan;
mod port;
mod record;
pub(crate) mod script;
mod step;
mod system_port;
mod taken;
pub mod worked;
mod workers;

pub use call::{PutCall, TakeCall};
pub use outcome::Outcome;
pub use plan::work;
pub use port::Port;
pub use record::record_threads;
pub use step::Step;
pub use system_port::{Letters, SystemPort, letters_of_ports};
pub use taken::Taken;
pub use workers::run_workers;

/// Reads a threads script whole and makes the calls of its main part, whose answers it writes. Then
/// it runs each section on a thread of its own, and writes at the end what each of them did, what
/// is in each slot and how many pages are free. A line that is not well formed is found before
/// anything is run.
pub fn run_threads<T: Threads + Wait + Clock + Sync, R: Read, W: Write>(
    rt: &T,
    alloc: Global,
    reader: &mut R,
    writer: &mut W,
    config: Config,
) -> Result<(), RunFault>
    requires { IsRunSize config }
    ensures ran { RanThreads config (R.remaining reader.old) (R.remaining reader.new)
        (W.contents writer.old) (W.contents writer.new) result }
{
    let script = read_script(alloc, reader)?;
    let wanted = read_threads_script(alloc, &script)?;
    // Each seat takes memory of its own: there is one for each section, and the first.
    let seats = wanted.sections.len() as u16 + 1;
    let Ok(blanks) = Blanks::of(alloc, Config { seats, ..config }) else {
        return Err(RunFault::Memory);
    };
    let seating = Seating { seats, blanks };
    run_wanted::<Brand, T, W>(rt, alloc, config, seating, &wanted, writer)
}

/// The number of seats of a run's system, and the ledgers and boards for so many.
struct Seating {
    seats: u16,
    blanks: Blanks,
}

/// Runs a script that has been read, on a system of this size but for its seats, and flushes the
/// writer. However the run ends, all texts have then given their pages back.
fn run_wanted<N: Names + Send + Sync, T: Threads + Wait + Clock + Sync, W: Write>(
    rt: &T,
    alloc: Global,
    config: Config,
    seating: Seating,
    wanted: &ThreadsScript,
    writer: &mut W,
) -> Result<(), RunFault>
    requires names { AreNames N.Names.own N.Naming seating.blanks
        (record config { seats = seating.seats }) }
    requires run { CanRunScript config seating.blanks.pages.parts seating.seats
        wanted.now.sections }
    ensures { RanWanted config (wanted_seen wanted.now)
        (W.contents writer.old) (W.contents writer.new) result }
{
    let Seating { seats, blanks } = seating;
    let sized = Config { seats, ..config };
    let Ok((system, mut seats)) = System::<Letters, N>::new(alloc, rt, sized, blanks) else {
        return Err(RunFault::Memory);
    };
    let ran = match seats.split_first_mut() {
        Some((main, others)) => run_parts(
            Host { rt, alloc },
            &system,
            main,
            others,
            wanted,
            writer,
        ),
        None => unreachable!(),
    };
    let Closed { slots, arena } = system.close(rt, seats);
    let (pages, free) = (arena.pages(), arena.free_pages());
    let told = tell(alloc, ran, &slots, pages, free, writer);
    flush(writer, told)
}

/// What a run has of its host: threads and a clock, and memory.
struct Host<'a, T> {
    rt: &'a T,
    alloc: Global,
}

/// Makes the calls of the main part by its seat, and then runs each section at the seat of its
/// place among the others.
fn run_parts<N: Names + Send + Sync, T: Threads + Wait + Clock + Sync, W: Write>(
    host: Host<'_, T>,
    system: &System<Letters, N>,
    main: &mut Seat<N>,
    others: &mut [Seat<N>],
    wanted: &ThreadsScript,
    writer: &mut W,
) -> Result<Vec<Outcome>, RunFault>
    requires { HaveSeats (vec_len wanted.now.sections) (length others.old)
        wanted.now.sections.items }
    ensures count { length others.new ≡ length others.old }
    ensures ran { RanParts N.slots N.last_seq (wanted_seen wanted.now) main.old main.new
        (W.contents writer.old) (W.contents writer.new) result }
{
    let Host { rt, alloc } = host;
    run_main(rt, alloc, system, main, &wanted.calls, writer)?;
    let Ok(()) = writer.flush() else {
        return Err(RunFault::Write);
    };
    run_sections(rt, alloc, system, others, &wanted.sections)
}

/// Runs each section at a seat of its own.
pub(crate) fn run_sections<N: Names + Send + Sync, T: Threads + Wait + Clock + Sync>(
    rt: &T,
    alloc: Global,
    system: &System<Letters, N>,
    seats: &mut [Seat<N>],
    sections: &[Vec<Step>],
) -> Result<Vec<Outcome>, RunFault>
    requires { HaveSeats (length sections.now) (length seats.old) sections.now }
    ensures { RanWorkers sections.now result }
{
    let (seats, _) = seats.split_at_mut(sections.len());
    let Ok(letters) = letters_of_ports(alloc) else {
        return Err(RunFault::Memory);
    };
    let Ok(mut ports) = ports_of(alloc, seats, &letters) else {
        return Err(RunFault::Memory);
    };
    run_workers(rt, alloc, system, sections, ports.as_mut_slice())
}

/// Writes the summary, where the workers were run.
fn tell<W: Write>(
    alloc: Global,
    ran: Result<Vec<Outcome>, RunFault>,
    slots: &[ClosedSlot],
    pages: u32,
    free: u32,
    writer: &mut W,
) -> Result<(), RunFault>
    ensures { TellsEnd (W.contents writer.old) (W.contents writer.new) slots.now pages free
        ran result }
{
    let outcomes = match ran {
        Ok(outcomes) => outcomes,
        Err(fault) => return Err(fault),
    };
    let Ok(text) = closing_text(alloc, &outcomes, slots, pages, free) else {
        return Err(RunFault::Memory);
    };
    match write_bytes(writer, &text) {
        Ok(()) => Ok(()),
        Err(WriteFailed) => Err(RunFault::Write),
    }
}

/// Flushes the writer; where that fails, it is the run's fault.
fn flush<W: Write>(writer: &mut W, told: Result<(), RunFault>) -> Result<(), RunFault>
    ensures { Flushes (W.contents writer.old) (W.contents writer.new) told result }
{
    match writer.flush() {
        Ok(()) => told,
        Err(_) => Err(RunFault::Write),
    }
}
