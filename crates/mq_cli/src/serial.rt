//! Serial scripts, whose calls one thread makes line by line. This file has the run of a script.

ghost use Rattle.std.specs.Prelude.{◌≤◌, Some, Ok, length};
ghost use Rattle.mq_cli.specs.Commands.{reading};
ghost use Rattle.mq_cli.specs.Input.{IsRunSize};
ghost use Rattle.mq_cli.specs.Lines.{lines_of};
ghost use Rattle.mq_cli.specs.Seen.{asked_by};
ghost use Rattle.mq_cli.specs.Serial.{RanSerial, Runs, RunsLine};
ghost use Rattle.mq_cli.specs.Session.{CanOpen};
ghost use Rattle.mq_cli.specs.Transcript.{run_from, run_of, said};

use crate::command::{Command, read_line};
use crate::lines::Lines;
use crate::output::{WriteFailed, write_bytes};
use crate::script::read_script;
use crate::{RunFault, SCRIPT_LIMIT};
use answer::answer;
use mq_arena::LEDGER_PARTS;
use mq_calls::Config;
use session::Session;
use std::alloc::{AllocError, Global};
use std::io::{Read, Write};
use std::marker::Brand;
use std::sync::ledger::{Blank, Ledger};

mod answer;
mod prompt;
mod record;
mod report;
mod session;

pub use prompt::run_prompt;
pub use record::record_serial;

/// Reads a script whole, then runs it line by line and writes the answer of each call. The first
/// line that is not well formed ends it, after the answers of the lines before.
pub fn run_serial<R: Read, W: Write>(
    alloc: Global,
    reader: &mut R,
    writer: &mut W,
    config: Config,
) -> Result<(), RunFault>
    requires { IsRunSize config }
    ensures ran { RanSerial config (R.remaining reader.old) (R.remaining reader.new)
        (W.contents writer.old) (W.contents writer.new) result }
{
    let script = read_script(alloc, reader)?;
    run_script::<Brand, W>(alloc, config, Blank::new(LEDGER_PARTS), &script, writer)
}

/// Runs a script that has been read, and flushes the writer. However the run ends, all texts have
/// then given their pages back.
fn run_script<L: Ledger, W: Write>(
    alloc: Global,
    config: Config,
    ledger: Blank,
    script: &[u8],
    writer: &mut W,
) -> Result<(), RunFault>
    requires fits { length script.now ≤ SCRIPT_LIMIT }
    requires ledger { CanOpen ledger.name ledger.parts L.name L.parts }
    ensures { Runs (W.contents writer.old) (W.contents writer.new)
        (run_of config script.now) result }
{
    let Ok(mut session) = Session::<L>::new(alloc, config, ledger) else {
        return Err(RunFault::Memory);
    };
    let outcome = run_lines(alloc, &mut session, script, writer);
    session.close();
    match writer.flush() {
        Ok(()) => outcome,
        Err(_) => Err(RunFault::Write),
    }
}

/// Runs the lines up to the first that is not well formed.
fn run_lines<L: Ledger, W: Write>(
    alloc: Global,
    session: &mut Session<L>,
    script: &[u8],
    writer: &mut W,
) -> Result<(), RunFault>
    requires fits { length script.now ≤ SCRIPT_LIMIT }
    ensures { Runs (W.contents writer.old) (W.contents writer.new)
        (run_from 1 session.old (lines_of script.now)) result }
{
    let mut number = 0;
    let mut out = Vec::new(alloc);
    for line in Lines::new(script) {
        number += 1;
        if let Err(fault) = run_line(session, number, line, &mut out, writer) {
            return Err(fault);
        }
    }
    Ok(())
}

/// Runs one line, and writes its answer.
fn run_line<L: Ledger, W: Write>(
    session: &mut Session<L>,
    number: u64,
    line: &[u8],
    out: &mut Vec<u8>,
    writer: &mut W,
) -> Result<(), RunFault>
    ensures { RunsLine (W.contents writer.old) (W.contents writer.new) number
        (said number session.old (reading line.now)) session.new result }
{
    match read_line(line) {
        Ok(Some(command)) => run_command(session, number, command, out, writer),
        Ok(None) => Ok(()),
        Err(cause) => Err(RunFault::Script {
            line: number,
            cause,
        }),
    }
}

/// Makes the call of a line, and writes its answer, which is made in the buffer first.
pub(crate) fn run_command<L: Ledger, W: Write>(
    session: &mut Session<L>,
    number: u64,
    command: Command<'_>,
    out: &mut Vec<u8>,
    writer: &mut W,
) -> Result<(), RunFault>
    ensures { RunsLine (W.contents writer.old) (W.contents writer.new) number
        (said number session.old (Ok (Some (asked_by command.entry)))) session.new result }
{
    out.clear();
    if let Err(AllocError) = answer(session, number, command, out) {
        return Err(RunFault::Memory);
    }
    match write_bytes(writer, out) {
        Ok(()) => Ok(()),
        Err(WriteFailed) => Err(RunFault::Write),
    }
}
