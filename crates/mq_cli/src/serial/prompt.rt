//! The read-eval-print loop of a serial script.

ghost use Rattle.std.specs.Prelude.{◌≡◌, ◌++◌, OnOk};
ghost use Rattle.mq_cli.specs.Input.{IsRunSize};
ghost use Rattle.mq_cli.specs.Lines.{lines_of};
ghost use Rattle.mq_cli.specs.Prompt.{WritesAnswer, AnswersAll, AnswersNext, answer_of};
ghost use Rattle.mq_cli.specs.Prompt.{IsLineFault, answers_from, answers_to, cause_name};
ghost use Rattle.mq_cli.specs.Prompt.{fault_line, read_fault_of};
ghost use Rattle.mq_cli.specs.Serial.{Writes};
ghost use Rattle.mq_cli.specs.Session.{CanOpen};

use super::run_command;
use super::session::Session;
use crate::command::read_line;
use crate::limits::TYPED_LIMIT;
use crate::lines::trimmed;
use crate::output::{WriteFailed, write_bytes};
use crate::parts::first_long_part;
use crate::reply::write_field;
use crate::{Cause, RunFault};
use mq_arena::LEDGER_PARTS;
use mq_calls::Config;
use std::alloc::{AllocError, Global};
use std::io::{BufRead, ErrorKind, Write};
use std::marker::Brand;
use std::sync::ledger::{Blank, Ledger};

/// What stands before each line that is typed.
const PROMPT: &[u8] = b"> ";

/// Reads a line at a time, and answers each before the next is read. A line that is not well
/// formed is named, and changes nothing. Before each line `prompts` is given a prompt; where that
/// fails the run continues.
pub fn run_prompt<R: BufRead, W: Write, P: Write>(
    alloc: Global,
    reader: &mut R,
    writer: &mut W,
    prompts: &mut P,
    config: Config,
) -> Result<(), RunFault>
    requires { IsRunSize config }
    ensures ran { AnswersAll (answers_to config) (R.remaining reader.old) (R.remaining reader.new)
        (W.contents writer.old) (W.contents writer.new) result }
{
    prompt::<Brand, R, W, P>(
        alloc,
        config,
        Blank::new(LEDGER_PARTS),
        reader,
        writer,
        prompts,
    )
}

/// The same over a ledger. However the run ends, all texts have then given their pages back.
fn prompt<L: Ledger, R: BufRead, W: Write, P: Write>(
    alloc: Global,
    config: Config,
    ledger: Blank,
    reader: &mut R,
    writer: &mut W,
    prompts: &mut P,
) -> Result<(), RunFault>
    requires { CanOpen ledger.name ledger.parts L.name L.parts }
    ensures { AnswersAll (answers_to config) (R.remaining reader.old) (R.remaining reader.new)
        (W.contents writer.old) (W.contents writer.new) result }
{
    let Ok(mut session) = Session::<L>::new(alloc, config, ledger) else {
        return Err(RunFault::Memory);
    };
    let outcome = answer_lines(alloc, &mut session, reader, writer, prompts);
    session.close();
    outcome
}

/// Answers all lines.
fn answer_lines<L: Ledger, R: BufRead, W: Write, P: Write>(
    alloc: Global,
    session: &mut Session<L>,
    reader: &mut R,
    writer: &mut W,
    prompts: &mut P,
) -> Result<(), RunFault>
    ensures { AnswersAll (λ text. answers_from 1 session.old (lines_of text))
        (R.remaining reader.old) (R.remaining reader.new)
        (W.contents writer.old) (W.contents writer.new) result }
{
    let mut line = Vec::new(alloc);
    let mut out = Vec::new(alloc);
    for number in 1..TYPED_LIMIT {
        let _ = prompts.write_all(PROMPT);
        match answer_next(session, number, reader, &mut line, &mut out, writer) {
            Ok(true) => (),
            Ok(false) => return Ok(()),
            Err(fault) => return Err(fault),
        }
    }
    Err(RunFault::Size)
}

/// Reads the next line and answers it, or says that there is none.
fn answer_next<L: Ledger, R: BufRead, W: Write>(
    session: &mut Session<L>,
    number: u64,
    reader: &mut R,
    line: &mut Vec<u8>,
    out: &mut Vec<u8>,
    writer: &mut W,
) -> Result<bool, RunFault>
    ensures { AnswersNext (R.remaining reader.old) (R.remaining reader.new)
        (W.contents writer.old) (W.contents writer.new) number session.old session.new result }
{
    line.clear();
    match reader.read_until(b'\n', line) {
        Ok(0) => return Ok(false),
        Ok(_) => (),
        Err(error) => return Err(read_fault(error.kind())),
    }
    let (typed, _) = first_long_part(b'\n', line);
    if let Err(fault) = answer_line(session, number, trimmed(typed), out, writer) {
        return Err(fault);
    }
    match writer.flush() {
        Ok(()) => Ok(true),
        Err(_) => Err(RunFault::Write),
    }
}

/// The fault of a read that failed.
fn read_fault(kind: ErrorKind) -> RunFault
    ensures value { result ≡ read_fault_of kind }
    ensures line { IsLineFault result }
{
    match kind {
        ErrorKind::OutOfMemory => RunFault::Memory,
        _ => RunFault::Read,
    }
}

/// Runs one line, or names why it is not well formed.
fn answer_line<L: Ledger, W: Write>(
    session: &mut Session<L>,
    number: u64,
    line: &[u8],
    out: &mut Vec<u8>,
    writer: &mut W,
) -> Result<(), RunFault>
    ensures { WritesAnswer (W.contents writer.old) (W.contents writer.new)
        (answer_of number session.old line.now) session.new result }
{
    match read_line(line) {
        Ok(Some(command)) => run_command(session, number, command, out, writer),
        Ok(None) => Ok(()),
        Err(cause) => name_fault(number, cause, out, writer),
    }
}

/// Writes the line that names a fault, which is made in the buffer first.
fn name_fault<W: Write>(
    number: u64,
    cause: Cause,
    out: &mut Vec<u8>,
    writer: &mut W,
) -> Result<(), RunFault>
    ensures { Writes (W.contents writer.old) (W.contents writer.new) (fault_line number cause)
        result }
{
    out.clear();
    if let Err(AllocError) = write_fault(out, number, cause) {
        return Err(RunFault::Memory);
    }
    match write_bytes(writer, out) {
        Ok(()) => Ok(()),
        Err(WriteFailed) => Err(RunFault::Write),
    }
}

/// `line N: CAUSE`
fn write_fault(out: &mut Vec<u8>, number: u64, cause: Cause) -> Result<(), AllocError>
    ensures { OnOk result (out.new.items ≡ out.old.items ++ fault_line number cause) }
{
    write_field(out, b"line ", number)?;
    out.extend_from_slice(b": ")?;
    out.extend_from_slice(word_of(cause))?;
    out.push(b'\n')?;
    Ok(())
}

/// The word of a cause.
fn word_of(cause: Cause) -> &'static [u8]
    ensures { result.now ≡ cause_name cause }
{
    match cause {
        Cause::Long => b"long",
        Cause::Byte => b"byte",
        Cause::Words => b"words",
        Cause::Number => b"number",
    }
}
