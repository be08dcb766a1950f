//! A run in one thread that is recorded: it writes nothing, and leaves what happened.

ghost use Rattle.std.specs.Prelude.{◌≡◌, ◌≤◌, [], OnOk, length};
ghost use Rattle.mq_cli.specs.Commands.{reading};
ghost use Rattle.mq_cli.specs.Input.{IsRunSize};
ghost use Rattle.mq_cli.specs.Lines.{lines_of};
ghost use Rattle.mq_cli.specs.Recorded.{RecordedSerial, Records, RecordsLine, RecordsLines};
ghost use Rattle.mq_cli.specs.Recording.{is_passed as passes, recorded, recorded_by};
ghost use Rattle.mq_cli.specs.Recording.{recorded_from, recording, recording_of};
ghost use Rattle.mq_cli.specs.Seen.{asked_by};
ghost use Rattle.mq_cli.specs.Session.{CanOpen};

use super::answer::answer;
use super::session::Session;
use crate::command::{Command, read_line};
use crate::lines::Lines;
use crate::recorded::left_of;
use crate::refusal::{keep, refusal_of};
use crate::script::read_script;
use crate::{Recorded, RunFault, SCRIPT_LIMIT};
use mq_arena::LEDGER_PARTS;
use mq_calls::Config;
use mq_local::OneThread;
use mq_trace::Refusal;
use std::alloc::{AllocError, Global};
use std::io::Read;
use std::marker::Brand;
use std::sync::ledger::{Blank, Ledger};

/// Reads a script whole, then makes the calls of its lines as `run_serial` does, except that cuts
/// of existing slots drain nothing, and returns what they leave.
pub fn record_serial<R: Read>(
    alloc: Global,
    reader: &mut R,
    config: Config,
) -> Result<Recorded, RunFault>
    requires { IsRunSize config }
    ensures recorded { RecordedSerial config (R.remaining reader.old) (R.remaining reader.new)
        result }
{
    let script = read_script(alloc, reader)?;
    record_script::<Brand>(alloc, config, Blank::new(LEDGER_PARTS), &script)
}

/// Makes the calls of a script that has been read.
fn record_script<L: Ledger>(
    alloc: Global,
    config: Config,
    ledger: Blank,
    script: &[u8],
) -> Result<Recorded, RunFault>
    requires fits { length script.now ≤ SCRIPT_LIMIT }
    requires ledger { CanOpen ledger.name ledger.parts L.name L.parts }
    ensures { Records (recording_of config script.now) result }
{
    let Ok(mut session) = Session::<L>::new(alloc, config, ledger) else {
        return Err(RunFault::Memory);
    };
    let ended = record_lines(alloc, &mut session, script);
    let slots = session.close();
    left_of(ended, slots)
}

/// Makes the calls of the lines up to the first that is not well formed.
fn record_lines<L: Ledger>(
    alloc: Global,
    session: &mut Session<L>,
    script: &[u8],
) -> Result<Vec<Refusal>, RunFault>
    requires fits { length script.now ≤ SCRIPT_LIMIT }
    ensures { RecordsLines (recorded_from 1 (recording session.old []) (lines_of script.now))
        session.new result }
{
    let mut refusals = Vec::new(alloc);
    let mut out = Vec::new(alloc);
    let mut number = 0;
    for line in Lines::new(script) {
        number += 1;
        if let Err(fault) = record_line(session, &mut refusals, number, line, &mut out) {
            return Err(fault);
        }
    }
    Ok(refusals)
}

/// Makes the call of one line, whose answer is made in the buffer.
fn record_line<L: Ledger>(
    session: &mut Session<L>,
    refusals: &mut Vec<Refusal>,
    number: u64,
    line: &[u8],
    out: &mut Vec<u8>,
) -> Result<(), RunFault>
    ensures { RecordsLine number
        (recorded_by number (recording session.old refusals.old.items) (reading line.now))
        (recording session.new refusals.new.items) result }
{
    match read_line(line) {
        Ok(Some(command)) => match record_call(session, refusals, number, command, out) {
            Ok(()) => Ok(()),
            Err(AllocError) => Err(RunFault::Memory),
        },
        Ok(None) => Ok(()),
        Err(cause) => Err(RunFault::Script {
            line: number,
            cause,
        }),
    }
}

/// Makes one call, and records its refusal, if it is refused.
#[tactic(auto, using(crate::proofs::RecordLemmas::call_recorded))]
fn record_call<L: Ledger>(
    session: &mut Session<L>,
    refusals: &mut Vec<Refusal>,
    number: u64,
    command: Command<'_>,
    out: &mut Vec<u8>,
) -> Result<(), AllocError>
    ensures { OnOk result (recording session.new refusals.new.items
        ≡ recorded number (recording session.old refusals.old.items) (asked_by command.entry)) }
{
    if is_passed(&session.queues, command) {
        return Ok(());
    }
    let seat = session.seat;
    out.clear();
    let told = answer(session, number, command, out)?;
    keep(refusals, refusal_of(number, seat, command, told))?;
    Ok(())
}

/// Whether a line is skipped, since it drains the log of an existing slot.
fn is_passed<L: Ledger>(queues: &OneThread<L>, command: Command<'_>) -> bool
    ensures { result ≡ passes queues.now (asked_by command.entry) }
{
    match command {
        Command::Cut { slot } => slot < queues.slots(),
        _ => false,
    }
}
