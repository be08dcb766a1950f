//! `mqsim` reads a script of message queue calls and writes one answer line for each call,
//! or runs sections of it on threads and reports at the end what each did, or draws the run.

#![tactic(auto)]

ghost use Rattle.std.specs.Prelude.{◌≡◌, ◌≢◌, ◌⊎◌};
ghost use Rattle.clap.specs.Values.{kind_of};
ghost use Rattle.clap.specs.declared.error.kind.ErrorKind.TheVariants.{DisplayHelp, DisplayVersion};
ghost use Rattle.mqsim.specs.Status.{run_status, status};

mod command_line;
mod drawn;
mod help;
mod kinds;
mod script_file;
mod serial;
mod threads;
mod ticker;

use clap::Error;
use command_line::{Kind, Output, Request, request_of};
use kinds::run_shown;
use mq_cli::{RunFault, run_prompt};
use script_file::open_script;
use std::env::Env;
use std::io::{ErrorKind, IsTerminal, Write};
use std::process::ExitCode;
use std::rt::Files;
use std::sync::Wait;
use std::thread::Threads;
use std::time::Clock;
use std::{env, io};

/// The status of a fault in the command line, of no memory to read it, and of a script's file that
/// cannot be opened.
const COMMAND_LINE: u8 = 2;

fn main(rt: HostRuntime) -> ExitCode {
    let status = match words(&rt) {
        Ok(words) => answered(&rt, &words, terminals_of(&rt), &mut rt.stderr()),
        Err(fault) => {
            let _ = eprintln!(rt; "mqsim: command line: {fault}");
            COMMAND_LINE
        }
    };
    ExitCode::from(status)
}

/// The command line's words, of which the first is the program's name.
fn words(rt: &(impl AllocGlobal + Env)) -> io::Result<Vec<String>> {
    Ok(env::args(rt)?.collect(rt.alloc())?)
}

/// Which of the program's files are terminals.
struct Terminals {
    /// Standard input, and standard error too.
    is_typed: bool,
    /// Standard error.
    is_shown: bool,
}

fn terminals_of(rt: &HostRuntime) -> Terminals {
    let is_shown = rt.stderr().is_terminal();
    Terminals {
        is_typed: is_shown && rt.stdin().is_terminal(),
        is_shown,
    }
}

/// Runs the command line, and returns the exit status. At a terminal the prompt says how to end,
/// a serial script is answered line by line, and a ticker shows that threads still run.
fn answered(
    rt: &(impl AllocGlobal + Files + Input + Print + Eprint + Threads + Wait + Clock + Sync),
    words: &[String],
    Terminals { is_typed, is_shown }: Terminals,
    prompts: &mut impl Write,
) -> u8 {
    let Request {
        task,
        script,
        prompt,
    } = match request_of(rt.alloc(), words) {
        Ok(request) => request,
        Err(error) => return shown(rt, &error),
    };
    let Some(name) = script else {
        let mut reader = rt.reader();
        let is_answered = matches!((task.kind, task.output), (Kind::Serial, Output::Answers));
        if is_typed {
            let what = match task.kind {
                Kind::Serial => "calls",
                Kind::Threads => "a threads script",
            };
            let _ = eprintln!(rt; "mqsim: type {what}, then Ctrl-D (their lines: mqsim --help)");
        }
        if prompt || (is_typed && is_answered) {
            let mut writer = io::writer(rt);
            let ended = run_prompt(rt.alloc(), &mut reader, &mut writer, prompts, task.config);
            return told(rt, ended);
        }
        return told(rt, run_shown(rt, task, &mut reader, is_shown));
    };
    match open_script(rt, name) {
        Ok(mut file) => told(rt, run_shown(rt, task, &mut file, is_shown)),
        Err(fault) => unopened(rt, name, &fault),
    }
}

/// Names the script's file and why it is not open on standard error, and gives the exit status.
fn unopened(rt: &impl Eprint, name: &str, fault: &io::Error) -> u8
    ensures { result ≡ 2 }
{
    let _ = eprintln!(rt; "mqsim: {name}: {fault}");
    if fault.kind() == ErrorKind::NotFound {
        let _ = eprintln!(rt; "mqsim: a word that is no command names a script's file");
    }
    COMMAND_LINE
}

/// Prints the help, or what is wrong with the words, and gives the exit status.
fn shown(rt: &(impl Print + Eprint), error: &Error) -> u8
    ensures mistake { kind_of error.now ≢ DisplayHelp → kind_of error.now ≢ DisplayVersion
        → result ≡ 2 }
    ensures help { kind_of error.now ≡ DisplayHelp
        → (result ≡ 0) ⊎ (result ≡ status RunFault.Write) }
{
    let printed = error.print(rt);
    if error.use_stderr() {
        COMMAND_LINE
    } else if printed.is_err() {
        told(rt, Err(RunFault::Write))
    } else {
        0
    }
}

/// Names the fault of a run on standard error, if it had one, and gives the exit status.
fn told(rt: &impl Eprint, outcome: Result<(), RunFault>) -> u8
    ensures { result ≡ run_status outcome }
{
    match outcome {
        Ok(()) => 0,
        Err(fault) => {
            let _ = eprintln!(rt; "mqsim: {fault}");
            status_of(fault)
        }
    }
}

/// The exit status of a fault.
fn status_of(fault: RunFault) -> u8
    ensures { result ≡ status fault }
{
    match fault {
        RunFault::Script { .. } | RunFault::Size => 1,
        RunFault::Read => 3,
        RunFault::Write => 4,
        RunFault::Memory => 5,
        RunFault::Thread => 6,
    }
}
