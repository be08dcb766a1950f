//! The words after the program's name.

ghost use Rattle.std.specs.Prelude.{◌≡◌, ◌≤◌, true, false, length, codes, option_map, IfOk, Ok};
ghost use Rattle.std.specs.Prelude.{None, Some};
ghost use Rattle.clap.specs.Matches.{first_value, found_of, one_text};
ghost use Rattle.mq_cli.specs.Input.{IsRunSize};
ghost use Rattle.mqsim.specs.Options.{AreOptions, Means, bare_request, file_named};

use crate::help::{NOTES, SERIAL_NOTES, THREADS_NOTES};
use clap::{Arg, ArgAction, ArgMatches, Command, Error, value_parser};
use mq_calls::{Config, MAX_HEIGHT, MAX_SEATS, MAX_SEQ, MAX_SLOTS};
use mq_cli::SCRIPT_DEFAULTS;
use std::alloc::{AllocError, Global};

/// The two kinds of scripts.
#[derive(Clone, Copy)]
pub enum Kind {
    /// In one thread.
    Serial,
    /// Each section on a thread of its own.
    Threads,
}

/// What is written of a run.
#[derive(Clone, Copy)]
pub enum Output {
    /// What its calls answer.
    Answers,
    /// A picture of what happened.
    Picture,
    /// A trace of it.
    Trace,
}

/// A run of a script of this kind, over queues of this size.
#[derive(Clone, Copy)]
pub struct Task {
    pub kind: Kind,
    pub output: Output,
    pub config: Config,
}

/// What the words ask for.
#[derive(Clone, Copy)]
pub struct Request<'a> {
    pub task: Task,
    /// The name of the script's file, where it is not standard input.
    pub script: Option<&'a str>,
    /// Whether each line is answered before the next is read.
    pub prompt: bool,
}

/// Reads the words, of which the first is the program's name. An `Err` is a mistake in them, a call
/// for the help, or no memory.
pub fn request_of<'a>(alloc: Global, words: &'a [String]) -> Result<Request<'a>, Error>
    ensures bare { length words.now ≤ 1 → result ≡ Ok bare_request }
    ensures size { IfOk result (λ request. IsRunSize request.task.config) }
{
    if words.len() <= 1 {
        return Ok(plain(None, false));
    }
    let matches = command(alloc)?.try_get_matches_from(words)?;
    if let Some(given) = matches.subcommand_matches("threads") {
        return Ok(optioned(given, Kind::Threads, Output::Answers, false));
    }
    if let Some(given) = matches.subcommand_matches("serial") {
        let prompt = asks_for_a_prompt(given);
        return Ok(optioned(given, Kind::Serial, Output::Answers, prompt));
    }
    if let Some(given) = matches.subcommand_matches("picture") {
        return Ok(optioned(given, kind_of(given), Output::Picture, false));
    }
    if let Some(given) = matches.subcommand_matches("trace") {
        return Ok(optioned(given, kind_of(given), Output::Trace, false));
    }
    Ok(plain(script_of(&matches), asks_for_a_prompt(&matches)))
}

/// A run in one thread over queues of the default size, whose answers are written.
fn plain(script: Option<&str>, prompt: bool) -> Request<'_>
    ensures bare { (script.entry ≡ None) → (prompt ≡ false) → result ≡ bare_request }
    ensures size { IsRunSize result.task.config }
{
    Request {
        task: Task {
            kind: Kind::Serial,
            output: Output::Answers,
            config: SCRIPT_DEFAULTS,
        },
        script,
        prompt,
    }
}

/// A run by the words after a subcommand.
fn optioned<'a>(given: &ArgMatches<'a>, kind: Kind, output: Output, prompt: bool) -> Request<'a>
    ensures size { IsRunSize result.task.config }
{
    Request {
        task: Task {
            kind,
            output,
            config: options_of(given),
        },
        script: script_of(given),
        prompt,
    }
}

/// The kind of the script, by whether `--threads` is there.
fn kind_of(given: &ArgMatches<'_>) -> Kind
    ensures serial { one_text (found_of given.now) (codes "threads") ≡ None
        → result ≡ Kind.Serial }
    ensures threads { one_text (found_of given.now) (codes "threads") ≡ Some (codes "true")
        → result ≡ Kind.Threads }
{
    if given.get_flag("threads") {
        Kind::Threads
    } else {
        Kind::Serial
    }
}

/// The name of the script's file; `-` names standard input, as no word does.
fn script_of<'a>(given: &ArgMatches<'a>) -> Option<&'a str>
    ensures { option_map (λ name. name.now) result
        ≡ file_named (first_value (found_of given.now) (codes "script")) }
{
    let name = given.get_str("script")?;
    if name == "-" {
        return None;
    }
    Some(name)
}

/// Whether `-i` is there.
fn asks_for_a_prompt(given: &ArgMatches<'_>) -> bool
    ensures none { one_text (found_of given.now) (codes "interactive") ≡ None → result ≡ false }
    ensures given { one_text (found_of given.now) (codes "interactive") ≡ Some (codes "true")
        → result ≡ true }
{
    given.get_flag("interactive")
}

/// What the words after a subcommand give, and the defaults for the rest.
fn options_of(given: &ArgMatches<'_>) -> Config
    ensures options { AreOptions (one_text (found_of given.now)) result }
    ensures size { IsRunSize result }
{
    Config {
        height: height_of(given),
        slots: slots_of(given),
        seats: MAX_SEATS,
        last_seq: last_seq_of(given),
    }
}

// The parser takes no value out of its range, so the bounds here change none.

fn height_of(given: &ArgMatches<'_>) -> u8
    ensures value { Means 0 10 6 (one_text (found_of given.now) (codes "height")) result }
    ensures limit { result ≤ MAX_HEIGHT }
{
    let height: u8 = given.get_one("height").unwrap_or(SCRIPT_DEFAULTS.height);
    height.min(MAX_HEIGHT)
}

fn slots_of(given: &ArgMatches<'_>) -> u8
    ensures value { Means 1 64 16 (one_text (found_of given.now) (codes "slots")) result }
    ensures limit { (1 ≤ result) × (result ≤ MAX_SLOTS) }
{
    let slots: u8 = given.get_one("slots").unwrap_or(SCRIPT_DEFAULTS.slots);
    slots.clamp(1, MAX_SLOTS)
}

fn last_seq_of(given: &ArgMatches<'_>) -> u32
    ensures value { Means 0 32767 32767 (one_text (found_of given.now) (codes "last-seq")) result }
    ensures limit { result ≤ MAX_SEQ }
{
    let last_seq: u32 = given
        .get_one("last-seq")
        .unwrap_or(SCRIPT_DEFAULTS.last_seq);
    last_seq.min(MAX_SEQ)
}

/// The whole command line.
fn command<'a>(alloc: Global) -> Result<Command<'a>, AllocError> {
    Command::new(alloc, "mqsim")
        .version("0.1.0")
        .about("Runs a script of message queue calls, one answer line a call")
        .after_help(NOTES)
        .args_conflicts_with_subcommands(true)
        .arg(interactive(alloc)?)?
        .arg(script(alloc))?
        .subcommand(serial(alloc)?)?
        .subcommand(threads(alloc)?)?
        .subcommand(picture(alloc)?)?
        .subcommand(trace(alloc)?)
}

/// The subcommand `serial`.
fn serial<'a>(alloc: Global) -> Result<Command<'a>, AllocError> {
    let command = Command::new(alloc, "serial")
        .about("Makes the calls one after the other (as mqsim does without this word)")
        .after_help(SERIAL_NOTES)
        .arg(interactive(alloc)?)?;
    with_options(alloc, command)
}

/// The subcommand `threads`.
fn threads<'a>(alloc: Global) -> Result<Command<'a>, AllocError> {
    let command = Command::new(alloc, "threads")
        .about("Runs each section on a thread of its own; a put or take may block forever")
        .after_help(THREADS_NOTES);
    with_options(alloc, command)
}

/// The subcommand `picture`.
fn picture<'a>(alloc: Global) -> Result<Command<'a>, AllocError> {
    let command = Command::new(alloc, "picture")
        .about("Runs a script, and draws what happened in each slot as an SVG picture")
        .arg(sections(alloc))?;
    with_options(alloc, command)
}

/// The subcommand `trace`.
fn trace<'a>(alloc: Global) -> Result<Command<'a>, AllocError> {
    let command = Command::new(alloc, "trace")
        .about("Runs a script, and writes what happened as a trace, for a trace viewer")
        .arg(sections(alloc))?;
    with_options(alloc, command)
}

/// The flag of a threads script.
fn sections<'a>(alloc: Global) -> Arg<'a> {
    Arg::new(alloc, "threads")
        .long("threads")
        .action(ArgAction::SetTrue)
        .help("The script is a threads script, and is run as such")
}

/// The flag of a prompt.
fn interactive<'a>(alloc: Global) -> Result<Arg<'a>, AllocError> {
    Arg::new(alloc, "interactive")
        .short('i')
        .long("interactive")
        .action(ArgAction::SetTrue)
        .help("Answers each line before the next is read, as at a terminal")
        .conflicts_with("script")
}

/// The word that names the script's file.
fn script<'a>(alloc: Global) -> Arg<'a> {
    Arg::new(alloc, "script")
        .value_name("SCRIPT")
        .help("The script's file [default: standard input, as for -]")
}

/// A subcommand, which the options and the script's file follow.
fn with_options<'a>(alloc: Global, command: Command<'a>) -> Result<Command<'a>, AllocError> {
    let height = Arg::new(alloc, "height")
        .long("height")
        .value_name("H")
        .value_parser(value_parser!(u8).range(0..=i64::from(MAX_HEIGHT)))
        .help("The arena has 2^H pages of 1,024 bytes; H is 0 to 10 [default: 6]");
    let slots = Arg::new(alloc, "slots")
        .long("slots")
        .value_name("S")
        .value_parser(value_parser!(u8).range(1..=i64::from(MAX_SLOTS)))
        .help("At most S queues at a time; S is 1 to 64 [default: 16]");
    let last_seq = Arg::new(alloc, "last-seq")
        .long("last-seq")
        .value_name("Q")
        .value_parser(value_parser!(u32).range(0..=i64::from(MAX_SEQ)))
        .help("A slot is used for Q + 1 queues, then retired; Q is 0 to 32767 [default: 32767]");
    command
        .arg(height)?
        .arg(slots)?
        .arg(last_seq)?
        .arg(script(alloc))
}
