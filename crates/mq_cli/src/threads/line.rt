//! The parser of a line of a threads script.

ghost use Rattle.std.specs.Prelude.{◌≡◌, ◌+◌};
ghost use Rattle.mq_cli.specs.Lines.{words_of};
ghost use Rattle.mq_cli.specs.Numbers.{number_of, under};
ghost use Rattle.mq_cli.specs.Parts.{parts_left};
ghost use Rattle.mq_cli.specs.Seen.{seen};
ghost use Rattle.mq_cli.specs.ThreadsScript.{asked, drop_of, line_said, main_of, part_of, put_of};
ghost use Rattle.mq_cli.specs.ThreadsScript.{section_of, take_of, threads_reading, within_of};
ghost use Rattle.mq_cli.specs.ThreadsScript.{worker_of};

use super::script::{MainCall, ThreadsLine};
use crate::command::{Command, id_of, read_get, read_set};
use crate::form::{are_filled, says_something};
use crate::limits::{MAX_MESSAGES, MAX_WITHIN, MAX_WORKERS};
use crate::number::{integer, number};
use crate::words::Words;
use crate::{Cause, Step};
use mq_table::Id;

/// What the line with this number says, where `sections` sections were begun before: `None` where
/// it is empty or a comment.
pub(crate) fn read_threads_line(
    sections: usize,
    line_number: u64,
    line: &[u8],
) -> Result<Option<ThreadsLine>, Cause>
    ensures { result ≡ threads_reading sections line_number line.now }
{
    if !says_something(line)? {
        return Ok(None);
    }
    Ok(Some(read_said(sections, line_number, line)?))
}

fn read_said(sections: usize, line_number: u64, line: &[u8]) -> Result<ThreadsLine, Cause>
    ensures { result ≡ line_said sections line_number (words_of line.now) }
{
    let mut words = Words::new(line);
    let Some(name) = words.next() else {
        return Err(Cause::Words);
    };
    if !are_filled(line) {
        return Err(Cause::Words);
    }
    read_part(sections, line_number, name, words)
}

/// A line of the main part before the first section begins, and else of a section.
fn read_part(
    sections: usize,
    line_number: u64,
    name: &[u8],
    words: Words<'_>,
) -> Result<ThreadsLine, Cause>
    ensures { result ≡ part_of sections line_number name.now (parts_left 32 words.entry.rest) }
{
    if name == b"worker".as_slice() {
        return read_worker(sections, words);
    }
    if sections == 0 {
        read_main(line_number, name, words)
    } else {
        read_section(line_number, name, words)
    }
}

fn read_worker(sections: usize, mut words: Words<'_>) -> Result<ThreadsLine, Cause>
    ensures { result ≡ worker_of sections (parts_left 32 words.entry.rest) }
{
    match words.next() {
        None if sections < MAX_WORKERS => Ok(ThreadsLine::Worker),
        _ => Err(Cause::Words),
    }
}

fn read_main(line_number: u64, name: &[u8], words: Words<'_>) -> Result<ThreadsLine, Cause>
    ensures { result ≡ main_of line_number name.now (parts_left 32 words.entry.rest) }
{
    if name == b"get".as_slice() {
        return asked_by(line_number, read_get(words));
    }
    if name == b"set".as_slice() {
        return asked_by(line_number, read_set(words));
    }
    Err(Cause::Words)
}

/// The call of the main part that a serial command asks for.
fn asked_by(line_number: u64, command: Result<Command<'_>, Cause>) -> Result<ThreadsLine, Cause>
    ensures { result ≡ asked line_number (seen command.entry) }
{
    match command {
        Ok(Command::Get(call)) => Ok(ThreadsLine::Main(MainCall::Get {
            key: call.key,
            flags: call.flags,
            moment: line_number,
        })),
        Ok(Command::Set { id, qbytes }) => Ok(ThreadsLine::Main(MainCall::Set {
            id: Id::from_number(id),
            qbytes,
            moment: line_number,
        })),
        Ok(_) => Err(Cause::Words),
        Err(cause) => Err(cause),
    }
}

fn read_section(line_number: u64, name: &[u8], words: Words<'_>) -> Result<ThreadsLine, Cause>
    ensures { result ≡ section_of line_number name.now (parts_left 32 words.entry.rest) }
{
    if name == b"put".as_slice() {
        return read_put(line_number, words);
    }
    if name == b"take".as_slice() {
        return read_take(line_number, words);
    }
    if name == b"rm".as_slice() {
        return read_drop(line_number, words);
    }
    Err(Cause::Words)
}

fn read_put(line_number: u64, mut words: Words<'_>) -> Result<ThreadsLine, Cause>
    ensures { result ≡ put_of line_number (parts_left 32 words.entry.rest) }
{
    let (Some(id), Some(mtype), Some(count), Some(length)) = (
        words.next(),
        words.next(),
        words.next(),
        words.next(),
    ) else {
        return Err(Cause::Words);
    };
    let within = read_within(words)?;
    match (id_of(id), integer(mtype), count_of(count), number(length)) {
        (Some(id), Some(mtype), Some(count), Some(length)) => {
            Ok(ThreadsLine::Section(Step::Put {
                id: Id::from_number(id),
                mtype,
                count,
                length,
                within,
                moment: line_number,
            }))
        }
        _ => Err(Cause::Number),
    }
}

fn read_take(line_number: u64, mut words: Words<'_>) -> Result<ThreadsLine, Cause>
    ensures { result ≡ take_of line_number (parts_left 32 words.entry.rest) }
{
    let (Some(id), Some(msgtyp), Some(count)) = (words.next(), words.next(), words.next()) else {
        return Err(Cause::Words);
    };
    let within = read_within(words)?;
    match (id_of(id), integer(msgtyp), count_of(count)) {
        (Some(id), Some(msgtyp), Some(count)) => Ok(ThreadsLine::Section(Step::Take {
            id: Id::from_number(id),
            msgtyp,
            count,
            within,
            moment: line_number,
        })),
        _ => Err(Cause::Number),
    }
}

/// Within how many milliseconds the waits of a step end: without more words they have no end.
fn read_within(mut words: Words<'_>) -> Result<Option<u64>, Cause>
    ensures { result ≡ within_of (parts_left 32 words.entry.rest) }
{
    match (words.next(), words.next(), words.next()) {
        (None, _, _) => Ok(None),
        (Some(word), Some(span), None) if word == b"within".as_slice() => match span_of(span) {
            Some(span) => Ok(Some(span)),
            None => Err(Cause::Number),
        },
        _ => Err(Cause::Words),
    }
}

fn read_drop(line_number: u64, mut words: Words<'_>) -> Result<ThreadsLine, Cause>
    ensures { result ≡ drop_of line_number (parts_left 32 words.entry.rest) }
{
    match (words.next(), words.next()) {
        (Some(id), None) => match id_of(id) {
            Some(id) => Ok(ThreadsLine::Section(Step::Remove {
                id: Id::from_number(id),
                moment: line_number,
            })),
            None => Err(Cause::Number),
        },
        _ => Err(Cause::Words),
    }
}

/// How many messages: at most `MAX_MESSAGES`.
fn count_of(word: &[u8]) -> Option<u32>
    ensures { result ≡ under (MAX_MESSAGES + 1) (number_of word.now) }
{
    match number(word) {
        Some(count) if count <= u64::from(MAX_MESSAGES) => Some(count as u32),
        _ => None,
    }
}

/// How many milliseconds: at most `MAX_WITHIN`.
fn span_of(word: &[u8]) -> Option<u64>
    ensures { result ≡ under (MAX_WITHIN + 1) (number_of word.now) }
{
    match number(word) {
        Some(span) if span <= MAX_WITHIN => Some(span),
        _ => None,
    }
}
