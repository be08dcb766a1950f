//! The parser of a line of a serial script, and of `get` and `set` of a threads script.

ghost use Rattle.std.specs.Prelude.{◌≡◌, ◌+◌, ◌^◌, ◌==◌, length};
ghost use Rattle.std.specs.List.{list_any};
ghost use Rattle.std.specs.Option.{option_map};
ghost use Rattle.mq_cli.specs.Commands.{arena_asked, command_asked, flags_asked, get_flags_asked};
ghost use Rattle.mq_cli.specs.Commands.{get_asked, cutting_asked, info_asked, ipcs_asked, command_named};
ghost use Rattle.mq_cli.specs.Commands.{receive_asked, reading, remove_asked, seat_asked};
ghost use Rattle.mq_cli.specs.Commands.{send_asked, set_asked, stat_asked, text_asked};
ghost use Rattle.mq_cli.specs.Commands.{is_text as is_text_form};
ghost use Rattle.mq_cli.specs.Drafts.{bytes_of_text};
ghost use Rattle.mq_cli.specs.Lines.{words_of};
ghost use Rattle.mq_cli.specs.Numbers.{above_zero, number_of, under};
ghost use Rattle.mq_cli.specs.Parts.{parts_left};
ghost use Rattle.mq_cli.specs.Seen.{flags_seen, seen, seen_line, text_seen};

use crate::Cause;
use crate::form::{are_filled, says_something};
use crate::listing::{Listing, read_listing};
use crate::number::{integer, key, number};
use crate::words::Words;
use mq_calls::{GetFlags, MAX_SEATS, MAX_SLOTS};

/// The text of a message as a line spells it.
#[derive(Clone, Copy, Drop)]
pub enum TextForm<'a> {
    /// `=` and these bytes.
    Plain(&'a [u8]),
    /// `*` and the number of letters.
    Letters(u64),
}

/// The flags MSG_EXCEPT and MSG_NOERROR of msgrcv.
#[derive(Clone, Copy)]
pub struct ReceiveFlags {
    pub except: bool,
    pub noerror: bool,
}

/// The arguments of msgget.
#[derive(Clone, Copy)]
pub struct GetCall {
    pub key: i32,
    pub flags: GetFlags,
}

/// The arguments of msgsnd.
#[derive(Clone, Copy, Drop)]
pub struct SendCall<'a> {
    pub id: u32,
    pub mtype: i64,
    pub text: TextForm<'a>,
}

/// The arguments of msgrcv.
#[derive(Clone, Copy)]
pub struct ReceiveCall {
    pub id: u32,
    pub size: u64,
    pub mtype: i64,
    pub flags: ReceiveFlags,
}

/// What a line asks for.
#[derive(Clone, Copy, Drop)]
pub enum Command<'a> {
    /// This seat makes the calls from here on.
    Seat(u16),
    /// The arena's figures.
    Arena,
    /// msgget.
    Get(GetCall),
    Send(SendCall<'a>),
    Receive(ReceiveCall),
    /// IPC_SET of the queue with this id.
    Set { id: u32, qbytes: u64 },
    /// IPC_RMID.
    Remove { id: u32 },
    /// IPC_STAT.
    Stat { id: u32 },
    /// The log of a slot is drained.
    Cut { slot: u8 },
    /// A table of the live queues, or the limits.
    Report(Listing),
    /// IPC_INFO.
    Info,
}

impl TextForm<'_> {
    /// The number of its bytes.
    #[tactic(auto, using(crate::proofs::DraftLemmas::letters_length))]
    pub(crate) fn len(&self) -> u64
        ensures { result ≡ length (bytes_of_text (text_seen self.now)) }
    {
        match self {
            TextForm::Plain(bytes) => bytes.len() as u64,
            TextForm::Letters(count) => *count,
        }
    }
}

/// What a line without its end says: `None` where it is empty or a comment.
pub(crate) fn read_line(line: &[u8]) -> Result<Option<Command<'_>>, Cause>
    ensures { seen_line result ≡ reading line.now }
{
    if !says_something(line)? {
        return Ok(None);
    }
    Ok(Some(read_command(line)?))
}

fn read_command(line: &[u8]) -> Result<Command<'_>, Cause>
    ensures { seen result ≡ command_asked (words_of line.now) }
{
    let mut words = Words::new(line);
    let Some(name) = words.next() else {
        return Err(Cause::Words);
    };
    if name == b"snd".as_slice() {
        return read_send(words);
    }
    // The words of a command that is read are filled: they are checked again only for the cause.
    match read_named(name, words) {
        Ok(command) => Ok(command),
        Err(cause) if are_filled(line) => Err(cause),
        Err(_) => Err(Cause::Words),
    }
}

/// A command without a text, whose words may be empty only where none is read.
fn read_named<'a>(name: &[u8], words: Words<'a>) -> Result<Command<'a>, Cause>
    ensures { seen result ≡ command_named name.now (parts_left 32 words.entry.rest) }
{
    if name == b"rcv".as_slice() {
        return read_receive(words);
    }
    if name == b"seat".as_slice() {
        return read_seat(words);
    }
    if name == b"arena".as_slice() {
        return read_arena(words);
    }
    if name == b"get".as_slice() {
        return read_get(words);
    }
    if name == b"set".as_slice() {
        return read_set(words);
    }
    if name == b"rm".as_slice() {
        return read_remove(words);
    }
    if name == b"stat".as_slice() {
        return read_stat(words);
    }
    if name == b"cut".as_slice() {
        return read_cut(words);
    }
    if name == b"ipcs".as_slice() {
        return read_report(words);
    }
    if name == b"info".as_slice() {
        return read_info(words);
    }
    Err(Cause::Words)
}

pub(crate) fn read_get(mut words: Words<'_>) -> Result<Command<'_>, Cause>
    ensures { seen result ≡ get_asked (parts_left 32 words.entry.rest) }
{
    let Some(word) = words.next() else {
        return Err(Cause::Words);
    };
    let Some(flags) = read_get_flags(words) else {
        return Err(Cause::Words);
    };
    match key(word) {
        Some(key) => Ok(Command::Get(GetCall { key, flags })),
        None => Err(Cause::Number),
    }
}

fn read_get_flags(mut words: Words<'_>) -> Option<GetFlags>
    ensures { result ≡ get_flags_asked (parts_left 32 words.entry.rest) }
{
    let (create, exclusive) = match (words.next(), words.next()) {
        (None, _) => (false, false),
        (Some(word), None) if word == b"c".as_slice() => (true, false),
        (Some(word), None) if word == b"x".as_slice() => (false, true),
        (Some(word), None) if word == b"cx".as_slice() => (true, true),
        _ => return None,
    };
    Some(GetFlags { create, exclusive })
}

fn read_report(words: Words<'_>) -> Result<Command<'_>, Cause>
    ensures { seen result ≡ ipcs_asked (parts_left 32 words.entry.rest) }
{
    match read_listing(words) {
        Some(listing) => Ok(Command::Report(listing)),
        None => Err(Cause::Words),
    }
}

fn read_info(mut words: Words<'_>) -> Result<Command<'_>, Cause>
    ensures { seen result ≡ info_asked (parts_left 32 words.entry.rest) }
{
    match words.next() {
        None => Ok(Command::Info),
        Some(_) => Err(Cause::Words),
    }
}

fn read_arena(mut words: Words<'_>) -> Result<Command<'_>, Cause>
    ensures { seen result ≡ arena_asked (parts_left 32 words.entry.rest) }
{
    match words.next() {
        None => Ok(Command::Arena),
        Some(_) => Err(Cause::Words),
    }
}

fn read_seat(mut words: Words<'_>) -> Result<Command<'_>, Cause>
    ensures { seen result ≡ seat_asked (parts_left 32 words.entry.rest) }
{
    match (words.next(), words.next()) {
        (Some(word), None) => match seat_number(word) {
            Some(seat) => Ok(Command::Seat(seat)),
            None => Err(Cause::Number),
        },
        _ => Err(Cause::Words),
    }
}

fn read_send(mut words: Words<'_>) -> Result<Command<'_>, Cause>
    ensures { seen result ≡ send_asked (parts_left 32 words.entry.rest) }
{
    let (Some(id), Some(mtype)) = (words.next(), words.next()) else {
        return Err(Cause::Words);
    };
    let text = words.into_rest();
    if id.is_empty() || mtype.is_empty() || !is_text(text) {
        return Err(Cause::Words);
    }
    match (id_of(id), integer(mtype), read_text(text)) {
        (Some(id), Some(mtype), Some(text)) => Ok(Command::Send(SendCall { id, mtype, text })),
        _ => Err(Cause::Number),
    }
}

fn is_text(text: &[u8]) -> bool
    ensures { result ≡ is_text_form text.now }
{
    match text {
        [first, ..] => *first == b'=' || (*first == b'*' && !has_space(text)),
        [] => false,
    }
}

fn has_space(text: &[u8]) -> bool
    ensures { result ≡ list_any (λ b. b == 32) text.now }
{
    text.iter().any(|b| *b == b' ')
}

fn read_text(text: &[u8]) -> Option<TextForm<'_>>
    ensures { option_map text_seen result ≡ text_asked text.now }
{
    match text {
        [first, bytes @ ..] if *first == b'=' => Some(TextForm::Plain(bytes)),
        [_, count @ ..] => Some(TextForm::Letters(number(count)?)),
        [] => Some(TextForm::Letters(number(text)?)),
    }
}

fn read_receive(mut words: Words<'_>) -> Result<Command<'_>, Cause>
    ensures { seen result ≡ receive_asked (parts_left 32 words.entry.rest) }
{
    let (Some(id), Some(size), Some(mtype)) = (words.next(), words.next(), words.next()) else {
        return Err(Cause::Words);
    };
    let Some(flags) = read_flags(words) else {
        return Err(Cause::Words);
    };
    match (id_of(id), number(size), integer(mtype)) {
        (Some(id), Some(size), Some(mtype)) => Ok(Command::Receive(ReceiveCall {
            id,
            size,
            mtype,
            flags,
        })),
        _ => Err(Cause::Number),
    }
}

fn read_flags(mut words: Words<'_>) -> Option<ReceiveFlags>
    ensures { option_map flags_seen result ≡ flags_asked (parts_left 32 words.entry.rest) }
{
    let (except, noerror) = match (words.next(), words.next()) {
        (None, _) => (false, false),
        (Some(word), None) if word == b"e".as_slice() => (true, false),
        (Some(word), None) if word == b"n".as_slice() => (false, true),
        (Some(word), None) if word == b"en".as_slice() => (true, true),
        _ => return None,
    };
    Some(ReceiveFlags { except, noerror })
}

pub(crate) fn read_set(mut words: Words<'_>) -> Result<Command<'_>, Cause>
    ensures { seen result ≡ set_asked (parts_left 32 words.entry.rest) }
{
    match (words.next(), words.next(), words.next()) {
        (Some(id), Some(qbytes), None) => match (id_of(id), number(qbytes)) {
            (Some(id), Some(qbytes)) => Ok(Command::Set { id, qbytes }),
            _ => Err(Cause::Number),
        },
        _ => Err(Cause::Words),
    }
}

fn read_remove(mut words: Words<'_>) -> Result<Command<'_>, Cause>
    ensures { seen result ≡ remove_asked (parts_left 32 words.entry.rest) }
{
    match (words.next(), words.next()) {
        (Some(id), None) => match id_of(id) {
            Some(id) => Ok(Command::Remove { id }),
            None => Err(Cause::Number),
        },
        _ => Err(Cause::Words),
    }
}

fn read_stat(mut words: Words<'_>) -> Result<Command<'_>, Cause>
    ensures { seen result ≡ stat_asked (parts_left 32 words.entry.rest) }
{
    match (words.next(), words.next()) {
        (Some(id), None) => match id_of(id) {
            Some(id) => Ok(Command::Stat { id }),
            None => Err(Cause::Number),
        },
        _ => Err(Cause::Words),
    }
}

fn read_cut(mut words: Words<'_>) -> Result<Command<'_>, Cause>
    ensures { seen result ≡ cutting_asked (parts_left 32 words.entry.rest) }
{
    match (words.next(), words.next()) {
        (Some(slot), None) => match slot_number(slot) {
            Some(slot) => Ok(Command::Cut { slot }),
            None => Err(Cause::Number),
        },
        _ => Err(Cause::Words),
    }
}

pub(crate) fn id_of(word: &[u8]) -> Option<u32>
    ensures { result ≡ under (2 ^ 32) (number_of word.now) }
{
    u32::try_from(number(word)?).ok()
}

/// The number of a slot: below `MAX_SLOTS`.
fn slot_number(word: &[u8]) -> Option<u8>
    ensures { result ≡ under MAX_SLOTS (number_of word.now) }
{
    match number(word) {
        Some(number) if number < u64::from(MAX_SLOTS) => Some(number as u8),
        _ => None,
    }
}

/// The number of a seat: 1 to `MAX_SEATS`.
fn seat_number(word: &[u8]) -> Option<u16>
    ensures { result ≡ above_zero (under (MAX_SEATS + 1) (number_of word.now)) }
{
    match number(word) {
        Some(number) if number >= 1 && number <= u64::from(MAX_SEATS) => Some(number as u16),
        _ => None,
    }
}
