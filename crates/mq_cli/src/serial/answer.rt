//! The evaluator of a serial script: the call of a line, and its answer.

ghost use Rattle.std.specs.Prelude.{◌≡◌, ◌+◌, ◌++◌, IfOk, OnOk, length, map};
ghost use Rattle.std.specs.List.{range_with_len};
ghost use Rattle.mq_queue.specs.declared.limits.TheConstants.{MSGMAX};
ghost use Rattle.mq_cli.specs.Drafts.{letter};
ghost use Rattle.mq_cli.specs.Seen.{arena_shown, asked_by, text_seen};
ghost use Rattle.mq_cli.specs.Serial.{Answered};
ghost use Rattle.mq_cli.specs.Transcript.{arena_reply, output, figures_reply, refusal_in, step};
ghost use Rattle.mq_cli.specs.Transcript.{cut_step, get_step, receive_step, remove_step, send_step};
ghost use Rattle.mq_cli.specs.Transcript.{set_step};
ghost use Rattle.mq_calls.specs.Calls.{stat as stat_answer};

use super::report::write_listing;
use super::session::Session;
use crate::command::{Command, GetCall, ReceiveCall, ReceiveFlags, SendCall};
use crate::draft::draft;
use crate::reply::{
    ArenaFigures, write_arena, write_cut, write_entry, write_errno, write_figures, write_id,
    write_message, write_refused, write_removal, write_usage,
};
use mq_arena::Text;
use mq_calls::{Cut, Delivered, DraftError, Errno, Removal, SendRefused};
use mq_local::OneThread;
use mq_table::Id;
use std::alloc::AllocError;
use std::sync::ledger::Ledger;

/// Makes the call of the line with this number, appends its answer line to the buffer, and returns
/// what refused it. Out of memory has no line: it is the one `Err`.
pub(crate) fn answer<L: Ledger>(
    session: &mut Session<L>,
    line: u64,
    command: Command<'_>,
    out: &mut Vec<u8>,
) -> Result<Option<Errno>, AllocError>
    ensures { IfOk result (Answered (step line session.old (asked_by command.entry))
        out.old.items out.new.items session.new) }
{
    let seat = session.seat;
    match command {
        Command::Seat(number) => {
            session.seat = number;
            Ok(None)
        }
        Command::Arena => {
            write_arena(out, arena_figures(&session.queues))?;
            Ok(None)
        }
        Command::Get(call) => get(&mut session.queues, seat, line, call, out),
        Command::Send(call) => send(&mut session.queues, &session.letters, seat, line, call, out),
        Command::Receive(call) => receive(&mut session.queues, seat, line, call, out),
        Command::Set { id, qbytes } => set(&mut session.queues, seat, line, id, qbytes, out),
        Command::Remove { id } => remove(&mut session.queues, seat, line, id, out),
        Command::Stat { id } => stat(&session.queues, id, out),
        Command::Cut { slot } => cut(&mut session.queues, slot, out),
        Command::Report(listing) => {
            write_listing(out, listing, &session.queues)?;
            Ok(None)
        }
        Command::Info => {
            write_usage(out, session.queues.info())?;
            Ok(None)
        }
    }
}

fn arena_figures<L: Ledger>(queues: &OneThread<L>) -> ArenaFigures
    ensures { arena_shown result ≡ arena_reply queues.now }
{
    ArenaFigures {
        pages: queues.pages(),
        free: queues.free_pages(),
        largest: queues.largest(),
    }
}

fn get<L: Ledger>(
    queues: &mut OneThread<L>,
    seat: u16,
    line: u64,
    call: GetCall,
    out: &mut Vec<u8>,
) -> Result<Option<Errno>, AllocError>
    ensures { IfOk result (Answered (get_step line seat queues.old call.key call.flags)
        out.old.items out.new.items queues.new) }
{
    match queues.msgget(seat, call.key, call.flags, line) {
        Ok(got) => {
            write_id(out, got.id.number())?;
            Ok(None)
        }
        Err(errno) => {
            write_refused(out, errno)?;
            Ok(Some(errno))
        }
    }
}

fn send<L: Ledger>(
    queues: &mut OneThread<L>,
    letters: &[u8],
    seat: u16,
    line: u64,
    call: SendCall<'_>,
    out: &mut Vec<u8>,
) -> Result<Option<Errno>, AllocError>
    requires letters { letters.now ≡ map letter (range_with_len 0 MSGMAX) }
    ensures { IfOk result (Answered
        (send_step line seat queues.old call.entry.id call.entry.mtype (text_seen call.entry.text))
        out.old.items out.new.items queues.new) }
{
    let text = match draft(queues, letters, call.text) {
        Ok(text) => text,
        Err(DraftError::Memory) => return Err(AllocError),
        Err(refusal) => {
            let errno = refusal.errno();
            write_errno(out, errno)?;
            return Ok(Some(errno));
        }
    };
    match queues.msgsnd(seat, Id::from_number(call.id), call.mtype, line, text, line) {
        Ok(entry) => {
            write_entry(out, entry)?;
            Ok(None)
        }
        Err(refusal) => {
            let SendRefused { refused, text } = refusal;
            queues.spend(text);
            write_refused(out, refused.errno)?;
            Ok(Some(refused.errno))
        }
    }
}

fn receive<L: Ledger>(
    queues: &mut OneThread<L>,
    seat: u16,
    line: u64,
    call: ReceiveCall,
    out: &mut Vec<u8>,
) -> Result<Option<Errno>, AllocError>
    ensures { IfOk result (Answered
        (receive_step line seat queues.old call.id call.size call.mtype
        call.flags.except call.flags.noerror)
        out.old.items out.new.items queues.new) }
{
    let ReceiveFlags { except, noerror } = call.flags;
    let id = Id::from_number(call.id);
    match queues.msgrcv(seat, id, call.size, call.mtype, except, noerror, line) {
        Ok(delivered) => {
            let written = write_message(out, &delivered);
            queues.spend(text_of(delivered));
            written?;
            Ok(None)
        }
        Err(refused) => {
            write_refused(out, refused.errno)?;
            Ok(Some(refused.errno))
        }
    }
}

/// The text that was received.
fn text_of<L: Ledger>(delivered: Delivered<Text<L>>) -> Text<L>
    ensures { result ≡ delivered.text }
{
    let Delivered {
        entry: _,
        mtype: _,
        sender: _,
        tag: _,
        length: _,
        text,
    } = delivered;
    text
}

fn set<L: Ledger>(
    queues: &mut OneThread<L>,
    seat: u16,
    line: u64,
    id: u32,
    qbytes: u64,
    out: &mut Vec<u8>,
) -> Result<Option<Errno>, AllocError>
    ensures { IfOk result (Answered (set_step line seat queues.old id qbytes)
        out.old.items out.new.items queues.new) }
{
    match queues.set(seat, Id::from_number(id), qbytes, line) {
        Ok(entry) => {
            write_entry(out, entry)?;
            Ok(None)
        }
        Err(refused) => {
            write_refused(out, refused.errno)?;
            Ok(Some(refused.errno))
        }
    }
}

fn remove<L: Ledger>(
    queues: &mut OneThread<L>,
    seat: u16,
    line: u64,
    id: u32,
    out: &mut Vec<u8>,
) -> Result<Option<Errno>, AllocError>
    ensures { IfOk result (Answered (remove_step line seat queues.old id)
        out.old.items out.new.items queues.new) }
{
    match queues.rmid(seat, Id::from_number(id), line) {
        Ok(Removal { entry, log }) => {
            write_removal(out, entry, log.len())?;
            Ok(None)
        }
        Err(refused) => {
            write_refused(out, refused.errno)?;
            Ok(Some(refused.errno))
        }
    }
}

fn cut<L: Ledger>(
    queues: &mut OneThread<L>,
    slot: u8,
    out: &mut Vec<u8>,
) -> Result<Option<Errno>, AllocError>
    ensures { IfOk result (Answered (cut_step queues.old slot)
        out.old.items out.new.items queues.new) }
{
    if slot >= queues.slots() {
        write_errno(out, Errno::EINVAL)?;
        return Ok(Some(Errno::EINVAL));
    }
    match queues.cut_log(slot) {
        Ok(cut) => {
            write_cut(out, cut.first, end_of(&cut))?;
            Ok(None)
        }
        Err(refused) => {
            write_refused(out, refused.errno)?;
            Ok(Some(refused.errno))
        }
    }
}

/// How many entries the slot's list had: up to `u64::MAX` were drained before.
fn end_of(cut: &Cut) -> u128
    ensures { result ≡ cut.now.first + length (cut.now.past.items ++ cut.now.last.items) }
{
    cut.first as u128 + cut.past.len() as u128 + cut.last.len() as u128
}

fn stat<L: Ledger>(
    queues: &OneThread<L>,
    id: u32,
    out: &mut Vec<u8>,
) -> Result<Option<Errno>, AllocError>
    ensures line { OnOk result
        (out.new.items ≡ out.old.items ++ output (figures_reply (stat_answer queues.now id))) }
    ensures refusal { IfOk result
        (λ told. told ≡ refusal_in (figures_reply (stat_answer queues.now id))) }
{
    match queues.stat(Id::from_number(id)) {
        Ok(figures) => {
            write_figures(out, figures)?;
            Ok(None)
        }
        Err(errno) => {
            write_errno(out, errno)?;
            Ok(Some(errno))
        }
    }
}
