//! The calls that were refused, as a run records them.

ghost use Rattle.std.specs.Prelude.{◌≡◌, OnOk};
ghost use Rattle.mq_cli.specs.MainPart.{asked_in_main, moment_of};
ghost use Rattle.mq_cli.specs.Recording.{refusal_told, with_refusal};
ghost use Rattle.mq_cli.specs.Seen.{asked_by};

use crate::command::Command;
use crate::threads::script::MainCall;
use mq_calls::Errno;
use mq_trace::{CallName, Refusal};
use std::alloc::AllocError;

/// The refusal of the call of a line, by what refused it; the lines that only show something have
/// none.
pub(crate) fn refusal_of(
    line: u64,
    seat: u16,
    command: Command<'_>,
    told: Option<Errno>,
) -> Option<Refusal>
    ensures { result ≡ refusal_told line seat (asked_by command.entry) told }
{
    let errno = told?;
    let (call, id) = match command {
        Command::Get(_) => (CallName::Get, None),
        Command::Send(call) => (CallName::Send, Some(call.id)),
        Command::Receive(call) => (CallName::Receive, Some(call.id)),
        Command::Set { id, .. } => (CallName::Set, Some(id)),
        Command::Remove { id } => (CallName::Remove, Some(id)),
        Command::Stat { id } => (CallName::Stat, Some(id)),
        Command::Cut { .. } => (CallName::Cut, None),
        Command::Seat(_) | Command::Arena | Command::Report(_) | Command::Info => return None,
    };
    Some(Refusal {
        moment: line,
        seat,
        call,
        id,
        errno,
    })
}

/// The refusal of a call of the main part, which sits at seat 1.
pub(crate) fn refusal_in_main(call: MainCall, told: Option<Errno>) -> Option<Refusal>
    ensures { result ≡ refusal_told (moment_of call) 1 (asked_in_main call) told }
{
    let errno = told?;
    let (moment, call, id) = match call {
        MainCall::Get { moment, .. } => (moment, CallName::Get, None),
        MainCall::Set { id, moment, .. } => (moment, CallName::Set, Some(id.number())),
    };
    Some(Refusal {
        moment,
        seat: 1,
        call,
        id,
        errno,
    })
}

/// Keeps one refusal more, if there is one.
pub(crate) fn keep(refusals: &mut Vec<Refusal>, refusal: Option<Refusal>) -> Result<(), AllocError>
    ensures { OnOk result (refusals.new.items ≡ with_refusal refusals.old.items refusal) }
{
    if let Some(refusal) = refusal {
        refusals.push(refusal)?;
    }
    Ok(())
}
