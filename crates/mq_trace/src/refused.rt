//! The records of refused calls, which have a process of their own.

ghost use Rattle.std.specs.Prelude.{◌≡◌, ◌++◌, OnOk};
ghost use Rattle.mq_trace.specs.Records.{id_arg, refusal_args, refusal_record, refusal_stamp};
ghost use Rattle.mq_trace.specs.Records.{refused_process};

use crate::Refusal;
use crate::record::{write_field, write_instant};
use std::alloc::AllocError;

/// The name of their process.
#[tactic(auto, unfolding(crate::specs::Records::refused_process))]
pub(crate) fn write_refused_process(out: &mut Vec<u8>) -> Result<(), AllocError>
    ensures { OnOk result (out.new.items ≡ out.old.items ++ refused_process) }
{
    out.extend_from_slice(
        b"{\"ph\":\"M\",\"name\":\"process_name\",\"pid\":0,\"args\":{\"name\":",
    )?;
    out.extend_from_slice(b"\"refused calls\"}}")
}

/// The record of a refused call.
#[tactic(auto, unfolding(crate::specs::Records::refusal_record))]
pub(crate) fn write_refusal(out: &mut Vec<u8>, refusal: Refusal) -> Result<(), AllocError>
    ensures { OnOk result (out.new.items ≡ out.old.items ++ refusal_record refusal) }
{
    write_instant(out, refusal.errno.name().as_bytes())?;
    write_refusal_stamp(out, refusal.seat, refusal.moment)?;
    write_refusal_args(out, refusal)
}

/// When and by whom it was made.
#[tactic(auto, unfolding(crate::specs::Records::refusal_stamp))]
fn write_refusal_stamp(out: &mut Vec<u8>, seat: u16, moment: u64) -> Result<(), AllocError>
    ensures { OnOk result (out.new.items ≡ out.old.items ++ refusal_stamp seat moment) }
{
    write_field(out, b",\"pid\":0,\"tid\":", seat)?;
    write_field(out, b",\"ts\":", moment)?;
    Ok(())
}

/// What it asked for.
#[tactic(auto, unfolding(crate::specs::Records::refusal_args))]
fn write_refusal_args(out: &mut Vec<u8>, refusal: Refusal) -> Result<(), AllocError>
    ensures { OnOk result (out.new.items ≡ out.old.items ++ refusal_args refusal) }
{
    out.extend_from_slice(b",\"args\":{\"call\":\"")?;
    out.extend_from_slice(refusal.call.name().as_bytes())?;
    out.extend_from_slice(b"\"")?;
    write_id(out, refusal.id)?;
    write_field(out, b",\"seat\":", refusal.seat)?;
    out.extend_from_slice(b"}}")?;
    Ok(())
}

fn write_id(out: &mut Vec<u8>, id: Option<u32>) -> Result<(), AllocError>
    ensures { OnOk result (out.new.items ≡ out.old.items ++ id_arg id) }
{
    match id {
        Some(id) => write_field(out, b",\"id\":", id),
        None => Ok(()),
    }
}
