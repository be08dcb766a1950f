//! The main part of a threads script.

ghost use Rattle.std.specs.Prelude.{IfOk};
ghost use Rattle.mq_cli.specs.MainPart.{RanMain, Replies};
ghost use Rattle.mq_cli.specs.RecordedThreads.{RecordedMain};

use super::script::MainCall;
use crate::RunFault;
use crate::output::{WriteFailed, write_bytes};
use crate::refusal::{keep, refusal_in_main};
use crate::reply::{write_entry, write_id, write_refused};
use mq_calls::Errno;
use mq_system::{Names, Pledge, Seat, System};
use mq_trace::Refusal;
use std::alloc::{AllocError, Global};
use std::io::Write;
use std::sync::Wait;

/// Makes the calls of the main part one after the other, and writes the answer of each.
pub(crate) fn run_main<P: Pledge, N: Names, R: Wait, W: Write>(
    rt: &R,
    alloc: Global,
    system: &System<P, N>,
    seat: &mut Seat<N>,
    calls: &[MainCall],
    writer: &mut W,
) -> Result<(), RunFault>
    ensures { RanMain N.slots N.last_seq calls.now seat.old seat.new
        (W.contents writer.old) (W.contents writer.new) result }
{
    let mut out = Vec::new(alloc);
    for call in calls {
        out.clear();
        let Ok(_) = answer_main(rt, system, seat, *call, &mut out) else {
            return Err(RunFault::Memory);
        };
        let Ok(()) = write_bytes(writer, &out) else {
            return Err(RunFault::Write);
        };
    }
    Ok(())
}

/// Makes the calls of the main part one after the other, and returns which were refused. Out of
/// memory is the one `Err`.
pub(crate) fn record_main<P: Pledge, N: Names, R: Wait>(
    rt: &R,
    alloc: Global,
    system: &System<P, N>,
    seat: &mut Seat<N>,
    calls: &[MainCall],
) -> Result<Vec<Refusal>, AllocError>
    ensures { IfOk result (λ refusals. RecordedMain N.slots N.last_seq calls.now refusals.items
        seat.old seat.new) }
{
    let mut refusals = Vec::new(alloc);
    let mut out = Vec::new(alloc);
    for call in calls {
        out.clear();
        let told = answer_main(rt, system, seat, *call, &mut out)?;
        keep(&mut refusals, refusal_in_main(*call, told))?;
    }
    Ok(refusals)
}

/// Makes one call, appends its answer line to the buffer, and returns what refused it. Out of
/// memory has no line: it is the one `Err`.
fn answer_main<P: Pledge, N: Names, R: Wait>(
    rt: &R,
    system: &System<P, N>,
    seat: &mut Seat<N>,
    call: MainCall,
    out: &mut Vec<u8>,
) -> Result<Option<Errno>, AllocError>
    ensures { IfOk result (Replies N.slots N.last_seq call out.old.items out.new.items
        seat.old seat.new) }
{
    match call {
        MainCall::Get { key, flags, moment } => match system.msgget(rt, seat, key, flags, moment) {
            Ok(got) => {
                write_id(out, got.id.number())?;
                Ok(None)
            }
            Err(errno) => {
                write_refused(out, errno)?;
                Ok(Some(errno))
            }
        },
        MainCall::Set { id, qbytes, moment } => match system.set(rt, seat, id, qbytes, moment) {
            Ok(entry) => {
                write_entry(out, entry)?;
                Ok(None)
            }
            Err(refused) => {
                write_refused(out, refused.errno)?;
                Ok(Some(refused.errno))
            }
        },
    }
}
