//! The name and the number of each errno, the errno of each layer's error, and how errors print.

use mq_arena::TakeError;
use mq_calls::{DraftError, Errno, Refused, SendRefused, SysError};
use mq_queue::QueueError;
use mq_table::IdRefusal;
use std::alloc::Global;
use std::fmt::Display;
use std::process::Abort;
use std::test::Fail;

#[test]
fn a_refusal_is_named_as_in_the_manual(rt: HostRuntime) {
    let cases: [(Errno, &str, i32); 10] = [
        (Errno::EINVAL, "EINVAL", 22),
        (Errno::EIDRM, "EIDRM", 43),
        (Errno::EAGAIN, "EAGAIN", 11),
        (Errno::ENOMEM, "ENOMEM", 12),
        (Errno::ENOMSG, "ENOMSG", 42),
        (Errno::E2BIG, "E2BIG", 7),
        (Errno::EPERM, "EPERM", 1),
        (Errno::EEXIST, "EEXIST", 17),
        (Errno::ENOENT, "ENOENT", 2),
        (Errno::ENOSPC, "ENOSPC", 28),
    ];
    for (errno, name, number) in cases {
        holds!(rt; errno.name() == name);
        holds!(rt; errno.number() == number);
    }
}

#[test]
fn each_layers_refusal_has_its_errno(rt: HostRuntime) {
    let of_queue: [(QueueError, Errno); 7] = [
        (QueueError::TypeInvalid, Errno::EINVAL),
        (QueueError::TooLong, Errno::EINVAL),
        (QueueError::Full, Errno::EAGAIN),
        (QueueError::NoMessage, Errno::ENOMSG),
        (QueueError::TooBig, Errno::E2BIG),
        (QueueError::OverLimit, Errno::EPERM),
        (QueueError::Memory, Errno::ENOMEM),
    ];
    for (refusal, errno) in of_queue {
        holds!(rt; Errno::from(refusal) == errno);
    }
    holds!(rt; Errno::from(IdRefusal::Never) == Errno::EINVAL);
    holds!(rt; Errno::from(IdRefusal::Removed) == Errno::EIDRM);
    holds!(rt; DraftError::TooLong.errno() == Errno::EINVAL);
    holds!(rt; DraftError::NoRun.errno() == Errno::ENOMEM);
    holds!(rt; DraftError::Memory.errno() == Errno::ENOMEM);
    holds!(rt; DraftError::from(TakeError::NoRun) == DraftError::NoRun);
    holds!(rt; DraftError::from(TakeError::Memory) == DraftError::Memory);
}

/// Checks what a value prints.
fn prints<T: Display>(rt: &impl Abort, alloc: Global, value: &T, text: &str) -> Result<(), Fail> {
    let printed = format!(in alloc; "{value}")?;
    holds!(rt; printed.as_str() == text);
    Ok(())
}

#[test]
fn refusals_print_their_reason(rt: HostRuntime) -> Result<(), Fail> {
    let alloc = rt.alloc();
    prints(
        &rt,
        alloc,
        &SysError::Config,
        "a value of the configuration is out of its limits",
    )?;
    prints(&rt, alloc, &SysError::Memory, "out of memory")?;
    prints(
        &rt,
        alloc,
        &DraftError::TooLong,
        "the text is too long for a message",
    )?;
    prints(&rt, alloc, &DraftError::NoRun, "no run of pages is free")?;
    prints(&rt, alloc, &DraftError::Memory, "out of memory")
}

#[test]
fn a_refused_call_prints_its_errno(rt: HostRuntime) -> Result<(), Fail> {
    let alloc = rt.alloc();
    let early = Refused {
        errno: Errno::EINVAL,
        entry: None,
    };
    let full = Refused {
        errno: Errno::EAGAIN,
        entry: Some(5),
    };
    prints(&rt, alloc, &Errno::EIDRM, "EIDRM")?;
    prints(&rt, alloc, &early, "EINVAL")?;
    prints(&rt, alloc, &full, "EAGAIN after 5 entries")
}

#[test]
fn an_unsent_text_prints_its_error_and_is_returned(rt: HostRuntime) -> Result<(), Fail> {
    let alloc = rt.alloc();
    let refused = Refused {
        errno: Errno::EAGAIN,
        entry: Some(5),
    };
    let unsent = SendRefused { refused, text: 7u8 };
    prints(&rt, alloc, &unsent, "EAGAIN after 5 entries")?;
    let debug = format!(in alloc; "{unsent:?}")?;
    holds!(rt; debug.as_str() == "SendRefused(Refused { errno: EAGAIN, entry: Some(5) })");
    holds!(rt; unsent.into_text() == (refused, 7));
    Ok(())
}
