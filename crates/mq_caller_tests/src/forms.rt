//! The forms in which a caller's calls of texts and of buffers may wait: not at all, for so long,
//! and until a time. No other thread calls, so each is served at once or not at all.

use mq::{
    Caller, Clock, Config, DEFAULTS, Delivered, Duration, Errno, Id, Instant, Message, Names,
    NoPledge, Selection, SendRefused, SystemProgram, TextOf, Wait, with_system,
};

const SIZE: Config = Config {
    slots: 1,
    seats: 1,
    ..DEFAULTS
};

/// What was wrong first.
type Wrong = Result<Option<&'static str>, Errno>;

/// How long a call waits in vain.
#[derive(Clone, Copy)]
struct Ends {
    span: Duration,
    time: Instant,
}

/// Spends a text that was returned, and answers why it was.
fn errno_of<N: Names, R: Wait + Clock>(
    caller: &mut Caller<'_, NoPledge, N, R>,
    sent: Result<u64, SendRefused<TextOf<N>>>,
) -> Result<u64, Errno> {
    match sent {
        Ok(entry) => Ok(entry),
        Err(refusal) => {
            let SendRefused { refused, text } = refusal;
            caller.spend(text);
            Err(refused.errno)
        }
    }
}

/// The type and the length of a text that was received.
fn told<N: Names, R: Wait + Clock>(
    caller: &mut Caller<'_, NoPledge, N, R>,
    received: Result<Delivered<TextOf<N>>, Errno>,
) -> Result<(i64, u64), Errno> {
    let Delivered {
        mtype,
        length,
        text,
        ..
    } = received?;
    caller.spend(text);
    Ok((mtype, length))
}

/// Three texts are sent, of types 1 to 3 and as many bytes.
fn sends<N: Names, R: Wait + Clock>(
    caller: &mut Caller<'_, NoPledge, N, R>,
    id: Id,
    ends: Ends,
) -> Result<(), Errno> {
    let text = caller.try_draft(1)?;
    let sent = caller.try_send_text(id, 1, 0, text);
    errno_of(caller, sent)?;
    let text = caller.draft_timeout(2, ends.span)?;
    let sent = caller.send_text_timeout(id, 2, 0, text, ends.span);
    errno_of(caller, sent)?;
    let text = caller.draft_deadline(3, ends.time)?;
    let sent = caller.send_text_deadline(id, 3, 0, text, ends.time);
    errno_of(caller, sent)?;
    Ok(())
}

/// They are received, and then there is none.
fn receives<N: Names, R: Wait + Clock>(
    caller: &mut Caller<'_, NoPledge, N, R>,
    id: Id,
    ends: Ends,
) -> Wrong {
    let received = caller.try_receive_text(id, Selection::Exact(2));
    if told(caller, received)? != (2, 2) {
        return Ok(Some("a text that is tried"));
    }
    let received = caller.receive_text_timeout(id, Selection::Exact(3), ends.span);
    if told(caller, received)? != (3, 3) {
        return Ok(Some("a text with a timeout"));
    }
    let received = caller.receive_text_deadline(id, Selection::UpTo(3), ends.time);
    if told(caller, received)? != (1, 1) {
        return Ok(Some("a text with a deadline"));
    }
    let received = caller.try_receive_text(id, Selection::Any);
    let tried = told(caller, received).err();
    let received = caller.receive_text_timeout(id, Selection::Any, ends.span);
    let timed = told(caller, received).err();
    let received = caller.receive_text_deadline(id, Selection::Any, ends.time);
    let ended = told(caller, received).err();
    for errno in [tried, timed, ended] {
        if errno != Some(Errno::ENOMSG) {
            return Ok(Some("no text"));
        }
    }
    Ok(None)
}

/// Three messages come behind one another into a buffer, and then there is none.
fn appends<N: Names, R: Wait + Clock>(
    caller: &mut Caller<'_, NoPledge, N, R>,
    id: Id,
    ends: Ends,
) -> Wrong {
    let bytes = &mut Vec::new(caller.alloc());
    for mtype in 1..4 {
        caller.send(id, Message::new(mtype, b"ab"))?;
    }
    let received = [
        caller.try_receive_into(id, Selection::Exact(2), bytes)?,
        caller.receive_into_timeout(id, Selection::Exact(3), bytes, ends.span)?,
        caller.receive_into_deadline(id, Selection::UpTo(3), bytes, ends.time)?,
    ];
    for (delivered, mtype) in received.iter().zip([2, 3, 1]) {
        if delivered.mtype != mtype || delivered.length != 2 {
            return Ok(Some("a message into a buffer"));
        }
    }
    let none = [
        caller.try_receive_into(id, Selection::Any, bytes).err(),
        caller
            .receive_into_timeout(id, Selection::Any, bytes, ends.span)
            .err(),
        caller
            .receive_into_deadline(id, Selection::Any, bytes, ends.time)
            .err(),
    ];
    for errno in none {
        match errno {
            Some(Errno::ENOMSG) => (),
            Some(Errno::ENOMEM) => return Err(Errno::ENOMEM),
            _ => return Ok(Some("no message into a buffer")),
        }
    }
    if bytes.as_slice() != b"ababab".as_slice() {
        return Ok(Some("the bytes"));
    }
    Ok(None)
}

/// Texts that find the queue full are returned.
fn is_full<N: Names, R: Wait + Clock>(
    caller: &mut Caller<'_, NoPledge, N, R>,
    id: Id,
    ends: Ends,
) -> Wrong {
    caller.set(id, 1)?;
    caller.send(id, Message::new(1, b""))?;
    let text = caller.draft(1)?;
    let sent = caller.try_send_text(id, 1, 0, text);
    let tried = errno_of(caller, sent);
    let text = caller.draft(1)?;
    let sent = caller.send_text_timeout(id, 1, 0, text, ends.span);
    let timed = errno_of(caller, sent);
    let text = caller.draft(1)?;
    let sent = caller.send_text_deadline(id, 1, 0, text, ends.time);
    let ended = errno_of(caller, sent);
    for answer in [tried, timed, ended] {
        if answer != Err(Errno::EAGAIN) {
            return Ok(Some("a full queue"));
        }
    }
    Ok(None)
}

/// Makes these calls.
#[derive(Drop)]
struct Forms;

impl SystemProgram<NoPledge> for Forms {
    type Answer = Wrong;

    fn run<N: Names, R: Wait + Clock>(
        self,
        _config: Config,
        callers: &mut [Caller<'_, NoPledge, N, R>],
    ) -> Wrong {
        let Some(caller) = callers.first_mut() else {
            return Ok(Some("no seat"));
        };
        let Ok(time) = Instant::now(caller.runtime()) else {
            return Ok(Some("no time"));
        };
        let ends = Ends {
            span: Duration::from_millis(1),
            time,
        };
        let id = caller.queue(5)?;
        sends(caller, id, ends)?;
        let mut wrong = receives(caller, id, ends)?;
        if wrong.is_none() {
            wrong = appends(caller, id, ends)?;
        }
        if wrong.is_none() {
            wrong = is_full(caller, id, ends)?;
        }
        Ok(wrong)
    }
}

#[test]
fn texts_and_buffers_wait_not_at_all_for_so_long_and_until_a_time(rt: HostRuntime) {
    let Ok(ended) = with_system(&rt, rt.alloc(), SIZE, Forms) else {
        panic!(rt; "ENOMEM");
    };
    match ended.answer {
        Ok(None) => (),
        Ok(Some(wrong)) => panic!(rt; "{wrong}"),
        Err(errno) => panic!(rt; "{errno}"),
    }
}
