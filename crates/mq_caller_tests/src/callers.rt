use crate::runs::Nothing;
use mq::{
    BoardRow, Body, Caller, Clock, Config, Delivered, Errno, Figures, GetFlags, Id, MSGMAX,
    Message, Moments, Names, NoWait, ReceiveOptions, Selection, SendRefused, SystemProgram, TextOf,
    Wait, with_system,
};

/// Pages for four texts of the greatest length, of which two fill a queue.
const ROOMY: Config = Config {
    height: 8,
    slots: 4,
    seats: 1,
    last_seq: 9,
};

/// What is shown of a slot that never had a queue.
const NO_QUEUE: BoardRow = BoardRow {
    made: 0,
    live: false,
    key: 0,
    figures: Figures {
        qnum: 0,
        cbytes: 0,
        qbytes: 0,
        stime: 0,
        rtime: 0,
        ctime: 0,
        lspid: 0,
        lrpid: 0,
    },
};

/// Makes the calls of one caller that the others leave out, and answers what was wrong first.
#[derive(Drop)]
struct EachCall;

impl EachCall {
    /// A queue that is made, found, set and shown.
    fn is_shown<N: Names, R: Wait + Clock>(
        &self,
        caller: &mut Caller<'_, Nothing, N, R>,
    ) -> Result<Option<&'static str>, Errno> {
        let alloc = caller.alloc();
        let flags = GetFlags {
            create: true,
            exclusive: true,
        };
        let made = caller.get(7, flags)?;
        let found = caller.get(
            7,
            GetFlags {
                create: false,
                exclusive: false,
            },
        )?;
        if found.id != made.id || found.made.is_some() || caller.get(7, flags).is_ok() {
            return Ok(Some("get"));
        }
        caller.moments = Moments::at(5);
        caller.set(made.id, 100)?;
        caller.send(made.id, Message::new(3, b"abc").tagged(9))?;
        let figures = caller.stat(made.id)?;
        if figures.qnum != 1 || figures.qbytes != 100 || figures.stime != 5 {
            return Ok(Some("stat"));
        }
        let Ok(mut rows) = vec![in alloc; NO_QUEUE; caller.slots() as usize] else {
            return Err(Errno::ENOMEM);
        };
        caller.report(&mut rows);
        match rows.first() {
            Some(row) if row.figures == figures => Ok(None),
            _ => Ok(Some("report")),
        }
    }

    /// Its message and the next one, received into a vector and as a text.
    fn is_received<N: Names, R: Wait + Clock>(
        &self,
        caller: &mut Caller<'_, Nothing, N, R>,
    ) -> Result<Option<&'static str>, Errno> {
        let id = caller.queue(7)?;
        let options = ReceiveOptions::default();
        let Ok(mut bytes) = Vec::from_slice(caller.alloc(), b"<") else {
            return Err(Errno::ENOMEM);
        };
        let into = caller.receive_into_within(
            id,
            Selection::Any,
            options,
            &mut bytes,
            &mut NoWait,
        )?;
        if into.tag != 9 || bytes.as_slice() != b"<abc".as_slice() {
            return Ok(Some("receive_into"));
        }
        let none = caller.receive_into_within(id, Selection::Any, options, &mut bytes, &mut NoWait);
        if none.is_ok() || bytes.as_slice() != b"<abc".as_slice() {
            return Ok(Some("receive_into of nothing"));
        }
        caller.send(id, Message::new(4, b"text"))?;
        let received = caller.receive_text_within(id, Selection::Exact(4), options, &mut NoWait)?;
        let Delivered { length, text, .. } = received;
        let same = text.count() == 1 && text.part(0) == b"text".as_slice();
        caller.system.spend_by(caller.rt, &caller.seat, text);
        if !same || length != 4 {
            return Ok(Some("receive_text"));
        }
        for selection in [
            Selection::Exact(0),
            Selection::Except(-1),
            Selection::UpTo(0),
            Selection::UpTo(u64::MAX),
        ] {
            if caller.try_receive(id, selection).err() != Some(Errno::EINVAL)
                || !is_refused(caller, id, selection)
            {
                return Ok(Some("a type that no message has"));
            }
        }
        Ok(None)
    }
}

/// Whether a receipt of a text by these types is EINVAL.
fn is_refused<N: Names, R: Wait + Clock>(
    caller: &mut Caller<'_, Nothing, N, R>,
    id: Id,
    selection: Selection,
) -> bool {
    match caller.receive_text_within(id, selection, ReceiveOptions::new(), &mut NoWait) {
        Err(errno) => errno == Errno::EINVAL,
        Ok(received) => {
            let Delivered { text, .. } = received;
            caller.system.spend_by(caller.rt, &caller.seat, text);
            false
        }
    }
}

/// A text of the greatest length that is sent, or spent where it is refused.
fn sends_most<N: Names, R: Wait + Clock>(
    caller: &mut Caller<'_, Nothing, N, R>,
    id: Id,
) -> Result<(), Errno> {
    let text = caller.draft(MSGMAX)?;
    match caller.send_text(id, 1, 0, text) {
        Ok(_) => Ok(()),
        Err(refusal) => {
            let SendRefused { refused, text } = refusal;
            caller.spend(text);
            Err(refused.errno)
        }
    }
}

/// Whether no text was drafted since no pages were free.
fn is_no_draft<N: Names, R: Wait + Clock>(
    caller: &Caller<'_, Nothing, N, R>,
    drafted: Result<TextOf<N>, Errno>,
) -> bool {
    match drafted {
        Ok(text) => {
            caller.spend(text);
            false
        }
        Err(errno) => errno == Errno::ENOMEM,
    }
}

/// Drafts that may not wait while four texts have all pages, and one that a full queue returns.
fn is_drafted<N: Names, R: Wait + Clock>(
    caller: &mut Caller<'_, Nothing, N, R>,
) -> Result<Option<&'static str>, Errno> {
    for key in [20, 21] {
        let id = caller.queue(key)?;
        sends_most(caller, id)?;
        sends_most(caller, id)?;
    }
    let tried = is_no_draft(caller, caller.try_draft(1));
    let within = is_no_draft(caller, caller.draft_within(1, &mut NoWait));
    if !tried || !within {
        return Ok(Some("draft"));
    }
    let full = caller.queue(20)?;
    let other = caller.queue(21)?;
    caller.remove(other)?;
    let text = caller.try_draft(3)?;
    let handed_back = match caller.send_text_within(full, 1, 0, text, &mut NoWait) {
        Ok(_) => false,
        Err(refusal) => {
            let SendRefused { refused, text } = refusal;
            let length = text.len();
            caller.spend(text);
            refused.errno == Errno::EAGAIN && length == 3
        }
    };
    caller.remove(full)?;
    Ok(if handed_back {
        None
    } else {
        Some("send_text_within")
    })
}

/// The moment of a call, by the clock.
fn is_timed<N: Names, R: Wait + Clock>(
    caller: &mut Caller<'_, Nothing, N, R>,
) -> Result<Option<&'static str>, Errno> {
    let id = caller.queue(7)?;
    caller.moments = Moments::by_clock();
    let before = caller.rt.since_1970();
    caller.send(id, Message::new(1, b""))?;
    let after = caller.rt.since_1970();
    let stime = caller.stat(id)?.stime;
    match (before, after) {
        (Ok(before), Ok(after)) if before.as_secs() <= stime && stime <= after.as_secs() => Ok(
            None,
        ),
        _ => Ok(Some("stime")),
    }
}

impl SystemProgram<Nothing> for EachCall {
    type Answer = Result<Option<&'static str>, Errno>;

    fn run<N: Names, R: Wait + Clock>(
        self,
        _config: Config,
        callers: &mut [Caller<'_, Nothing, N, R>],
    ) -> Result<Option<&'static str>, Errno> {
        let Some(caller) = callers.first_mut() else {
            return Ok(Some("no caller"));
        };
        if let Some(wrong) = self.is_shown(caller)? {
            return Ok(Some(wrong));
        }
        if let Some(wrong) = self.is_received(caller)? {
            return Ok(Some(wrong));
        }
        if let Some(wrong) = is_drafted(caller)? {
            return Ok(Some(wrong));
        }
        is_timed(caller)
    }
}

#[test]
fn a_caller_has_each_call_of_the_manual(rt: HostRuntime) {
    match with_system(&rt, rt.alloc(), ROOMY, EachCall) {
        Ok(ended) => match ended.answer {
            Ok(None) => holds!(rt; ended.free_pages == 256),
            Ok(Some(wrong)) => panic!(rt; "{wrong}"),
            Err(errno) => panic!(rt; "{errno}"),
        },
        Err(error) => panic!(rt; "{error}"),
    }
}
