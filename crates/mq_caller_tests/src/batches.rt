//! Several texts by one call of a caller.

ghost use Rattle.std.specs.Prelude.{◌≡◌};
ghost use Rattle.std.specs.VecDeque.{deque_len};

use mq::{
    BatchReceived, Caller, Clock, Config, DEFAULTS, Errno, Id, Letter, MAX_BATCH, Names, NoPledge,
    NoWait, ReceiveOptions, Refused, Selection, SystemProgram, TextOf, Wait, with_system,
};
use std::collections::VecDeque;

const SIZE: Config = Config {
    slots: 1,
    seats: 1,
    ..DEFAULTS
};

/// Adds letters of these types, each of one byte, its place.
fn add<N: Names, R: Wait + Clock>(
    caller: &mut Caller<'_, NoPledge, N, R>,
    letters: &mut VecDeque<Letter<TextOf<N>>>,
    types: &[i64],
) -> Result<(), Errno> {
    let mut tag = 0u64;
    for mtype in types {
        let mtype = *mtype;
        let text = caller.draft(1)?;
        match letters.push_back(Letter { mtype, tag, text }) {
            Ok(()) => (),
            Err(unsent) => {
                caller.spend(unsent.value.text);
                return Err(Errno::ENOMEM);
            }
        }
        tag = tag.saturating_add(1);
    }
    Ok(())
}

/// Spends the letters that are left, and answers how many there were.
fn spend_all<N: Names, R: Wait + Clock>(
    caller: &mut Caller<'_, NoPledge, N, R>,
    letters: &mut VecDeque<Letter<TextOf<N>>>,
) -> usize
    ensures none { deque_len letters.new ≡ 0 }
{
    let left = letters.len();
    while let Some(letter) = letters.pop_front() {
        caller.spend(letter.text);
    }
    left
}

/// How a call ended; a call that found no memory is to be made again.
fn errno_of(ended: Result<(), Refused>) -> Result<Option<Errno>, Errno> {
    match ended {
        Ok(()) => Ok(None),
        Err(refused) if refused.errno == Errno::ENOMEM => Err(Errno::ENOMEM),
        Err(refused) => Ok(Some(refused.errno)),
    }
}

/// The tags of the texts that were received, as digits behind a 1, and how it ended.
fn told<N: Names, R: Wait + Clock>(
    caller: &mut Caller<'_, NoPledge, N, R>,
    received: BatchReceived<TextOf<N>>,
) -> Result<(u64, Option<Errno>), Errno> {
    let BatchReceived { texts, ended } = received;
    let mut texts = texts;
    let mut tags = 1u64;
    for delivered in texts.iter() {
        tags = tags.wrapping_mul(10).wrapping_add(delivered.tag);
    }
    caller.spend_texts(&mut texts);
    texts.destroy_empty();
    Ok((tags, errno_of(ended)?))
}

/// What was wrong first.
type Wrong = Result<Option<&'static str>, Errno>;

/// Letters that are sent by one call, and by another.
fn sends<N: Names, R: Wait + Clock>(
    caller: &mut Caller<'_, NoPledge, N, R>,
    id: Id,
    letters: &mut VecDeque<Letter<TextOf<N>>>,
) -> Wrong {
    let none = caller.send_texts(id, letters);
    if none.first.is_some() || none.ended.is_err() {
        return Ok(Some("no letters"));
    }
    add(caller, letters, &[1, 2, 1, 2, 0, 1])?;
    let sent = caller.send_texts(id, letters);
    if errno_of(sent.ended)? != Some(Errno::EINVAL) || sent.first != Some(1) {
        return Ok(Some("a type below 1"));
    }
    if spend_all(caller, letters) != 2 {
        return Ok(Some("two letters are left"));
    }
    Ok(None)
}

fn receives<N: Names, R: Wait + Clock>(caller: &mut Caller<'_, NoPledge, N, R>, id: Id) -> Wrong {
    let received = caller.receive_texts(id, Selection::Exact(1), 9);
    if told(caller, received)? != (102, Some(Errno::ENOMSG)) {
        return Ok(Some("those of a type"));
    }
    let received = caller.receive_texts(id, Selection::Any, 1);
    if told(caller, received)? != (11, None) {
        return Ok(Some("one of two"));
    }
    let received = caller.receive_texts(id, Selection::Exact(0), 9);
    if told(caller, received)? != (1, Some(Errno::EINVAL)) {
        return Ok(Some("a type that no message has"));
    }
    let short = ReceiveOptions::new().up_to(0);
    let received = caller.receive_texts_within(id, Selection::Any, short, 9, &mut NoWait);
    if told(caller, received)? != (1, Some(Errno::E2BIG)) {
        return Ok(Some("a text that is too long"));
    }
    let received = caller.try_receive_texts(id, Selection::UpTo(2), 2);
    if told(caller, received)? != (13, Some(Errno::ENOMSG)) {
        return Ok(Some("the last"));
    }
    let received = caller.try_receive_texts(id, Selection::Any, 9);
    if told(caller, received)? != (1, Some(Errno::ENOMSG)) {
        return Ok(Some("none"));
    }
    Ok(None)
}

/// A queue that is full behind two of three letters, and one with more than a batch has.
fn fills<N: Names, R: Wait + Clock>(
    caller: &mut Caller<'_, NoPledge, N, R>,
    id: Id,
    letters: &mut VecDeque<Letter<TextOf<N>>>,
) -> Wrong {
    caller.set(id, 2)?;
    add(caller, letters, &[1, 1, 1])?;
    let sent = caller.try_send_texts(id, letters);
    if errno_of(sent.ended)? != Some(Errno::EAGAIN) {
        return Ok(Some("a full queue"));
    }
    let sent = caller.try_send_texts(id, letters);
    if errno_of(sent.ended)? != Some(Errno::EAGAIN) || spend_all(caller, letters) != 1 {
        return Ok(Some("a queue that was full before"));
    }
    caller.set(id, 1_000)?;
    add(caller, letters, &[3; MAX_BATCH + 1])?;
    let sent = caller.send_texts_within(id, letters, &mut NoWait);
    if errno_of(sent.ended)?.is_some() || spend_all(caller, letters) != 1 {
        return Ok(Some("more than a batch has"));
    }
    let received = caller.receive_texts(id, Selection::Exact(3), 1_000);
    let BatchReceived { texts, ended } = received;
    let count = texts.len();
    let (_, errno) = told(caller, BatchReceived { texts, ended })?;
    if count != MAX_BATCH || errno.is_some() {
        return Ok(Some("as many as a batch has"));
    }
    Ok(None)
}

/// Makes each call of several texts.
#[derive(Drop)]
struct Several;

impl SystemProgram<NoPledge> for Several {
    type Answer = Wrong;

    fn run<N: Names, R: Wait + Clock>(
        self,
        _config: Config,
        callers: &mut [Caller<'_, NoPledge, N, R>],
    ) -> Wrong {
        let Some(caller) = callers.first_mut() else {
            return Ok(Some("no seat"));
        };
        let id = caller.queue(5)?;
        let mut letters = VecDeque::new(caller.alloc());
        let mut wrong = sends(caller, id, &mut letters);
        if wrong == Ok(None) {
            wrong = receives(caller, id);
        }
        if wrong == Ok(None) {
            wrong = fills(caller, id, &mut letters);
        }
        spend_all(caller, &mut letters);
        letters.destroy_empty();
        wrong
    }
}

#[test]
fn several_texts_are_sent_and_received_by_one_call(rt: HostRuntime) {
    let Ok(ended) = with_system(&rt, rt.alloc(), SIZE, Several) else {
        panic!(rt; "ENOMEM");
    };
    match ended.answer {
        Ok(None) => (),
        Ok(Some(wrong)) => panic!(rt; "{wrong}"),
        Err(errno) => panic!(rt; "{errno}"),
    }
}

/// Four pages.
const TINY: Config = Config { height: 2, ..SIZE };

fn letter(mtype: i64, tag: u64, bytes: &[u8]) -> Letter<&[u8]> {
    Letter {
        mtype,
        tag,
        text: bytes,
    }
}

/// The message that is received next has this type, tag and bytes.
fn is_next<N: Names, R: Wait + Clock>(
    caller: &mut Caller<'_, NoPledge, N, R>,
    id: Id,
    wanted: &Letter<&[u8]>,
) -> Result<bool, Errno> {
    let received = caller.try_receive(id, Selection::Any)?;
    let is_header = received.mtype == wanted.mtype && received.tag == wanted.tag;
    Ok(is_header && received.text.as_slice() == wanted.text)
}

/// Texts of letters up to one that is too long; as many as there are pages for; and texts in pages
/// that the seat has cached.
fn drafts<N: Names, R: Wait + Clock>(
    caller: &mut Caller<'_, NoPledge, N, R>,
    letters: &mut VecDeque<Letter<TextOf<N>>>,
) -> Wrong {
    let id = caller.queue(5)?;
    let Ok(long) = vec![in caller.alloc(); b'l'; 65_537] else {
        return Err(Errno::ENOMEM);
    };
    let (two, long) = (&long[..1_025], long.as_slice());
    caller.draft_texts(&[], letters)?;
    let some = [
        letter(7, 4, b"abc"),
        letter(8, 5, b""),
        letter(9, 6, two),
        letter(1, 7, long),
        letter(1, 8, b"d"),
    ];
    match caller.draft_texts(&some, letters) {
        Err(Errno::EINVAL) if letters.len() == 3 => (),
        Err(Errno::ENOMEM) => return Err(Errno::ENOMEM),
        _ => return Ok(Some("a text that is too long")),
    }
    errno_of(caller.send_texts(id, letters).ended)?;
    for wanted in some[..3].iter() {
        if !is_next(caller, id, wanted)? {
            return Ok(Some("texts of several lengths"));
        }
    }
    let five = [
        letter(1, 0, b"a"),
        letter(2, 1, b"b"),
        letter(3, 2, b"c"),
        letter(4, 3, b"d"),
        letter(5, 4, b"e"),
    ];
    for _ in 0..2 {
        match caller.try_draft_texts(&five, letters) {
            Err(Errno::ENOMEM) if letters.len() == 4 => (),
            Err(errno) => return Err(errno),
            Ok(()) => return Ok(Some("five texts in four pages")),
        }
        errno_of(caller.send_texts(id, letters).ended)?;
        for wanted in five[..4].iter() {
            if !is_next(caller, id, wanted)? {
                return Ok(Some("a text in each page"));
            }
        }
    }
    caller.draft_texts_within(&five[..3], letters, &mut NoWait)?;
    if caller.draft_texts(&five[3..], letters) != Err(Errno::ENOMEM) || letters.len() != 4 {
        return Err(Errno::ENOMEM);
    }
    errno_of(caller.send_texts(id, letters).ended)?;
    for wanted in five[..4].iter() {
        if !is_next(caller, id, wanted)? {
            return Ok(Some("texts behind others"));
        }
    }
    Ok(None)
}

/// Drafts several texts by one call.
#[derive(Drop)]
struct DraftsSeveral;

impl SystemProgram<NoPledge> for DraftsSeveral {
    type Answer = Wrong;

    fn run<N: Names, R: Wait + Clock>(
        self,
        _config: Config,
        callers: &mut [Caller<'_, NoPledge, N, R>],
    ) -> Wrong {
        let Some(caller) = callers.first_mut() else {
            return Ok(Some("no seat"));
        };
        let mut letters = VecDeque::new(caller.alloc());
        let wrong = drafts(caller, &mut letters);
        spend_all(caller, &mut letters);
        letters.destroy_empty();
        wrong
    }
}

#[test]
fn several_texts_are_drafted_by_one_call(rt: HostRuntime) {
    let Ok(ended) = with_system(&rt, rt.alloc(), TINY, DraftsSeveral) else {
        panic!(rt; "ENOMEM");
    };
    match ended.answer {
        Ok(None) if ended.free_pages == 4 => (),
        Ok(None) => panic!(rt; "a page is not free"),
        Ok(Some(wrong)) => panic!(rt; "{wrong}"),
        Err(errno) => panic!(rt; "{errno}"),
    }
}
