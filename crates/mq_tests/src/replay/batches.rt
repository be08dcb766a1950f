//! Calls of several texts, each with the answer that is kept.

ghost use Rattle.std.specs.Prelude.{◌≡◌};
ghost use Rattle.std.specs.VecDeque.{deque_len};

use crate::replay::asks::{Nothing, drafted, handed};
use crate::replay::calls::{Answer, BatchEnd, Handed, HowLong, KeptLetter};
use mq::{
    BatchReceived, BatchSent, Caller, Clock, Delivered, Duration, Forever, Id, Letter, MAX_BATCH,
    MSGMAX, Names, NoWait, ReceiveOptions, Refused, Selection, TextOf, Until, Wait,
};
use std::collections::VecDeque;

fn end_of(ended: Result<(), Refused>) -> BatchEnd {
    match ended {
        Ok(()) => BatchEnd::All,
        Err(refused) => BatchEnd::Refused(refused.errno, refused.entry),
    }
}

/// Whether this letter could be written, and stands last in the list now.
fn add<N: Names, R: Wait + Clock>(
    caller: &Caller<'_, Nothing, N, R>,
    room: &mut [u8],
    letters: &mut VecDeque<Letter<TextOf<N>>>,
    letter: KeptLetter,
) -> bool {
    let KeptLetter { mtype, tag, length } = letter;
    let Some(text) = drafted(caller.rt, caller.system, room, tag, length) else {
        return false;
    };
    match letters.push_back(Letter { mtype, tag, text }) {
        Ok(()) => true,
        Err(unsent) => {
            caller.spend(unsent.value.text);
            false
        }
    }
}

/// Whether each of these letters could be written.
fn add_all<N: Names, R: Wait + Clock>(
    caller: &Caller<'_, Nothing, N, R>,
    room: &mut [u8],
    letters: &mut VecDeque<Letter<TextOf<N>>>,
    asked: &[KeptLetter],
) -> bool {
    for letter in asked {
        if !add(caller, room, letters, *letter) {
            return false;
        }
    }
    true
}

/// Spends the letters that are left, and says which they are.
fn spend_left<N: Names, R: Wait + Clock>(
    caller: &Caller<'_, Nothing, N, R>,
    letters: &mut VecDeque<Letter<TextOf<N>>>,
    left: &mut Vec<KeptLetter>,
)
    ensures none { deque_len letters.new ≡ 0 }
{
    while let Some(letter) = letters.pop_front() {
        let Letter { mtype, tag, text } = letter;
        let mut length = 0u64;
        for part in text.parts() {
            length = length.wrapping_add(part.len() as u64);
        }
        let _ = left.push(KeptLetter { mtype, tag, length });
        caller.spend(text);
    }
}

fn sent<N: Names, R: Wait + Clock>(
    caller: &mut Caller<'_, Nothing, N, R>,
    id: Id,
    letters: &mut VecDeque<Letter<TextOf<N>>>,
    how_long: HowLong,
) -> BatchSent {
    match how_long {
        HowLong::Forever => caller.send_texts(id, letters),
        HowLong::NoWait => caller.try_send_texts(id, letters),
        HowLong::Within(span) => {
            let mut until = Until::within(caller.rt, Duration::from_micros(span));
            caller.send_texts_within(id, letters, &mut until)
        }
    }
}

/// `None` where a letter was not written, or there was no memory.
pub(crate) fn send_texts<N: Names, R: Wait + Clock>(
    caller: &mut Caller<'_, Nothing, N, R>,
    room: &mut [u8],
    id: u32,
    how_long: HowLong,
    asked: &[KeptLetter],
) -> Option<Answer> {
    let mut left = Vec::with_capacity(caller.alloc, asked.len()).ok()?;
    let mut letters = VecDeque::new(caller.alloc);
    let answer = if add_all(caller, room, &mut letters, asked) {
        Some(sent(caller, Id::from_number(id), &mut letters, how_long))
    } else {
        None
    };
    spend_left(caller, &mut letters, &mut left);
    letters.destroy_empty();
    let BatchSent { first, ended } = answer?;
    Some(Answer::SentTexts(first, left, end_of(ended)))
}

/// Receives by the call without options, where these are what it has.
fn received<N: Names, R: Wait + Clock>(
    caller: &mut Caller<'_, Nothing, N, R>,
    id: Id,
    selection: Selection,
    size: u64,
    noerror: bool,
    most: usize,
    how_long: HowLong,
) -> BatchReceived<TextOf<N>> {
    let plain = size == MSGMAX && !noerror;
    let sized = ReceiveOptions::new().up_to(size);
    let options = if noerror { sized.cut() } else { sized };
    match how_long {
        HowLong::Forever if plain => caller.receive_texts(id, selection, most),
        HowLong::NoWait if plain => caller.try_receive_texts(id, selection, most),
        HowLong::Forever => {
            caller.receive_texts_within(id, selection, options, most, &mut Forever)
        }
        HowLong::NoWait => caller.receive_texts_within(id, selection, options, most, &mut NoWait),
        HowLong::Within(span) => {
            let mut until = Until::within(caller.rt, Duration::from_micros(span));
            caller.receive_texts_within(id, selection, options, most, &mut until)
        }
    }
}

/// Spends the texts that were received, and says which they are.
fn spend_handed<N: Names, R: Wait + Clock>(
    caller: &Caller<'_, Nothing, N, R>,
    texts: &mut VecDeque<Delivered<TextOf<N>>>,
    came: &mut Vec<Handed>,
)
    ensures none { deque_len texts.new ≡ 0 }
{
    while let Some(delivered) = texts.pop_front() {
        let _ = came.push(handed(&delivered));
        let Delivered { text, .. } = delivered;
        caller.spend(text);
    }
}

/// `None` where there was no memory.
pub(crate) fn receive_texts<N: Names, R: Wait + Clock>(
    caller: &mut Caller<'_, Nothing, N, R>,
    id: u32,
    selection: Selection,
    size: u64,
    noerror: bool,
    most: usize,
    how_long: HowLong,
) -> Option<Answer> {
    let mut came = Vec::with_capacity(caller.alloc, most.min(MAX_BATCH)).ok()?;
    let id = Id::from_number(id);
    let received = received(caller, id, selection, size, noerror, most, how_long);
    let BatchReceived { texts, ended } = received;
    let mut texts = texts;
    spend_handed(caller, &mut texts, &mut came);
    texts.destroy_empty();
    Some(Answer::HandedTexts(came, end_of(ended)))
}
