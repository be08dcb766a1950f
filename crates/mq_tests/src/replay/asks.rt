//! Calls of a system, each with the answer that is kept.

use crate::replay::batches::{receive_texts, send_texts};
use crate::replay::calls::{Answer, Asked, Handed, Kept, KeptCut, KeptLog, SLOTS, byte_of};
use mq::{
    BoardRow, Caller, Delivered, Figures, GetFlags, Id, Moments, Names, Pledge, RecvFlags, Refused,
    Removal, Seat, SendFlags, System, TextOf,
};
use std::sync::Wait;
use std::time::Clock;

/// Nothing is pledged: a message is checked once it was received.
pub(crate) struct Nothing;

impl Pledge for Nothing {
    ghost kept = { λ _ _ _ _. Unit {0} };
}

const NO_ROW: BoardRow = BoardRow {
    made: 0,
    live: false,
    key: 0,
    figures: Figures {
        qnum: 0,
        cbytes: 0,
        qbytes: 0,
        stime: 0,
        rtime: 0,
        ctime: 0,
        lspid: 0,
        lrpid: 0,
    },
};

fn refused(refused: Refused) -> Answer {
    Answer::Refused(refused.errno, refused.entry)
}

fn get<N: Names, R: Wait>(
    rt: &R,
    system: &System<Nothing, N>,
    seat: &mut Seat<N>,
    key: i32,
    flags: GetFlags,
    moment: u64,
) -> Answer {
    match system.msgget(rt, seat, key, flags, moment) {
        Ok(got) => Answer::Got(got.id.number(), got.made),
        Err(errno) => Answer::Refused(errno, None),
    }
}

/// The text with this tag, or `None` where there are no pages or no memory for it.
pub(crate) fn drafted<N: Names, R: Wait>(
    rt: &R,
    system: &System<Nothing, N>,
    room: &mut [u8],
    tag: u64,
    length: u64,
) -> Option<TextOf<N>> {
    let bytes = room.get_mut(..length as usize)?;
    for (position, byte) in bytes.iter_mut().enumerate() {
        *byte = byte_of(tag, position as u64);
    }
    system.draft_of(rt, bytes).ok()
}

/// `None` where the text is not drafted.
fn send<N: Names, R: Wait>(
    rt: &R,
    system: &System<Nothing, N>,
    seat: &mut Seat<N>,
    room: &mut [u8],
    id: u32,
    mtype: i64,
    tag: u64,
    length: u64,
    nowait: bool,
    moment: u64,
) -> Option<Answer> {
    let text = drafted(rt, system, room, tag, length)?;
    let flags = SendFlags { nowait };
    let id = Id::from_number(id);
    match system.msgsnd(rt, seat, id, mtype, tag, text, flags, moment) {
        Ok(entry) => Some(Answer::Done(entry)),
        Err(refusal) => {
            let (why, text) = refusal.into_text();
            system.spend(rt, text);
            Some(refused(why))
        }
    }
}

/// The received message, with each byte checked.
pub(crate) fn handed<N: Names>(delivered: &Delivered<TextOf<N>>) -> Handed {
    let mut came = 0u64;
    let mut as_sent = true;
    for part in delivered.text.parts() {
        for byte in part {
            as_sent = as_sent && *byte == byte_of(delivered.tag, came);
            came = came.wrapping_add(1);
        }
    }
    Handed {
        entry: delivered.entry,
        mtype: delivered.mtype,
        sender: delivered.sender,
        tag: delivered.tag,
        length: delivered.length,
        came,
        as_sent,
    }
}

fn receive<N: Names, R: Wait>(
    rt: &R,
    system: &System<Nothing, N>,
    seat: &mut Seat<N>,
    id: u32,
    size: u64,
    msgtyp: i64,
    flags: RecvFlags,
    moment: u64,
) -> Answer {
    match system.msgrcv(rt, seat, Id::from_number(id), size, msgtyp, flags, moment) {
        Ok(delivered) => {
            let came = handed(&delivered);
            let Delivered {
                entry: _,
                mtype: _,
                sender: _,
                tag: _,
                length: _,
                text,
            } = delivered;
            system.spend(rt, text);
            Answer::Handed(came)
        }
        Err(why) => refused(why),
    }
}

fn set<N: Names, R: Wait>(
    rt: &R,
    system: &System<Nothing, N>,
    seat: &mut Seat<N>,
    id: u32,
    qbytes: u64,
    moment: u64,
) -> Answer {
    match system.set(rt, seat, Id::from_number(id), qbytes, moment) {
        Ok(entry) => Answer::Done(entry),
        Err(why) => refused(why),
    }
}

fn remove<N: Names, R: Wait>(
    rt: &R,
    system: &System<Nothing, N>,
    seat: &mut Seat<N>,
    logs: &mut Vec<KeptLog>,
    id: u32,
    moment: u64,
) -> Answer {
    match system.rmid(rt, seat, Id::from_number(id), moment) {
        Ok(removal) => {
            let Removal { entry, log } = removal;
            let (base, tail) = log.into_parts();
            let _ = logs.push(KeptLog { base, tail });
            Answer::Removed(entry)
        }
        Err(why) => refused(why),
    }
}

/// `None` where there is no such slot.
fn cut<N: Names, R: Wait>(
    rt: &R,
    system: &System<Nothing, N>,
    seat: &mut Seat<N>,
    cuts: &mut Vec<KeptCut>,
    slot: u8,
) -> Option<Answer> {
    if slot >= system.slots() {
        return None;
    }
    match system.cut_log(rt, seat, slot) {
        Ok(cut) => {
            let entries = (cut.past.len() as u64).wrapping_add(cut.last.len() as u64);
            let end = cut.first.wrapping_add(entries);
            let _ = cuts.push(KeptCut { slot, cut });
            Some(Answer::Cut(end))
        }
        Err(why) => Some(refused(why)),
    }
}

fn stat<N: Names>(system: &System<Nothing, N>, seat: &mut Seat<N>, id: u32) -> Answer {
    match system.stat(seat, Id::from_number(id)) {
        Ok(figures) => Answer::Shown(figures),
        Err(errno) => Answer::Refused(errno, None),
    }
}

/// `None` where the system has another number of slots.
pub(crate) fn report<N: Names>(
    system: &System<Nothing, N>,
    seat: &mut Seat<N>,
) -> Option<[BoardRow; SLOTS]> {
    if system.slots() != SLOTS as u8 {
        return None;
    }
    let mut rows = [NO_ROW; SLOTS];
    system.report(seat, &mut rows);
    Some(rows)
}

/// How many changes the seat has counted in each slot.
pub(crate) fn counts<N: Names>(system: &System<Nothing, N>, seat: &Seat<N>) -> [u64; SLOTS] {
    if system.slots() != SLOTS as u8 {
        return [0; SLOTS];
    }
    [seat.count(0), seat.count(1), seat.count(2)]
}

/// The answer to a call of one text.
fn answer_of_text<N: Names, R: Wait>(
    rt: &R,
    system: &System<Nothing, N>,
    seat: &mut Seat<N>,
    room: &mut [u8],
    asked: &Asked,
    moment: u64,
) -> Option<Answer> {
    match *asked {
        Asked::Send {
            id,
            mtype,
            tag,
            length,
            nowait,
        } => send(
            rt, system, seat, room, id, mtype, tag, length, nowait, moment,
        ),
        Asked::Receive {
            id,
            size,
            msgtyp,
            except,
            noerror,
            nowait,
        } => {
            let flags = RecvFlags {
                nowait,
                noerror,
                except,
            };
            Some(receive(rt, system, seat, id, size, msgtyp, flags, moment))
        }
        _ => None,
    }
}

/// The answer to a call of no text; the log of a queue that it removes is kept, and what it
/// drains.
fn answer_of_queue<N: Names, R: Wait>(
    rt: &R,
    system: &System<Nothing, N>,
    seat: &mut Seat<N>,
    kept: &mut Kept,
    asked: &Asked,
    moment: u64,
) -> Option<Answer> {
    match *asked {
        Asked::Get { key, flags } => Some(get(rt, system, seat, key, flags, moment)),
        Asked::Set { id, qbytes } => Some(set(rt, system, seat, id, qbytes, moment)),
        Asked::Remove { id } => Some(remove(rt, system, seat, &mut kept.logs, id, moment)),
        Asked::Stat { id } => Some(stat(system, seat, id)),
        Asked::Cut { slot } => cut(rt, system, seat, &mut kept.cuts, slot),
        Asked::Report => Some(Answer::Rows(report(system, seat)?)),
        _ => None,
    }
}

/// The answer to this call. `None` where a text was not drafted, or there was no memory to keep
/// the answer in, and no call was made.
pub(crate) fn answer<N: Names, R: Wait + Clock>(
    caller: &mut Caller<'_, Nothing, N, R>,
    kept: &mut Kept,
    asked: &Asked,
    moment: u64,
) -> Option<Answer> {
    let (rt, system, room) = (caller.rt, caller.system, kept.text.as_mut_slice());
    caller.moments = Moments::at(moment);
    match asked {
        Asked::Send { .. } | Asked::Receive { .. } => {
            answer_of_text(rt, system, &mut caller.seat, room, asked, moment)
        }
        Asked::SendTexts {
            id,
            how_long,
            letters,
        } => send_texts(caller, room, *id, *how_long, letters.as_slice()),
        Asked::ReceiveTexts {
            id,
            selection,
            size,
            noerror,
            most,
            how_long,
        } => receive_texts(caller, *id, *selection, *size, *noerror, *most, *how_long),
        _ => answer_of_queue(rt, system, &mut caller.seat, kept, asked, moment),
    }
}
