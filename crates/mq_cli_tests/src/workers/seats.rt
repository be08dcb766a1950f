//! Ports at the seats of a system: what each call answers, and what the slots list at the end.

ghost use Rattle.std.specs.Prelude.{◌≡◌, ◌≤◌, ◌+◌, map};
ghost use Rattle.std.specs.List.{range_with_len};
ghost use Rattle.mq_cli.specs.Drafts.{letter};
ghost use Rattle.mq_queue.specs.declared.limits.TheConstants.{MSGMAX};
ghost use Rattle.mq_system.specs.Sizes.{AreNames};

use crate::workers::plans::{Call, FOREVER};
use mq_arena::LEDGER_PARTS;
use mq_cli::{Letters, Port, PutCall, SystemPort, TakeCall, Taken, letters_of_ports};
use mq_message::Selection;
use mq_queue::{Event, MSGMAX};
use mq_system::{
    Blanks, Closed, ClosedSlot, Config, Errno, Forever, GetFlags, Names, NoWait, Patience, Seat,
    SysError, System,
};
use mq_table::Id;
use std::alloc::Global;
use std::marker::Brand;
use std::process::Abort;
use std::sync::Wait;

/// What a call answers.
#[derive(Clone, Copy, PartialEq, Eq)]
enum Answer {
    /// The entry of what was sent or removed.
    At(u64),
    /// What was received, in its order.
    Got([Option<Taken>; 3]),
    Refused(Errno),
}

/// The place of a seat, a call of its port, and what is answered.
type Turn = (usize, Call, Answer);

fn at(seat: usize, call: Call, entry: u64) -> Turn {
    (seat, call, Answer::At(entry))
}

fn taken(sender: u16, tag: u64, mtype: i64, length: u64) -> Option<Taken> {
    Some(Taken {
        sender,
        tag,
        mtype,
        length,
    })
}

fn got(seat: usize, call: Call, sender: u16, tag: u64, mtype: i64, length: u64) -> Turn {
    let one = taken(sender, tag, mtype, length);
    (seat, call, Answer::Got([one, None, None]))
}

fn refused(seat: usize, call: Call, errno: Errno) -> Turn {
    (seat, call, Answer::Refused(errno))
}

fn put(id: u32, mtype: i64, tag: u64, length: u64, moment: u64) -> Call {
    Call::Put {
        id,
        mtype,
        tag,
        length,
        pages: false,
        left: FOREVER,
        moment,
    }
}

fn take(id: u32, msgtyp: i64, moment: u64) -> Call {
    take_some(id, msgtyp, 1, moment)
}

fn take_some(id: u32, msgtyp: i64, most: usize, moment: u64) -> Call {
    Call::Take {
        id,
        msgtyp,
        left: FOREVER,
        most,
        moment,
    }
}

/// A message that waits neither for pages nor for room.
fn put_at_once(id: u32, mtype: i64, tag: u64, length: u64, moment: u64) -> Call {
    Call::Put {
        id,
        mtype,
        tag,
        length,
        pages: true,
        left: None,
        moment,
    }
}

fn take_at_once(id: u32, msgtyp: i64, most: usize, moment: u64) -> Call {
    Call::Take {
        id,
        msgtyp,
        left: None,
        most,
        moment,
    }
}

fn remove(id: u32, moment: u64) -> Call {
    Call::Remove { id, moment }
}

const LATE: u64 = 9_223_372_036_854_775_808;

const TAG: u64 = 4_294_967_309;

/// Messages of several types to two queues, none of which is in the first slot, and back.
fn traffic() -> [Turn; 9] {
    [
        at(1, put(2, 7, 11, 30, 21), 1),
        at(2, put(2, i64::MAX, 12, 0, 22), 2),
        at(1, put(2, 5, TAG, 5000, LATE), 3),
        at(2, put(65, 7, 1, 3, 23), 3),
        got(2, take(2, i64::MAX, 24), 3, 12, i64::MAX, 0),
        got(2, take(2, -7, 25), 2, TAG, 5, 5000),
        got(1, take_at_once(2, 0, 1, 26), 2, 11, 7, 30),
        got(0, take(65, 7, 27), 3, 1, 7, 3),
        at(1, put_at_once(2, 9, 14, 1, 28), 7),
    ]
}

/// Several by one call: as many as were asked for, and as many as are pending.
fn batches() -> [Turn; 7] {
    let (first, second) = (taken(2, 31, 4, 0), taken(3, 32, 4, 40));
    [
        at(1, put(2, 4, 31, 0, 41), 8),
        at(2, put(2, 4, 32, 40, 42), 9),
        at(1, put(2, 6, 33, 0, 43), 10),
        at(1, put(2, 4, 34, 2, 44), 11),
        (
            2,
            take_some(2, 4, 2, 45),
            Answer::Got([first, second, None]),
        ),
        got(0, take_at_once(2, 4, 3, 46), 2, 34, 4, 2),
        got(0, take_some(2, -7, 3, 47), 2, 33, 6, 0),
    ]
}

/// Calls that are refused, and a removal between them. Queue 0 has room for nothing.
fn ends() -> [Turn; 12] {
    [
        refused(1, put_at_once(0, 1, 15, 0, 29), Errno::EAGAIN),
        refused(1, take_at_once(0, 0, 1, 29), Errno::ENOMSG),
        refused(1, take_at_once(0, 0, 3, 29), Errno::ENOMSG),
        refused(1, put(2, 0, 15, 1, 29), Errno::EINVAL),
        refused(1, put(2, 1, 15, 65_537, 29), Errno::EINVAL),
        refused(1, put(1, 1, 15, 1, 29), Errno::EIDRM),
        refused(1, take(1, 0, 29), Errno::EIDRM),
        refused(1, take(3, 0, 29), Errno::EINVAL),
        refused(1, take_some(4, 0, 3, 29), Errno::EINVAL),
        refused(1, remove(1, 29), Errno::EIDRM),
        at(2, remove(2, 48), 16),
        refused(1, remove(2, 31), Errno::EIDRM),
    ]
}

fn made(seat: u16, moment: u64) -> Event {
    Event::Made {
        seat,
        moment,
        key: 0,
    }
}

fn sent(seat: u16, moment: u64, tag: u64, mtype: i64, length: u64) -> Event {
    Event::Sent {
        seat,
        moment,
        tag,
        mtype,
        length,
    }
}

fn received(seat: u16, moment: u64, place: u64, selection: Selection) -> Event {
    Event::Received {
        seat,
        moment,
        place,
        selection,
        size: MSGMAX,
        noerror: false,
    }
}

/// All that happened in slot 2, whose queue was removed.
fn slot_two() -> [Event; 17] {
    [
        made(1, 3),
        sent(2, 21, 11, 7, 30),
        sent(3, 22, 12, i64::MAX, 0),
        sent(2, LATE, TAG, 5, 5000),
        received(3, 24, 2, Selection::Exact(i64::MAX)),
        received(3, 25, 3, Selection::UpTo(7)),
        received(2, 26, 1, Selection::Any),
        sent(2, 28, 14, 9, 1),
        sent(2, 41, 31, 4, 0),
        sent(3, 42, 32, 4, 40),
        sent(2, 43, 33, 6, 0),
        sent(2, 44, 34, 4, 2),
        received(3, 45, 8, Selection::Exact(4)),
        received(3, 45, 9, Selection::Exact(4)),
        received(1, 46, 11, Selection::Exact(4)),
        received(1, 47, 10, Selection::UpTo(7)),
        Event::Removed {
            seat: 3,
            moment: 48,
        },
    ]
}

/// What happened in slot 1 in its first queue.
fn slot_one_before() -> [Event; 2] {
    [made(1, 2), Event::Removed { seat: 1, moment: 4 }]
}

/// And in its second.
fn slot_one() -> [Event; 3] {
    [
        made(1, 5),
        sent(3, 23, 1, 7, 3),
        received(1, 27, 1, Selection::Exact(7)),
    ]
}

fn seat_at<'s, N: Names>(rt: &impl Abort, seats: &'s mut [Seat<N>], k: usize) -> &'s mut Seat<N> {
    match seats.get_mut(k) {
        Some(seat) => seat,
        None => panic!(rt; "there is no seat {k}"),
    }
}

/// A queue by the first seat, in the first slot that is free; made once more where there was no
/// memory.
fn queue<N: Names, R: Abort + Wait>(
    rt: &R,
    system: &System<Letters, N>,
    seats: &mut [Seat<N>],
    moment: u64,
) -> u32 {
    let flags = GetFlags {
        create: true,
        exclusive: false,
    };
    let seat = seat_at(rt, seats, 0);
    let first = system.msgget(rt, seat, 0, flags, moment);
    let got = match first {
        Err(Errno::ENOMEM) => system.msgget(rt, seat, 0, flags, moment),
        answer => answer,
    };
    match got {
        Ok(got) => got.id.number(),
        Err(errno) => panic!(rt; "{errno}"),
    }
}

/// The quota of queue 0 is 0 from now on; set once more where there was no memory.
fn narrowed<N: Names, R: Abort + Wait>(
    rt: &R,
    system: &System<Letters, N>,
    seats: &mut [Seat<N>],
    moment: u64,
) {
    let id = Id::from_number(0);
    let seat = seat_at(rt, seats, 0);
    let first = system.set(rt, seat, id, 0, moment);
    let set = match first {
        Err(refused) if refused.errno == Errno::ENOMEM => system.set(rt, seat, id, 0, moment),
        answer => answer,
    };
    match set {
        Ok(entry) => holds!(rt; entry == 1, "behind its making"),
        Err(refused) => panic!(rt; "{refused}"),
    }
}

/// What a port answers.
fn called<P: Port, R: Wait>(
    rt: &R,
    alloc: Global,
    port: &mut P,
    shared: &P::Shared,
    call: Call,
) -> Answer {
    match call {
        Call::Put {
            id,
            mtype,
            tag,
            length,
            pages,
            left,
            moment,
        } => {
            let call = &PutCall {
                id: Id::from_number(id),
                mtype,
                length,
                pages,
                moment,
            };
            entry(match left {
                Some(_) => port.put(rt, shared, call, tag, &mut Forever),
                None => port.put(rt, shared, call, tag, &mut NoWait),
            })
        }
        Call::Take {
            id,
            msgtyp,
            left,
            most,
            moment,
        } => {
            let call = &TakeCall {
                id: Id::from_number(id),
                msgtyp,
                moment,
            };
            match left {
                Some(_) => takes(rt, alloc, port, shared, call, &mut Forever, most),
                None => takes(rt, alloc, port, shared, call, &mut NoWait, most),
            }
        }
        Call::Remove { id, moment } => {
            entry(port.remove(rt, shared, Id::from_number(id), moment))
        }
    }
}

/// The result of the receiver, or ENOMEM where there is no room for the messages.
fn takes<P: Port, R: Wait, T: Patience>(
    rt: &R,
    alloc: Global,
    port: &mut P,
    shared: &P::Shared,
    call: &TakeCall,
    patience: &mut T,
    most: usize,
) -> Answer {
    let most = most.max(1);
    let Ok(mut out) = Vec::with_capacity(alloc, most) else {
        return Answer::Refused(Errno::ENOMEM);
    };
    match port.take_many(rt, shared, call, patience, most, &mut out) {
        Ok(()) => Answer::Got([
            out.get(0).copied(),
            out.get(1).copied(),
            out.get(2).copied(),
        ]),
        Err(errno) => Answer::Refused(errno),
    }
}

fn entry(answer: Result<u64, Errno>) -> Answer {
    match answer {
        Ok(entry) => Answer::At(entry),
        Err(errno) => Answer::Refused(errno),
    }
}

/// What was received, if anything.
fn texts_of(answer: Answer) -> Option<[Option<Taken>; 3]> {
    match answer {
        Answer::Got(came) => Some(came),
        _ => None,
    }
}

/// The answer of a call that was made once more, where it was for several and there was no memory
/// for more than the first.
fn with_first(first: Answer, second: Answer) -> Answer {
    let (Some(one), Some(more)) = (texts_of(first), texts_of(second)) else {
        return second;
    };
    if one[1].is_some() || more[2].is_some() {
        return second;
    }
    Answer::Got([one[0], more[0], more[1]])
}

/// The call for what did not come, of which no more than one did.
fn rest_of(call: Call, first: Answer) -> Call {
    if texts_of(first).is_none() {
        return call;
    }
    match call {
        Call::Take {
            id,
            msgtyp,
            left,
            most,
            moment,
        } => Call::Take {
            id,
            msgtyp,
            left,
            most: most.saturating_sub(1),
            moment,
        },
        _ => call,
    }
}

/// Whether fewer were received than expected.
fn is_less(came: Answer, wanted: Answer) -> bool {
    if let Answer::Refused(errno) = came {
        return errno == Errno::ENOMEM;
    }
    match (texts_of(came), texts_of(wanted)) {
        (Some(one), Some(all)) => one[0].is_some() && one[1].is_none() && all[1].is_some(),
        _ => false,
    }
}

/// Makes a call by the port of the seat at its place, once more where there was no memory, and
/// compares the answer.
fn takes_turn<N: Names, R: Abort + Wait>(
    rt: &R,
    alloc: Global,
    system: &System<Letters, N>,
    seats: &mut [Seat<N>],
    letters: &[u8],
    turn: Turn,
)
    requires { letters.now ≡ map letter (range_with_len 0 (MSGMAX + 26)) }
{
    let (place, call, wanted) = turn;
    let seat = seat_at(rt, seats, place);
    let mut port = SystemPort::new(alloc, seat, letters);
    let first = called(rt, alloc, &mut port, system, call);
    let told = if is_less(first, wanted) {
        let rest = rest_of(call, first);
        with_first(first, called(rt, alloc, &mut port, system, rest))
    } else {
        first
    };
    assert!(rt; told == wanted, "at moment {}", moment_of(call));
}

fn moment_of(call: Call) -> u64 {
    match call {
        Call::Put { moment, .. } | Call::Take { moment, .. } | Call::Remove { moment, .. } => {
            moment
        }
    }
}

/// Three queues, of which the second is removed and its slot used once more, and the first has no
/// room; then the traffic.
fn turns<N: Names, R: Abort + Wait>(
    rt: &R,
    alloc: Global,
    system: &System<Letters, N>,
    seats: &mut [Seat<N>],
    letters: &[u8],
)
    requires { letters.now ≡ map letter (range_with_len 0 (MSGMAX + 26)) }
{
    for number in 0..3u32 {
        let id = queue(rt, system, seats, u64::from(number) + 1);
        holds!(rt; id == number, "a queue in each slot");
    }
    takes_turn(rt, alloc, system, seats, letters, at(0, remove(1, 4), 1));
    let id = queue(rt, system, seats, 5);
    holds!(rt; id == 65, "the second queue of slot 1");
    narrowed(rt, system, seats, 6);
    for one in traffic() {
        takes_turn(rt, alloc, system, seats, letters, one);
    }
    for one in batches() {
        takes_turn(rt, alloc, system, seats, letters, one);
    }
    for one in ends() {
        takes_turn(rt, alloc, system, seats, letters, one);
    }
}

fn day<N: Names, R: Abort + Wait>(
    rt: &R,
    alloc: Global,
    system: &System<Letters, N>,
    seats: &mut [Seat<N>],
) {
    let Ok(letters) = letters_of_ports(alloc) else {
        panic!(rt; "out of memory");
    };
    turns(rt, alloc, system, seats, &letters);
}

/// What a system leaves at its end.
#[derive(Drop)]
struct Left {
    slots: Vec<ClosedSlot>,
    free_pages: u32,
}

fn lived<N: Names, R: Abort + Wait>(
    rt: &R,
    alloc: Global,
    config: Config,
    blanks: Blanks,
) -> Result<Left, SysError>
    requires names { AreNames N.Names.own N.Naming blanks config }
    requires enough { LEDGER_PARTS ≤ blanks.pages.parts }
{
    let (system, mut seats) = System::<Letters, N>::new(alloc, rt, config, blanks)?;
    day(rt, alloc, &system, seats.as_mut_slice());
    let Closed { slots, arena } = system.close(rt, seats);
    Ok(Left {
        slots,
        free_pages: arena.free_pages(),
    })
}

fn lives<R: Abort + Wait>(rt: &R, alloc: Global, config: Config) -> Result<Left, SysError> {
    let blanks = Blanks::of(alloc, config)?;
    lived::<Brand, R>(rt, alloc, config, blanks)
}

/// Four slots and three seats; made once more where there was no memory.
fn left_by_the_day<R: Abort + Wait>(rt: &R, alloc: Global) -> Left {
    let config = Config {
        height: 6,
        slots: 4,
        seats: 3,
        last_seq: 9,
    };
    let first = lives(rt, alloc, config);
    let again = match first {
        Err(SysError::Memory) => lives(rt, alloc, config),
        answer => answer,
    };
    match again {
        Ok(left) => left,
        Err(refusal) => panic!(rt; "{refusal}"),
    }
}

#[test]
fn each_call_of_a_port_is_that_of_its_seat(rt: HostRuntime) {
    let Left { slots, free_pages } = left_by_the_day(&rt, rt.alloc());
    holds!(rt; free_pages == 64, "all pages are home");
    holds!(rt; slots.len() == 4, "four slots");
    let (before, one, two) = (slot_one_before(), slot_one(), slot_two());
    let zero = [
        made(1, 1),
        Event::Changed {
            seat: 1,
            moment: 6,
            qbytes: 0,
        },
    ];
    for (number, slot) in slots.iter().enumerate() {
        let past: &[Event] = match number {
            1 => &before,
            2 => &two,
            _ => &[],
        };
        let last: &[Event] = match number {
            0 => &zero,
            1 => &one,
            _ => &[],
        };
        assert!(rt;
            slot.past.as_slice() == past,
            "slot {number}, of removed queues"
        );
        assert!(rt; slot.last.as_slice() == last, "slot {number}, of its queue");
        assert!(rt; slot.left == 0, "slot {number}, what waits");
    }
}
