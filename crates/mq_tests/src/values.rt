//! Values that are sent and received, as they were sent.
ghost use Rattle.std.specs.Prelude.{◌≤◌};
ghost use Rattle.mq.specs.Values.{carries};

use crate::runs::{ROOMY, SMALL};
use mq::{
    Bytes, Caller, Carries, Clock, Config, Errno, Id, Names, NoWait, NotReceived, Pledge,
    Selection, SystemProgram, ValuePledge, Vow, Wait, Wire, Worker, with_system, with_two,
};
use std::alloc::Global;
use std::time::{Duration, Instant};

/// A number that is at most a thousand, and a flag.
type Pair = (u64, bool);

struct Bounded;

impl Vow for Bounded {
    type Value = Pair;

    ghost vowed = { λ _ _ _ pair. pair.0 ≤ 1000 };
}

/// More bytes than a text can have.
struct TooLong;

impl Vow for TooLong {
    type Value = [u8; 65_537];
}

/// Lists of bytes, which take memory.
struct Lists;

impl Pledge for Lists {
    ghost kept = { carries ⟦<Bytes as Wire>⟧.bytes_of (λ _ _ _ _. Unit {0}) };
}

impl ValuePledge for Lists {
    type Value = Bytes;

    ghost read_back = { λ _ _ _ _ held. held };

    ghost written = { λ _ _ _ _ held. held };
}

/// What was wrong first.
type Wrong = Option<&'static str>;

/// How long a call may wait where nothing comes.
fn span() -> Duration {
    Duration::from_millis(1)
}

/// Each call of values, at one seat.
#[derive(Drop)]
struct EachCall;

impl SystemProgram<Carries<Bounded>> for EachCall {
    type Answer = Result<Wrong, Errno>;

    fn run<N: Names, R: Wait + Clock>(
        self,
        _config: Config,
        callers: &mut [Caller<'_, Carries<Bounded>, N, R>],
    ) -> Result<Wrong, Errno> {
        let Some(caller) = callers.first_mut() else {
            return Ok(Some("no caller"));
        };
        let Ok(time) = Instant::now(caller.runtime()) else {
            return Ok(Some("no time"));
        };
        let id = caller.queue(1)?;
        for wrong in [sent(caller, id, time)?, refused(caller, id)] {
            if wrong.is_some() {
                return Ok(wrong);
            }
        }
        for wrong in [received(caller, id, time)?, empty(caller, id, time)] {
            if wrong.is_some() {
                return Ok(wrong);
            }
        }
        is_full(caller, id)
    }
}

/// Five values, one by each call that sends.
fn sent<N: Names, R: Wait + Clock>(
    caller: &mut Caller<'_, Carries<Bounded>, N, R>,
    id: Id,
    time: Instant,
) -> Result<Wrong, Errno> {
    let sent = [
        caller.send_value(id, 1, 10, &(1, true)),
        caller.try_send_value(id, 2, 20, &(2, false)),
        caller.send_value_timeout(id, 3, 30, &(3, true), span()),
        caller.send_value_within(id, 4, 40, &(4, false), &mut NoWait),
        caller.send_value_deadline(id, 5, 50, &(5, true), time),
    ];
    for (place, answer) in sent.iter().enumerate() {
        if *answer != Ok(place as u64 + 1) {
            return answer.map(|_| Some("an entry"));
        }
    }
    Ok(None)
}

/// A type below 1, and a slot that is not there.
fn refused<N: Names, R: Wait + Clock>(
    caller: &mut Caller<'_, Carries<Bounded>, N, R>,
    id: Id,
) -> Wrong {
    let refused = [
        caller.send_value(id, 0, 0, &(0, true)),
        caller.try_send_value(Id::of(63, 0), 1, 0, &(0, true)),
    ];
    if refused == [Err(Errno::EINVAL); 2] {
        None
    } else {
        Some("EINVAL")
    }
}

/// The five values, one by each call that receives.
fn received<N: Names, R: Wait + Clock>(
    caller: &mut Caller<'_, Carries<Bounded>, N, R>,
    id: Id,
    time: Instant,
) -> Result<Wrong, Errno> {
    let received = [
        caller.try_receive_value(id, Selection::Exact(4))?,
        caller.receive_value(id, Selection::UpTo(9))?,
        caller.receive_value_timeout(id, Selection::Any, span())?,
        caller.receive_value_within(id, Selection::Any, &mut NoWait)?,
        caller.receive_value_deadline(id, Selection::Any, time)?,
    ];
    let wanted = [
        (4, (4, false)),
        (1, (1, true)),
        (2, (2, false)),
        (3, (3, true)),
        (5, (5, true)),
    ];
    let is_wanted = received.iter().zip(wanted).all(|(delivered, (number, value))| {
        delivered.text == value
            && delivered.mtype == number
            && delivered.tag == number.unsigned_abs().wrapping_mul(10)
            && delivered.length == 9
    });
    Ok(if is_wanted { None } else { Some("a value") })
}

/// Receives that find no value.
fn empty<N: Names, R: Wait + Clock>(
    caller: &mut Caller<'_, Carries<Bounded>, N, R>,
    id: Id,
    time: Instant,
) -> Wrong {
    let none = [
        caller.try_receive_value(id, Selection::Any).err(),
        caller
            .receive_value_timeout(id, Selection::Any, span())
            .err(),
        caller
            .receive_value_deadline(id, Selection::Any, time)
            .err(),
    ];
    let is_none = none.into_iter().all(|refusal| {
        matches!(refusal, Some(NotReceived::Refused(Errno::ENOMSG)))
            && refusal.map(|it| it.errno()) == Some(Errno::ENOMSG)
    });
    if is_none { None } else { Some("ENOMSG") }
}

/// Sends that may not wait for long, where one value fills the queue.
fn is_full<N: Names, R: Wait + Clock>(
    caller: &mut Caller<'_, Carries<Bounded>, N, R>,
    id: Id,
) -> Result<Wrong, Errno> {
    caller.set(id, 9)?;
    caller.send_value(id, 1, 0, &(5, true))?;
    let full = [
        caller.try_send_value(id, 2, 0, &(6, true)),
        caller.send_value_timeout(id, 3, 0, &(7, true), span()),
        caller.send_value_within(id, 4, 0, &(8, true), &mut NoWait),
    ];
    for answer in full {
        if answer != Err(Errno::EAGAIN) {
            return answer.map(|_| Some("EAGAIN"));
        }
    }
    let left = caller.receive_value(id, Selection::Any)?;
    Ok(if left.text == (5, true) {
        None
    } else {
        Some("what was left")
    })
}

#[test]
fn each_call_of_values_answers_with_the_value(rt: HostRuntime) {
    match with_system(&rt, rt.alloc(), ROOMY, EachCall) {
        Ok(ended) => match ended.answer {
            Ok(None) => holds!(rt; ended.free_pages == 256),
            Ok(Some(wrong)) => panic!(rt; "{wrong}"),
            Err(errno) => panic!(rt; "{errno}"),
        },
        Err(error) => panic!(rt; "{error}"),
    }
}

/// Sends a value that is too long, which stays.
#[derive(Drop)]
struct Sends(u8);

impl SystemProgram<Carries<TooLong>> for Sends {
    type Answer = Result<u64, Errno>;

    fn run<N: Names, R: Wait + Clock>(
        self,
        _config: Config,
        callers: &mut [Caller<'_, Carries<TooLong>, N, R>],
    ) -> Result<u64, Errno> {
        let Some(caller) = callers.first_mut() else {
            return Ok(0);
        };
        let id = caller.queue(1)?;
        caller.send_value(id, 1, 0, &[self.0; 65_537])
    }
}

#[test]
fn a_value_that_is_too_long_is_einval(rt: HostRuntime) {
    match with_system(&rt, rt.alloc(), ROOMY, Sends(7)) {
        Ok(ended) => match ended.answer {
            Err(Errno::ENOMEM) => panic!(rt; "ENOMEM"),
            answer => holds!(rt; answer == Err(Errno::EINVAL) && ended.free_pages == 256),
        },
        Err(error) => panic!(rt; "{error}"),
    }
}

/// A list of bytes that is sent, and received; out of memory for it, its bytes are returned.
#[derive(Drop)]
struct PassesList;

/// A list of bytes behind its length.
fn is_list(bytes: &[u8], list: &[u8]) -> bool {
    bytes.len() == list.len() + 8 && bytes.ends_with(list)
}

impl SystemProgram<Lists> for PassesList {
    type Answer = Result<bool, Errno>;

    fn run<N: Names, R: Wait + Clock>(
        self,
        _config: Config,
        callers: &mut [Caller<'_, Lists, N, R>],
    ) -> Result<bool, Errno> {
        let Some(caller) = callers.first_mut() else {
            return Ok(false);
        };
        let id = caller.queue(1)?;
        let Ok(list) = Bytes::from_slice(caller.alloc(), b"a list of bytes") else {
            return Err(Errno::ENOMEM);
        };
        caller.send_value(id, 1, 0, &list)?;
        match caller.receive_value(id, Selection::Any) {
            Ok(delivered) => Ok(delivered.text.as_slice() == list.as_slice()),
            Err(NotReceived::NoMemory(delivered)) => Ok(is_list(&delivered.text, list.as_slice())),
            Err(refusal) => Err(refusal.errno()),
        }
    }
}

#[test]
fn a_value_without_memory_for_it_hands_its_bytes_out(rt: HostRuntime) {
    match with_system(&rt, rt.alloc(), SMALL, PassesList) {
        Ok(ended) => match ended.answer {
            Ok(same) => holds!(rt; same && ended.free_pages == 32),
            Err(errno) => panic!(rt; "{errno}"),
        },
        Err(error) => panic!(rt; "{error}"),
    }
}

/// How many values a thread sends.
const VALUES: u64 = 1000;

/// Sends so many values, or adds up those that it receives.
#[derive(Drop)]
enum Half {
    Sends,
    Adds,
}

impl Half {
    fn passes<N: Names, R: Wait + Clock>(
        &self,
        caller: &mut Caller<'_, Carries<Bounded>, N, R>,
    ) -> Result<u64, Errno> {
        let id = caller.queue(1)?;
        let mut sum = 0u64;
        for number in 0..VALUES {
            match self {
                Half::Sends => {
                    caller.send_value(id, 1, number, &(number, number % 2 == 0))?;
                }
                Half::Adds => {
                    let (number, even) = caller.receive_value(id, Selection::Any)?.text;
                    sum = sum.wrapping_add(number + u64::from(even));
                }
            }
        }
        Ok(sum)
    }
}

impl Worker<Carries<Bounded>> for Half {
    type Answer = Result<u64, Errno>;

    fn work<N: Names, R: Wait + Clock>(
        self,
        caller: &mut Caller<'_, Carries<Bounded>, N, R>,
    ) -> Result<u64, Errno> {
        let done = self.passes(caller);
        if done.is_err() {
            // Then the queue is removed, and the other does not wait in it.
            if let Ok(id) = caller.queue(1) {
                let _ = caller.remove(id);
            }
        }
        done
    }
}

/// One queue, and none after it: a late worker makes none anew.
const ONE_QUEUE: Config = Config {
    slots: 1,
    last_seq: 0,
    ..SMALL
};

#[test]
fn a_thread_adds_the_numbers_that_another_sends(rt: HostRuntime) {
    match with_two(&rt, rt.alloc(), ONE_QUEUE, Half::Sends, Half::Adds) {
        Ok(ended) => match ended.answer {
            (Ok(_), Ok(sum)) => holds!(rt; sum == VALUES * (VALUES - 1) / 2 + VALUES / 2),
            _ => panic!(rt; "ENOMEM"),
        },
        Err(error) => panic!(rt; "{error}"),
    }
}
