//! Waits that time out: what they answer, what they leave, and what ends them before.

use crate::calls::{Nothing, ended_of, queue, receive, remove, send, set};
use crate::watch::{Watch, in_time};
use mq::{
    Caller, ClosedSlot, Config, DraftError, Ended, Errno, Figures, Id, Message, Names, NoWait,
    Patience, ReceiveOptions, Seat, Selection, SendFlags, SendRefused, System, Until, Worker,
    WorkersError, with_two, with_workers,
};
use std::alloc::Global;
use std::io;
use std::process::Abort;
use std::sync::Wait;
use std::thread::Threads;
use std::time::{Clock, Duration, Instant};

const SIZE: Config = Config {
    height: 3,
    slots: 2,
    seats: 3,
    last_seq: 3,
};

/// How many pages the arena has.
const PAGES: u32 = 8;

/// The milliseconds of a wait that times out.
const TEN: u64 = 10;

/// The time of a wait that something else ends: longer than a test may take.
const HOUR: u64 = 3_600_000;

/// How often the worker that ends a wait polls the queue before: the waiter is parked by then.
const LOOKS: u32 = 20_000;

/// What was otherwise than it should be, or why a call was refused.
#[derive(Clone, Copy, Drop)]
enum Wrong {
    Refused(Errno),
    /// A wait that ended changed the queue's figures.
    Changed,
    /// A call answered otherwise.
    Answered,
    /// A text was returned with other bytes.
    Text,
    /// A wait of ten milliseconds took less, or eight seconds.
    Time,
    Clock,
}

type Done = Result<(), Wrong>;

impl From<Errno> for Wrong {
    fn from(errno: Errno) -> Wrong {
        Wrong::Refused(errno)
    }
}

/// A clock that can't be read.
struct Broken;

impl Clock for Broken {
    fn monotonic(&self) -> io::Result<Duration> {
        Err(io::Error::from(io::ErrorKind::Other))
    }

    fn since_1970(&self) -> io::Result<Duration> {
        Err(io::Error::from(io::ErrorKind::Other))
    }
}

fn now<C: Clock>(clock: &C) -> Result<Instant, Wrong> {
    match Instant::now(clock) {
        Ok(now) => Ok(now),
        Err(_) => Err(Wrong::Clock),
    }
}

/// The end of a wait of so many milliseconds.
fn within<C: Clock>(clock: &C, milliseconds: u64) -> Until<'_, C> {
    Until::within(clock, Duration::from_millis(milliseconds))
}

/// Whether a wait took ten milliseconds, and not eight seconds: a busy machine may be late, but
/// not as late as a wait of a thousand times as long.
fn took_ten<C: Clock>(clock: &C, began: Instant) -> Done {
    let Ok(took) = began.elapsed(clock) else {
        return Err(Wrong::Clock);
    };
    if took < Duration::from_millis(TEN) || took > Duration::from_secs(8) {
        return Err(Wrong::Time);
    }
    Ok(())
}

fn answers<T: Drop>(answer: Result<T, Errno>, errno: Errno) -> Done {
    match answer {
        Err(refused) if refused == errno => Ok(()),
        Err(refused) => Err(Wrong::Refused(refused)),
        Ok(_) => Err(Wrong::Answered),
    }
}

/// Receives a message of type 1, as long as this patience lasts.
fn receives<N: Names, R: Wait + Clock, T: Patience>(
    caller: &mut Caller<'_, Nothing, N, R>,
    id: Id,
    patience: &mut T,
) -> Result<u64, Errno> {
    let nine = ReceiveOptions::new().up_to(9);
    let received = match caller.receive_within(id, Selection::Exact(1), nine, patience) {
        Err(Errno::ENOMEM) => caller.receive_within(id, Selection::Exact(1), nine, patience)?,
        received => received?,
    };
    Ok(received.length)
}

/// Sends four bytes by a call of texts, which is to be refused with EAGAIN and to return them.
fn is_handed_back<N: Names, R: Wait, T: Patience>(
    rt: &R,
    system: &System<Nothing, N>,
    seat: &mut Seat<N>,
    id: Id,
    patience: &mut T,
) -> Done {
    let text = match system.draft_of(rt, b"more") {
        Ok(text) => text,
        Err(refused) => return Err(Wrong::Refused(refused.errno())),
    };
    let flags = SendFlags { nowait: false };
    match system.msgsnd_within(rt, seat, id, 1, 0, text, flags, patience, 2) {
        Ok(_) => Err(Wrong::Answered),
        Err(SendRefused { refused, text }) => {
            let same = text.count() > 0 && text.part(0) == b"more".as_slice();
            system.spend(rt, text);
            if !same {
                return Err(Wrong::Text);
            }
            answers::<()>(Err(refused.errno), Errno::EAGAIN)
        }
    }
}

/// Receives from a queue with no message: each call is to find none, and to leave the figures.
fn finds_nothing<N: Names, R: Wait + Clock, T: Patience>(
    caller: &mut Caller<'_, Nothing, N, R>,
    id: Id,
    patience: &mut T,
) -> Done {
    let empty = caller.stat(id)?;
    let received = receives(caller, id, patience);
    answers(received, Errno::ENOMSG)?;
    is_still(caller, id, empty)
}

/// Sends to a queue without room, by both calls.
fn finds_no_room<N: Names, R: Wait + Clock, T: Patience>(
    caller: &mut Caller<'_, Nothing, N, R>,
    id: Id,
    patience: &mut T,
) -> Done {
    let full = caller.stat(id)?;
    is_handed_back(caller.rt, caller.system, &mut caller.seat, id, patience)?;
    let sent = caller.send_within(id, Message::new(1, b"more"), patience);
    answers(sent, Errno::EAGAIN)?;
    is_still(caller, id, full)
}

fn is_still<N: Names, R: Wait + Clock>(
    caller: &mut Caller<'_, Nothing, N, R>,
    id: Id,
    before: Figures,
) -> Done {
    if caller.stat(id)? == before {
        Ok(())
    } else {
        Err(Wrong::Changed)
    }
}

/// Waits of ten milliseconds at a queue.
#[derive(Drop)]
struct WaitsTen<'a, C: Clock> {
    clock: &'a C,
}

impl<'a, C: Clock> Worker<Nothing> for WaitsTen<'a, C> {
    type Answer = Done;

    fn work<N: Names, R: Wait + Clock>(self, caller: &mut Caller<'_, Nothing, N, R>) -> Done {
        let id = caller.queue(1)?;
        caller.set(id, 4)?;
        let began = now(self.clock)?;
        let ten = &mut within(self.clock, TEN);
        finds_nothing(caller, id, ten)?;
        took_ten(self.clock, began)?;
        caller.send(id, Message::new(1, b"four"))?;
        let began = now(self.clock)?;
        let ten = &mut within(self.clock, TEN);
        finds_no_room(caller, id, ten)?;
        took_ten(self.clock, began)
    }
}

/// Waits that have no time at all, or a clock that can't be read.
#[derive(Drop)]
struct HasNoTime<'a, C: Clock> {
    clock: &'a C,
}

impl<'a, C: Clock> Worker<Nothing> for HasNoTime<'a, C> {
    type Answer = Done;

    fn work<N: Names, R: Wait + Clock>(self, caller: &mut Caller<'_, Nothing, N, R>) -> Done {
        let id = caller.queue(1)?;
        caller.set(id, 4)?;
        let mut over = Until::at(self.clock, now(self.clock)?);
        finds_nothing(caller, id, &mut over)?;
        finds_nothing(caller, id, &mut NoWait)?;
        let broken = &mut within(&Broken, HOUR);
        finds_nothing(caller, id, broken)?;
        caller.send(id, Message::new(1, b"four"))?;
        finds_no_room(caller, id, &mut NoWait)?;
        // A message that is there is received.
        match receives(caller, id, &mut over)? {
            4 => Ok(()),
            _ => Err(Wrong::Answered),
        }
    }
}

/// Makes the calls that do not wait, or for ten milliseconds.
#[derive(Drop)]
struct HasLittleTime;

/// When ten milliseconds are over.
fn in_ten<C: Clock>(clock: &C) -> Result<Instant, Wrong> {
    match now(clock)?.checked_add(Duration::from_millis(TEN)) {
        Some(end) => Ok(end),
        None => Err(Wrong::Clock),
    }
}

impl HasLittleTime {
    /// At a queue with no message.
    fn receives<N: Names, R: Wait + Clock>(
        &self,
        caller: &mut Caller<'_, Nothing, N, R>,
        id: Id,
    ) -> Done {
        let ten = Duration::from_millis(TEN);
        answers(caller.try_receive(id, Selection::Any), Errno::ENOMSG)?;
        let began = now(caller.rt)?;
        answers(
            caller.receive_timeout(id, Selection::Any, ten),
            Errno::ENOMSG,
        )?;
        took_ten(caller.rt, began)?;
        let began = now(caller.rt)?;
        let end = in_ten(caller.rt)?;
        answers(
            caller.receive_deadline(id, Selection::Exact(1), end),
            Errno::ENOMSG,
        )?;
        took_ten(caller.rt, began)
    }

    /// At a queue without room.
    fn sends<N: Names, R: Wait + Clock>(
        &self,
        caller: &mut Caller<'_, Nothing, N, R>,
        id: Id,
    ) -> Done {
        let ten = Duration::from_millis(TEN);
        let more = Message::new(1, b"more");
        answers(caller.try_send(id, more), Errno::EAGAIN)?;
        let began = now(caller.rt)?;
        answers(caller.send_timeout(id, more, ten), Errno::EAGAIN)?;
        took_ten(caller.rt, began)?;
        let began = now(caller.rt)?;
        let end = in_ten(caller.rt)?;
        answers(caller.send_deadline(id, more, end), Errno::EAGAIN)?;
        took_ten(caller.rt, began)
    }

    /// Each of these calls passes a message where it need not wait.
    fn passes<N: Names, R: Wait + Clock>(
        &self,
        caller: &mut Caller<'_, Nothing, N, R>,
        id: Id,
    ) -> Done {
        let ten = Duration::from_millis(TEN);
        let end = in_ten(caller.rt)?;
        let one = caller.receive_timeout(id, Selection::Any, ten)?;
        caller.send_timeout(id, Message::new(2, b"next"), ten)?;
        let other = caller.receive_deadline(id, Selection::UpTo(2), end)?;
        caller.send_deadline(id, Message::new(3, b"last"), end)?;
        let third = caller.try_receive(id, Selection::Except(2))?;
        if one.text.as_slice() == b"four".as_slice()
            && other.text.as_slice() == b"next".as_slice()
            && third.text.as_slice() == b"last".as_slice()
        {
            Ok(())
        } else {
            Err(Wrong::Text)
        }
    }
}

impl Worker<Nothing> for HasLittleTime {
    type Answer = Done;

    fn work<N: Names, R: Wait + Clock>(self, caller: &mut Caller<'_, Nothing, N, R>) -> Done {
        let id = caller.queue(1)?;
        caller.set(id, 4)?;
        self.receives(caller, id)?;
        caller.send(id, Message::new(1, b"four"))?;
        self.sends(caller, id)?;
        self.passes(caller, id)
    }
}

/// Waits for pages that are not freed, and for more than the arena has.
#[derive(Drop)]
struct AtTheArena<'a, C: Clock> {
    clock: &'a C,
}

impl<'a, C: Clock> AtTheArena<'a, C> {
    fn finds_none<N: Names, R: Wait>(
        &self,
        rt: &R,
        system: &System<Nothing, N>,
        seat: &mut Seat<N>,
    ) -> Done {
        let began = now(self.clock)?;
        let mut ten = within(self.clock, TEN);
        match system.draft_by_within(rt, seat, b"x", &mut ten) {
            Err(DraftError::NoRun) => took_ten(self.clock, began)?,
            Err(error) => return Err(Wrong::Refused(error.errno())),
            Ok(text) => {
                system.spend(rt, text);
                return Err(Wrong::Answered);
            }
        }
        let mut hour = within(self.clock, HOUR);
        match system.draft_within(rt, 9000, &mut hour) {
            Err(DraftError::NoRun) => Ok(()),
            Err(error) => Err(Wrong::Refused(error.errno())),
            Ok(text) => {
                system.spend(rt, text);
                Err(Wrong::Answered)
            }
        }
    }
}

impl<'a, C: Clock> Worker<Nothing> for AtTheArena<'a, C> {
    type Answer = Done;

    fn work<N: Names, R: Wait + Clock>(self, caller: &mut Caller<'_, Nothing, N, R>) -> Done {
        let (rt, system) = (caller.rt, caller.system);
        let seat = &mut caller.seat;
        let all = match system.draft(rt, 8192) {
            Ok(all) => all,
            Err(error) => return Err(Wrong::Refused(error.errno())),
        };
        let done = self.finds_none(rt, system, seat);
        system.spend_by(rt, seat, all);
        done?;
        let mut over = NoWait;
        match system.draft_of_within(rt, b"x", &mut over) {
            Ok(text) => {
                system.spend(rt, text);
                Ok(())
            }
            Err(error) => Err(Wrong::Refused(error.errno())),
        }
    }
}

/// Waits for an hour, at a queue of which another worker makes something.
#[derive(Drop)]
struct WaitsAnHour<'a, C: Clock> {
    clock: &'a C,
    comes: &'a Watch,
}

impl<'a, C: Clock> Worker<Nothing> for WaitsAnHour<'a, C> {
    type Answer = Result<u64, Errno>;

    fn work<N: Names, R: Wait + Clock>(
        self,
        caller: &mut Caller<'_, Nothing, N, R>,
    ) -> Result<u64, Errno> {
        let id = queue(caller.rt, caller.system, &mut caller.seat, 1);
        self.comes.ends();
        let mut hour = within(self.clock, HOUR);
        receives(caller, id?, &mut hour)
    }
}

/// Sends a message to the waiter, or removes the queue.
#[derive(Drop)]
struct EndsIt<'a> {
    comes: &'a Watch,
    removes: bool,
}

impl<'a> Worker<Nothing> for EndsIt<'a> {
    type Answer = Result<(), Errno>;

    fn work<N: Names, R: Wait + Clock>(
        self,
        caller: &mut Caller<'_, Nothing, N, R>,
    ) -> Result<(), Errno> {
        let (rt, system) = (caller.rt, caller.system);
        let seat = &mut caller.seat;
        self.comes.is_over(rt);
        let id = queue(rt, system, seat, 1)?;
        for _ in 0..LOOKS {
            system.stat(seat, id)?;
        }
        if self.removes {
            remove(rt, system, seat, id)
        } else {
            send(rt, system, seat, id, 1, 5)
        }
    }
}

/// Waits a hundred times for a millisecond, for a message that is never sent.
#[derive(Drop)]
struct WaitsInVain<'a, C: Clock> {
    clock: &'a C,
    over: &'a Watch,
}

impl<'a, C: Clock> WaitsInVain<'a, C> {
    fn waits<N: Names, R: Wait + Clock>(&self, caller: &mut Caller<'_, Nothing, N, R>) -> Done {
        let id = caller.queue(1)?;
        for _ in 0..100u8 {
            let mut one = within(self.clock, 1);
            answers(receives(caller, id, &mut one), Errno::ENOMSG)?;
        }
        Ok(())
    }
}

impl<'a, C: Clock> Worker<Nothing> for WaitsInVain<'a, C> {
    type Answer = Done;

    fn work<N: Names, R: Wait + Clock>(self, caller: &mut Caller<'_, Nothing, N, R>) -> Done {
        let done = self.waits(caller);
        self.over.ends();
        done
    }
}

/// Sends and receives messages of another type meanwhile.
#[derive(Drop)]
struct Stirs<'a> {
    over: &'a Watch,
}

impl<'a> Worker<Nothing> for Stirs<'a> {
    /// How many.
    type Answer = Result<u64, Errno>;

    fn work<N: Names, R: Wait + Clock>(
        self,
        caller: &mut Caller<'_, Nothing, N, R>,
    ) -> Result<u64, Errno> {
        let (rt, system) = (caller.rt, caller.system);
        let seat = &mut caller.seat;
        let id = queue(rt, system, seat, 1)?;
        for count in 0..u64::MAX {
            if self.over.is_said() {
                return Ok(count);
            }
            send(rt, system, seat, id, 2, 7)?;
            receive(rt, system, seat, id, 9, 2)?;
        }
        Err(Errno::E2BIG)
    }
}

fn is_done<R: Abort>(rt: &R, done: Done) {
    let what = match done {
        Ok(()) => return,
        Err(Wrong::Refused(Errno::ENOMEM)) => "out of memory",
        Err(Wrong::Refused(_)) => "another refusal",
        Err(Wrong::Changed) => "other figures",
        Err(Wrong::Answered) => "another answer",
        Err(Wrong::Text) => "other bytes",
        Err(Wrong::Time) => "too early or too late",
        Err(Wrong::Clock) => "no clock",
    };
    panic!(rt; "{what}");
}

/// One worker, run by itself.
fn run_alone<R: Threads + Wait + Clock + Sync, W: Worker<Nothing, Answer = Done> + Send>(
    rt: &R,
    alloc: Global,
    worker: W,
) -> Result<Ended<Vec<Done>>, WorkersError> {
    let mut workers = Vec::new(alloc);
    match workers.push(worker) {
        Ok(()) => with_workers(rt, alloc, SIZE, workers),
        Err(_) => Err(WorkersError::Memory),
    }
}

/// What one worker finds by itself, in time.
fn alone<R: Abort + Threads + Wait + Clock + Sync, W: Worker<Nothing, Answer = Done> + Send>(
    rt: &R,
    alloc: Global,
    what: &str,
    worker: W,
) {
    let ended = in_time(rt, what, || run_alone(rt, alloc, worker));
    for done in ended_of(rt, ended, PAGES).answer.iter() {
        is_done(rt, *done);
    }
}

#[test]
fn a_wait_that_ends_leaves_the_queue_as_it_was(rt: HostRuntime) {
    alone(&rt, rt.alloc(), "a wait ends", WaitsTen { clock: &rt });
}

#[test]
fn a_call_without_time_checks_once(rt: HostRuntime) {
    alone(&rt, rt.alloc(), "no time", HasNoTime { clock: &rt });
}

#[test]
fn calls_that_may_not_wait_for_long_end(rt: HostRuntime) {
    alone(&rt, rt.alloc(), "little time", HasLittleTime);
}

#[test]
fn a_draft_that_waits_ends_and_is_not_made_greater_than_the_arena(rt: HostRuntime) {
    alone(&rt, rt.alloc(), "a draft ends", AtTheArena { clock: &rt });
}

/// What a wait of an hour answers that another worker ends.
fn ended_by<R: Abort + Threads + Wait + Clock + Sync>(
    rt: &R,
    alloc: Global,
    what: &str,
    removes: bool,
) -> Result<u64, Errno> {
    let comes = Watch::new();
    let waits = WaitsAnHour {
        clock: rt,
        comes: &comes,
    };
    let ends = EndsIt {
        comes: &comes,
        removes,
    };
    let ended = in_time(rt, what, || {
        let ended = with_two(rt, alloc, SIZE, waits, ends);
        comes.ends();
        ended
    });
    let ended = ended_of(rt, ended, PAGES);
    let (answer, done) = ended.answer;
    holds!(rt; done.is_ok(), "out of memory");
    answer
}

#[test]
fn a_removal_ends_a_wait_before_its_time(rt: HostRuntime) {
    let answer = ended_by(&rt, rt.alloc(), "a removal wakes", true);
    holds!(rt; answer == Err(Errno::EIDRM), "another answer");
}

#[test]
fn a_message_ends_a_wait_before_its_time(rt: HostRuntime) {
    let answer = ended_by(&rt, rt.alloc(), "a message wakes", false);
    holds!(rt; answer == Ok(5), "another answer");
}

/// Checks for the making, and a sending and a receipt of each message: a wait that ended is no
/// event.
fn is_logged(rt: &impl Abort, slots: &[ClosedSlot], stirred: Result<u64, Errno>) {
    let Ok(count) = stirred else {
        panic!(rt; "out of memory");
    };
    let Some(slot) = slots.first() else {
        panic!(rt; "no slot");
    };
    let kept = slot.past.len() as u64 + slot.last.len() as u64;
    holds!(rt; kept == count.wrapping_mul(2).wrapping_add(1), "other events");
    holds!(rt; slot.left == 0, "other events");
}

#[test]
fn a_hundred_waits_end_beside_other_messages(rt: HostRuntime) {
    let over = Watch::new();
    let waits = WaitsInVain {
        clock: &rt,
        over: &over,
    };
    let stirs = Stirs { over: &over };
    let ended = in_time(&rt, "a hundred waits end", || {
        let ended = with_two(&rt, rt.alloc(), SIZE, waits, stirs);
        over.ends();
        ended
    });
    let ended = ended_of(&rt, ended, PAGES);
    let (done, stirred) = ended.answer;
    is_done(&rt, done);
    is_logged(&rt, ended.slots.as_slice(), stirred);
}
