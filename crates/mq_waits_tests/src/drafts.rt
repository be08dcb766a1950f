//! Drafts that wait until pages are freed, and a send that does not.

use crate::calls::{Nothing, ended_of, queue, remove, send};
use crate::is_same;
use crate::watch::{Watch, in_time};
use mq::{
    Caller, Config, DraftError, Ended, Errno, Forever, Id, Message, Names, Seat, Selection,
    SysError, System, SystemProgram, TextOf, Worker, WorkersError, with_system, with_two,
    with_workers,
};
use std::alloc::Global;
use std::process::Abort;
use std::sync::Wait;
use std::sync::atomic::{AtomicU64, Ordering};
use std::thread::{Threads, join};
use std::time::{Clock, Duration};

/// An arena of one page, and one of two.
const ONE: Config = Config {
    height: 0,
    slots: 1,
    seats: 5,
    last_seq: 0,
};

const TWO: Config = Config { height: 1, ..ONE };

/// How often each of two threads takes the one page.
const TURNS: u32 = 20_000;

/// How often the worker that frees a page polls before it does: the waiter is parked by then.
const LOOKS: u32 = 20_000;

/// A text that a seat drafts and spends, in its own pages or in those that are free.
#[derive(Clone, Copy, Drop)]
enum Way {
    Kept,
    Free,
}

/// Drafts a text of a page and spends it, over and over.
#[derive(Drop)]
struct TakesTurns<'a> {
    way: Way,
    /// How many turns both have taken.
    done: &'a AtomicU64,
}

impl<'a> Worker<Nothing> for TakesTurns<'a> {
    /// How often.
    type Answer = Result<u32, Errno>;

    fn work<N: Names, R: Wait + Clock>(
        self,
        caller: &mut Caller<'_, Nothing, N, R>,
    ) -> Result<u32, Errno> {
        let (rt, system) = (caller.rt, caller.system);
        let seat = &mut caller.seat;
        let mut taken = 0u32;
        for _ in 0..TURNS {
            let drafted = match self.way {
                Way::Kept => system.draft_by_within(rt, seat, b"one", &mut Forever),
                Way::Free => system.draft_of_within(rt, b"one", &mut Forever),
            };
            match (drafted, self.way) {
                (Ok(text), Way::Kept) => system.spend_by(rt, seat, text),
                (Ok(text), Way::Free) => {
                    system.spend(rt, text);
                }
                (Err(error), _) => return Err(error.errno()),
            }
            taken = taken.wrapping_add(1);
            self.done.fetch_add(1, Ordering::SeqCst);
        }
        Ok(taken)
    }
}

/// What a worker does with the two pages of the arena.
#[derive(Clone, Copy, Drop)]
enum Part<'a> {
    /// Drafts both as two texts, says so, and spends one after the other.
    Spends(&'a Watch),
    /// Sends both as two texts, says so, and removes their queue.
    Removes(&'a Watch),
    /// Once that is said, waits for a text of so many bytes.
    WaitsFor(&'a Watch, u64),
}

impl<'a> Worker<Nothing> for Part<'a> {
    type Answer = Result<(), Errno>;

    fn work<N: Names, R: Wait + Clock>(
        self,
        caller: &mut Caller<'_, Nothing, N, R>,
    ) -> Result<(), Errno> {
        let (rt, system) = (caller.rt, caller.system);
        let seat = &mut caller.seat;
        match self {
            Part::Spends(lent) => {
                let first = system.draft_by(rt, seat, b"first");
                let second = system.draft_by(rt, seat, b"second");
                lent.ends();
                looks(system, seat);
                let one = spent(rt, system, seat, first);
                looks(system, seat);
                let other = spent(rt, system, seat, second);
                one?;
                other
            }
            Part::Removes(lent) => {
                let filled = filled(rt, system, seat);
                lent.ends();
                looks(system, seat);
                remove(rt, system, seat, filled?)
            }
            Part::WaitsFor(lent, len) => {
                lent.is_over(rt);
                let drafted = system.draft_within(rt, len, &mut Forever);
                spent(rt, system, seat, drafted)
            }
        }
    }
}

/// A queue whose texts have both pages.
fn filled<N: Names, R: Wait>(
    rt: &R,
    system: &System<Nothing, N>,
    seat: &mut Seat<N>,
) -> Result<Id, Errno> {
    let id = queue(rt, system, seat, 1)?;
    for _page in 0..2u8 {
        send(rt, system, seat, id, 1, 1024)?;
    }
    Ok(id)
}

fn looks<N: Names>(system: &System<Nothing, N>, seat: &mut Seat<N>) {
    for _ in 0..LOOKS {
        let _none = system.stat(seat, Id::of(0, 0));
    }
}

fn spent<N: Names, R: Wait>(
    rt: &R,
    system: &System<Nothing, N>,
    seat: &mut Seat<N>,
    drafted: Result<TextOf<N>, DraftError>,
) -> Result<(), Errno> {
    match drafted {
        Ok(text) => {
            system.spend_by(rt, seat, text);
            Ok(())
        }
        Err(error) => Err(error.errno()),
    }
}

/// Two threads take the one page in turn, which is slow where others need the processors: the one
/// sleeps, and wakes, for nearly each turn of the other.
fn in_turn<R: Abort + Threads + Wait + Clock + Sync>(rt: &R, alloc: Global, way: Way) {
    let watch = Watch::new();
    let done = AtomicU64::new(0);
    let ((), ended) = join(
        rt,
        || watch.keeps_on(rt, &done, "each has taken the page as often"),
        || {
            let one = TakesTurns { way, done: &done };
            let other = TakesTurns { way, done: &done };
            let ended = with_two(rt, alloc, ONE, one, other);
            watch.ends();
            ended
        },
    );
    let ended = ended_of(rt, ended, 1);
    let (one, other) = ended.answer;
    holds!(rt;
        one == Ok(TURNS) && other == Ok(TURNS),
        "a draft is refused"
    );
}

#[test]
fn two_threads_take_one_page_in_turn(rt: HostRuntime) {
    in_turn(&rt, rt.alloc(), Way::Free);
}

#[test]
fn two_threads_take_a_page_that_each_caches(rt: HostRuntime) {
    in_turn(&rt, rt.alloc(), Way::Kept);
}

/// The first worker has both pages, and each other waits for a text of so many bytes.
fn run_drafts<R: Threads + Wait + Clock + Sync>(
    rt: &R,
    alloc: Global,
    first: Part<'_>,
    lens: &[u64],
    lent: &Watch,
) -> Result<Ended<Vec<Result<(), Errno>>>, WorkersError> {
    let mut workers = Vec::new(alloc);
    let Ok(()) = workers.push(first) else {
        return Err(WorkersError::Memory);
    };
    for len in lens {
        let Ok(()) = workers.push(Part::WaitsFor(lent, *len)) else {
            return Err(WorkersError::Memory);
        };
    }
    let ended = with_workers(rt, alloc, TWO, workers);
    lent.ends();
    ended
}

/// Once the first worker has both pages, each other waits for a text of so many bytes.
fn all_draft<R: Abort + Threads + Wait + Clock + Sync>(
    rt: &R,
    alloc: Global,
    first: Part<'_>,
    lens: &[u64],
    lent: &Watch,
) {
    let ended = in_time(rt, "all drafts", || {
        run_drafts(rt, alloc, first, lens, lent)
    });
    for done in ended_of(rt, ended, 2).answer.iter() {
        holds!(rt; *done == Ok(()), "a draft is refused");
    }
}

#[test]
fn a_draft_waits_until_both_halves_are_free(rt: HostRuntime) {
    let lent = Watch::new();
    all_draft(&rt, rt.alloc(), Part::Spends(&lent), &[2048], &lent);
}

#[test]
fn drafts_of_one_page_and_of_two_are_all_made(rt: HostRuntime) {
    let lent = Watch::new();
    let lens = [2048, 1024, 2000, 1000];
    all_draft(&rt, rt.alloc(), Part::Spends(&lent), &lens, &lent);
}

#[test]
fn a_removal_wakes_drafts_that_wait_for_the_pages_of_its_texts(rt: HostRuntime) {
    let lent = Watch::new();
    all_draft(&rt, rt.alloc(), Part::Removes(&lent), &[2048], &lent);
}

/// Drafts a text in the one page, and sends bytes with IPC_NOWAIT and without, before it spends it.
#[derive(Drop)]
struct SendsWithoutPages;

impl SystemProgram<Nothing> for SendsWithoutPages {
    /// What the two sends answered.
    type Answer = Result<(Result<u64, Errno>, Result<u64, Errno>), Errno>;

    fn run<N: Names, R: Wait + Clock>(
        self,
        _config: Config,
        callers: &mut [Caller<'_, Nothing, N, R>],
    ) -> Result<(Result<u64, Errno>, Result<u64, Errno>), Errno> {
        let Some(caller) = callers.first_mut() else {
            return Err(Errno::EINVAL);
        };
        let (rt, system) = (caller.rt, caller.system);
        let id = caller.queue(1)?;
        let drafted = system.draft_by(rt, &caller.seat, b"one");
        let two = Message::new(1, b"two");
        let one = caller.try_send(id, two);
        let other = caller.send_timeout(id, two, Duration::from_millis(1));
        spent(rt, system, &mut caller.seat, drafted)?;
        Ok((one, other))
    }
}

#[test]
fn a_send_answers_enomem_at_once_where_no_page_is_free(rt: HostRuntime) {
    let alloc = rt.alloc();
    let ended = in_time(&rt, "a send that finds no page", || {
        with_system(&rt, alloc, ONE, SendsWithoutPages)
    });
    match ended {
        Ok(ended) => {
            is_same(&rt, u64::from(ended.free_pages), 1, "free pages");
            let none: Result<u64, Errno> = Err(Errno::ENOMEM);
            holds!(rt; ended.answer.is_ok(), "out of memory");
            holds!(rt; ended.answer == Ok((none, none)), "another answer");
        }
        Err(SysError::Memory) => panic!(rt; "out of memory"),
        Err(error) => panic!(rt; "{error}"),
    }
}

/// How many texts go through the two pages.
const TEXTS: u64 = 100;

/// Sends texts of a byte each, or receives them.
#[derive(Clone, Copy, Drop)]
enum Passer {
    Sends,
    Receives,
}

impl Worker<Nothing> for Passer {
    /// How many.
    type Answer = Result<u64, Errno>;

    fn work<N: Names, R: Wait + Clock>(
        self,
        caller: &mut Caller<'_, Nothing, N, R>,
    ) -> Result<u64, Errno> {
        let id = queue(caller.rt, caller.system, &mut caller.seat, 1)?;
        for passed in 0..TEXTS {
            let done = match self {
                Passer::Sends => caller.send(id, Message::new(1, b"x")).is_ok(),
                Passer::Receives => caller.receive(id, Selection::Any).is_ok(),
            };
            if !done {
                // Then the other waits no longer.
                let _ = caller.remove(id);
                return Ok(passed);
            }
        }
        Ok(TEXTS)
    }
}

#[test]
fn a_send_waits_until_pages_are_free(rt: HostRuntime) {
    let alloc = rt.alloc();
    let ended = in_time(&rt, "more texts than pages", || {
        with_two(&rt, alloc, TWO, Passer::Sends, Passer::Receives)
    });
    let ended = ended_of(&rt, ended, 2);
    let (sent, received) = ended.answer;
    holds!(rt; sent == Ok(TEXTS) && received == Ok(TEXTS), "out of memory");
}
