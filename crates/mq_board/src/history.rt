//! The history of a board: its published events, an append-only log of which one word is in memory,
//! the number of the events. Proofs alone know which events they are. One compare-exchange appends
//! one event or a batch of them.

ghost use Rattle.std.specs.Prelude.{◌≡◌, ◌-◌, ◌^◌, ◌<◌, ◌++◌, ◌∷◌, [], length, None, IfOk, IfSome, IsFalse, IsTrue};
ghost use mathlib.Core.List.{IsPrefix};
ghost use Rattle.mq_queue.specs.Row.{row};
ghost use Rattle.mq_board.specs.Histories.{events_of, word_of, history};
ghost use Rattle.mq_board.specs.Snapshots.{snapshot_of};

use crate::history_law::{Add, Batch, Counted, HistoryLaw, Learn, Nothing, Reached, RestOf};
use crate::naming::Naming;
use crate::snapshot::Snapshot;
use crate::told::ToldList;
use crate::writer::Rest;
use crossbeam_utils::CachePadded;
use logbook::{Offer, Plain, Seen, Start, Word};
use mq_queue::{BoardRow, Event};
use std::alloc::{AllocError, Global};
use std::marker::{Model, PhantomData};
use std::sync::{Arc, Wait};

/// An empty history, which has no board number yet.
#[derive(Drop)]
pub struct OpenedHistory {
    word: Counted,
    pub seen: Reached,
    ghost empty: { seen.log ≡ [] },
    ghost word_is: { word ≡ word_of seen.book },
}

impl OpenedHistory {
    pub(crate) fn new() -> OpenedHistory {
        let (seen, mut first, _second) = Seen::open(Start::alone(), 0, 0);
        OpenedHistory {
            word: Word::tracked(0, &mut first),
            seen,
        }
    }

    /// The writer of this history, as that of the board with this number.
    pub(crate) fn writer<J: Naming>(
        self,
        alloc: Global,
        number: u8,
    ) -> Result<HistoryWriter<J>, AllocError>
        requires { self.seen.book ≡ J.board number }
        ensures { IfOk result (λ b. b ≡ history number []) }
    {
        let OpenedHistory { word, seen } = self;
        Ok(HistoryWriter {
            counter: EventCount::new(alloc, number, word)?,
            count: 0,
            seen,
        })
    }
}

/// A handle to the word that counts a board's events, shared by the board's writer and readers;
/// seen as the board's number. A reader that knows as many events as the word says need not enter
/// the copies.
#[derive(Drop)]
pub(crate) struct EventCount<J: Naming> {
    number: u8,
    word: Arc<CachePadded<Counted>, Global>,
    of: PhantomData<J>,
}

impl<J: Naming> Model for EventCount<J> {
    ghost use Rattle.std.specs.Prelude.{◌≡◌, ℕ};
    ghost use Rattle.std.specs.Arc.{arc_value};
    ghost use Rattle.crossbeam_utils.specs.Padded.{padded_value};
    ghost use Rattle.mq_board.specs.Histories.{word_of};

    ghost Value = { ℕ };

    ghost view = { λ h. h.number };

    ghost invariant = { λ h. padded_value (arc_value h.word) ≡ word_of (J.board h.number) };
}

impl<J: Naming> EventCount<J> {
    fn new(alloc: Global, number: u8, word: Counted) -> Result<EventCount<J>, AllocError>
        requires { word ≡ word_of (J.board number) }
        ensures { IfOk result (λ h. h ≡ number) }
    {
        Ok(EventCount {
            number,
            word: Arc::new(alloc, CachePadded::new(word))?,
            of: PhantomData,
        })
    }

    pub(crate) fn board(&self) -> u8
        ensures { result ≡ self.now }
    {
        self.number
    }

    /// Another handle to the same word. `Err` means that the reference count is at its maximum.
    pub(crate) fn try_clone(&self) -> Result<EventCount<J>, AllocError>
        ensures { IfOk result (λ h. h ≡ self.now) }
    {
        Ok(EventCount {
            number: self.number,
            word: Arc::try_clone(&self.word)?,
            of: PhantomData,
        })
    }

    /// The number of events in the history, all of which `seen` then has.
    fn load(&self, seen: &mut Reached) -> u64
        requires { seen.old.book ≡ J.board self.now }
        ensures book { seen.new.book ≡ seen.old.book }
        ensures more { IsPrefix (events_of seen.old.log) (events_of seen.new.log) }
        ensures all { result ≡ length (events_of seen.new.log) }
    {
        let mut offer: Offer<Batch, u64, HistoryLaw, Nothing> = seen.plain::<Nothing, u64, Learn>(
            &0,
        );
        let word: &Counted = &self.word;
        word.load::<Learn, Nothing>(seen, &mut offer)
    }

    /// Adds events to those that `seen` has, `count` of them, if these are all: in every run they
    /// are, since only the board's writer adds. `next` is the number of all events then.
    fn try_add<X, M: Plain<X, Batch, u64>>(
        &self,
        seen: &Reached,
        count: u64,
        next: u64,
        added: &X,
    ) -> Option<Reached>
        requires book { seen.now.book ≡ J.board self.now }
        requires count { count ≡ length (events_of seen.now.log) }
        requires next { next ≡ length (events_of seen.now.log ++ M.ask added.now) }
        requires idle { M.state added.now ≡ None }
        ensures { IfSome result (λ more. (more.book ≡ seen.now.book)
            × (events_of more.log ≡ events_of seen.now.log ++ M.ask added.now)) }
    {
        let mut more = seen.again();
        let mut offer: Offer<Batch, u64, HistoryLaw, Nothing> = more.plain::<Nothing, X, M>(added);
        let mut pen = more.no_pen();
        let word: &Counted = &self.word;
        let found = word.compare_exchange::<Add, Nothing>(
            count, next, &mut more, &mut offer, &mut pen,
        );
        if found == count { Some(more) } else { None }
    }

    /// The number of events in the history: one atomic load.
    pub(crate) fn latest(&self, front: &ToldList<J>) -> u64
        requires { front.now.board ≡ self.now }
    {
        let mut seen = front.snapshot.seen.again();
        self.load(&mut seen)
    }
}

/// The writer's end of a board's history, seen as all of it.
#[derive(Drop)]
pub(crate) struct HistoryWriter<J: Naming> {
    counter: EventCount<J>,
    /// The number of events.
    count: u64,
    seen: Reached,
}

impl<J: Naming> Model for HistoryWriter<J> {
    ghost use Rattle.std.specs.Prelude.{◌≡◌, length};
    ghost use Rattle.mq_board.specs.Histories.{History, events_of, history};

    ghost Value = { History };

    ghost view = { λ b. history b.counter (events_of b.seen.log) };

    ghost invariant = { λ b. (b.count ≡ length (events_of b.seen.log))
        × (b.seen.book ≡ J.board b.counter) };
}

impl<J: Naming> HistoryWriter<J> {
    pub(crate) fn board(&self) -> u8
        ensures { result ≡ self.now.board }
    {
        self.counter.board()
    }

    /// The number of events.
    pub(crate) fn count(&self) -> u64
        ensures { result ≡ length self.now.events }
    {
        self.count
    }

    /// A handle to the word that counts the events.
    pub(crate) fn counter(&self) -> Result<EventCount<J>, AllocError>
        ensures { IfOk result (λ h. h ≡ self.now.board) }
    {
        self.counter.try_clone()
    }

    /// All of the history, whose row this is, as a snapshot.
    pub(crate) fn snapshot(&self, whole: BoardRow) -> Snapshot
        requires { whole ≡ row self.now.events }
        ensures { result ≡ snapshot_of self.now.board (J.board self.now.board) self.now.events }
    {
        Snapshot {
            number: self.counter.board(),
            board_row: whole,
            count: self.count,
            seen: self.seen.again(),
        }
    }

    /// Adds events, if no other thread has added one, as none does. `count` is the number of all
    /// events then.
    fn try_add<X, M: Plain<X, Batch, u64>>(&mut self, count: u64, added: &X) -> bool
        requires count { count ≡ length (self.old.events ++ M.ask added.now) }
        requires idle { M.state added.now ≡ None }
        ensures added { IsTrue result
            → self.new ≡ history self.old.board (self.old.events ++ M.ask added.now) }
        ensures same { IsFalse result → self.new ≡ self.old }
    {
        let Some(more) = self
            .counter
            .try_add::<X, M>(&self.seen, self.count, count, added)
        else {
            return false;
        };
        self.seen = more;
        self.count = count;
        true
    }

    /// Adds events, by one compare-exchange. `count` is the number of all events then.
    fn add_all<X, M: Plain<X, Batch, u64>, R: Wait>(&mut self, rt: &R, count: u64, added: &X)
        requires count { count ≡ length (self.old.events ++ M.ask added.now) }
        requires idle { M.state added.now ≡ None }
        ensures { self.new ≡ history self.old.board (self.old.events ++ M.ask added.now) }
    {
        for _ in rt.forever() {
            if self.try_add::<X, M>(count, added) {
                return;
            }
        }
        unreachable!()
    }

    /// Adds an event, by one compare-exchange. It allocates nothing.
    pub(crate) fn add<R: Wait>(&mut self, rt: &R, event: Event)
        requires { length self.old.events < 2 ^ 64 - 1 }
        ensures { self.new ≡ history self.old.board (self.old.events ++ event ∷ []) }
    {
        self.add_all::<Event, Add, R>(rt, self.count + 1, &event);
    }

    /// Adds the events of a list that it has beyond this history, by one compare-exchange. It
    /// allocates nothing. `count` is the number of all events then.
    pub(crate) fn add_rest<X, M: Rest<X>, R: Wait>(&mut self, rt: &R, list: &X, count: u64)
        requires { count ≡ length (self.old.events
            ++ M.rest list.now (length self.old.events)) }
        ensures { self.new ≡ history self.old.board
            (self.old.events ++ M.rest list.now (length self.old.events)) }
    {
        let about = (list, self.count);
        self.add_all::<(&X, u64), RestOf<M>, R>(rt, count, &about);
    }

    /// Whether a front of this board is a prefix of the history, as each is.
    fn contains(&self, front: &ToldList<J>) -> bool
        requires { front.now.board ≡ self.now.board }
        ensures { IsTrue result → IsPrefix front.now.events self.now.events }
    {
        let mut both = self.seen.again();
        both.learn(&front.snapshot.seen);
        self.counter.load(&mut both) == self.count
    }

    /// Confirms that a front of this board is a prefix of the history.
    pub(crate) fn confirm<R: Wait>(&self, rt: &R, front: &ToldList<J>)
        requires { front.now.board ≡ self.now.board }
        ensures { IsPrefix front.now.events self.now.events }
    {
        for _ in rt.forever() {
            if self.contains(front) {
                return;
            }
        }
        unreachable!()
    }
}
