//! The write side of a board: events are appended to the history, and then shown by the copies.

ghost use Rattle.std.specs.Prelude.{◌≡◌, ◌≢◌, ℕ, ◌++◌, ◌∷◌, [], length, map, true};
ghost use Rattle.std.specs.List.{All, AllPairs, Contains};
ghost use mathlib.Core.List.{IsPrefix};
ghost use Rattle.mq_queue.specs.Row.{row};
ghost use Rattle.mq_board.specs.Histories.{History, history};
ghost use Rattle.mq_board.specs.Snapshots.{snapshot_of};
ghost use Rattle.mq_board.specs.Writers.{HasOnePending, posting};

use crate::copies::Copies;
use crate::history::HistoryWriter;
use crate::naming::Naming;
use crate::posting::{NOTHING, Posting};
use crate::reader::BoardReader;
use crate::roll::Roll;
use crate::row::{EMPTY, next_key, next_row};
use crate::told::ToldList;
use mq_queue::{BoardRow, Event, Figures, Notice};
use std::alloc::AllocError;
use std::marker::Model;
use std::sync::Wait;

/// Which events a list has beyond its first so many. Proofs alone read it: a board's writer is
/// passed the list by reference, and copies nothing of it.
pub trait Rest<X> {
    ghost use Rattle.std.specs.Prelude.{ℕ, List};
    ghost use Rattle.mq_queue.specs.declared.event.Event.{Event};

    ghost rest: { X → ℕ → List Event };
}

/// The writer of a board, seen as its published list, the pending event and the places that were
/// returned. There is one of each board. It can't be dropped: `end` or `close` gives the board up.
pub struct BoardWriter<J: Naming> {
    copies: Copies<J>,
    history: HistoryWriter<J>,
    roll: Roll<J>,
    /// The published list's row.
    row: BoardRow,
    /// The key of the queue that was made last, also once it was removed.
    key: i32,
    /// A buffer for the event that is prepared and not published yet, and whether it holds one.
    next: Posting,
    is_pending: bool,
}

impl<J: Naming> Model for BoardWriter<J> {
    ghost use Rattle.std.specs.Prelude.{◌≡◌};
    ghost use Rattle.mq_board.specs.Snapshots.{snapshot_of};
    ghost use Rattle.mq_board.specs.Writers.{IsWriter, WriterState, pending_in};

    ghost Value = { WriterState };

    ghost view = { λ w. record {
      board = w.history.board;
      events = w.history.events;
      pending = pending_in w.is_pending w.next;
      home = w.roll.home;
    } };

    ghost invariant = { λ w. IsWriter w.history w.roll.board w.row w.key
        × (w.copies ≡ snapshot_of w.history.board (J.board w.history.board) w.history.events) };
}

impl<J: Naming> Notice for BoardWriter<J> {
    ghost use Rattle.std.specs.Prelude.{◌≡◌, ◌++◌, ◌∷◌, []};
    ghost use Rattle.mq_board.specs.Writers.{posting};

    ghost takes = { λ old event after new.
        new ≡ record old { pending = old.pending ++ posting event after ∷ [] } };

    /// It allocates nothing. There is a buffer for one event: `Err` where one is pending.
    fn prepare(&mut self, event: Event, after: Figures) -> Result<(), AllocError> {
        if self.is_pending {
            return Err(AllocError);
        }
        self.next = Posting { after, event };
        self.is_pending = true;
        Ok(())
    }
}

impl<J: Naming> BoardWriter<J> {
    pub(crate) fn new(copies: Copies<J>, history: HistoryWriter<J>, roll: Roll<J>) -> BoardWriter<J>
        requires empty { history.events ≡ [] }
        requires board { roll.board ≡ history.board }
        requires shown { copies ≡ snapshot_of history.board (J.board history.board) [] }
        ensures { result ≡ record {
          board = history.board;
          events = [];
          pending = [];
          home = roll.home;
        } }
    {
        BoardWriter {
            copies,
            history,
            roll,
            row: EMPTY,
            key: 0,
            next: NOTHING,
            is_pending: false,
        }
    }

    /// The number of its board.
    pub fn board(&self) -> u8
        ensures { result ≡ self.now.board }
    {
        self.history.board()
    }

    /// The row of the published list.
    pub fn row(&self) -> BoardRow
        ensures { result ≡ row self.now.events }
    {
        self.row
    }

    /// The number of the published events.
    pub fn count(&self) -> u64
        ensures { result ≡ length self.now.events }
    {
        self.history.count()
    }

    /// A token that proves the published list, for a reader to learn.
    pub fn tell(&mut self) -> ToldList<J>
        ensures told { result ≡ history self.old.board self.old.events }
        ensures same { self.new ≡ self.old }
    {
        ToldList::new(self.history.snapshot(self.row))
    }

    /// Publishes the event that is pending: readers find it from then on. It allocates nothing, and
    /// waits for a reader that is still inside the copy that was published before the last.
    pub fn publish<R: Wait>(&mut self, rt: &R)
        requires { HasOnePending self.old.events self.old.pending }
        ensures { self.new ≡ record self.old {
          events = self.old.events ++ map (λ p. p.event) self.old.pending;
          pending = [];
        } }
    {
        let event = self.next.event;
        self.row = next_row(self.row, self.key, event, self.next.after);
        self.key = next_key(self.key, event);
        self.is_pending = false;
        self.history.add(rt, event);
        self.copies.publish(rt, self.history.snapshot(self.row));
    }

    /// Publishes at once the events of a list that it has beyond the published one, with its row,
    /// in which a queue is: readers find them all from then on, or none before. It allocates
    /// nothing, and waits as `publish` does. `count` is the number of all events then.
    pub fn publish_rest<X, M: Rest<X>, R: Wait>(
        &mut self,
        rt: &R,
        list: &X,
        count: u64,
        whole: BoardRow,
    )
        requires count { count ≡ length (self.old.events
            ++ M.rest list.now (length self.old.events)) }
        requires row { whole ≡ row (self.old.events
            ++ M.rest list.now (length self.old.events)) }
        requires live { whole.live ≡ true }
        ensures { self.new ≡ record self.old {
          events = self.old.events ++ M.rest list.now (length self.old.events);
        } }
    {
        self.row = whole;
        self.key = whole.key;
        self.history.add_rest::<X, M, R>(rt, list, count);
        self.copies.publish(rt, self.history.snapshot(whole));
    }

    /// Takes a reader back. Its front is a prefix of the published list, and its place was not
    /// returned before.
    pub fn take_back<R: Wait>(&mut self, rt: &R, reader: BoardReader<J>)
        requires { reader.board ≡ self.old.board }
        ensures same { self.new ≡ record self.old { home = self.new.home } }
        ensures front { IsPrefix reader.events self.old.events }
        ensures away { ¬ Contains self.old.home reader.place }
        ensures home { Contains self.new.home reader.place }
        ensures kept { (place : ℕ) → Contains self.old.home place → Contains self.new.home place }
    {
        let (place, front) = reader.into_parts();
        self.history.confirm(rt, &front);
        self.roll.take_home(place);
    }

    /// Gives up the board, and takes its readers back. The front of each is a prefix of the
    /// published list, and no two had the same place.
    pub fn end<R: Wait>(self, rt: &R, readers: Vec<BoardReader<J>>)
        requires { All (λ r. r.board ≡ self.board) readers.items }
        ensures fronts { All (λ r. IsPrefix r.events self.events) readers.items }
        ensures places { AllPairs (λ p q. p ≢ q) (map (λ r. r.place) readers.items) }
    {
        let mut writer = self;
        let mut readers = readers;
        while let Some(reader) = readers.pop() {
            writer.take_back(rt, reader);
        }
        writer.close(rt);
    }

    /// Gives up the board, and waits for the readers inside its copies. A reader that is left
    /// returns the row of its front from then on.
    pub fn close<R: Wait>(self, rt: &R) {
        let BoardWriter {
            copies,
            history: _,
            roll: _,
            row: _,
            key: _,
            next: _,
            is_pending: _,
        } = self;
        copies.close(rt);
    }
}
