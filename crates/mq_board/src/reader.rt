//! The read side of a board: a left-right read, skipped where the event count has not grown.

ghost use Rattle.std.specs.Prelude.{◌≡◌, ◌<◌, ◌≤◌, [], length, IfSome, MatchBool};
ghost use Rattle.mq_queue.specs.Row.{row};
ghost use Rattle.mq_board.specs.Readers.{HasSeenMore};

use crate::history::EventCount;
use crate::naming::Naming;
use crate::roll::BoardPlace;
use crate::snapshot::{BoardLaw, OfBoard, Snapshot};
use crate::told::ToldList;
use crossbeam_utils::Backoff;
use left_right::reader::{Factory, Reading};
use mq_queue::BoardRow;
use std::marker::Model;

/// How often a reader that finds no place free among the copies tries again, spinning in between:
/// less than a tenth of a millisecond in all.
const ATTEMPTS: u32 = 30;

/// A reader of a board, seen as its place and its front: the published events that it knows.
#[derive(Drop)]
pub struct BoardReader<J: Naming> {
    copies: Factory<Snapshot, (), BoardLaw<J>>,
    place: BoardPlace<J>,
    /// Its front, with the row.
    front: ToldList<J>,
    counter: EventCount<J>,
}

impl<J: Naming> Model for BoardReader<J> {
    ghost use Rattle.std.specs.Prelude.{◌≡◌};
    ghost use Rattle.mq_board.specs.Readers.{ReaderState};

    ghost Value = { ReaderState };

    ghost view = { λ r. record {
      board = r.front.board;
      place = r.place.number;
      events = r.front.events;
    } };

    ghost invariant = { λ r. (r.place.board ≡ r.front.board) × (r.counter ≡ r.front.board) };
}

/// A reader inside the published copy, seen as the list whose row it reads: the next change but one
/// waits until it has left.
pub struct BoardReading<J: Naming> {
    inside: Reading<Snapshot, (), BoardLaw<J>>,
}

impl<J: Naming> Model for BoardReading<J> {
    ghost use Rattle.std.specs.Prelude.{◌≡◌};
    ghost use Rattle.mq_board.specs.Histories.{History, history};

    ghost Value = { History };

    ghost view = { λ r. history r.inside.part.value.board r.inside.part.value.events };

    ghost invariant = { λ r. r.inside.part.value.book ≡ J.board r.inside.part.value.board };
}

impl<J: Naming> BoardReading<J> {
    /// The list whose row it reads.
    fn told(&self) -> ToldList<J>
        ensures { result ≡ self.now }
    {
        ToldList::new(self.inside.get().duplicate())
    }

    /// Leaves the copy.
    pub fn leave(self) {
        let BoardReading { inside } = self;
        inside.leave();
    }
}

impl<J: Naming> BoardReader<J> {
    pub(crate) fn new(
        copies: Factory<Snapshot, (), BoardLaw<J>>,
        place: BoardPlace<J>,
        front: ToldList<J>,
        counter: EventCount<J>,
    ) -> BoardReader<J>
        requires { (place.board ≡ front.board) × (counter ≡ front.board) }
        ensures { result ≡ record {
          board = front.board;
          place = place.number;
          events = front.events;
        } }
    {
        BoardReader {
            copies,
            place,
            front,
            counter,
        }
    }

    /// The number of its board.
    pub fn board(&self) -> u8
        ensures { result ≡ self.now.board }
    {
        self.front.board()
    }

    /// Its place on the board.
    pub fn place(&self) -> u16
        ensures { result ≡ self.now.place }
    {
        self.place.number()
    }

    /// The row of a published list that begins with the front, and that is the front then. It takes
    /// no lock, allocates nothing and never blocks: where all places are taken at each of
    /// `ATTEMPTS` tries, or the board was given up, it returns the row of the front.
    pub fn row(&mut self) -> BoardRow
        ensures later { HasSeenMore self.old self.new }
        ensures row { result ≡ row self.new.events }
    {
        if self.front.count() < self.counter.latest(&self.front) {
            self.refresh();
        }
        self.known()
    }

    /// The row of the front as it is: it reads nothing that others write.
    pub fn known(&self) -> BoardRow
        ensures { result ≡ row self.now.events }
    {
        self.front.row()
    }

    /// Learns what is published, if it finds a place.
    fn refresh(&mut self)
        ensures { HasSeenMore self.old self.new }
    {
        let backoff = Backoff::new();
        for _attempt in 0..ATTEMPTS {
            if let Some(published) = self.read() {
                self.adopt(published);
                return;
            }
            backoff.spin();
        }
    }

    /// Enters the copy that is published, beside what it knows. `None` where other readers have all
    /// places, or the board was given up.
    pub fn enter(&self) -> Option<BoardReading<J>> {
        let reader = self.copies.reader().ok()?;
        let inside = reader.enter_as::<OfBoard<J>>().ok()?;
        Some(BoardReading { inside })
    }

    /// What is published. `None` where no copy can be entered.
    fn read(&self) -> Option<ToldList<J>> {
        let reading = self.enter()?;
        let published = reading.told();
        reading.leave();
        Some(published)
    }

    /// Learns a prefix that the board's writer published, if it is at least as long as the front.
    pub fn learn(&mut self, told: ToldList<J>) -> bool
        requires { told.board ≡ self.old.board }
        ensures later { HasSeenMore self.old self.new }
        ensures told { MatchBool result
            ((self.new.events ≡ told.events) × (length self.old.events ≤ length told.events))
            ((self.new ≡ self.old) × (length told.events < length self.old.events)) }
    {
        if !self.front.is_prefix_of(&told) {
            return false;
        }
        self.front = told;
        true
    }

    /// Learns what a copy held. Each copy of a board is of that board: in no run is it of another.
    fn adopt(&mut self, published: ToldList<J>)
        ensures { HasSeenMore self.old self.new }
    {
        if self.board() == published.board() {
            self.learn(published);
        }
    }

    /// Its place and its front.
    pub(crate) fn into_parts(self) -> (BoardPlace<J>, ToldList<J>)
        ensures place { result.0 ≡ record { board = self.board; number = self.place } }
        ensures front { result.1 ≡ record { board = self.board; events = self.events } }
    {
        let BoardReader {
            copies: _,
            place,
            front,
            counter: _,
        } = self;
        (place, front)
    }
}
