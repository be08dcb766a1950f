//! A seat's views of all slots: what a seat is made of, and what it leaves at the end.

ghost use Rattle.std.specs.Prelude.{◌≡◌, ◌-◌, ◌<◌, ◌++◌, ◌∷◌, [], length, replicate};
ghost use Rattle.std.specs.Prelude.{IfOk, IfSome, IfNone, OnOk, OnErr};
ghost use Rattle.mq_board.specs.Readers.{new_reader, new_readers};
ghost use Rattle.mq_system.specs.Fronts.{AreRows};

use mq_board::{BoardReader, Naming};
use std::alloc::{AllocError, Global};
use std::marker::Model;

/// What one seat has observed of each slot, before the seat is made and once it is taken apart,
/// seen as its place and its fronts: a reader of each board, all at the same place.
#[derive(Drop)]
pub struct Fronts<J: Naming> {
    pub(crate) place: u16,
    pub(crate) readers: Vec<BoardReader<J>>,
}

impl<J: Naming> Model for Fronts<J> {
    ghost use Rattle.mq_system.specs.Fronts.{AreReaders, FrontsState, fronts_of};

    ghost Value = { FrontsState };

    ghost view = { λ f. record { place = f.place; fronts = fronts_of f.readers.items } };

    ghost invariant = { λ f. AreReaders f.place f.readers.items };
}

impl<J: Naming> Fronts<J> {
    /// Takes the readers with this place, the last of each board. An `Err` means that memory ran
    /// out, and then all are where they were.
    pub fn gather(
        alloc: Global,
        place: u16,
        rows: &mut [Vec<BoardReader<J>>],
    ) -> Result<Fronts<J>, AllocError>
        requires some { 0 < place }
        requires rows { AreRows place rows.old }
        ensures fronts { IfOk result (λ fronts.
            fronts ≡ record { place = place; fronts = replicate (length rows.old) [] }) }
        ensures left { OnOk result (AreRows (place - 1) rows.new) }
        ensures unchanged { OnErr result (rows.new ≡ rows.old) }
        ensures count { length rows.new ≡ length rows.old }
    {
        let mut readers = Vec::with_capacity(alloc, rows.len())?;
        for board in 0..rows.len() {
            readers.push_reserved(last_of(&mut rows[board], board, place));
        }
        Ok(Fronts { place, readers })
    }

    /// Takes out the reader of the last slot.
    pub fn hand_out(&mut self) -> Option<BoardReader<J>>
        ensures last { IfSome result (λ reader.
            self.old.fronts ≡ self.new.fronts ++ reader.events ∷ []) }
        ensures board { IfSome result (λ reader. reader.board ≡ length self.new.fronts) }
        ensures place { IfSome result (λ reader. reader.place ≡ self.old.place) }
        ensures same { self.new.place ≡ self.old.place }
        ensures none { IfNone result (self.old.fronts ≡ []) }
    {
        self.readers.pop()
    }
}

/// The reader with this place, which is the last.
fn last_of<J: Naming>(readers: &mut Vec<BoardReader<J>>, board: usize, place: u16) -> BoardReader<J>
    requires some { 0 < place }
    requires readers { readers.old.items ≡ new_readers board place }
    ensures last { result ≡ new_reader board place }
    ensures left { readers.new.items ≡ new_readers board (place - 1) }
{
    let Some(last) = readers.pop() else {
        unreachable!()
    };
    last
}
