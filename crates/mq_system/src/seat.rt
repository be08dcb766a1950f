//! A thread's handle of a system: its number, its counts, and a reader of each slot's board, by
//! which it reads statistics without a lock.

ghost use Rattle.std.specs.Prelude.{◌≡◌, ◌+◌, ◌*◌, ◌<◌, ◌≤◌, [], IfOk, MatchBool, length, replicate, slice_index, slice_set};
ghost use Rattle.std.specs.List.{sum};
ghost use Rattle.mq_queue.specs.Row.{row};
ghost use Rattle.mq_system.specs.Seat.{AreKnown, AreNext, IsLater, IsSame, fresh_seat, front_of, noted_more};
ghost use Rattle.mq_system.specs.declared.seat.TheConstants.{MAX_COUNT};

use crate::{Entries, Fronts, Names};
use mq_board::{BoardReader, ToldList};
use mq_queue::BoardRow;
use std::alloc::{AllocError, Global};
use std::marker::Model;
use std::sync::ledger::Share;

/// A participant, which stands for the manual's process and is used by one caller at a time, with
/// how many changes it made in each slot and its view of each. It goes back to the system when that
/// is closed, and so it can't be dropped.
pub struct Seat<N: Names> {
    number: u16,
    /// A reader of each slot's board, at the place of this number.
    readers: Vec<BoardReader<N>>,
    by_slot: Vec<u64>,
    /// As much as its counts can still grow.
    left: Share<Entries<N>>,
}

impl<N: Names> Model for Seat<N> {
    ghost use Rattle.mq_system.specs.Fronts.{fronts_of};
    ghost use Rattle.mq_system.specs.Seat.{SeatState, IsSeat};

    ghost Value = { SeatState };

    ghost view = { λ s. record {
      number = s.number;
      by_slot = s.by_slot.items;
      fronts = fronts_of s.readers.items;
    } };

    ghost invariant = { λ s. IsSeat N.seats N.slots s.number s.readers.items s.by_slot.items
        s.left.parts s.left.amount };
}

/// The greatest count.
pub(crate) const MAX_COUNT: u64 = u64::MAX;

impl<N: Names> Seat<N> {
    /// A seat that has done nothing, whose number is the place of its readers. An `Err` means that
    /// memory ran out.
    pub fn new(
        alloc: Global,
        fronts: Fronts<N>,
        slots: u8,
        left: Share<Entries<N>>,
    ) -> Result<Seat<N>, AllocError>
        requires number { (1 ≤ fronts.place) × (fronts.place ≤ N.seats) }
        requires slots { slots ≡ N.slots }
        requires none { fronts.fronts ≡ replicate N.slots [] }
        requires part { left.parts ≡ 1 }
        requires all { left.amount ≡ slots * MAX_COUNT }
        ensures { IfOk result (λ seat. seat ≡ fresh_seat N.slots fronts.place) }
    {
        let by_slot = Vec::from_elem(alloc, 0u64, slots as usize)?;
        let Fronts {
            place: number,
            readers,
        } = fronts;
        Ok(Seat {
            number,
            readers,
            by_slot,
            left,
        })
    }

    /// From 1 to the number of seats; no call changes it.
    pub fn number(&self) -> u16
        ensures { result ≡ self.now.number }
    {
        self.number
    }

    /// The number of the system's slots.
    pub fn slots(&self) -> u8
        ensures count { result ≡ N.slots }
    {
        self.readers.len() as u8
    }

    /// How many changes this seat made in the slot: its calls of `msgget` that made a queue there,
    /// and of `msgsnd`, `msgrcv`, `set` and `rmid` that were not refused.
    pub fn count(&self, slot: usize) -> u64
        requires slot { slot < N.slots }
        ensures { result ≡ slice_index self.now.by_slot slot }
    {
        self.by_slot[slot]
    }

    /// What holds of each seat: it has a front for each slot, and each of its counts is at most the
    /// number of its own changes that it has observed there.
    pub fn holds(&self)
        ensures number { (1 ≤ self.now.number) × (self.now.number ≤ N.seats) }
        ensures each { length self.now.by_slot ≡ N.slots }
        ensures fronts { length self.now.fronts ≡ N.slots }
        ensures known { AreKnown N.slots self.now.number self.now.fronts self.now.by_slot }
    {
        let _ = &self.number;
    }

    /// Learns what happened in the slot, if it is at least as much as the seat has observed.
    pub fn learn(&mut self, slot: u8, told: ToldList<N>) -> bool
        requires slot { slot < N.slots }
        requires told { told.board ≡ slot }
        ensures same { IsSame self.old self.new }
        ensures later { IsLater self.old self.new }
        ensures told { MatchBool result (front_of self.new slot ≡ told.events)
            ((self.new ≡ self.old) × (length told.events < length (front_of self.old slot))) }
    {
        self.readers[slot as usize].learn(told)
    }

    /// What the seat has observed of the slot: it reads nothing that others write.
    pub fn known(&self, slot: u8) -> BoardRow
        requires { slot < N.slots }
        ensures { result ≡ row (front_of self.now slot) }
    {
        self.readers[slot as usize].known()
    }

    /// What a report shows of the slot: what is published on its board, or the row of the front
    /// where other readers have all places there. It never blocks, takes no lock, of which a seat
    /// has none, and allocates nothing.
    pub fn row(&mut self, slot: u8) -> BoardRow
        requires slot { slot < N.slots }
        ensures same { IsSame self.old self.new }
        ensures later { IsLater self.old self.new }
        ensures others { self.new.fronts
            ≡ slice_set self.old.fronts slot (front_of self.new slot) }
        ensures row { result ≡ row (front_of self.new slot) }
    {
        self.readers[slot as usize].row()
    }

    /// Counts so many changes of its own in the slot, and learns of them. Their entries go to the
    /// slot's part.
    pub(crate) fn note(
        &mut self,
        entries: &mut Share<Entries<N>>,
        slot: u8,
        told: ToldList<N>,
        count: u64,
    )
        requires slot { slot < N.slots }
        requires told { told.board ≡ slot }
        requires next { AreNext self.old.number (front_of self.old slot) told.events count }
        requires room { length told.events ≤ MAX_COUNT }
        requires part { 0 < entries.old.parts }
        ensures within { slot < length self.old.by_slot }
        ensures noted { self.new ≡ noted_more self.old slot count told.events }
        ensures entries { entries.new.amount ≡ entries.old.amount + count }
        ensures part { entries.new.parts ≡ entries.old.parts }
    {
        self.by_slot[slot as usize] += count;
        self.left.transfer(entries, count);
        if !self.readers[slot as usize].learn(told) {
            unreachable!()
        }
    }

    /// Ends the seat: adds what is left of its part to these, and returns its fronts. A system lets
    /// no part out, so its seats end where it is closed.
    pub fn end(self, parts: &mut Share<Entries<N>>) -> Fronts<N>
        ensures parts { parts.new.parts ≡ parts.old.parts + 1 }
        ensures left { parts.new.amount + sum self.by_slot
            ≡ parts.old.amount + N.slots * MAX_COUNT }
        ensures place { result.place ≡ self.number }
        ensures fronts { result.fronts ≡ self.fronts }
    {
        let (left, fronts) = self.into_parts();
        parts.merge(left);
        fronts
    }

    /// What is left of its part, and its fronts.
    pub(crate) fn into_parts(self) -> (Share<Entries<N>>, Fronts<N>)
        ensures part { result.0.parts ≡ 1 }
        ensures left { result.0.amount + sum self.by_slot ≡ N.slots * MAX_COUNT }
        ensures place { result.1.place ≡ self.number }
        ensures fronts { result.1.fronts ≡ self.fronts }
    {
        let Seat {
            number: place,
            readers,
            by_slot: _,
            left,
        } = self;
        (left, Fronts { place, readers })
    }
}
