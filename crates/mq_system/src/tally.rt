//! The ghost resource by which `close` proves that the slots have as many entries as the seats have
//! counted, without a shared counter.

ghost use Rattle.std.specs.Prelude.{◌≡◌, ◌+◌, ◌*◌, ◌<◌};
ghost use Rattle.mq_system.specs.declared.seat.TheConstants.{MAX_COUNT};

use crate::seat::MAX_COUNT;
use crate::{Entries, Names};
use std::sync::ledger::{Blank, Book, Share, Total};

/// Ghost accounting of a system's entries during construction: the total, and the shares that have
/// not been given to a slot or seat yet. A slot's share is as much as its list has entries, and a
/// seat's as much as its counts can still grow: an entry moves one from a seat's share to a slot's,
/// which needs no lock. Nothing of it exists at run time.
#[derive(Drop)]
pub struct Tally<N: Names> {
    pub book: Book<Entries<N>>,
    pub unused: Share<Entries<N>>,
    ghost empty: { unused.amount ≡ 0 },
}

impl<N: Names> Tally<N> {
    /// Accounting of no entries.
    pub fn new(blank: Blank) -> Tally<N>
        requires name { blank.name ≡ N.entries }
        requires parts { blank.parts ≡ N.slots + N.seats }
        ensures parts { result.unused.parts ≡ N.slots + N.seats }
        ensures total { result.book.total ≡ 0 }
    {
        let (book, unused) = blank.open::<Entries<N>>();
        Tally { book, unused }
    }

    /// The part of a slot in which nothing has happened.
    pub fn slot_part(&mut self) -> Share<Entries<N>>
        requires { 0 < self.old.unused.parts }
        ensures part { result.parts ≡ 1 }
        ensures none { result.amount ≡ 0 }
        ensures parts { self.new.unused.parts + 1 ≡ self.old.unused.parts }
        ensures total { self.new.book.total ≡ self.old.book.total }
    {
        self.unused.split_off(1, 0)
    }

    /// The part of a seat that has done nothing.
    pub fn seat_part(&mut self, slots: u8) -> Share<Entries<N>>
        requires { 0 < self.old.unused.parts }
        ensures part { result.parts ≡ 1 }
        ensures all { result.amount ≡ slots * MAX_COUNT }
        ensures parts { self.new.unused.parts + 1 ≡ self.old.unused.parts }
        ensures total { self.new.book.total ≡ self.old.book.total + slots * MAX_COUNT }
    {
        let mut part = self.unused.split_off(1, 0);
        for _slot in 0..slots {
            self.book.add(&mut part, MAX_COUNT);
        }
        part
    }

    /// What all parts have together from now on, and a share of no part.
    pub fn close(self) -> (Total<Entries<N>>, Share<Entries<N>>)
        ensures parts { result.0.parts ≡ N.slots + N.seats }
        ensures total { result.0.amount ≡ self.book.total }
    {
        let Tally { book, unused } = self;
        (book.close(), unused)
    }
}
