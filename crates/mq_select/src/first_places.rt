//! A priority queue of types by the place of their first message, which is also a map by type.

ghost use Rattle.std.specs.Prelude.{◌≡◌, ◌<◌, ◌≤◌, ℕ, ℤ, true, cond, not, Some, None};
ghost use Rattle.std.specs.Prelude.{IfSome, OnErr, OnOk};
ghost use Rattle.std.specs.Option.{option_or, IsSomeAnd};
ghost use Rattle.std.specs.Ordering.{int_eq};
ghost use Rattle.mq_select.specs.FirstPlaces.{first_of, IsLeastAt};

use crate::heap::{self, Heap, restore, sink};
use indexmap::IndexMap;
use std::alloc::{AllocError, Global};
use std::marker::Model;

/// The place of the first message of each type that has one. The least place, and the least of all
/// types but one, are found in constant time; a change takes logarithmic time in the number of
/// types.
#[derive(Drop)]
pub struct FirstPlaces {
    heap: Heap,
}

impl Model for FirstPlaces {
    ghost use Rattle.indexmap.specs.IndexMap.{spare};
    ghost use Rattle.mq_select.specs.FirstPlaces.{Firsts};
    ghost use Rattle.mq_select.specs.Heap.{IsHeap};

    ghost Value = { Firsts };

    ghost view = { λ f. record { entries = f.heap.entries; spare = spare f.heap } };

    ghost invariant = { λ f. IsHeap f.heap.entries };
}

impl FirstPlaces {
    pub fn new(alloc: Global) -> FirstPlaces
        ensures { (t : ℤ) → first_of result t ≡ None }
    {
        FirstPlaces {
            heap: IndexMap::new(alloc),
        }
    }

    /// Reserves memory for one more type. `Err` means out of memory.
    pub fn reserve(&mut self) -> Result<(), AllocError>
        ensures unchanged { (t : ℤ) → first_of self.new t ≡ first_of self.old t }
        ensures ok { OnOk result (0 < self.new.spare) }
        ensures refused { OnErr result (self.old.spare ≡ 0) }
        ensures room { self.old.spare ≤ self.new.spare }
    {
        self.heap.reserve(1)
    }

    /// The place of the first message of this type.
    pub fn place_of(&self, mtype: i64) -> Option<u64>
        ensures { result ≡ first_of self.now mtype }
    {
        self.heap.get(&mtype).copied()
    }

    /// The least place.
    pub fn least(&self) -> Option<u64>
        ensures { IsLeastAt (λ _. true) (first_of self.now) result }
    {
        heap::least(&self.heap)
    }

    /// The least place of those of another type.
    pub fn least_beside(&self, other: i64) -> Option<u64>
        ensures { IsLeastAt (λ t. not (int_eq t other)) (first_of self.now) result }
    {
        heap::least_beside(&self.heap, other)
    }

    /// Enters a type that has no place, at one that is not less than any other.
    pub fn add(&mut self, mtype: i64, place: u64)
        requires absent { first_of self.old mtype ≡ None }
        requires above { (t : ℤ) (n : ℕ) → first_of self.old t ≡ Some n → n ≤ place }
        requires room { 0 < self.old.spare }
        ensures { (t : ℤ) →
            first_of self.new t ≡ cond (int_eq mtype t) (Some place) (first_of self.old t) }
    {
        // The length is what says that no two entries are of one type.
        let _len = self.heap.len();
        match self.heap.insert(mtype, place) {
            Ok(_) => (),
            Err(_) => unreachable!(),
        }
    }

    /// Moves a type on to a later place.
    pub fn move_on(&mut self, mtype: i64, place: u64)
        requires later { IsSomeAnd (first_of self.old mtype) (λ n. n ≤ place) }
        ensures at { (t : ℤ) →
            first_of self.new t ≡ cond (int_eq mtype t) (Some place) (first_of self.old t) }
        ensures room { self.old.spare ≤ self.new.spare }
    {
        let i = self.heap.get_index_of(&mtype).unwrap();
        *self.heap.get_index_mut(i).unwrap() = place;
        sink(&mut self.heap, i);
    }

    /// Enters a type with this place, unless it has one.
    pub(crate) fn enter(&mut self, mtype: i64, place: u64)
        requires above { (t : ℤ) (n : ℕ) → first_of self.old t ≡ Some n → n ≤ place }
        requires room { 0 < self.old.spare }
        ensures { (t : ℤ) → first_of self.new t
            ≡ option_or (first_of self.old t) (cond (int_eq mtype t) (Some place) None) }
    {
        if self.place_of(mtype).is_none() {
            self.add(mtype, place);
        }
    }

    /// Moves a type on to the place of its first message, or takes it out where there is none.
    pub(crate) fn renew(&mut self, mtype: i64, first: Option<u64>)
        requires later { IfSome first (λ place. IsSomeAnd (first_of self.old mtype)
            (λ n. n ≤ place)) }
        ensures { (t : ℤ) →
            first_of self.new t ≡ cond (int_eq mtype t) first (first_of self.old t) }
    {
        match first {
            Some(place) => self.move_on(mtype, place),
            None => self.take_out(mtype),
        }
    }

    /// Takes a type out.
    pub fn take_out(&mut self, mtype: i64)
        ensures at { (t : ℤ) →
            first_of self.new t ≡ cond (int_eq mtype t) None (first_of self.old t) }
        ensures room { self.old.spare ≤ self.new.spare }
    {
        if let Some(i) = self.heap.get_index_of(&mtype) {
            let _entry = self.heap.swap_remove_index(i);
            if i < self.heap.len() {
                restore(&mut self.heap, i);
            }
        }
    }
}
