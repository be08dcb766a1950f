//! An index by type: a FIFO for each type, and a heap of the FIFOs' first places, from which each
//! selection of msgrcv (msgop(2)) finds its message.

ghost use Rattle.std.specs.Prelude.{◌≡◌, ◌≢◌, IsSome, OnErr, Some};
ghost use Rattle.std.specs.Prelude.{int_le, length, map, nat_eq, not, pos};
ghost use Rattle.indexmap.specs.IndexMap.{get};
ghost use Rattle.std.specs.Option.{option_map};
ghost use Rattle.mq_message.specs.declared.selection.Selection.TheVariants.{Except, UpTo};
ghost use Rattle.mq_message.specs.Selection.{least_of, pick};
ghost use Rattle.mq_message.specs.Waiting.{message_at};
ghost use Rattle.mq_select.specs.ByType.{some_wait};
ghost use Rattle.mq_select.specs.Outcome.{CanPut, IsPrepared, IsPut, IsTaken, IsUnprepared};

use crate::queues::{self, Queues};
use crate::{FirstPlaces, Room};
use indexmap::IndexMap;
use mq_message::{Body, Header, Message, Selection, Waiting};
use std::alloc::{AllocError, Global};
use std::collections::BTreeMap;
use std::marker::Model;

/// The pending messages indexed by type: whatever the selection, to find and take a message takes
/// logarithmic time in the number of pending types. It can't be dropped, whatever its bodies are:
/// `end` alone takes it.
pub struct ByType<B> {
    queues: Queues<B>,
    /// The place of the first message of each type.
    firsts: FirstPlaces,
    /// The type of the message at each place.
    types: IndexMap<u64, i64>,
    room: Room<B>,
    /// The type for which there is room for one more message, and a queue.
    prepared: Option<i64>,
    alloc: Global,
}

impl<B> Model for ByType<B> {
    ghost use Rattle.std.specs.Prelude.{nat_eq};
    ghost use Rattle.std.specs.Option.{ForSome};
    ghost use Rattle.indexmap.specs.IndexMap.{get, spare};
    ghost use Rattle.mq_message.specs.Waiting.{Listed};
    ghost use Rattle.mq_select.specs.FirstPlaces.{first_of};
    ghost use Rattle.mq_select.specs.ByType.{merged, IsByType, HasRoomFor};

    ghost Value = { Listed B };

    ghost view = { λ w. record { messages = merged w.queues.entries; prepared = w.prepared } };

    ghost invariant = { λ w. IsByType (λ m. m.mtype) (merged w.queues.entries) w.queues.entries
        (first_of w.firsts) (get nat_eq w.types) w.prepared
        × ForSome w.prepared (HasRoomFor w.queues.entries w.firsts.spare (spare w.types) w.room) };
}

/// The type of the message at a place.
fn type_at(types: &IndexMap<u64, i64>, place: u64) -> i64
    requires { IsSome (get nat_eq types.now place) }
    ensures { get nat_eq types.now place ≡ Some result }
{
    *types.get(&place).unwrap()
}

/// Whether a type is at most the bound.
fn is_within(mtype: i64, bound: u64) -> bool
    ensures { result ≡ int_le mtype (pos bound) }
{
    i128::from(mtype) <= i128::from(bound)
}

impl<B> ByType<B> {
    /// How many messages are pending.
    pub(crate) fn len(&self) -> usize
        ensures { result ≡ length self.now.messages }
    {
        self.types.len()
    }

    /// Whether no message is pending.
    pub(crate) fn is_empty(&self) -> bool
        ensures { result ≡ not (some_wait self.now.messages) }
    {
        self.len() == 0
    }

    /// The lowest type that is at most the bound.
    pub(crate) fn lowest_within(&self, bound: u64) -> Option<i64>
        ensures { result ≡ least_of bound (map (λ m. m.1.mtype) self.now.messages) }
    {
        match queues::lowest(&self.queues) {
            Some(lowest) if is_within(lowest, bound) => Some(lowest),
            _ => None,
        }
    }

    /// Cancels the preparation, and removes its queue if that is empty.
    fn forget_prepared(&mut self)
        ensures { IsUnprepared self.old self.new }
    {
        if let Some(mtype) = self.prepared.take() {
            queues::forget_empty(&mut self.queues, mtype);
        }
    }

    /// The place of the first message of any other type.
    fn first_other(&self, other: i64) -> Option<u64>
        ensures { result ≡ option_map (λ m. m.0)
            (pick (λ m. m.1.mtype) self.now.messages (Except other)) }
    {
        self.firsts.least_beside(other)
    }

    /// The place of the first message of the lowest type that is at most the bound.
    fn first_within(&self, bound: u64) -> Option<u64>
        ensures { result ≡ option_map (λ m. m.0)
            (pick (λ m. m.1.mtype) self.now.messages (UpTo bound)) }
    {
        match self.lowest_within(bound) {
            Some(lowest) => self.firsts.place_of(lowest),
            None => None,
        }
    }

    /// Adds a message of this type at the end.
    #[inline(never)]
    fn put_at(&mut self, mtype: i64, place: u64, message: Message<B>)
        requires of_type { message.mtype ≡ mtype }
        requires room { CanPut place message self.old }
        ensures { IsPut place message self.old self.new }
    {
        self.prepared = None;
        self.firsts.enter(mtype, place);
        match self.types.insert(place, mtype) {
            Ok(_) => (),
            Err(_) => unreachable!(),
        }
        queues::put(&mut self.queues, &mut self.room, mtype, place, message);
    }

    /// Takes out the message at this place.
    fn take_at(&mut self, place: u64) -> Message<B>
        requires { IsSome (message_at place self.old.messages) }
        ensures { IsTaken place result self.old self.new }
    {
        self.forget_prepared();
        let mtype = type_at(&self.types, place);
        let _mtype = self.types.swap_remove(&place);
        let message = queues::take(&mut self.queues, mtype, place);
        self.firsts
            .renew(mtype, queues::first_of(&self.queues, mtype));
        message
    }
}

impl<B: Body> Waiting<B> for ByType<B> {
    ghost messages = { λ w. w.messages };

    ghost prepared = { λ w. w.prepared };

    fn fresh(alloc: Global) -> Self {
        ByType {
            queues: BTreeMap::new(alloc),
            firsts: FirstPlaces::new(alloc),
            types: IndexMap::new(alloc),
            room: Room::new(alloc),
            prepared: None,
            alloc,
        }
    }

    fn places_rise(&self) {
        let _ = &self.prepared;
    }

    fn find(&self, selection: Selection) -> Option<u64> {
        match selection {
            Selection::Any => self.firsts.least(),
            Selection::Exact(wanted) => self.firsts.place_of(wanted),
            Selection::Except(other) => self.first_other(other),
            Selection::UpTo(bound) => self.first_within(bound),
        }
    }

    /// A list that is prepared for this type needs no more memory.
    fn prepare(&mut self, mtype: i64) -> Result<(), AllocError>
        ensures prepared { IsPrepared mtype result self.old self.new }
        ensures refused { OnErr result (self.old.prepared ≢ Some mtype) }
    {
        if !queues::has_room(&self.queues, mtype) {
            return Err(AllocError);
        }
        self.firsts.reserve()?;
        self.types.reserve(1)?;
        self.room.make()?;
        queues::make(&mut self.queues, self.alloc, mtype)?;
        queues::forget_older(&mut self.queues, self.prepared, mtype);
        self.prepared = Some(mtype);
        Ok(())
    }

    fn put_prepared(&mut self, place: u64, message: Message<B>)
        requires { CanPut place message self.old }
        ensures { IsPut place message self.old self.new }
    {
        self.put_at(message.mtype, place, message);
    }

    fn take(&mut self, place: u64) -> Message<B> {
        self.take_at(place)
    }

    fn length_of(&self, place: u64) -> u64 {
        let mtype = type_at(&self.types, place);
        queues::length_of(&self.queues, mtype, place)
    }

    fn headers(&self, alloc: Global) -> Result<Vec<Header>, AllocError> {
        let mut headers = Vec::with_capacity(alloc, self.types.len())?;
        queues::gather(&self.queues, &mut headers)?;
        headers.sort_unstable_by_key(|h| h.place);
        Ok(headers)
    }

    fn pop_any(&mut self) -> Option<Message<B>> {
        match self.firsts.least() {
            Some(place) => Some(self.take_at(place)),
            None => {
                self.forget_prepared();
                None
            }
        }
    }

    fn end(self) {
        let mut waiting = self;
        waiting.forget_prepared();
        let ByType {
            queues,
            firsts: _,
            types: _,
            room,
            prepared: _,
            alloc: _,
        } = waiting;
        queues.destroy_empty();
        room.end();
    }
}
