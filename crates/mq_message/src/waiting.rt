//! The trait of a queue's list of pending messages, which `mq_select` implements.

ghost use Rattle.std.specs.Prelude.{◌≡◌, ◌++◌, ◌∷◌, [], ◌<◌, ℕ, ℤ, Option, List, length};
ghost use Rattle.std.specs.Prelude.{All, AllPairs, IfNone, IfOk, IfSome, IsSome, OnErr, OnOk};
ghost use Rattle.std.specs.List.Sorted.{IsPermutation};
ghost use Rattle.std.specs.Option.{option_map};
ghost use Rattle.mq_message.specs.declared.message.Message.{Message};
ghost use Rattle.mq_message.specs.Selection.{pick};
ghost use Rattle.mq_message.specs.Waiting.{headers_of, message_at, without};

use crate::{Body, Header, Message, Selection};
use std::alloc::{AllocError, Global};

/// The pending messages of a queue, each at its place: the index of its send in the queue's log. A
/// list allocates memory of its own in `prepare` alone.
pub trait Waiting<B: Body> {
    ghost messages: { Self → List (ℕ × Message B) };

    ghost prepared: { Self → Option ℤ };

    /// An empty list. It keeps the allocator for later.
    fn fresh(alloc: Global) -> Self
        ensures empty { messages result ≡ [] }
        ensures unprepared { prepared result ≡ None };

    /// A law of the list: places rise in the order of sending. A call costs nothing.
    fn places_rise(&self)
        ensures { AllPairs (λ a b. a.0 < b.0) (messages self.now) };

    /// The place of the message that the selection picks (msgop(2), msgrcv), or `None` where no
    /// message is eligible.
    fn find(&self, selection: Selection) -> Option<u64>
        ensures { result ≡ option_map (λ m. m.0)
            (pick (λ m. m.1.mtype) (messages self.now) selection) };

    /// Allocates what one more message of this type needs. `Err` means out of memory.
    fn prepare(&mut self, mtype: i64) -> Result<(), AllocError>
        ensures unchanged { messages self.new ≡ messages self.old }
        ensures ok { OnOk result (prepared self.new ≡ Some mtype) }
        ensures err { OnErr result (prepared self.new ≡ prepared self.old) };

    /// Adds a message at the end.
    fn put_prepared(&mut self, place: u64, message: Message<B>)
        requires prepared { prepared self.old ≡ Some message.mtype }
        requires above { All (λ m. m.0 < place) (messages self.old) }
        ensures added { messages self.new ≡ messages self.old ++ (place, message) ∷ [] }
        ensures unprepared { prepared self.new ≡ None };

    /// Takes out the message at this place.
    fn take(&mut self, place: u64) -> Message<B>
        requires { IsSome (message_at place (messages self.old)) }
        ensures taken { message_at place (messages self.old) ≡ Some result }
        ensures rest { messages self.new ≡ without place (messages self.old) }
        ensures unprepared { prepared self.new ≡ None };

    /// The number of bytes of the message at this place.
    fn length_of(&self, place: u64) -> u64
        requires { IsSome (message_at place (messages self.now)) }
        ensures { IfSome (message_at place (messages self.now)) (λ m.
            result ≡ length (B.bytes m.body)) };

    /// The headers of the pending messages, in the order of sending. `Err` means out of memory.
    fn headers(&self, alloc: Global) -> Result<Vec<Header>, AllocError>
        ensures { IfOk result (λ headers. headers.items
            ≡ headers_of B.bytes (messages self.now)) };

    /// Takes out some message, or returns `None` where the list is empty: so a list is emptied
    /// whose bodies can't be dropped.
    fn pop_any(&mut self) -> Option<Message<B>>
        ensures none { IfNone result ((messages self.old ≡ []) × (messages self.new ≡ [])) }
        ensures some { IfSome result (λ m.
            (place : ℕ) × IsPermutation ((place, m) ∷ messages self.new) (messages self.old)) }
        ensures unprepared { prepared self.new ≡ None };

    /// Ends an empty list, and frees its memory.
    fn end(self)
        requires { messages self ≡ [] };
}

/// Drops every message and ends the list, where bodies can be dropped.
pub fn discard<B: Body + Drop, W: Waiting<B>>(waiting: W) {
    let mut waiting = waiting;
    while let Some(_message) = waiting.pop_any() {}
    waiting.end();
}
