//! The first layer of many pending messages: a FIFO of one type.

ghost use Rattle.std.specs.Prelude.{◌≡◌, [], All, IfOk, IfSome, IsSome, length};
ghost use Rattle.std.specs.Option.{option_map, ForSome};
ghost use Rattle.mq_message.specs.Selection.{pick};
ghost use Rattle.mq_message.specs.Waiting.{headers_of, message_at};
ghost use Rattle.mq_select.specs.Outcome.{CanPut, IsFresh, IsPrepared, IsPut, IsTaken};
ghost use Rattle.mq_select.specs.Same.{listed_of, picks, KeepsType};

use crate::ListWaiting;
use mq_message::{Body, Header, Message, Selection, Waiting};
use std::alloc::{AllocError, Global};
use std::marker::Model;
use std::mem;

/// Pending messages of one type, in a list, however many there are: a selection picks the first of
/// them or none. It can't be dropped, whatever its bodies are: `end` alone takes it.
pub(crate) struct SameType<B> {
    list: ListWaiting<B>,
    mtype: i64,
}

impl<B> Model for SameType<B> {
    ghost use Rattle.std.specs.Prelude.{◌≡◌, All};
    ghost use Rattle.std.specs.Option.{ForSome};
    ghost use Rattle.mq_select.specs.Same.{Same};

    ghost Value = { Same B };

    ghost view = { λ s. record {
      messages = s.list.messages;
      prepared = s.list.prepared;
      mtype = s.mtype;
    } };

    ghost invariant = { λ s. All (λ m. m.1.mtype ≡ s.mtype) s.list.messages
        × ForSome s.list.prepared (λ t. t ≡ s.mtype) };
}

impl<B> SameType<B> {
    /// The type of all its messages.
    pub(crate) fn mtype(&self) -> i64
        ensures { result ≡ self.now.mtype }
    {
        self.mtype
    }

    /// How many messages are pending.
    pub(crate) fn len(&self) -> usize
        ensures { result ≡ length self.now.messages }
    {
        self.list.len()
    }

    /// Whether the selection picks messages of the type.
    fn is_picked(&self, selection: Selection) -> bool
        ensures { result ≡ picks selection self.now.mtype }
    {
        let mtype = self.mtype;
        match selection {
            Selection::Any => true,
            Selection::Exact(wanted) => mtype == wanted,
            Selection::Except(other) => mtype != other,
            Selection::UpTo(bound) => i128::from(mtype) <= i128::from(bound),
        }
    }
}

impl<B: Body> SameType<B> {
    /// An empty list for messages of this type.
    pub(crate) fn new(alloc: Global, mtype: i64) -> SameType<B>
        ensures listed { IsFresh (listed_of result) }
        ensures mtype { result.mtype ≡ mtype }
    {
        SameType {
            list: ListWaiting::fresh(alloc),
            mtype,
        }
    }

    /// Wraps a list whose messages are all of this type.
    pub(crate) fn of(list: ListWaiting<B>, mtype: i64) -> SameType<B>
        requires same { All (λ m. m.1.mtype ≡ mtype) list.messages }
        requires prepared { ForSome list.prepared (λ t. t ≡ mtype) }
        ensures listed { listed_of result ≡ list }
        ensures mtype { result.mtype ≡ mtype }
    {
        SameType { list, mtype }
    }

    /// The place of the message that the selection picks.
    pub(crate) fn find(&self, selection: Selection) -> Option<u64>
        ensures found { result ≡ option_map (λ m. m.0)
            (pick (λ m. m.1.mtype) self.now.messages selection) }
        ensures same { All (λ m. m.1.mtype ≡ self.now.mtype) self.now.messages }
    {
        if self.is_picked(selection) {
            self.list.find(Selection::Any)
        } else {
            None
        }
    }

    /// Allocates room for one more message of the type. `Err` means out of memory.
    pub(crate) fn prepare(&mut self) -> Result<(), AllocError>
        ensures { KeepsType (IsPrepared self.old.mtype result) self.old self.new }
    {
        self.list.prepare(self.mtype)
    }

    /// Adds a message of the type at the end.
    pub(crate) fn put_prepared(&mut self, place: u64, message: Message<B>)
        requires { CanPut place message (listed_of self.old) }
        ensures { KeepsType (IsPut place message) self.old self.new }
    {
        self.list.put_prepared(place, message);
    }

    /// Takes out the message at this place.
    pub(crate) fn take(&mut self, place: u64) -> Message<B>
        requires { IsSome (message_at place self.old.messages) }
        ensures { KeepsType (IsTaken place result) self.old self.new }
    {
        self.list.take(place)
    }

    /// The number of bytes of the message at this place.
    pub(crate) fn length_of(&self, place: u64) -> u64
        requires { IsSome (message_at place self.now.messages) }
        ensures { IfSome (message_at place self.now.messages)
            (λ m. result ≡ length (B.bytes m.body)) }
    {
        self.list.length_of(place)
    }

    /// The headers of the messages, in the order of sending. `Err` means out of memory.
    pub(crate) fn headers(&self, alloc: Global) -> Result<Vec<Header>, AllocError>
        ensures { IfOk result (λ headers. headers.items ≡ headers_of B.bytes self.now.messages) }
    {
        self.list.headers(alloc)
    }

    /// Frees the buffer of the list, if no message is pending.
    pub(crate) fn give_back(&mut self, alloc: Global)
        ensures { KeepsType (λ old new. new.messages ≡ old.messages) self.old self.new }
    {
        if self.len() == 0 {
            mem::replace(&mut self.list, ListWaiting::fresh(alloc)).end();
        }
    }

    /// Ends an empty list.
    pub(crate) fn end(self)
        requires { self.messages ≡ [] }
    {
        let SameType { list, mtype: _ } = self;
        list.end();
    }
}
