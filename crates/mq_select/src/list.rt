//! The pending messages as a plain list: the form for few messages, and the first layer of many.

ghost use Rattle.std.specs.Prelude.{◌≡◌, ◌==◌, ◌<◌, ◌++◌, ◌∷◌, [], All, AllPairs, IfOk};
ghost use Rattle.std.specs.Prelude.{IsSome, IsTrue, Some, find, int_le, length, map, not, pos, position};
ghost use Rattle.std.specs.Option.{option_map, ForSome};
ghost use Rattle.std.specs.Ordering.{int_eq};
ghost use Rattle.std.specs.VecDeque.{deque_len, deque_capacity};
ghost use Rattle.mq_select.specs.Lowest.{first_lowest, lower_first_of};
ghost use Rattle.mq_message.specs.Waiting.{headers_of, message_at, without};

use mq_message::{Body, Header, Message, Selection, Waiting};
use std::alloc::{AllocError, Global};
use std::collections::VecDeque;
use std::marker::Model;

/// The pending messages in one list, in the order of sending. To find and take the first message
/// takes constant time; any other selection scans the list from its front. It can't be dropped,
/// whatever its bodies are: `end` alone takes it.
pub struct ListWaiting<B> {
    messages: VecDeque<(u64, Message<B>)>,
    /// The type for which there is room for one more message.
    prepared: Option<i64>,
}

impl<B> Model for ListWaiting<B> {
    ghost use Rattle.std.specs.Prelude.{◌<◌, AllPairs};
    ghost use Rattle.std.specs.Option.{ForSome};
    ghost use Rattle.std.specs.VecDeque.{deque_len, deque_capacity};
    ghost use Rattle.mq_message.specs.Waiting.{Listed};

    ghost Value = { Listed B };

    ghost view = { λ w. record { messages = w.messages.items; prepared = w.prepared } };

    ghost invariant = { λ w. AllPairs (λ a b. a.0 < b.0) w.messages.items
        × ForSome w.prepared (λ _. deque_len w.messages < deque_capacity w.messages) };
}

/// A message at its place.
pub type Placed<B> = (u64, Message<B>);

/// The type of a message and its place.
type Head = (i64, u64);

/// Of the first message of the lowest type so far and the next message, the one of the lower type,
/// and the earlier where both are of one type.
fn lower(least: Option<Head>, next: Head) -> Head
    ensures { Some result ≡ lower_first_of least next }
{
    match least {
        Some(least) if least.0 <= next.0 => least,
        _ => next,
    }
}

/// Whether a type is at most the bound.
fn is_within(mtype: i64, bound: u64) -> bool
    ensures { result ≡ int_le mtype (pos bound) }
{
    i128::from(mtype) <= i128::from(bound)
}

/// The first message of the lowest type that is at most the bound, by its type and its place.
fn lowest_within<B>(messages: &VecDeque<Placed<B>>, bound: u64) -> Option<Head>
    ensures { result ≡ first_lowest bound (map (λ m. (m.1.mtype, m.0)) messages.now.items) }
{
    messages
        .iter()
        .map(|m| (m.1.mtype, m.0))
        .filter(|&head| is_within(head.0, bound))
        .fold(None, |least, next| Some(lower(least, next)))
}

/// The place of the first message of the lowest type that is at most the bound.
fn first_within<B>(messages: &VecDeque<Placed<B>>, bound: u64) -> Option<u64>
    ensures { result ≡ option_map (λ m. m.1)
        (first_lowest bound (map (λ m. (m.1.mtype, m.0)) messages.now.items)) }
{
    lowest_within(messages, bound).map(|head| head.1)
}

/// The place of the first message of this type.
fn first_of<B>(messages: &VecDeque<Placed<B>>, wanted: i64) -> Option<u64>
    ensures { result ≡ option_map (λ m. m.0)
        (find (λ m. int_eq m.1.mtype wanted) messages.now.items) }
{
    messages.iter().find(|m| m.1.mtype == wanted).map(|m| m.0)
}

/// The place of the first message of any other type.
fn first_other<B>(messages: &VecDeque<Placed<B>>, other: i64) -> Option<u64>
    ensures { result ≡ option_map (λ m. m.0)
        (find (λ m. not (int_eq m.1.mtype other)) messages.now.items) }
{
    messages.iter().find(|m| m.1.mtype != other).map(|m| m.0)
}

/// Whether the first message is at this place.
fn is_first<B>(messages: &VecDeque<Placed<B>>, place: u64) -> bool
    ensures { IsTrue result → position (λ m. m.0 == place) messages.now.items ≡ Some 0 }
{
    match messages.front() {
        Some(first) => first.0 == place,
        None => false,
    }
}

/// The index of the message at this place: the first, or else found by binary search.
fn index_of<B>(messages: &VecDeque<Placed<B>>, place: u64) -> Option<usize>
    requires { AllPairs (λ a b. a.0 < b.0) messages.now.items }
    ensures { result ≡ position (λ m. m.0 == place) messages.now.items }
{
    if is_first(messages, place) {
        return Some(0);
    }
    messages.binary_search_by_key(&place, |m| m.0).ok()
}

/// Takes out the message at this place, which is found by its index. It is not inlined: the first
/// message, which is taken most often, needs none of it.
#[inline(never)]
fn take_behind<B>(messages: &mut VecDeque<Placed<B>>, place: u64) -> Message<B>
    requires waits { IsSome (message_at place messages.old.items) }
    requires rising { AllPairs (λ a b. a.0 < b.0) messages.old.items }
    ensures taken { message_at place messages.old.items ≡ Some result }
    ensures rest { messages.new.items ≡ without place messages.old.items }
    ensures rising { AllPairs (λ a b. a.0 < b.0) messages.new.items }
{
    let index = index_of(messages, place).unwrap();
    let (_, message) = messages.remove(index).unwrap();
    message
}

/// The headers of the messages, in their order. `Err` means out of memory.
fn headers_in<B: Body>(
    alloc: Global,
    messages: &VecDeque<Placed<B>>,
) -> Result<Vec<Header>, AllocError>
    ensures { IfOk result (λ headers. headers.items ≡ headers_of B.bytes messages.now.items) }
{
    let mut headers = Vec::with_capacity(alloc, messages.len())?;
    for i in 0..messages.len() {
        let (place, message) = &messages[i];
        headers.push(Header {
            place: *place,
            seat: message.sender,
            tag: message.tag,
            mtype: message.mtype,
            length: message.body.len(),
        })?;
    }
    Ok(headers)
}

impl<B> ListWaiting<B> {
    /// How many messages are pending.
    pub fn len(&self) -> usize
        ensures { result ≡ length self.now.messages }
    {
        self.messages.len()
    }

    /// The messages themselves, and the type for which there is room for one more.
    pub fn into_parts(self) -> (VecDeque<Placed<B>>, Option<i64>)
        ensures messages { result.0.items ≡ self.messages }
        ensures prepared { result.1 ≡ self.prepared }
        ensures rising { AllPairs (λ a b. a.0 < b.0) result.0.items }
        ensures room { ForSome result.1 (λ _. deque_len result.0 < deque_capacity result.0) }
    {
        let ListWaiting { messages, prepared } = self;
        (messages, prepared)
    }

    /// A list of these messages, with room for one more if a type is prepared.
    pub fn from_parts(messages: VecDeque<Placed<B>>, prepared: Option<i64>) -> ListWaiting<B>
        requires rising { AllPairs (λ a b. a.0 < b.0) messages.items }
        requires room { ForSome prepared (λ _. deque_len messages < deque_capacity messages) }
        ensures messages { result.messages ≡ messages.items }
        ensures prepared { result.prepared ≡ prepared }
    {
        ListWaiting { messages, prepared }
    }
}

impl<B: Body> Waiting<B> for ListWaiting<B> {
    ghost messages = { λ w. w.messages };

    ghost prepared = { λ w. w.prepared };

    fn fresh(alloc: Global) -> Self {
        ListWaiting {
            messages: VecDeque::new(alloc),
            prepared: None,
        }
    }

    fn places_rise(&self) {
        let _ = &self.prepared;
    }

    fn find(&self, selection: Selection) -> Option<u64> {
        match selection {
            Selection::Any => self.messages.front().map(|m| m.0),
            Selection::Exact(wanted) => first_of(&self.messages, wanted),
            Selection::Except(other) => first_other(&self.messages, other),
            Selection::UpTo(bound) => first_within(&self.messages, bound),
        }
    }

    fn prepare(&mut self, mtype: i64) -> Result<(), AllocError> {
        self.messages.reserve(1)?;
        self.prepared = Some(mtype);
        Ok(())
    }

    fn put_prepared(&mut self, place: u64, message: Message<B>)
        requires prepared { self.old.prepared ≡ Some message.mtype }
        requires above { All (λ m. m.0 < place) self.old.messages }
        ensures added { self.new.messages ≡ self.old.messages ++ (place, message) ∷ [] }
        ensures unprepared { self.new.prepared ≡ None }
    {
        self.prepared = None;
        match self.messages.push_back((place, message)) {
            Ok(()) => (),
            Err(_) => unreachable!(),
        }
    }

    fn take(&mut self, place: u64) -> Message<B> {
        self.prepared = None;
        if is_first(&self.messages, place) {
            let (_, message) = self.messages.pop_front().unwrap();
            return message;
        }
        take_behind(&mut self.messages, place)
    }

    fn length_of(&self, place: u64) -> u64 {
        let index = index_of(&self.messages, place).unwrap();
        self.messages[index].1.body.len()
    }

    fn headers(&self, alloc: Global) -> Result<Vec<Header>, AllocError> {
        headers_in(alloc, &self.messages)
    }

    fn pop_any(&mut self) -> Option<Message<B>> {
        self.prepared = None;
        let (_, message) = self.messages.pop_front()?;
        Some(message)
    }

    fn end(self) {
        let ListWaiting {
            messages,
            prepared: _,
        } = self;
        messages.destroy_empty();
    }
}
