//! The queues of the messages of each type, in an ordered map by type.

ghost use Rattle.std.specs.Prelude.{◌≡◌, ◌≢◌, ◌<◌, ◌^◌, ◌++◌, ◌∷◌, [], ℤ, cond, true, false};
ghost use Rattle.std.specs.Prelude.{Some, All, IfSome, IsSome, OnErr, OnOk, length};
ghost use Rattle.std.specs.Prelude.{find, nat_lt, slice_get};
ghost use Rattle.std.specs.BTreeMap.{IsOrdered};
ghost use Rattle.std.specs.Option.{option_map};
ghost use Rattle.std.specs.Ordering.{int_cmp, int_eq};
ghost use Rattle.mq_message.specs.Waiting.{headers_of, message_at, without};
ghost use Rattle.mq_select.specs.ByType.{gathered, queue_at, queue_of, some_wait, unless_empty};

use crate::{Room, TypeQueue};
use mq_message::{Body, Header, Message};
use std::alloc::{AllocError, Global};
use std::collections::BTreeMap;

/// The queue of each type.
pub(crate) type Queues<B> = BTreeMap<i64, TypeQueue<B>>;

/// The most messages of a type.
const MOST: usize = 1 << 62;

/// Whether there is room for one more message of this type.
pub(crate) fn has_room<B>(queues: &Queues<B>, mtype: i64) -> bool
    ensures { result ≡ nat_lt (length (queue_of queues.now.entries mtype)) (2 ^ 62) }
{
    match queues.get(&mtype) {
        Some(queue) => queue.len() < MOST,
        None => true,
    }
}

/// Consumes `None`: there is no queue to drop.
fn let_go<B>(queue: Option<TypeQueue<B>>)
    requires { queue ≡ None }
{
    match queue {
        None => (),
        Some(_) => unreachable!(),
    }
}

/// Makes a queue of this type, unless there is one. `Err` means out of memory.
pub(crate) fn make<B>(queues: &mut Queues<B>, alloc: Global, mtype: i64) -> Result<(), AllocError>
    ensures ok { OnOk result ((t : ℤ) → queue_at queues.new.entries t
        ≡ cond (int_eq mtype t) (Some (queue_of queues.old.entries t))
        (queue_at queues.old.entries t)) }
    ensures unchanged { OnErr result (queues.new.entries ≡ queues.old.entries) }
    ensures refused { OnErr result (queue_at queues.old.entries mtype ≡ None) }
    ensures ordered { IsOrdered int_cmp queues.new }
{
    // The length is what says that the types ascend.
    let _len = queues.len();
    if queues.contains_key(&mtype) {
        return Ok(());
    }
    match queues.insert(mtype, TypeQueue::new(alloc)) {
        Ok(older) => {
            let_go(older);
            Ok(())
        }
        Err(refused) => {
            let (_, queue) = refused.value;
            queue.end();
            Err(AllocError)
        }
    }
}

/// Removes the queue of this type, if it is empty.
pub(crate) fn forget_empty<B>(queues: &mut Queues<B>, mtype: i64)
    ensures at { (t : ℤ) → queue_at queues.new.entries t
        ≡ cond (int_eq mtype t) (unless_empty (queue_at queues.old.entries t))
        (queue_at queues.old.entries t) }
    ensures ordered { IsOrdered int_cmp queues.new }
{
    // The length is what says that the types ascend.
    let _len = queues.len();
    if is_empty(queues, mtype) {
        match queues.remove(&mtype) {
            Some(queue) => queue.end(),
            None => (),
        }
    }
}

/// Removes the queue of the older of two types, if there is such a type and the queue is empty.
pub(crate) fn forget_older<B>(queues: &mut Queues<B>, older: Option<i64>, mtype: i64)
    ensures same { (t : ℤ) → queue_of queues.new.entries t ≡ queue_of queues.old.entries t }
    ensures there { queue_at queues.new.entries mtype ≡ queue_at queues.old.entries mtype }
    ensures kept { (t : ℤ) → queue_at queues.new.entries t ≡ Some [] → int_eq mtype t ≡ false
        → (queue_at queues.old.entries t ≡ Some []) × (older ≢ Some t) }
    ensures ordered { IsOrdered int_cmp queues.new }
{
    // The length is what says that the types ascend.
    let _len = queues.len();
    if let Some(older) = older {
        if older != mtype {
            forget_empty(queues, older);
        }
    }
}

/// Whether there is a queue of this type, and it is empty.
fn is_empty<B>(queues: &Queues<B>, mtype: i64) -> bool
    ensures some { result ≡ true → queue_at queues.now.entries mtype ≡ Some [] }
    ensures none { result ≡ false → queue_at queues.now.entries mtype ≢ Some [] }
{
    match queues.get(&mtype) {
        Some(queue) => queue.len() == 0,
        None => false,
    }
}

/// Adds a message at the end of the queue of a type, in the preallocated node.
pub(crate) fn put<B>(
    queues: &mut Queues<B>,
    room: &mut Room<B>,
    mtype: i64,
    place: u64,
    message: Message<B>,
)
    requires there { IsSome (queue_at queues.old.entries mtype) }
    requires room { room.old ≡ true }
    requires few { length (queue_of queues.old.entries mtype) < 2 ^ 62 }
    requires above { All (λ m. m.0 < place) (queue_of queues.old.entries mtype) }
    ensures at { (t : ℤ) → queue_at queues.new.entries t
        ≡ cond (int_eq mtype t)
        (Some (queue_of queues.old.entries t ++ (place, message) ∷ []))
        (queue_at queues.old.entries t) }
    ensures ordered { IsOrdered int_cmp queues.new }
    ensures used { room.new ≡ false }
{
    let queue = queues.get_mut(&mtype).unwrap();
    queue.put(room, place, message);
}

/// Takes a message out of the queue of this type, which stays even if that was its last.
fn take_from<B>(queues: &mut Queues<B>, mtype: i64, place: u64) -> Message<B>
    requires { IsSome (message_at place (queue_of queues.old.entries mtype)) }
    ensures taken { message_at place (queue_of queues.old.entries mtype) ≡ Some result }
    ensures at { (t : ℤ) → queue_at queues.new.entries t
        ≡ cond (int_eq mtype t) (Some (without place (queue_of queues.old.entries t)))
        (queue_at queues.old.entries t) }
{
    let queue = queues.get_mut(&mtype).unwrap();
    queue.take(place)
}

/// Takes a message out of the queue of its type, and the queue too if that was its last.
pub(crate) fn take<B>(queues: &mut Queues<B>, mtype: i64, place: u64) -> Message<B>
    requires { IsSome (message_at place (queue_of queues.old.entries mtype)) }
    ensures taken { message_at place (queue_of queues.old.entries mtype) ≡ Some result }
    ensures at { (t : ℤ) → queue_at queues.new.entries t
        ≡ cond (int_eq mtype t)
        (unless_empty (Some (without place (queue_of queues.old.entries t))))
        (queue_at queues.old.entries t) }
    ensures ordered { IsOrdered int_cmp queues.new }
{
    let message = take_from(queues, mtype, place);
    forget_empty(queues, mtype);
    message
}

/// The place of the first message of this type.
pub(crate) fn first_of<B>(queues: &Queues<B>, mtype: i64) -> Option<u64>
    ensures { result ≡ option_map (λ m. m.0) (slice_get (queue_of queues.now.entries mtype) 0) }
{
    queues.get(&mtype)?.first()
}

/// The number of bytes of a message.
pub(crate) fn length_of<B: Body>(queues: &Queues<B>, mtype: i64, place: u64) -> u64
    requires { IsSome (message_at place (queue_of queues.now.entries mtype)) }
    ensures { IfSome (message_at place (queue_of queues.now.entries mtype))
        (λ m. result ≡ length (B.bytes m.body)) }
{
    queues.get(&mtype).unwrap().length_of(place)
}

/// Whether any message is in a queue.
fn has_message<B>(queue: &TypeQueue<B>) -> bool
    ensures { result ≡ some_wait queue.now }
{
    0 < queue.len()
}

/// The lowest type of which there is a message.
pub(crate) fn lowest<B>(queues: &Queues<B>) -> Option<i64>
    ensures { result ≡ option_map (λ q. q.0)
        (find (λ q. some_wait q.1) queues.now.entries) }
{
    let mut rest = queues.iter();
    while let Some((mtype, queue)) = rest.next() {
        let waits = has_message(queue);
        if waits {
            return Some(*mtype);
        }
    }
    None
}

/// Adds the headers of the messages, queue by queue. `Err` means out of memory.
pub(crate) fn gather<B: Body>(
    queues: &Queues<B>,
    headers: &mut Vec<Header>,
) -> Result<(), AllocError>
    ensures { OnOk result (headers.new.items
        ≡ headers.old.items ++ headers_of B.bytes (gathered queues.now.entries)) }
{
    let mut rest = queues.iter();
    while let Some((_, queue)) = rest.next() {
        queue.add_headers(headers)?;
    }
    Ok(())
}
