//! The parts of the index of pending messages: the least place over all types, compared with a
//! linear search, and the FIFO queue of one type.

ghost use Rattle.std.specs.Prelude.{◌≡◌, ◌+◌, ◌<◌, ◌≤◌, ◌++◌, ◌∷◌, [], ℕ, ℤ, All, Some};
ghost use Rattle.std.specs.Prelude.{IfNone, IfSome, OnOk, length, map};
ghost use Rattle.mq_select.specs.FirstPlaces.{first_of};

use mq_message::{Message, VecBody};
use mq_select::{FirstPlaces, Room, TypeQueue};
use std::alloc::{AllocError, Global};
use std::process::Abort;
use std::test::Fail;

/// How many types there are in a test.
const TYPES: usize = 16;

/// The next number of a pseudorandom sequence.
fn next(seed: u64) -> u64 {
    seed.wrapping_mul(6364136223846793005)
        .wrapping_add(1442695040888963407)
}

/// A type that has no place is entered with this one; another moves on to it, or leaves.
fn step(fronts: &mut FirstPlaces, mtype: i64, place: u64, leaves: bool) -> Result<(), AllocError>
    requires { (t : ℤ) (n : ℕ) → first_of fronts.old t ≡ Some n → n ≤ place }
    ensures { OnOk result ((t : ℤ) (n : ℕ) → first_of fronts.new t ≡ Some n → n ≤ place) }
{
    match fronts.place_of(mtype) {
        None => {
            fronts.reserve()?;
            fronts.add(mtype, place);
        }
        Some(_) if leaves => fronts.take_out(mtype),
        Some(_) => fronts.move_on(mtype, place),
    }
    Ok(())
}

/// The least of these places but for one type's, by a linear search.
fn least(places: &[Option<u64>; TYPES], other: usize) -> Option<u64> {
    let mut least = None;
    for i in 0..TYPES {
        if let Some(place) = places[i] {
            if i != other && least.is_none_or(|least| place < least) {
                least = Some(place);
            }
        }
    }
    least
}

/// Checks the first place of each type, and the least of all.
fn told(rt: &impl Abort, fronts: &FirstPlaces, places: &[Option<u64>; TYPES]) {
    holds!(rt; fronts.least() == least(places, TYPES));
    for mtype in 0..TYPES {
        holds!(rt; fronts.place_of(mtype as i64) == places[mtype]);
        holds!(rt; fronts.least_beside(mtype as i64) == least(places, mtype));
    }
}

#[test]
fn the_least_places_are_those_of_a_search(rt: HostRuntime) -> Result<(), Fail> {
    let mut fronts = FirstPlaces::new(rt.alloc());
    let mut places = [None; TYPES];
    let mut seed = 1;
    for place in 0..2000 {
        seed = next(seed);
        let mtype = (seed >> 33) as usize % TYPES;
        let leaves = seed >> 40 & 1 == 0;
        step(&mut fronts, mtype as i64, place, leaves)?;
        let left = places[mtype].is_some() && leaves;
        places[mtype] = if left { None } else { Some(place) };
        told(&rt, &fronts, &places);
    }
    Ok(())
}

/// The least place, those beside the types 1 and -1, and the place of the type -1.
fn few_told(fronts: &FirstPlaces) -> [Option<u64>; 4] {
    [
        fronts.least(),
        fronts.least_beside(1),
        fronts.least_beside(-1),
        fronts.place_of(-1),
    ]
}

#[test]
fn of_no_type_there_is_no_least_place(rt: HostRuntime) -> Result<(), Fail> {
    let mut fronts = FirstPlaces::new(rt.alloc());
    holds!(rt; few_told(&fronts) == [None; 4]);
    fronts.take_out(1);
    fronts.reserve()?;
    fronts.add(-1, 0);
    holds!(rt; few_told(&fronts) == [Some(0), Some(0), None, Some(0)]);
    Ok(())
}

/// Puts a message at the end, with its place as its tag too.
fn put(
    alloc: Global,
    queue: &mut TypeQueue<VecBody>,
    room: &mut Room<VecBody>,
    place: u64,
) -> Result<(), AllocError>
    requires few { length queue.old < 1000 }
    requires above { All (λ m. m.0 < place) queue.old }
    ensures few { OnOk result (length queue.new ≡ length queue.old + 1) }
    ensures above { OnOk result (All (λ m. m.0 < place + 1) queue.new) }
    ensures places { OnOk result
        (map (λ m. m.0) queue.new ≡ map (λ m. m.0) queue.old ++ place ∷ []) }
{
    room.make()?;
    let body = VecBody::from_slice(alloc, b"text")?;
    let message = Message {
        mtype: 1,
        sender: 1,
        tag: place,
        body,
    };
    queue.put(room, place, message);
    Ok(())
}

/// Three messages, at the places 0, 1 and 2.
fn put_three(
    alloc: Global,
    queue: &mut TypeQueue<VecBody>,
    room: &mut Room<VecBody>,
) -> Result<(), AllocError>
    requires { queue.old ≡ [] }
    ensures { OnOk result (map (λ m. m.0) queue.new ≡ 0 ∷ 1 ∷ 2 ∷ []) }
{
    put(alloc, queue, room, 0)?;
    put(alloc, queue, room, 1)?;
    put(alloc, queue, room, 2)
}

/// Takes out the first message, and returns its tag.
fn pop(queue: &mut TypeQueue<VecBody>) -> Option<u64>
    ensures none { IfNone result (queue.new ≡ []) }
    ensures some { IfSome result (λ _. length queue.new < length queue.old) }
{
    let place = queue.first()?;
    let message = queue.take(place);
    Some(message.tag)
}

/// The tags of all messages in the order in which they leave, at the end of the queue.
fn emptied(alloc: Global, queue: TypeQueue<VecBody>) -> Result<Vec<u64>, AllocError> {
    let mut queue = queue;
    let mut tags = Vec::new(alloc);
    let mut refused = false;
    while let Some(tag) = pop(&mut queue) {
        refused |= tags.push(tag).is_err();
    }
    queue.end();
    if refused { Err(AllocError) } else { Ok(tags) }
}

/// The tags that are left of three once the message in their middle, or none, has left.
fn left_of_three(alloc: Global, middle: bool) -> Result<Vec<u64>, AllocError> {
    let mut queue = TypeQueue::new(alloc);
    let mut room = Room::new(alloc);
    let put = put_three(alloc, &mut queue, &mut room);
    room.end();
    // The message leaves only where its length is right.
    if put.is_ok() && middle && queue.length_of(1) == 4 {
        let _message = queue.take(1);
    }
    let left = emptied(alloc, queue);
    put?;
    left
}

#[test]
fn messages_of_a_type_leave_in_their_order(rt: HostRuntime) -> Result<(), Fail> {
    let all = left_of_three(rt.alloc(), false)?;
    holds!(rt; all.as_slice() == [0, 1, 2].as_slice());
    let rest = left_of_three(rt.alloc(), true)?;
    holds!(rt; rest.as_slice() == [0, 2].as_slice());
    Ok(())
}
