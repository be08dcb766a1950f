//! The plain waiting list: which message each selection of msgop(2) picks, that a message is
//! returned whole, and that a failed allocation leaves the list unchanged.

ghost use Rattle.std.specs.Prelude.{◌+◌, ◌<◌, All, OnOk};

use mq_message::Selection::{Any, Exact, Except, UpTo};
use mq_message::{Body, Message, Selection, VecBody, Waiting, discard};
use mq_select::ListWaiting;
use std::alloc::{AllocError, Global};
use std::process::Abort;
use std::test::Fail;

/// Puts a message at the end, with its place as its tag too.
fn put<W: Waiting<VecBody>>(
    alloc: Global,
    list: &mut W,
    place: u64,
    mtype: i64,
    text: &[u8],
) -> Result<(), AllocError>
    requires above { All (λ m. m.0 < place) (W.messages list.old) }
    ensures below { OnOk result (All (λ m. m.0 < place + 1) (W.messages list.new)) }
{
    let body = VecBody::from_slice(alloc, text)?;
    list.prepare(mtype)?;
    let message = Message {
        mtype,
        sender: 1,
        tag: place,
        body,
    };
    list.put_prepared(place, message);
    Ok(())
}

/// A list of pending messages of these types, at the places from 0 on.
fn filled<W: Waiting<VecBody>>(alloc: Global, types: &[i64]) -> Result<W, AllocError> {
    let mut list = W::fresh(alloc);
    for i in 0..types.len() {
        if let Err(refused) = put(alloc, &mut list, i as u64, types[i], b"text") {
            discard(list);
            return Err(refused);
        }
    }
    Ok(list)
}

fn receive<W: Waiting<VecBody>>(list: &mut W, selection: Selection) -> Option<Message<VecBody>> {
    let place = list.find(selection)?;
    Some(list.take(place))
}

/// Which messages the selections return, one after another, by their tags.
fn handed_out<W: Waiting<VecBody>>(
    alloc: Global,
    list: &mut W,
    selections: &[Selection],
) -> Result<Vec<Option<u64>>, AllocError> {
    let mut tags = Vec::new(alloc);
    for selection in selections {
        let tag = match receive(list, *selection) {
            Some(message) => Some(message.tag),
            None => None,
        };
        tags.push(tag)?;
    }
    Ok(tags)
}

/// Which of the messages of these types the selections return, by their places.
fn places_of<W: Waiting<VecBody>>(
    alloc: Global,
    types: &[i64],
    selections: &[Selection],
) -> Result<Vec<Option<u64>>, AllocError> {
    let mut list: W = filled(alloc, types)?;
    let places = handed_out(alloc, &mut list, selections);
    discard(list);
    places
}

/// The length of the message that a receive would return.
fn length_ahead<W: Waiting<VecBody>>(list: &W, selection: Selection) -> Option<u64> {
    let place = list.find(selection)?;
    Some(list.length_of(place))
}

/// Takes out every message: the tags, from the least on.
fn popped<W: Waiting<VecBody>>(alloc: Global, list: &mut W) -> Result<Vec<u64>, AllocError> {
    let mut tags = Vec::new(alloc);
    while let Some(message) = list.pop_any() {
        tags.push(message.tag)?;
    }
    tags.sort_unstable();
    Ok(tags)
}

/// The types of messages, selections, and the places of the messages that these return.
const CASES: [(&[i64], &[Selection], &[Option<u64>]); 9] = [
    (
        &[],
        &[Any, UpTo(u64::MAX), Exact(0), Except(0)],
        &[None, None, None, None],
    ),
    (&[2, 1], &[Any, Any, Any], &[Some(0), Some(1), None]),
    (
        &[3, 1, 2, 1],
        &[UpTo(2), UpTo(2), UpTo(2), UpTo(2)],
        &[Some(1), Some(3), Some(2), None],
    ),
    (
        &[7, 5, 7, 4],
        &[Except(7), Except(7), Except(7), Any],
        &[Some(1), Some(3), None, Some(0)],
    ),
    // A bound below every type; the lowest type twice, with others between.
    (
        &[5, 6],
        &[UpTo(4), UpTo(0), UpTo(5)],
        &[None, None, Some(0)],
    ),
    (
        &[9, 4, 6, 4, 4],
        &[UpTo(9), UpTo(9), UpTo(9), UpTo(9)],
        &[Some(1), Some(3), Some(4), Some(2)],
    ),
    // A type that is not there, and one that alone is there.
    (
        &[3, 3],
        &[Except(4), Except(3), Exact(4)],
        &[Some(0), None, None],
    ),
    (
        &[i64::MAX, 8],
        &[UpTo(1 << 63), UpTo(1 << 63), UpTo(1 << 63)],
        &[Some(1), Some(0), None],
    ),
    (
        &[i64::MAX, -1, i64::MIN],
        &[UpTo(0), Exact(i64::MIN), Except(i64::MAX)],
        &[Some(2), None, Some(1)],
    ),
];

#[test]
fn a_selection_hands_out_the_message_that_the_manual_names(rt: HostRuntime) -> Result<(), Fail> {
    for (types, selections, places) in CASES {
        let got = places_of::<ListWaiting<VecBody>>(rt.alloc(), types, selections)?;
        holds!(rt; got.as_slice() == places);
    }
    Ok(())
}

#[test]
fn a_msgtyp_is_read_as_the_manual_says(rt: HostRuntime) {
    let cases = [
        (0, Selection::Any, Selection::Any),
        (1, Selection::Exact(1), Selection::Except(1)),
        (
            i64::MAX,
            Selection::Exact(i64::MAX),
            Selection::Except(i64::MAX),
        ),
        (-1, Selection::UpTo(1), Selection::UpTo(1)),
        (
            -i64::MAX,
            Selection::UpTo(9223372036854775807),
            Selection::UpTo(9223372036854775807),
        ),
        (
            i64::MIN,
            Selection::UpTo(9223372036854775808),
            Selection::UpTo(9223372036854775808),
        ),
    ];
    for (msgtyp, plain, excepting) in cases {
        assert!(rt; Selection::read(msgtyp, false) == plain, "at {msgtyp}");
        assert!(rt; Selection::read(msgtyp, true) == excepting, "at {msgtyp}");
    }
}

/// Checks that this is the message that was put at place 3.
fn check_first(rt: &impl Abort, message: &Message<VecBody>) {
    holds!(rt; (message.mtype, message.sender, message.tag) == (5, 1, 3));
    holds!(rt; message.body.bytes() == b"first".as_slice());
}

#[test]
fn a_message_is_returned_whole(rt: HostRuntime) -> Result<(), Fail> {
    let mut list = ListWaiting::<VecBody>::fresh(rt.alloc());
    let put = put(rt.alloc(), &mut list, 3, 5, b"first");
    let length = length_ahead(&list, Selection::Any);
    let other = length_ahead(&list, Selection::Except(5));
    let message = receive(&mut list, Selection::Any);
    let more = list.find(Selection::Any);
    discard(list);
    put?;
    holds!(rt; length == Some(5));
    holds!(rt; other == None);
    holds!(rt; more == None);
    check_first(&rt, &message.ok_or("nothing waits")?);
    Ok(())
}

#[test]
fn no_message_is_lost_on_the_way_out(rt: HostRuntime) -> Result<(), Fail> {
    for (types, tags) in [
        (&[][..], &[][..]),
        (&[4][..], &[0][..]),
        (&[4, 1, 4][..], &[0, 1, 2][..]),
    ] {
        let mut list: ListWaiting<VecBody> = filled(rt.alloc(), types)?;
        let got = popped(rt.alloc(), &mut list);
        discard(list);
        holds!(rt; got?.as_slice() == tags);
    }
    Ok(())
}

#[test]
fn a_refused_growth_leaves_the_list(rt: HostRuntime) -> Result<(), Fail> {
    let mut list: ListWaiting<VecBody> = filled(rt.alloc(), &[4, 4, 4, 4])?;
    // Whether there is memory for a fifth or not, the four stay, and no other is there.
    let _ = list.prepare(4);
    let got = handed_out(rt.alloc(), &mut list, &[Selection::Any; 5]);
    discard(list);
    holds!(rt; got?.as_slice() == [Some(0), Some(1), Some(2), Some(3), None].as_slice());
    Ok(())
}
