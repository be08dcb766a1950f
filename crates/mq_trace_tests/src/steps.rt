//! What the entries of a list say.

use crate::lists::{base, header, last, past, since};
use mq_calls::ClosedSlot;
use mq_message::Header;
use mq_queue::Event;
use mq_table::Cut;
use mq_trace::{SlotEntries, Step, Steps};
use std::process::Abort;
use std::test::Fail;

/// What is said of an entry beside its event.
type Said = (u64, u32, Option<Header>, u64, u64);

/// The steps are these events, and say this of them.
fn are(rt: &impl Abort, mut steps: Steps<'_>, events: &[Event], said: &[Said]) {
    for (event, (entry, id, message, qnum, cbytes)) in events.iter().zip(said) {
        let expected = Step {
            entry: *entry,
            id: *id,
            event: *event,
            message: *message,
            qnum: *qnum,
            cbytes: *cbytes,
        };
        holds!(*rt; steps.next() == Some(expected), "a step is another");
    }
    holds!(*rt; steps.next().is_none(), "a step is too many");
    holds!(*rt; events.len() == said.len(), "the test says too little");
}

#[test]
fn a_queue_begins_anew_after_a_removal(rt: HostRuntime) -> Result<(), Fail> {
    let (before, after) = (past(), last());
    let closed = ClosedSlot {
        first: 0,
        made: 0,
        base: None,
        past: Vec::from_slice(rt.alloc(), &before)?,
        last: Vec::from_slice(rt.alloc(), &after)?,
        left: 1,
    };
    let said = [
        (0, 5, None, 0, 0),
        (1, 5, Some(header(1, 5, 3, 4)), 1, 4),
        (2, 5, Some(header(2, 6, 2, 1)), 2, 5),
        (3, 5, Some(header(1, 5, 3, 4)), 1, 1),
        (4, 5, None, 1, 1),
        (5, 5, None, 0, 0),
        (6, 69, None, 0, 0),
        (7, 69, Some(header(1, 9, 1, 2)), 1, 2),
        (8, 69, Some(header(2, 10, 4, 3)), 2, 5),
        (9, 69, Some(header(1, 9, 1, 2)), 1, 3),
    ];
    let entries = SlotEntries::of_closed(5, &closed);
    let mut events = Vec::from_slice(rt.alloc(), &before)?;
    events.extend_from_slice(&after)?;
    are(&rt, entries.steps(), &events, &said);
    Ok(())
}

#[test]
fn a_drained_log_continues_from_its_base(rt: HostRuntime) -> Result<(), Fail> {
    let cut = Cut {
        first: 30,
        made: 2,
        base: Some(base(rt.alloc())?),
        past: Vec::new(rt.alloc()),
        last: Vec::from_slice(rt.alloc(), &since())?,
    };
    let said = [
        (30, 64, Some(header(4, 40, 5, 2)), 1, 4),
        (31, 64, Some(header(6, 50, 6, 7)), 2, 11),
        (32, 64, Some(header(6, 50, 6, 7)), 1, 4),
        (33, 64, Some(header(2, 20, 3, 4)), 0, 0),
        (34, 64, None, 0, 0),
    ];
    are(&rt, SlotEntries::of_cut(0, &cut).steps(), &since(), &said);
    Ok(())
}

/// Messages that waited in no order are found too, and places past the greatest are not found.
#[test]
fn a_list_that_no_queue_leaves_has_steps(rt: HostRuntime) -> Result<(), Fail> {
    let mut odd = base(rt.alloc())?;
    odd.waiting = mq_queue::BaseEntries::of(Vec::from_array(
        rt.alloc(),
        [
            header(4, 40, 5, 2),
            header(2, 20, 3, 4),
            header(4, 41, 5, 2),
        ],
    )?);
    let events = since();
    let entries = SlotEntries {
        slot: 63,
        first: u64::MAX,
        made: u32::MAX,
        base: Some(&odd),
        past: &events,
        last: &[],
    };
    let said = [
        (u64::MAX, u32::MAX, Some(header(4, 40, 5, 2)), 1, 4),
        (u64::MAX, u32::MAX, Some(header(6, 50, 6, 7)), 2, 11),
        (u64::MAX, u32::MAX, Some(header(6, 50, 6, 7)), 1, 4),
        (u64::MAX, u32::MAX, Some(header(2, 20, 3, 4)), 0, 0),
        (u64::MAX, u32::MAX, None, 0, 0),
    ];
    are(&rt, entries.steps(), &since(), &said);
    Ok(())
}
