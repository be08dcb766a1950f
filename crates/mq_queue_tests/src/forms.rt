//! The waiting lists, compared with the plain one on fixed and pseudorandom steps; and a full queue
//! in which each message has a type of its own.

use crate::steps::{Step, places};
use mq_message::{Selection, VecBody, Waiting};
use mq_select::{ByType, IndexWaiting, Layered, ListWaiting};
use std::alloc::{AllocError, Global};
use std::process::Abort;
use std::test::Fail;

type List = ListWaiting<VecBody>;

type Typed = ByType<VecBody>;

type Layers = Layered<VecBody>;

type Index = IndexWaiting<VecBody>;

/// The quota of a queue that is filled with empty messages: how many fit into it.
const MOST: u64 = 16_384;

/// Checks the answers of one form, step by step.
fn check_form<W: Waiting<VecBody>>(
    rt: &impl Abort,
    alloc: Global,
    steps: &[Step],
    wanted: &[Option<u64>],
) -> Result<(), AllocError> {
    let told = places::<W>(alloc, steps)?;
    holds!(rt; told.as_slice() == wanted);
    Ok(())
}

/// Checks the answers of each form.
fn check(
    rt: &impl Abort,
    alloc: Global,
    steps: &[Step],
    wanted: &[Option<u64>],
) -> Result<(), AllocError> {
    check_form::<List>(rt, alloc, steps, wanted)?;
    check_form::<Typed>(rt, alloc, steps, wanted)?;
    check_form::<Layers>(rt, alloc, steps, wanted)?;
    check_form::<Index>(rt, alloc, steps, wanted)
}

#[test]
fn with_types_up_to_a_bound_the_lowest_is_received_first(rt: HostRuntime) -> Result<(), Fail> {
    let lowest = Step::Receive(Selection::UpTo(2));
    let steps = [
        Step::Send(3),
        Step::Send(1),
        Step::Send(2),
        Step::Send(1),
        lowest,
        lowest,
        lowest,
        lowest,
        Step::Receive(Selection::UpTo(3)),
    ];
    let wanted = [
        Some(1),
        Some(2),
        Some(3),
        Some(4),
        Some(2),
        Some(4),
        Some(3),
        None,
        Some(1),
    ];
    check(&rt, rt.alloc(), &steps, &wanted)?;
    Ok(())
}

#[test]
fn with_a_type_excepted_the_others_are_received_in_their_order(
    rt: HostRuntime,
) -> Result<(), Fail> {
    let other = Step::Receive(Selection::Except(7));
    let steps = [
        other,
        Step::Send(7),
        other,
        Step::Send(5),
        Step::Send(7),
        Step::Send(4),
        other,
        other,
        other,
        Step::Receive(Selection::Any),
        Step::Receive(Selection::Any),
        Step::Receive(Selection::Any),
    ];
    let wanted = [
        None,
        Some(1),
        None,
        Some(2),
        Some(3),
        Some(4),
        Some(2),
        Some(4),
        None,
        Some(1),
        Some(3),
        None,
    ];
    check(&rt, rt.alloc(), &steps, &wanted)?;
    Ok(())
}

#[test]
fn with_one_type_its_first_message_is_received(rt: HostRuntime) -> Result<(), Fail> {
    let fives = Step::Receive(Selection::Exact(5));
    let widest = Step::Receive(Selection::UpTo(1 << 63));
    let steps = [
        Step::Send(i64::MAX),
        Step::Send(5),
        Step::Send(5),
        Step::Receive(Selection::Exact(6)),
        fives,
        fives,
        fives,
        Step::Receive(Selection::UpTo(i64::MAX as u64 - 1)),
        widest,
        widest,
    ];
    let wanted = [
        Some(1),
        Some(2),
        Some(3),
        None,
        Some(2),
        Some(3),
        None,
        None,
        Some(1),
        None,
    ];
    check(&rt, rt.alloc(), &steps, &wanted)?;
    Ok(())
}

/// The next number of a pseudorandom sequence.
fn next(seed: u64) -> u64 {
    seed.wrapping_mul(6364136223846793005)
        .wrapping_add(1442695040888963407)
}

/// A step that the seed picks, of which that many of ten send.
fn step(seed: u64, types: u64, sends: u64) -> Step {
    let mtype = 1 + (seed >> 33) % types.max(1);
    let kind = (seed >> 17) % 10;
    if kind < sends {
        return Step::Send(mtype as i64);
    }
    match (seed >> 11) % 4 {
        0 => Step::Receive(Selection::Any),
        1 => Step::Receive(Selection::Exact(mtype as i64)),
        2 => Step::Receive(Selection::Except(mtype as i64)),
        _ => Step::Receive(Selection::UpTo(mtype)),
    }
}

/// A list of steps on up to that many types: at first most of them send, then few, then half of
/// them. It ends with pending messages.
fn generated(alloc: Global, seed: u64, types: u64) -> Result<Vec<Step>, AllocError> {
    let mut steps = Vec::new(alloc);
    let mut seed = next(seed);
    for i in 0..300u32 {
        seed = next(seed);
        let sends = if i < 70 {
            8
        } else if i < 200 {
            2
        } else {
            6
        };
        steps.push(step(seed, types, sends))?;
    }
    Ok(steps)
}

/// Whether more than 32 messages are pending after one of the steps, and at most 8 after a later
/// one.
fn crosses(steps: &[Step], answers: &[Option<u64>]) -> bool {
    let mut waiting = 0u64;
    let mut many = false;
    for i in 0..steps.len().min(answers.len()) {
        match steps[i] {
            Step::Send(_) => waiting = waiting.wrapping_add(1),
            Step::Receive(_) if answers[i].is_some() => waiting = waiting.wrapping_sub(1),
            Step::Receive(_) | Step::Set(_) => (),
        }
        if 32 < waiting {
            many = true;
        }
        if many && waiting <= 8 {
            return true;
        }
    }
    false
}

/// Whether the list of steps crosses to many messages and back, where the forms give the same
/// answers; `None` where they differ.
fn agree(alloc: Global, steps: &[Step]) -> Result<Option<bool>, AllocError> {
    let wanted = places::<List>(alloc, steps)?;
    let typed = places::<Typed>(alloc, steps)?;
    let told = places::<Index>(alloc, steps)?;
    if *typed.as_slice() != *wanted.as_slice() || *told.as_slice() != *wanted.as_slice() {
        return Ok(None);
    }
    Ok(Some(crosses(steps, wanted.as_slice())))
}

#[test]
fn the_forms_give_the_same_answers(rt: HostRuntime) -> Result<(), Fail> {
    let mut crossed = 0u64;
    for seed in 0..1000u64 {
        let steps = generated(rt.alloc(), seed, 1 + seed % 40)?;
        let Some(crosses) = agree(rt.alloc(), &steps)? else {
            return Err("the forms differ".into());
        };
        crossed = crossed.wrapping_add(u64::from(crosses));
    }
    holds!(rt; 500 < crossed);
    Ok(())
}

/// A list of steps that sends messages of the type 2, and then some of three types between
/// receipts: at first as many as these, then few, then most of them. It ends with pending
/// messages.
fn layered(alloc: Global, seed: u64, first: u64) -> Result<Vec<Step>, AllocError> {
    let mut steps = Vec::new(alloc);
    for _ in 0..first {
        steps.push(Step::Send(2))?;
    }
    let mut seed = next(seed);
    for i in 0..600u32 {
        seed = next(seed);
        let sends = if i < 150 {
            5
        } else if i < 520 {
            1
        } else {
            9
        };
        steps.push(step(seed, 3, sends))?;
    }
    Ok(steps)
}

/// Messages of one type and those of others behind them, whatever is selected.
#[test]
fn behind_one_type_the_forms_give_the_same_answers(rt: HostRuntime) -> Result<(), Fail> {
    let mut crossed = 0u64;
    for seed in 0..150u64 {
        let steps = layered(rt.alloc(), seed, 30 + seed)?;
        let Some(crosses) = agree(rt.alloc(), &steps)? else {
            return Err("the forms differ".into());
        };
        let wanted = places::<List>(rt.alloc(), &steps)?;
        check_form::<Layers>(&rt, rt.alloc(), &steps, &wanted)?;
        crossed = crossed.wrapping_add(u64::from(crosses));
    }
    holds!(rt; 100 < crossed);
    Ok(())
}

/// Forty messages are sent, and all but some received by selections that except a type: twice.
fn there_and_back(alloc: Global) -> Result<Vec<Step>, AllocError> {
    let mut steps = Vec::new(alloc);
    for i in 0..160u32 {
        let mtype = i64::from(i % 5) + 1;
        let sends = i % 80 < 40;
        steps.push(if sends {
            Step::Send(mtype)
        } else {
            Step::Receive(Selection::Except(mtype))
        })?;
    }
    Ok(steps)
}

/// Run with each allocation refused in turn: a call that is refused at a crossing is retried.
#[test]
fn a_refused_crossing_continues_where_it_was(rt: HostRuntime) -> Result<(), Fail> {
    let steps = there_and_back(rt.alloc())?;
    holds!(rt; agree(rt.alloc(), &steps)? == Some(true));
    Ok(())
}

/// Messages of one type, then of others, then all but some are received: twice over.
fn layer_upon_layer(alloc: Global) -> Result<Vec<Step>, AllocError> {
    let mut steps = Vec::new(alloc);
    for i in 0..200u32 {
        let phase = i % 100;
        steps.push(if phase < 40 {
            Step::Send(5)
        } else if phase < 50 {
            Step::Send(i64::from(i % 3) + 4)
        } else if phase < 75 {
            Step::Receive(Selection::UpTo(5))
        } else {
            Step::Receive(Selection::Any)
        })?;
    }
    Ok(steps)
}

/// Run with each allocation refused in turn: a refusal in one layer leaves both unchanged.
#[test]
fn a_refused_layer_continues_where_it_was(rt: HostRuntime) -> Result<(), Fail> {
    let steps = layer_upon_layer(rt.alloc())?;
    holds!(rt; agree(rt.alloc(), &steps)? == Some(true));
    Ok(())
}

/// The type of a message, which no other message has; its text is empty.
fn type_of(place: u64) -> i64 {
    ((place % MOST * 5 % MOST + 1) * 8) as i64
}

/// As many messages as fit are sent, at the places from 2 on, then one more, and all are received
/// by these selections.
fn emptied(alloc: Global, selection_of: &[Selection]) -> Result<Vec<Option<u64>>, AllocError> {
    let mut steps = Vec::new(alloc);
    steps.push(Step::Set(MOST))?;
    for i in 0..MOST {
        steps.push(Step::Send(type_of(i + 2)))?;
    }
    steps.push(Step::Send(type_of(2)))?;
    for selection in selection_of {
        steps.push(Step::Receive(*selection))?;
    }
    places::<Index>(alloc, &steps)
}

/// The same selection for each of as many messages as fit.
fn repeated(alloc: Global, selection: Selection) -> Result<Vec<Selection>, AllocError> {
    let mut selections = Vec::new(alloc);
    for _ in 0..MOST {
        selections.push(selection)?;
    }
    Ok(selections)
}

/// For each of these messages, in the order of sending, the selection of its type.
fn each_type(alloc: Global) -> Result<Vec<Selection>, AllocError> {
    let mut selections = Vec::new(alloc);
    for i in 0..MOST {
        selections.push(Selection::Exact(type_of(i + 2)))?;
    }
    Ok(selections)
}

/// Checks that the quota is set and each of these messages sent, but not the one more.
fn all_sent(rt: &impl Abort, told: &[Option<u64>]) {
    for i in 0..MOST + 1 {
        holds!(rt; told.get(i as usize).copied() == Some(Some(i + 1)));
    }
    holds!(rt; told.get(MOST as usize + 1).copied() == Some(None), "one more is sent");
}

/// Checks that the messages are received in the order of sending, from this place on.
fn received_from(rt: &impl Abort, told: &[Option<u64>], first: u64) {
    for i in 0..MOST {
        let place = first.wrapping_add(i);
        let wanted = if place < MOST + 2 { Some(place) } else { None };
        holds!(rt; told.get((MOST + 2 + i) as usize).copied() == Some(wanted));
    }
}

/// Checks that each message that is received has a higher type than the one before.
fn received_by_type(rt: &impl Abort, told: &[Option<u64>]) {
    let mut last = 0;
    for i in 0..MOST {
        let Some(Some(place)) = told.get((MOST + 2 + i) as usize).copied() else {
            panic!(rt; "nothing waits");
        };
        holds!(rt; last < type_of(place));
        last = type_of(place);
    }
}

#[test]
fn a_full_queue_of_as_many_types_is_emptied(rt: HostRuntime) -> Result<(), Fail> {
    let alloc = rt.alloc();
    let by_any = emptied(alloc, &repeated(alloc, Selection::Any)?)?;
    let by_exact = emptied(alloc, &each_type(alloc)?)?;
    let by_except = emptied(alloc, &repeated(alloc, Selection::Except(type_of(2)))?)?;
    let by_lowest = emptied(alloc, &repeated(alloc, Selection::UpTo(u64::MAX))?)?;
    all_sent(&rt, &by_any);
    received_from(&rt, &by_any, 2);
    received_from(&rt, &by_exact, 2);
    received_from(&rt, &by_except, 3);
    received_by_type(&rt, &by_lowest);
    Ok(())
}
