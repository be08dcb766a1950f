//! The drains of a slot's log, joined one behind the other: they must leave no gap and no overlap,
//! and the checkpoint of each must be what the entries before it imply.

use mq::{Base, ClosedSlot, Cut, Errno, Event};
use std::alloc::Global;

/// What is wrong.
#[derive(Debug, Clone, Copy)]
pub(crate) enum Flaw {
    /// No drain begins at this entry.
    Gap(u64),
    /// A drain that begins there counts other makings before it.
    Made(u64),
    /// A drain that begins there has another base.
    Base(u64),
    /// There are as many makings, sendings and receipts.
    Counts((u64, u64, u64)),
    Call(Errno),
    Memory,
}

/// Where the log of the queue begins that these entries leave, or `None` where they leave none.
fn live_from(entries: &[Event]) -> Option<usize> {
    let mut begun = None;
    for (place, entry) in entries.iter().enumerate() {
        match entry {
            Event::Made { .. } => begun = Some(place),
            Event::Removed { .. } => begun = None,
            _ => (),
        }
    }
    begun
}

/// Whether the message that was sent at this place of a log is received in it.
fn is_received(log: &[Event], sent: u64) -> bool {
    log.iter().any(|event| matches!(event, Event::Received { place, .. } if *place == sent))
}

/// Whether a base has the number of a log's events, and the messages that the log leaves pending.
fn is_base(base: &Base, log: &[Event]) -> bool {
    let mut waiting = 0;
    for (place, event) in log.iter().enumerate() {
        let place = place as u64;
        if matches!(event, Event::Sent { .. }) && !is_received(log, place) {
            match base.waiting.get(waiting) {
                Some(entry) if entry.place == place => waiting = waiting.saturating_add(1),
                _ => return false,
            }
        }
    }
    let counted = (base.waiting.len(), base.figures.qnum) == (waiting, waiting);
    counted && base.places == log.len() as u64
}

/// How many makings, sendings and receipts there are.
fn counts(entries: &[Event]) -> (u64, u64, u64) {
    let mut counts = (0u64, 0u64, 0u64);
    for entry in entries {
        let count = match entry {
            Event::Made { .. } => &mut counts.0,
            Event::Sent { .. } => &mut counts.1,
            Event::Received { .. } => &mut counts.2,
            _ => continue,
        };
        *count = count.wrapping_add(1);
    }
    counts
}

/// Whether the checkpoint is what the entries before it imply.
fn told(before: &[Event], made: u32, base: &Option<Base>) -> Result<(), Flaw> {
    let first = before.len() as u64;
    if counts(before).0 != u64::from(made) {
        return Err(Flaw::Made(first));
    }
    let is = match (live_from(before), base) {
        (Some(begun), Some(base)) => match before.get(begun..) {
            Some(log) => is_base(base, log),
            None => false,
        },
        (None, None) => true,
        _ => false,
    };
    if is { Ok(()) } else { Err(Flaw::Base(first)) }
}

/// Adds entries to those before.
fn add(all: &mut Vec<Event>, entries: &[Event]) -> Result<(), Flaw> {
    for entry in entries {
        if all.push(*entry).is_err() {
            return Err(Flaw::Memory);
        }
    }
    Ok(())
}

/// Adds what a drain returns, or the slot at the end.
fn adds(
    all: &mut Vec<Event>,
    made: u32,
    base: &Option<Base>,
    past: &[Event],
    last: &[Event],
) -> Result<(), Flaw> {
    told(all.as_slice(), made, base)?;
    add(all, past)?;
    add(all, last)
}

/// Whether a thread's next drain is empty, where it begins after so many entries; `None` where not.
fn begins(cuts: &[Cut], taken: usize, first: u64) -> Option<bool> {
    match cuts.get(taken) {
        Some(cut) if cut.first == first => Some(cut.past.is_empty() && cut.last.is_empty()),
        _ => None,
    }
}

/// The drain that begins after so many entries and was not taken before, an empty one first.
fn next<'a>(handed: &'a [Vec<Cut>], taken: &mut [usize], first: u64) -> Option<&'a Cut> {
    let mut found = None;
    for (cutter, cuts) in handed.iter().enumerate() {
        match begins(cuts.as_slice(), *taken.get(cutter)?, first) {
            Some(true) => found = Some(cutter),
            Some(false) if found.is_none() => found = Some(cutter),
            _ => (),
        }
    }
    let cutter = found?;
    let place = taken.get_mut(cutter)?;
    let cut = handed.get(cutter)?.get(*place);
    *place = place.wrapping_add(1);
    cut
}

/// That no drain of so many threads is taken.
fn none_taken(alloc: Global, count: usize) -> Result<Vec<usize>, Flaw> {
    match vec![in alloc; 0; count] {
        Ok(taken) => Ok(taken),
        Err(_) => Err(Flaw::Memory),
    }
}

/// Adds all that was returned, in the order of the entries.
fn adds_all(all: &mut Vec<Event>, handed: &[Vec<Cut>], taken: &mut [usize]) -> Result<(), Flaw> {
    for cuts in handed {
        for _ in 0..cuts.len() {
            let first = all.len() as u64;
            let Some(cut) = next(handed, taken, first) else {
                return Err(Flaw::Gap(first));
            };
            let (past, last) = (cut.past.as_slice(), cut.last.as_slice());
            adds(all, cut.made, &cut.base, past, last)?;
        }
    }
    Ok(())
}

/// Joins what each thread drained with what the slot kept to the end. How many makings, sendings
/// and receipts there are.
pub(crate) fn join(
    alloc: Global,
    handed: &[Vec<Cut>],
    slot: &ClosedSlot,
) -> Result<(u64, u64, u64), Flaw> {
    let mut all = Vec::new(alloc);
    let mut taken = none_taken(alloc, handed.len())?;
    adds_all(&mut all, handed, taken.as_mut_slice())?;
    if slot.first != all.len() as u64 {
        return Err(Flaw::Gap(slot.first));
    }
    let (past, last) = (slot.past.as_slice(), slot.last.as_slice());
    adds(&mut all, slot.made, &slot.base, past, last)?;
    Ok(counts(all.as_slice()))
}
