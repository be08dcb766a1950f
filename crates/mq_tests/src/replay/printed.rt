//! What is printed of a round. Each line is a value, as `{:?}` prints it.

use crate::replay::calls::{KeptCut, KeptLog, Told};
use mq::{Base, ClosedSlot, Ended};
use std::io;

/// What a log had where it was drained, which belongs to the line behind it.
fn print_base(rt: &impl Print, base: &Base) -> io::Result<()> {
    for index in 0..base.waiting.len() {
        println!(rt; "{:?}", base.waiting.get(index))?;
    }
    println!(rt; "Base({}, {:?})", base.places, base.figures)
}

fn print_log(rt: &impl Print, log: &KeptLog) -> io::Result<()> {
    print_base(rt, &log.base)?;
    println!(rt; "Log({:?})", log.tail)
}

fn print_cut(rt: &impl Print, kept: &KeptCut) -> io::Result<()> {
    let (slot, cut) = (kept.slot, &kept.cut);
    if let Some(base) = &cut.base {
        print_base(rt, base)?;
    }
    println!(rt;
        "Cut({slot}, {}, {}, {:?}, {:?})",
        cut.first, cut.made, cut.past, cut.last
    )
}

/// What the slot with this number kept to the end.
fn print_slot(rt: &impl Print, slot: usize, end: &ClosedSlot) -> io::Result<()> {
    if let Some(base) = &end.base {
        print_base(rt, base)?;
    }
    println!(rt;
        "End({slot}, {}, {}, {:?}, {:?}, {})",
        end.first, end.made, end.past, end.last, end.left
    )
}

/// What a seat reports: its number and counts, then its calls, the logs and the drains.
fn print_told(rt: &impl Print, told: &Told) -> io::Result<()> {
    println!(rt; "Seat({}, {:?})", told.seat, told.counts)?;
    for call in told.kept.calls.iter() {
        println!(rt; "{call:?}")?;
    }
    for log in told.kept.logs.iter() {
        print_log(rt, log)?;
    }
    for cut in told.kept.cuts.iter() {
        print_cut(rt, cut)?;
    }
    Ok(())
}

pub(crate) fn print_round(rt: &impl Print, ended: &Ended<Vec<Told>>) -> io::Result<()> {
    println!(rt; "Pages({})", ended.free_pages)?;
    for told in ended.answer.iter() {
        print_told(rt, told)?;
    }
    for (slot, end) in ended.slots.iter().enumerate() {
        print_slot(rt, slot, end)?;
    }
    Ok(())
}
