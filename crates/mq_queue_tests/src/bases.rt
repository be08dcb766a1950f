//! The pending messages of a base, read by index: past the last one there is none.

use mq_queue::{BaseEntries, BaseEntry};
use std::process::Abort;
use std::test::Fail;

/// Checks that a base has these messages, and none behind them.
fn told(rt: &impl Abort, entries: &BaseEntries, wanted: &[BaseEntry]) {
    let count = wanted.len() as u64;
    holds!(rt; entries.len() == count);
    for i in 0..wanted.len() {
        holds!(rt; entries.get(i as u64) == Some(wanted[i]));
    }
    holds!(rt; entries.get(count) == None);
    holds!(rt; entries.get(u64::MAX) == None);
}

#[test]
fn the_messages_of_a_base_are_read_one_by_one(rt: HostRuntime) -> Result<(), Fail> {
    let first = BaseEntry {
        place: 1,
        seat: 3,
        tag: 70,
        mtype: 5,
        length: 0,
    };
    let second = BaseEntry {
        place: 4,
        mtype: i64::MAX,
        ..first
    };
    let mut headers = Vec::new(rt.alloc());
    headers.push(first)?;
    headers.push(second)?;
    told(&rt, &BaseEntries::of(Vec::new(rt.alloc())), &[]);
    told(&rt, &BaseEntries::of(headers), &[first, second]);
    Ok(())
}
