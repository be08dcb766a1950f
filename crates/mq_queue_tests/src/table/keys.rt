//! Ids, made of a slot and a seq, and the key table: lookup, removal, and the order of entry.

use crate::holds;
use mq_table::{Id, KeyEntry, KeyTable};
use std::alloc::Global;
use std::process::Abort;
use std::test::Fail;

/// Enters a new key. Where there is no memory, the second call is as the first would have been.
fn enter(keys: &mut KeyTable, key: i32, id: Id) {
    for _ in 0..2 {
        if key == 0 || keys.look(key).is_some() || keys.enter(key, id).is_ok() {
            return;
        }
    }
}

/// The least and the greatest keys, and others, not sorted.
fn filled(alloc: Global) -> KeyTable {
    let mut keys = KeyTable::new(alloc);
    enter(&mut keys, -1, Id::of(10, 0));
    enter(&mut keys, i32::MIN, Id::of(11, 3));
    enter(&mut keys, 1, Id::of(12, 0));
    enter(&mut keys, i32::MAX, Id::of(13, 0));
    enter(&mut keys, i32::MIN + 1, Id::of(14, 0));
    keys
}

/// The table has this key at this place, with this id.
pub(crate) fn has(rt: &impl Abort, keys: &KeyTable, i: usize, key: i32, id: Id) {
    let entry = Some(KeyEntry { key, id });
    holds(rt, keys.entry(i) == entry, "another key, or another id");
}

/// The table does not have this key.
pub(crate) fn lacks(rt: &impl Abort, keys: &KeyTable, key: i32) {
    holds(rt, keys.look(key) == None, "a key is there");
}

#[test]
fn an_id_is_its_slot_and_seq_up_to_the_bounds(rt: HostRuntime) -> Result<(), Fail> {
    let cases: [(u8, u32, u32); 6] = [
        (0, 0, 0),
        (63, 0, 63),
        (0, 1, 64),
        (1, 32_767, 2_097_089),
        (0, 67_108_863, 4_294_967_232),
        (63, 67_108_863, u32::MAX),
    ];
    for (slot, seq, number) in cases {
        let id = Id::of(slot, seq);
        holds!(rt; id.number() == number);
        holds!(rt; Id::from_number(number) == id);
        holds!(rt; id.slot() == slot);
        holds!(rt; id.seq() == seq);
    }
    Ok(())
}

#[test]
fn each_key_has_its_own_id(rt: HostRuntime) -> Result<(), Fail> {
    let keys = filled(rt.alloc());
    for (key, id) in [
        (-1, Id::of(10, 0)),
        (i32::MIN, Id::of(11, 3)),
        (1, Id::of(12, 0)),
        (i32::MAX, Id::of(13, 0)),
    ] {
        holds!(rt; keys.look(key) == Some(id));
    }
    for absent in [0, 2, -2, i32::MAX - 1, i32::MIN + 2] {
        lacks(&rt, &keys, absent);
    }
    Ok(())
}

#[test]
fn what_is_left_keeps_the_order_of_making(rt: HostRuntime) -> Result<(), Fail> {
    let mut keys = filled(rt.alloc());
    // An id that no key has, though its slot has one.
    keys.forget(Id::of(11, 2));
    holds!(rt; keys.len() == 5);
    keys.forget(Id::of(11, 3));
    lacks(&rt, &keys, i32::MIN);
    holds!(rt; keys.len() == 4);
    for (i, key, id) in [
        (0, -1, Id::of(10, 0)),
        (1, 1, Id::of(12, 0)),
        (2, i32::MAX, Id::of(13, 0)),
        (3, i32::MIN + 1, Id::of(14, 0)),
    ] {
        has(&rt, &keys, i, key, id);
    }
    holds!(rt; keys.entry(4) == None);
    enter(&mut keys, i32::MIN, Id::of(11, 4));
    has(&rt, &keys, 4, i32::MIN, Id::of(11, 4));
    // A key that the table has not, and one that it has.
    keys.forget_key(2);
    holds!(rt; keys.len() == 5);
    keys.forget_key(1);
    lacks(&rt, &keys, 1);
    holds!(rt; keys.len() == 4);
    has(&rt, &keys, 1, i32::MAX, Id::of(13, 0));
    Ok(())
}
