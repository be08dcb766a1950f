//! Keys and ids: which queue a call finds, and which it makes.

use crate::calls::{CREATE, EXCLUSIVE, NEW, NO_FLAG, first};
use crate::day::config;
use crate::table::{Answer, Step, plays};
use mq_system::Errno;

#[test]
fn an_id_of_an_earlier_queue_does_not_reach_the_next_one(rt: HostRuntime) {
    let gone = Answer::Refused(Errno::EIDRM, Some(4));
    let never = Answer::Refused(Errno::EINVAL, Some(4));
    let table: [(Step, Answer); 14] = [
        (Step::Get(5, CREATE), Answer::Id(0, Some(0))),
        (Step::Remove(0), Answer::Removed(1, 2)),
        (Step::Get(5, CREATE), Answer::Id(64, Some(2))),
        (Step::Send(64, 1, b"next"), Answer::At(3)),
        (Step::Send(0, 1, b"late"), gone),
        (Step::Receive(0, first(9), b""), gone),
        (Step::Set(0, 131_073), gone),
        (Step::Remove(0), gone),
        (Step::Stat(0), Answer::Errno(Errno::EIDRM)),
        (Step::Send(128, 1, b"soon"), never),
        (Step::Receive(128, first(9), b""), never),
        (Step::Set(128, 1), never),
        (Step::Remove(128), never),
        (Step::Receive(64, first(9), b"next"), Answer::Got(4, 1, 4)),
    ];
    plays(&rt, rt.alloc(), config(1, 1, 9), &table);
}

#[test]
fn an_id_past_the_slots_was_never_given(rt: HostRuntime) {
    let early = Answer::Refused(Errno::EINVAL, None);
    let never = Answer::Errno(Errno::EINVAL);
    let table: [(Step, Answer); 14] = [
        (Step::Get(5, CREATE), Answer::Id(0, Some(0))),
        (Step::Get(6, CREATE), Answer::Id(1, Some(0))),
        (Step::Stat(2), never),
        (Step::Stat(63), never),
        (Step::Stat(u32::MAX), never),
        (Step::Send(2, 1, b"x"), early),
        (Step::Send(63, 1, b""), early),
        (Step::Send(u32::MAX, 1, b"x"), early),
        (Step::Receive(2, first(9), b""), early),
        (Step::Receive(u32::MAX, first(9), b""), early),
        (Step::Set(63, 1), early),
        (Step::Set(u32::MAX, 131_073), early),
        (Step::Remove(66), early),
        (Step::Remove(u32::MAX), early),
    ];
    plays(&rt, rt.alloc(), config(0, 2, 9), &table);
}

#[test]
fn a_key_finds_its_queue(rt: HostRuntime) {
    let found = Answer::Id(0, None);
    let there = Answer::Errno(Errno::EEXIST);
    let absent = Answer::Errno(Errno::ENOENT);
    let table: [(Step, Answer); 14] = [
        (Step::Get(5, NO_FLAG), absent),
        (Step::Get(5, EXCLUSIVE), absent),
        (Step::Get(5, NEW), Answer::Id(0, Some(0))),
        (Step::Get(5, NO_FLAG), found),
        (Step::Get(5, CREATE), found),
        (Step::Get(5, EXCLUSIVE), found),
        (Step::Get(5, NEW), there),
        (Step::Get(i32::MIN, CREATE), Answer::Id(1, Some(0))),
        (Step::Get(i32::MIN, NO_FLAG), Answer::Id(1, None)),
        (Step::Remove(0), Answer::Removed(1, 2)),
        (Step::Get(5, NO_FLAG), absent),
        (Step::Get(5, NEW), Answer::Id(64, Some(2))),
        (Step::Get(5, NEW), there),
        (Step::Get(5, NO_FLAG), Answer::Id(64, None)),
    ];
    plays(&rt, rt.alloc(), config(0, 3, 9), &table);
}

#[test]
fn key_zero_makes_a_queue_each_time_until_all_slots_are_taken(rt: HostRuntime) {
    let full = Answer::Errno(Errno::ENOSPC);
    let table: [(Step, Answer); 13] = [
        (Step::Get(0, NO_FLAG), Answer::Id(0, Some(0))),
        (Step::Get(9, CREATE), Answer::Id(1, Some(0))),
        (Step::Get(0, NEW), Answer::Id(2, Some(0))),
        (Step::Get(0, NO_FLAG), full),
        (Step::Get(0, EXCLUSIVE), full),
        (Step::Get(8, CREATE), full),
        (Step::Get(8, NEW), full),
        (Step::Get(8, NO_FLAG), Answer::Errno(Errno::ENOENT)),
        (Step::Get(9, CREATE), Answer::Id(1, None)),
        (Step::Get(9, NEW), Answer::Errno(Errno::EEXIST)),
        (Step::Remove(1), Answer::Removed(1, 2)),
        (Step::Get(8, NEW), Answer::Id(65, Some(2))),
        (Step::Get(0, CREATE), full),
    ];
    plays(&rt, rt.alloc(), config(0, 3, 9), &table);
}

#[test]
fn a_slot_is_used_up_after_its_last_seq(rt: HostRuntime) {
    let gone = Answer::Errno(Errno::EIDRM);
    let full = Answer::Errno(Errno::ENOSPC);
    let one_slot: [(Step, Answer); 9] = [
        (Step::Get(0, CREATE), Answer::Id(0, Some(0))),
        (Step::Remove(0), Answer::Removed(1, 2)),
        (Step::Get(9, CREATE), Answer::Id(64, Some(2))),
        (Step::Remove(64), Answer::Removed(3, 2)),
        (Step::Get(9, CREATE), full),
        (Step::Get(0, CREATE), full),
        (Step::Stat(0), gone),
        (Step::Stat(64), gone),
        (Step::Stat(128), Answer::Errno(Errno::EINVAL)),
    ];
    plays(&rt, rt.alloc(), config(0, 1, 1), &one_slot);
    let two_slots: [(Step, Answer); 5] = [
        (Step::Get(0, CREATE), Answer::Id(0, Some(0))),
        (Step::Remove(0), Answer::Removed(1, 2)),
        (Step::Get(0, CREATE), Answer::Id(1, Some(0))),
        (Step::Remove(1), Answer::Removed(1, 2)),
        (Step::Get(0, CREATE), full),
    ];
    plays(&rt, rt.alloc(), config(0, 2, 0), &two_slots);
}
