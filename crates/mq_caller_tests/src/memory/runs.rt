//! Each list on the queues of one thread, on a system, and by callers.

use crate::memory::callers::OnCallers;
use crate::memory::lists::{List, Wrong};
use crate::memory::one::OnOne;
use crate::memory::seats::OnAll;
use mq::{
    Config, Ended, MAX_HEIGHT, MAX_SEATS, MAX_SEQ, MAX_SLOTS, SysError, with_queues, with_system,
};
use std::alloc::{AllocError, Global};
use std::process::Abort;
use std::sync::Wait;
use std::test::Fail;
use std::time::Clock;

const ALL: Config = Config {
    height: MAX_HEIGHT,
    slots: MAX_SLOTS,
    seats: MAX_SEATS,
    last_seq: MAX_SEQ,
};

/// One queue at a time.
const ONE: Config = Config {
    slots: 1,
    seats: 1,
    ..ALL
};

/// Checks that nothing was wrong. A call that was out of memory is printed in a line, and in the
/// next one that memory ran out.
fn is_right(rt: &impl Abort, on: &str, wrong: Option<Wrong>) {
    if let Some(Wrong { call, errno }) = wrong {
        let call = call.name();
        match errno {
            Some(errno) => panic!(rt; "{on}: {call}: {errno}\n{errno}"),
            None => panic!(rt; "{on}: {call}"),
        }
    }
}

/// How many pages there are.
fn pages_of(config: Config) -> u32 {
    1u32.checked_shl(u32::from(config.height)).unwrap_or(0)
}

/// Checks that no call was refused, and that all pages are free.
fn ends(rt: &impl Abort, on: &str, config: Config, ended: Result<Ended<Option<Wrong>>, SysError>) {
    match ended {
        Ok(ended) => {
            is_right(rt, on, ended.answer);
            holds!(*rt; ended.free_pages == pages_of(config), "pages are not free");
        }
        Err(error) => panic!(rt; "{on}: {error}\n{error}"),
    }
}

/// Plays the list on all three, with a text of at most so many bytes.
fn on_all<R: Abort + Wait + Clock>(
    rt: &R,
    alloc: Global,
    config: Config,
    list: List,
    bytes: &[u8],
) {
    ends(
        rt,
        "one thread",
        config,
        with_queues(alloc, config, OnOne { list, bytes }),
    );
    ends(
        rt,
        "seats",
        config,
        with_system(rt, alloc, config, OnAll { list, bytes }),
    );
    ends(
        rt,
        "callers",
        config,
        with_system(rt, alloc, config, OnCallers { list, bytes }),
    );
}

fn letters(alloc: Global, len: usize) -> Result<Vec<u8>, AllocError> {
    vec![in alloc; 7; len]
}

#[test]
fn texts_of_each_length_find_memory_in_an_arena_of_each_height(
    rt: HostRuntime,
) -> Result<(), Fail> {
    let letters = letters(rt.alloc(), 65_536)?;
    let mut len = 1024usize;
    for height in 0..11u8 {
        let (bytes, _rest) = letters.as_slice().split_at(len.min(letters.len()));
        on_all(
            &rt,
            rt.alloc(),
            Config { height, ..ONE },
            List::Lengths,
            bytes,
        );
        len = len.saturating_mul(2);
    }
    Ok(())
}

#[test]
fn each_call_finds_memory_at_each_seat_and_in_each_slot(rt: HostRuntime) {
    on_all(&rt, rt.alloc(), ALL, List::Slots, b"");
}

#[test]
fn each_call_finds_memory_at_a_queue_that_is_half_full_and_full(
    rt: HostRuntime,
) -> Result<(), Fail> {
    let letters = letters(rt.alloc(), 65_536)?;
    on_all(
        &rt,
        rt.alloc(),
        Config { slots: 2, ..ONE },
        List::Full,
        letters.as_slice(),
    );
    Ok(())
}

#[test]
fn calls_find_memory_after_thousands_and_beside_thousands_that_wait(rt: HostRuntime) {
    on_all(&rt, rt.alloc(), ONE, List::Many, b"");
}

#[test]
fn calls_find_memory_beside_as_many_messages_as_can_wait(rt: HostRuntime) {
    let most = OnOne {
        list: List::Most,
        bytes: b"",
    };
    ends(&rt, "one thread", ONE, with_queues(rt.alloc(), ONE, most));
}

#[test]
fn each_queue_of_a_slot_finds_memory(rt: HostRuntime) {
    let config = Config {
        last_seq: 999,
        ..ONE
    };
    on_all(&rt, rt.alloc(), config, List::Used, b"");
}

#[test]
fn each_queue_that_a_slot_of_a_system_can_have_finds_memory(rt: HostRuntime) {
    let used = OnAll {
        list: List::Used,
        bytes: b"",
    };
    ends(&rt, "seats", ONE, with_system(&rt, rt.alloc(), ONE, used));
}
