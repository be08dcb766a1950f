//! A first program: a queue that has a key, a message, and its receipt.

use crate::calls::CREATE;
use crate::day::{Day, config, lives};
use crate::holds;
use crate::system::Calls;
use mq_calls::Errno;
use mq_table::Id;
use std::process::Abort;
use std::test::Fail;

/// Ends the test, which was out of memory or refused.
fn stops(rt: &impl Abort, errno: Errno) -> ! {
    panic!(rt; "{errno}")
}

/// The queue with key 1234.
fn made<S: Calls>(rt: &impl Abort, system: &mut S) -> Id {
    match system.msgget(1, 1234, CREATE, 1) {
        Ok(got) => got.id,
        Err(errno) => stops(rt, errno),
    }
}

/// Seat 1 sends `hello` with type 7.
fn says<S: Calls>(rt: &impl Abort, system: &mut S, id: Id) {
    let Ok(mut text) = system.draft(5) else {
        panic!(rt; "no page");
    };
    system.fill(rt, &mut text, b"hello");
    match system.msgsnd(1, id, 7, 0, text, 2) {
        Ok(entry) => holds(rt, entry == 1, "sent at another entry"),
        Err(refusal) => stops(rt, refusal.refused.errno),
    }
}

/// Seat 2 receives it.
fn hears<S: Calls>(rt: &impl Abort, system: &mut S, id: Id) {
    match system.msgrcv(2, id, 100, 0, false, false, 3) {
        Ok(delivered) => {
            let text = delivered.text;
            holds(rt, system.has(&text, b"hello"), "another text");
            system.spend(text);
        }
        Err(_) => panic!(rt; "nothing waits"),
    }
}

#[derive(Drop)]
struct Hello;

impl Day for Hello {
    fn spend<S: Calls, R: Abort>(&self, rt: &R, system: &mut S) {
        let id = made(rt, system);
        says(rt, system, id);
        hears(rt, system, id);
    }
}

#[test]
fn a_first_program_sends_and_receives(rt: HostRuntime) -> Result<(), Fail> {
    lives(&rt, rt.alloc(), config(6, 16, 32_767), &Hello);
    Ok(())
}
