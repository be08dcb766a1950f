//! The start barrier of jobs: no thread runs its job before all threads are spawned.

use std::sync::{Condvar, Mutex, Wait};

/// The state of a gate.
#[derive(Clone, Copy, PartialEq, Eq)]
enum Word {
    Wait,
    Go,
    End,
}

/// A start barrier: threads wait at it until all of them are spawned.
#[derive(Drop)]
pub(crate) struct Gate {
    word: Mutex<Word>,
    said: Condvar,
}

impl Gate {
    pub(crate) fn new() -> Gate {
        Gate {
            word: Mutex::new(Word::Wait),
            said: Condvar::new(),
        }
    }

    /// Wakes all waiters: each runs its job.
    pub(crate) fn open<R: Wait>(&self, rt: &R) {
        self.say(rt, Word::Go);
    }

    /// Wakes all waiters: none runs its job.
    pub(crate) fn shut<R: Wait>(&self, rt: &R) {
        self.say(rt, Word::End);
    }

    fn say<R: Wait>(&self, rt: &R, word: Word) {
        let mut held = self.word.lock(rt);
        *held = word;
        drop(held);
        self.said.notify_all();
    }

    /// Waits until the gate is opened or shut, and returns whether it was opened.
    pub(crate) fn lets_through<R: Wait>(&self, rt: &R) -> bool {
        let held = self
            .said
            .wait_while(rt, self.word.lock(rt), |word| *word == Word::Wait);
        *held == Word::Go
    }
}
