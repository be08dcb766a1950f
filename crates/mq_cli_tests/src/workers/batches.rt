//! How many messages a worker asks for by one call, and that it receives as many as it is to take.

ghost use Rattle.std.specs.Prelude.{◌≡◌, ◌+◌};

use crate::workers::plans::{Call, Stopped, take, take_call};
use mq_calls::Errno;
use mq_cli::{Outcome, Port, PutCall, TakeCall, Taken, work};
use mq_system::{MAX_BATCH, Patience};
use mq_table::Id;
use std::alloc::Global;
use std::sync::Wait;

/// Returns texts of these lengths, over and over, up to so many by one call, where up to so many
/// are asked for as is expected.
#[derive(Drop)]
struct Lengths<'a> {
    lengths: &'a [u64],
    waiting: usize,
    asked: &'a [usize],
    made: usize,
    calls: u64,
}

impl<'a> Port for Lengths<'a> {
    type Shared = ();

    ghost calls = { λ port. port.calls };

    ghost puts = { λ old id mtype tag n ends moment answer new. Unit {0} };

    ghost takes = { λ old id msgtyp ends moment answer new. Unit {0} };

    ghost removes = { λ old id moment answer new. Unit {0} };

    fn put<R: Wait, T: Patience>(
        &mut self,
        _rt: &R,
        _shared: &(),
        _call: &PutCall,
        _tag: u64,
        _patience: &mut T,
    ) -> Result<u64, Errno> {
        Err(Errno::EPERM)
    }

    #[tactic(auto, using(crate::proofs::ManyLemmas::takes_any))]
    fn take_many<R: Wait, T: Patience>(
        &mut self,
        _rt: &R,
        _shared: &(),
        call: &TakeCall,
        patience: &mut T,
        most: usize,
        out: &mut Vec<Taken>,
    ) -> Result<(), Errno> {
        let made = Call::of_take(call, patience.left(), most);
        if made != take_call(most) || self.asked.get(self.made) != Some(&most) {
            return Err(Errno::EEXIST);
        }
        self.made += 1;
        for _ in 0..most.min(self.waiting.max(1)) {
            let Some(length) = self.lengths.get((self.calls % 5) as usize) else {
                return Err(Errno::EPERM);
            };
            if self.calls == u64::MAX {
                return Err(Errno::EPERM);
            }
            self.calls += 1;
            out.push_reserved(Taken {
                sender: 2,
                tag: self.calls,
                mtype: 3,
                length: *length,
            });
        }
        Ok(())
    }

    fn remove<R: Wait>(
        &mut self,
        _rt: &R,
        _shared: &(),
        _id: Id,
        _moment: u64,
    ) -> Result<u64, Errno> {
        Err(Errno::EPERM)
    }
}

/// What becomes of a worker that is to take so many, and how often it asked; it is made again where
/// it found no memory.
fn outcome<R: Wait>(
    rt: &R,
    alloc: Global,
    count: u32,
    lengths: &[u64; 5],
    waiting: usize,
    asked: &[usize],
) -> Option<(Outcome, usize)> {
    for _ in 0..2 {
        let mut port = Lengths {
            lengths,
            waiting,
            asked,
            made: 0,
            calls: 0,
        };
        let outcome = work(rt, &Stopped, alloc, &(), &mut port, &[take(count)]);
        if outcome.end != Some(Errno::ENOMEM) {
            return Some((outcome, port.made));
        }
    }
    None
}

/// Whether it took all of them by just these calls.
fn takes_by<R: Wait>(
    rt: &R,
    alloc: Global,
    count: u32,
    lengths: &[u64; 5],
    waiting: usize,
    asked: &[usize],
) -> bool {
    match outcome(rt, alloc, count, lengths, waiting, asked) {
        Some((outcome, made)) => {
            outcome.end == None
                && outcome.ordered
                && outcome.received == u64::from(count)
                && made == asked.len()
        }
        None => false,
    }
}

#[test]
fn several_are_asked_for_behind_texts_without_bytes(rt: HostRuntime) {
    let (alloc, none) = (rt.alloc(), [0; 5]);
    holds!(rt; takes_by(&rt, alloc, 0, &none, 9, &[]), "nothing is asked for");
    holds!(rt; takes_by(&rt, alloc, 1, &none, 9, &[1]), "the first alone");
    holds!(rt; takes_by(&rt, alloc, 8, &none, 9, &[1, 7]), "what is left");
    let few = [1, 7, 4, 1];
    holds!(rt; takes_by(&rt, alloc, 8, &none, 3, &few), "three wait");
    let most = [1, MAX_BATCH, MAX_BATCH, 8];
    let count = 9 + 2 * MAX_BATCH as u32;
    holds!(rt; takes_by(&rt, alloc, count, &none, 999, &most), "no more by one call");
}

#[test]
fn one_is_asked_for_behind_a_text_with_bytes(rt: HostRuntime) {
    let alloc = rt.alloc();
    let ones = [1, 1, 1, 1];
    holds!(rt; takes_by(&rt, alloc, 4, &[5; 5], 9, &ones), "each has bytes");
    let mixed = [1, 6, 1, 3, 1];
    holds!(rt; takes_by(&rt, alloc, 7, &[0, 0, 7, 0, 0], 2, &mixed), "some have");
}
