//! Whether a worker reports that tags rose in each stream (a sender and a type), over a port that
//! returns given messages.

ghost use Rattle.std.specs.Prelude.{◌≡◌, ◌+◌};

use crate::workers::plans::{Call, Stopped, take, take_call};
use mq_calls::Errno;
use mq_cli::{Port, PutCall, TakeCall, Taken, work};
use mq_system::Patience;
use mq_table::Id;
use std::alloc::Global;
use std::sync::Wait;

/// Returns the given messages, one after the other, where the plan's call is made.
#[derive(Drop)]
struct Told<'a> {
    taken: &'a [Taken],
    calls: u64,
}

impl<'a> Port for Told<'a> {
    type Shared = ();

    ghost calls = { λ port. port.calls };

    ghost puts = { λ old id mtype tag n ends moment answer new. Unit {0} };

    ghost takes = { λ old id msgtyp ends moment answer new. Unit {0} };

    ghost removes = { λ old id moment answer new. Unit {0} };

    fn put<R: Wait, T: Patience>(
        &mut self,
        _rt: &R,
        _shared: &(),
        _call: &PutCall,
        _tag: u64,
        _patience: &mut T,
    ) -> Result<u64, Errno> {
        Err(Errno::EPERM)
    }

    #[tactic(auto, using(crate::proofs::ManyLemmas::takes_any))]
    fn take_many<R: Wait, T: Patience>(
        &mut self,
        _rt: &R,
        _shared: &(),
        call: &TakeCall,
        patience: &mut T,
        most: usize,
        out: &mut Vec<Taken>,
    ) -> Result<(), Errno> {
        let made = Call::of_take(call, patience.left(), most);
        if made != take_call(most) {
            return Err(Errno::ENOMSG);
        }
        for _ in 0..most {
            if self.calls >= self.taken.len() as u64 {
                return Err(Errno::ENOMSG);
            }
            out.push_reserved(self.taken[self.calls as usize]);
            self.calls += 1;
        }
        Ok(())
    }

    fn remove<R: Wait>(
        &mut self,
        _rt: &R,
        _shared: &(),
        _id: Id,
        _moment: u64,
    ) -> Result<u64, Errno> {
        Err(Errno::EPERM)
    }
}

fn from(sender: u16, tag: u64, mtype: i64) -> Taken {
    Taken {
        sender,
        tag,
        mtype,
        length: 0,
    }
}

/// Whether the tags of three messages rose; it is made again where the worker found no memory.
fn ordered<R: Wait>(rt: &R, alloc: Global, taken: &[Taken; 3]) -> Option<bool> {
    for _ in 0..2 {
        let mut port = Told { taken, calls: 0 };
        let outcome = work(rt, &Stopped, alloc, &(), &mut port, &[take(3)]);
        match outcome.end {
            None if outcome.received == 3 => return Some(outcome.ordered),
            _ => (),
        }
    }
    None
}

#[test]
fn a_tag_that_falls_in_its_stream_is_reported(rt: HostRuntime) {
    let falls = [from(2, 2, 5), from(2, 1, 5), from(2, 3, 5)];
    holds!(rt; ordered(&rt, rt.alloc(), &falls) == Some(false), "a fall");
    let falls_last = [from(2, 4, 5), from(3, 1, 5), from(2, 3, 5)];
    holds!(rt;
        ordered(&rt, rt.alloc(), &falls_last) == Some(false),
        "a fall"
    );
    let stays = [from(2, 1, 5), from(3, 1, 5), from(2, 1, 5)];
    holds!(rt;
        ordered(&rt, rt.alloc(), &stays) == Some(false),
        "one tag twice"
    );
}

#[test]
fn tags_that_rise_in_each_stream_are_in_order(rt: HostRuntime) {
    let rises = [from(2, 1, 5), from(2, 2, 5), from(2, 9, 5)];
    holds!(rt; ordered(&rt, rt.alloc(), &rises) == Some(true), "a rise");
    let senders = [from(2, 7, 5), from(3, 1, 5), from(4, 1, 5)];
    holds!(rt;
        ordered(&rt, rt.alloc(), &senders) == Some(true),
        "three senders"
    );
    let types = [from(2, 7, 5), from(2, 6, 4), from(2, 5, 3)];
    holds!(rt;
        ordered(&rt, rt.alloc(), &types) == Some(true),
        "three types"
    );
}
