//! The two halves of a slice, each lent to a closure on a thread of its own.
ghost use Rattle.std.specs.Prelude.{◌≡◌, ◌≤◌, List, ◌++◌, length, take, drop};
ghost use Rattle.std.specs.List.{refill};
ghost use Rattle.mq_arena.specs.Halves.{MayLeave, TakesAtMut};

use std::marker::Send;
use std::thread::{Threads, join_mut};

pub(crate) fn write_both<R: Threads, T: Send, F: FnMut(&mut [T]) + Send, G: FnMut(&mut [T])>(
    rt: &R,
    all: &mut [T],
    i: usize,
    mut f: F,
    mut g: G,
)
    requires within { i ≤ length all.old }
    requires front_taken { TakesAtMut (F.pre f) (take i all.old) }
    requires back_taken { TakesAtMut (G.pre g) (drop i all.old) }
    ensures halves { (front back : List T)
        × (all.new ≡ refill (length all.old) all.old (front ++ back))
        × MayLeave (F.step f) (take i all.old) front × MayLeave (G.step g) (drop i all.old) back }
{
    let (first, rest) = all.split_at_mut(i);
    join_mut(
        rt,
        &mut || call_at(&mut f, first),
        &mut || call_at(&mut g, rest),
    );
}

fn call_at<T, F: FnMut(&mut [T])>(f: &mut F, part: &mut [T])
    requires { TakesAtMut (F.pre f.old) part.old }
    ensures { MayLeave (F.step f.old) part.old part.new }
{
    f(part);
}
