//! Plans that the tests run, and a port that expects exactly their calls.

ghost use Rattle.std.specs.Prelude.{◌≡◌, ◌+◌, MatchResult, IfOk};
ghost use Rattle.mq_cli.specs.Plans.{IsCountable, puts_of, takes_of};

use mq_calls::Errno;
use mq_cli::{Port, PutCall, Step, TakeCall, Taken};
use mq_system::Patience;
use mq_table::Id;
use std::alloc::{AllocError, Global};
use std::io;
use std::sync::Wait;
use std::time::{Clock, Duration};

/// A clock that stands still.
pub(crate) struct Stopped;

impl Clock for Stopped {
    fn monotonic(&self) -> io::Result<Duration> {
        Ok(Duration::ZERO)
    }

    fn since_1970(&self) -> io::Result<Duration> {
        Ok(Duration::ZERO)
    }
}

/// How much longer a patience without an end lasts.
pub(crate) const FOREVER: Option<Duration> = Some(Duration::MAX);

/// A call of a port, with all its arguments, and how much longer its patience lasts.
#[derive(Clone, Copy, Debug, PartialEq, Eq)]
pub(crate) enum Call {
    Put {
        id: u32,
        mtype: i64,
        tag: u64,
        length: u64,
        pages: bool,
        left: Option<Duration>,
        moment: u64,
    },
    /// For up to so many messages.
    Take {
        id: u32,
        msgtyp: i64,
        left: Option<Duration>,
        most: usize,
        moment: u64,
    },
    Remove {
        id: u32,
        moment: u64,
    },
}

impl Call {
    /// This call for a message with this tag.
    pub(crate) fn of_put(call: &PutCall, tag: u64, left: Option<Duration>) -> Call {
        let PutCall {
            id,
            mtype,
            length,
            pages,
            moment,
        } = *call;
        Call::Put {
            id: id.number(),
            mtype,
            tag,
            length,
            pages,
            left,
            moment,
        }
    }

    /// This call for up to so many messages.
    pub(crate) fn of_take(call: &TakeCall, left: Option<Duration>, most: usize) -> Call {
        let TakeCall { id, msgtyp, moment } = *call;
        Call::Take {
            id: id.number(),
            msgtyp,
            left,
            most,
            moment,
        }
    }
}

/// Expects these calls, one after the other. It lets so many messages and removals succeed and
/// refuses the next with EPERM; a call that is not the expected one it refuses with EEXIST.
#[derive(Drop)]
pub(crate) struct Wanting<'a> {
    pub wanted: &'a [Call],
    /// How many calls were made that were expected.
    pub made: usize,
    /// How many messages were sent or received, and queues removed.
    pub calls: u64,
    pub lets: u64,
    /// How many messages wait at most where a call receives.
    pub waiting: usize,
}

impl<'a> Wanting<'a> {
    /// Of which nothing was asked yet.
    pub(crate) fn new(wanted: &'a [Call], lets: u64, waiting: usize) -> Wanting<'a> {
        Wanting {
            wanted,
            made: 0,
            calls: 0,
            lets,
            waiting,
        }
    }

    /// Whether this call is the next that is expected.
    fn wants(&mut self, call: Call) -> bool
        ensures { self.new.calls ≡ self.old.calls }
    {
        match self.wanted.get(self.made) {
            Some(wanted) if *wanted == call => (),
            _ => return false,
        }
        self.made += 1;
        true
    }

    fn call(&mut self, call: Call) -> Result<u64, Errno>
        ensures { MatchResult result (λ _. self.new.calls ≡ self.old.calls + 1)
            (λ _. self.new.calls ≡ self.old.calls) }
    {
        if !self.wants(call) {
            return Err(Errno::EEXIST);
        }
        self.one()
    }

    /// One that is let succeed, or not.
    fn one(&mut self) -> Result<u64, Errno>
        ensures { MatchResult result (λ _. self.new.calls ≡ self.old.calls + 1)
            (λ _. self.new.calls ≡ self.old.calls) }
    {
        if self.calls >= self.lets {
            return Err(Errno::EPERM);
        }
        self.calls += 1;
        Ok(self.calls)
    }
}

impl<'a> Port for Wanting<'a> {
    type Shared = ();

    ghost calls = { λ port. port.calls };

    ghost puts = { λ old id mtype tag n ends moment answer new. Unit {0} };

    ghost takes = { λ old id msgtyp ends moment answer new. Unit {0} };

    ghost removes = { λ old id moment answer new. Unit {0} };

    fn put<R: Wait, T: Patience>(
        &mut self,
        _rt: &R,
        _shared: &(),
        call: &PutCall,
        tag: u64,
        patience: &mut T,
    ) -> Result<u64, Errno> {
        self.call(Call::of_put(call, tag, patience.left()))
    }

    #[tactic(auto, using(crate::proofs::ManyLemmas::takes_any))]
    fn take_many<R: Wait, T: Patience>(
        &mut self,
        _rt: &R,
        _shared: &(),
        call: &TakeCall,
        patience: &mut T,
        most: usize,
        out: &mut Vec<Taken>,
    ) -> Result<(), Errno> {
        let made = Call::of_take(call, patience.left(), most);
        if !self.wants(made) {
            return Err(Errno::EEXIST);
        }
        for _ in 0..most.min(self.waiting.max(1)) {
            match self.one() {
                Ok(tag) => out.push_reserved(Taken {
                    sender: 2,
                    tag,
                    mtype: 3,
                    length: 0,
                }),
                Err(errno) => return Err(errno),
            }
        }
        Ok(())
    }

    fn remove<R: Wait>(
        &mut self,
        _rt: &R,
        _shared: &(),
        id: Id,
        moment: u64,
    ) -> Result<u64, Errno> {
        self.call(Call::Remove {
            id: id.number(),
            moment,
        })
    }
}

/// So many messages of 10 bytes, and the call that sends the one with this tag.
pub(crate) fn put(count: u32) -> Step
    ensures { (puts_of result ≡ count) × (takes_of result ≡ 0) }
{
    Step::Put {
        id: Id::from_number(65),
        mtype: 7,
        count,
        length: 10,
        within: None,
        moment: 4,
    }
}

pub(crate) fn put_call(tag: u64) -> Call {
    Call::Put {
        id: 65,
        mtype: 7,
        tag,
        length: 10,
        pages: false,
        left: FOREVER,
        moment: 4,
    }
}

/// So many of another length, to another queue.
pub(crate) fn long_put(count: u32) -> Step
    ensures { (puts_of result ≡ count) × (takes_of result ≡ 0) }
{
    Step::Put {
        id: Id::from_number(2),
        mtype: i64::MAX,
        count,
        length: 300,
        within: None,
        moment: 5,
    }
}

pub(crate) fn long_put_call(tag: u64) -> Call {
    Call::Put {
        id: 2,
        mtype: i64::MAX,
        tag,
        length: 300,
        pages: false,
        left: FOREVER,
        moment: 5,
    }
}

pub(crate) fn take(count: u32) -> Step
    ensures { (puts_of result ≡ 0) × (takes_of result ≡ count) }
{
    Step::Take {
        id: Id::from_number(129),
        msgtyp: -7,
        count,
        within: None,
        moment: 6,
    }
}

/// The call that receives up to so many of them.
pub(crate) fn take_call(most: usize) -> Call {
    Call::Take {
        id: 129,
        msgtyp: -7,
        left: FOREVER,
        most,
        moment: 6,
    }
}

pub(crate) fn remove() -> Step
    ensures { (puts_of result ≡ 0) × (takes_of result ≡ 0) }
{
    Step::Remove {
        id: Id::from_number(66),
        moment: 8,
    }
}

pub(crate) const REMOVE: Call = Call::Remove { id: 66, moment: 8 };

/// A plan that sends so many messages.
pub(crate) fn puts(alloc: Global, count: u32) -> Result<Vec<Step>, AllocError>
    ensures { IfOk result (λ plan. IsCountable plan.items) }
{
    let mut plan = Vec::with_capacity(alloc, 1)?;
    plan.push_reserved(put(count));
    Ok(plan)
}

/// A plan that receives one message.
pub(crate) fn one_take(alloc: Global) -> Result<Vec<Step>, AllocError>
    ensures { IfOk result (λ plan. IsCountable plan.items) }
{
    let mut plan = Vec::with_capacity(alloc, 1)?;
    plan.push_reserved(take(1));
    Ok(plan)
}
