//! The rule of a board's history, and the steps by which it grows and is read.

use crate::writer::Rest;
use logbook::{Gain, Plain, Play, Rule, Seen, Word};
use mq_queue::Event;
use std::marker::PhantomData;

/// The rule of a history.
pub struct HistoryLaw;

/// An entry of the log, which proofs see as a list: the events that one step published.
pub(crate) type Batch = [Event; 0];

/// The word of a history.
pub(crate) type Counted = Word<Batch, u64, HistoryLaw>;

/// A prefix of a history that was observed. It is zero-sized.
pub(crate) type Reached = Seen<Batch, u64, HistoryLaw>;

impl Rule<Batch, u64> for HistoryLaw {
    ghost use Rattle.std.specs.Prelude.{[]};
    ghost use base.Fml.{ftrue};
    ghost use Rattle.mq_board.specs.Histories.{IsCounted};

    ghost holds = { λ cells log. IsCounted cells log };

    ghost first = { [] };

    ghost hinted = { λ n log. Unit {0} };

    ghost shows = { λ log. [] };

    ghost keeps = { λ names log. ftrue };

    ghost moves = { λ ask before after answer. Unit {0} };
}

/// Nothing is traded at a step.
pub(crate) struct Nothing;

impl<E, A> Gain<E, A> for Nothing {
    ghost use base.Fml.{ftrue};

    ghost after = { λ names about answer. ftrue };
}

/// The step that adds events, where the history has as many as it says.
pub(crate) struct Add;

impl Play<Batch, u64> for Add {
    ghost use Rattle.mq_board.specs.Histories.{Adds};

    ghost then = { Adds };
}

/// One event is to be added.
impl Plain<Event, Batch, u64> for Add {
    ghost use Rattle.std.specs.Prelude.{◌∷◌, [], None};

    ghost ask = { λ event. event ∷ [] };

    ghost state = { λ event. None };
}

/// What names the events of a list from a number on.
pub(crate) struct RestOf<M> {
    of: PhantomData<M>,
}

/// The events of a list from this number on are to be added.
impl<X, M: Rest<X>> Plain<(&X, u64), Batch, u64> for RestOf<M> {
    ghost use Rattle.std.specs.Prelude.{None};

    ghost ask = { λ about. M.rest about.0.now about.1 };

    ghost state = { λ about. None };
}

/// The step that learns all of the history.
pub(crate) struct Learn;

impl Play<Batch, u64> for Learn {
    ghost use Rattle.mq_board.specs.Histories.{LearnsAll};

    ghost then = { LearnsAll };
}

/// It adds nothing.
impl Plain<u64, Batch, u64> for Learn {
    ghost use Rattle.std.specs.Prelude.{[], None};

    ghost ask = { λ count. [] };

    ghost state = { λ count. None };
}
