//! The two copies of a board's snapshot, as their writer holds them.

ghost use Rattle.std.specs.Prelude.{◌≡◌, ◌<◌, ◌≤◌, ◌∷◌, [], drop, IfOk, IfSome, IsSome};
ghost use Rattle.mq_board.specs.Snapshots.{IsOfBoard, newest};

use crate::naming::Naming;
use crate::snapshot::{BoardLaw, OfBoard, Snapshot};
use left_right::reader::Factory;
use left_right::writer::Writer;
use std::alloc::{AllocError, Global};
use std::marker::Model;
use std::mem::replace;
use std::sync::Wait;

/// What `left_right` has of a board, for its writer.
type Pair<J> = Writer<Snapshot, Snapshot, (), BoardLaw<J>>;

/// The copies of a board, seen as the snapshot that readers enter. It can't be dropped: `close`
/// gives them up.
pub(crate) struct Copies<J: Naming> {
    /// Taken out only while they are published.
    pair: Option<Pair<J>>,
}

impl<J: Naming> Model for Copies<J> {
    ghost use Rattle.std.specs.Prelude.{◌≡◌, [], drop, option_map, unwrap_or, IfSome, IsSome};
    ghost use Rattle.mq_board.specs.Snapshots.{SnapshotState, nothing};

    ghost Value = { SnapshotState };

    ghost view = { λ c. unwrap_or (option_map (λ p. p.desk.shown.value) c.pair) nothing };

    ghost invariant = { λ c. IsSome c.pair
        × IfSome c.pair (λ p. drop p.behind p.log.items ≡ []) };
}

impl<J: Naming> Copies<J> {
    /// Two copies of this snapshot, with so many places for readers. Their log of operations is
    /// made long enough here, once, for all that publishing appends.
    pub(crate) fn new<R: Wait>(
        alloc: Global,
        rt: &R,
        first: &Snapshot,
        places: usize,
    ) -> Result<Copies<J>, AllocError>
        requires named { IsOfBoard J.board first.now }
        requires places { (0 < places) × (places ≤ 16) }
        ensures { IfOk result (λ copies. copies ≡ first.now) }
    {
        let mut pair: Pair<J> = Writer::new(alloc, first.duplicate(), first.duplicate(), places)?;
        if pair.append(first.duplicate()).is_err() || pair.append(first.duplicate()).is_err() {
            let _published = pair.take(rt);
            return Err(AllocError);
        }
        let mut pair = Some(pair);
        turn(rt, &mut pair);
        turn(rt, &mut pair);
        Ok(Copies { pair })
    }

    /// The factory of readers of the copies.
    pub(crate) fn factory(&self) -> Result<Factory<Snapshot, (), BoardLaw<J>>, AllocError> {
        let Some(pair) = &self.pair else {
            unreachable!()
        };
        pair.factory().another()
    }

    /// Publishes this snapshot. It allocates nothing, and waits for a reader that is still inside
    /// the copy that was published before the last.
    pub(crate) fn publish<R: Wait>(&mut self, rt: &R, next: Snapshot)
        requires { IsOfBoard J.board next }
        ensures { self.new ≡ next }
    {
        let Some(pair) = &mut self.pair else {
            unreachable!()
        };
        append(rt, pair, next);
        turn(rt, &mut self.pair);
    }

    /// Gives the copies up, and waits for the readers inside.
    pub(crate) fn close<R: Wait>(self, rt: &R) {
        let Copies { pair } = self;
        let Some(pair) = pair else { unreachable!() };
        let _published = pair.take(rt);
    }
}

/// Publishes what was appended. This is the one call of `publish_as`: so it is compiled in line
/// here, and the pair is not copied on its way into the call and back.
fn turn<J: Naming, R: Wait>(rt: &R, pair: &mut Option<Pair<J>>)
    requires there { IsSome pair.old }
    requires named { IfSome pair.old (λ p.
        IsOfBoard J.board (newest p.desk.shown.value (drop p.behind p.log.items))) }
    ensures there { IsSome pair.new }
    ensures shown { IfSome pair.old (λ o. IfSome pair.new (λ n. n.desk.shown.value
        ≡ newest o.desk.shown.value (drop o.behind o.log.items))) }
    ensures idle { IfSome pair.new (λ n. drop n.behind n.log.items ≡ []) }
{
    let Some(taken) = pair.take() else {
        unreachable!()
    };
    let (published, _always) = taken.publish_as::<OfBoard<J>, R>(rt);
    let taken = replace(pair, Some(published));
    let None = taken else { unreachable!() };
}

/// Appends the next snapshot to the copies' log of operations. There is room for it in every run,
/// since `new` made it.
fn append<J: Naming, R: Wait>(rt: &R, pair: &mut Pair<J>, next: Snapshot)
    requires { drop pair.old.behind pair.old.log.items ≡ [] }
    ensures desk { pair.new.desk ≡ pair.old.desk }
    ensures next { drop pair.new.behind pair.new.log.items ≡ next ∷ [] }
{
    let mut next = next;
    for _ in rt.forever() {
        match pair.append(next) {
            Ok(()) => return,
            Err(refused) => next = refused,
        }
    }
    unreachable!()
}
