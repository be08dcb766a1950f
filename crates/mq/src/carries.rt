//! Message invariants of values in place of bytes: a receiver reads back a value that was sent, and
//! may assume what its sender vowed of it.

ghost use Rattle.std.specs.Prelude.{ℕ, ℤ, List};
ghost use Rattle.mq.specs.Values.{carries};

use mq_system::Pledge;
use mq_wire::Wire;
use std::marker::PhantomData;

/// A pledge that each text is the bytes of a value, of which something is vowed.
pub trait ValuePledge: Pledge {
    type Value: Wire;

    /// What every sender keeps of its values: a fact of its seat, its tag, the message's type and
    /// the value. A receiver may rely on it.
    ghost vowed: { ℕ → ℕ → ℤ → Self.Value → Type 0 } = { λ _ _ _ _. Unit {0} };

    ghost read_back: { (seat tag : ℕ) (mtype : ℤ) (bytes : List ℕ)
        → Self.kept seat tag mtype bytes
        → carries Self.Value.bytes_of vowed seat tag mtype bytes };

    ghost written: { (seat tag : ℕ) (mtype : ℤ) (bytes : List ℕ)
        → carries Self.Value.bytes_of vowed seat tag mtype bytes
        → Self.kept seat tag mtype bytes };
}

/// What the senders of a system vow of the values that they send. Left out, it is nothing.
pub trait Vow {
    type Value: Wire;

    ghost vowed: { ℕ → ℕ → ℤ → Self.Value → Type 0 } = { λ _ _ _ _. Unit {0} };
}

/// The pledge of such a vow. A value with a `Bytes` in it needs a pledge of the program's own,
/// whose two laws are those below.
pub struct Carries<V> {
    of: PhantomData<V>,
}

impl<V: Vow> Pledge for Carries<V> {
    ghost kept = { carries V.Value.bytes_of V.vowed };
}

impl<V: Vow> ValuePledge for Carries<V> {
    type Value = V::Value;

    ghost vowed = { V.vowed };

    ghost read_back = { λ _ _ _ _ held. held };

    ghost written = { λ _ _ _ _ held. held };
}
