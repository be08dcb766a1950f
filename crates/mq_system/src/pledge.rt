//! Message invariants: preconditions of sends, which receivers may assume.

ghost use Rattle.std.specs.Prelude.{ℕ, ℤ, List};

/// What every sender of a system keeps of what it sends: a fact of the sender's seat, its tag, the
/// message's type and the text's bytes. A receiver may rely on it.
pub trait Pledge {
    ghost kept: { ℕ → ℕ → ℤ → List ℕ → Type 0 };
}
