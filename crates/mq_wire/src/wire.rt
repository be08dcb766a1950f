//! The trait of serialization, and its promise: what was written is read back, whatever follows it.

ghost use Rattle.std.specs.Prelude.{ℕ, List, Bool, true, ◌≡◌, ◌++◌};
ghost use Rattle.std.specs.Prelude.{OnOk, IfOk, IsErrOf, MatchResult};
ghost use Rattle.mq_wire.specs.declared.unread_error.UnreadError.TheVariants.{NoMemory};

use crate::unread_error::UnreadError;
use std::alloc::{AllocError, Global};

/// A value with a serialized form. A struct writes its fields in turn; an enum writes a tag byte,
/// then the fields of its variant, and the read of a tag that no variant has fails.
pub trait Wire: Drop {
    ghost bytes_of: { Self → List ℕ };

    /// Whether a read may allocate.
    ghost allocates: { Bool } = { true };

    /// Appends the value's bytes. Out of memory, some may have been appended.
    fn write(&self, out: &mut Vec<u8>) -> Result<(), AllocError>
        ensures { OnOk result (out.new.items ≡ out.old.items ++ bytes_of self.now) };

    /// Reads the value at the front of these bytes, and advances past it. After an error, some
    /// bytes may have been consumed.
    fn read(alloc: Global, from: &mut &[u8]) -> Result<Self, UnreadError>
        ensures whole { IfOk result (λ v. from.old.now ≡ bytes_of v ++ from.new.now) }
        ensures back { (x : Self) (rest : List ℕ) → from.old.now ≡ bytes_of x ++ rest
            → MatchResult result (λ v. (v ≡ x) × (from.new.now ≡ rest)) (λ e. e ≡ NoMemory) }
        ensures memory { IsErrOf result NoMemory → allocates ≡ true };
}
