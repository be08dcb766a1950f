//! Reads of a fixed number of bytes, by which integers and arrays are read.

ghost use Rattle.std.specs.Prelude.{◌≡◌, ◌++◌, Bool, true, List, ℕ, length};
ghost use Rattle.std.specs.Prelude.{IfOk, IfSome, IsErrOf, MatchOption, Ok};
ghost use Rattle.mq_wire.specs.Encoding.{bytes_if};
ghost use Rattle.mq_wire.specs.declared.unread_error.UnreadError.TheVariants.{NoMemory};

use crate::unread_error::UnreadError;

/// The first `N` bytes, and those behind them.
fn front<const N: usize>(bytes: &[u8]) -> Option<(&[u8; N], &[u8])>
    ensures parts { IfSome result (λ p. bytes.now ≡ p.0.now ++ p.1.now) }
    ensures back { (test : Bool) (xs rest : List ℕ) → (test ≡ true → length xs ≡ N)
        → bytes.now ≡ bytes_if test xs ++ rest
        → (test ≡ true) × MatchOption result ⊥ (λ p. (p.0.now ≡ xs) × (p.1.now ≡ rest)) }
{
    bytes.split_first_chunk::<N>()
}

/// Takes the first `N` bytes.
pub(crate) fn take_array<const N: usize>(from: &mut &[u8]) -> Result<[u8; N], UnreadError>
    ensures parts { IfOk result (λ a. from.old.now ≡ a ++ from.new.now) }
    ensures back { (test : Bool) (xs rest : List ℕ) → (test ≡ true → length xs ≡ N)
        → from.old.now ≡ bytes_if test xs ++ rest
        → (test ≡ true) × (result ≡ Ok xs) × (from.new.now ≡ rest) }
    ensures memory { IsErrOf result NoMemory → ⊥ }
{
    let Some((array, rest)) = front::<N>(*from) else {
        return Err(UnreadError::NoValue);
    };
    *from = rest;
    Ok(*array)
}
