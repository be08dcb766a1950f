//! The parser of numbers.

ghost use Rattle.std.specs.Prelude.{◌≡◌, ◌≤◌, ◌+◌, ◌-◌, ◌*◌, ◌^◌, ◌==◌, ◌&&◌};
ghost use Rattle.std.specs.Prelude.{MatchOption, nat_lt, not, length, slice_index};
ghost use Rattle.std.specs.Int.{IsInRange};
ghost use Rattle.mq_cli.specs.Numbers.{number_of, integer_of, key_of};

/// The number that a word spells in decimal digits, with no sign and no needless zero before it.
pub(crate) fn number(word: &[u8]) -> Option<u64>
    ensures { result ≡ number_of word.now }
{
    if !has_first_digit(word) {
        return None;
    }
    let mut value = 0;
    for byte in word {
        match with_digit(value, *byte) {
            Some(longer) => value = longer,
            None => return None,
        }
    }
    Some(value)
}

/// Whether a word begins with a byte, and not with a zero before more of them.
fn has_first_digit(word: &[u8]) -> bool
    ensures { result ≡ (nat_lt 0 (length word.now)
        && not ((slice_index word.now 0 == 48) && nat_lt 1 (length word.now))) }
{
    match word {
        [] | [b'0', _, ..] => false,
        _ => true,
    }
}

/// The number with one more digit, where the byte is one and the number fits.
fn with_digit(value: u64, byte: u8) -> Option<u64>
    ensures { MatchOption result (IsInRange 48 57 byte → 2 ^ 64 ≤ value * 10 + (byte - 48))
        (λ longer. IsInRange 48 57 byte × (longer ≡ value * 10 + (byte - 48))) }
{
    match byte {
        b'0'..=b'9' => value.checked_mul(10)?.checked_add(u64::from(byte - b'0')),
        _ => None,
    }
}

/// The number that a word spells, with `-` before it where it is below zero.
#[tactic(auto, unfolding(crate::specs::Numbers::integer_of))]
pub(crate) fn integer(word: &[u8]) -> Option<i64>
    ensures { result ≡ integer_of word.now }
{
    match word {
        [b'-', digits @ ..] => {
            let magnitude = number(digits)?;
            if magnitude == 0 {
                return None;
            }
            0i64.checked_sub_unsigned(magnitude)
        }
        _ => i64::try_from(number(word)?).ok(),
    }
}

/// The key that a word spells.
pub(crate) fn key(word: &[u8]) -> Option<i32>
    ensures { result ≡ key_of word.now }
{
    i32::try_from(integer(word)?).ok()
}
