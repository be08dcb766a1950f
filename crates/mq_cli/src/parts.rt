//! Splitting of bytes at a separator.

ghost use Rattle.std.specs.Prelude.{◌≡◌, ◌==◌, ◌∷◌, ◌<◌, ℕ, length, IfSome};
ghost use Rattle.std.specs.List.{position};
ghost use Rattle.mq_cli.specs.Lines.{parts_of};
ghost use Rattle.mq_cli.specs.Parts.{parts_left};

use memchr::memchr;

/// The part before the first separator, and the rest after that separator, if there is one.
pub(crate) fn first_part(separator: u8, text: &[u8]) -> (&[u8], Option<&[u8]>)
    ensures { parts_of separator text.now ≡ result.0.now ∷ parts_left separator result.1 }
{
    cut_at(text, position_of(separator, text))
}

/// The same by a search of many bytes at a time, which pays for itself where the part is long.
pub(crate) fn first_long_part(separator: u8, text: &[u8]) -> (&[u8], Option<&[u8]>)
    ensures { parts_of separator text.now ≡ result.0.now ∷ parts_left separator result.1 }
{
    cut_at(text, place_of(separator, text))
}

/// The parts before and after that place: the whole text where there is none.
#[tactic(auto, using(crate::proofs::PartsLemmas::cut_parts))]
fn cut_at(text: &[u8], place: Option<usize>) -> (&[u8], Option<&[u8]>)
    requires within { IfSome place (λ place. place < length text.now) }
    ensures { (separator : ℕ) → place ≡ position (λ b. b == separator) text.now
        → parts_of separator text.now ≡ result.0.now ∷ parts_left separator result.1 }
{
    match place {
        Some(place) => (&text[..place], Some(&text[place + 1..])),
        None => (text, None),
    }
}

/// The place of the first byte of this value.
fn position_of(byte: u8, text: &[u8]) -> Option<usize>
    ensures value { result ≡ position (λ b. b == byte) text.now }
    ensures within { IfSome result (λ place. place < length text.now) }
{
    text.iter().position(|b| *b == byte)
}

/// The same, by a search of many bytes at a time.
fn place_of(byte: u8, text: &[u8]) -> Option<usize>
    ensures value { result ≡ position (λ b. b == byte) text.now }
    ensures within { IfSome result (λ place. place < length text.now) }
{
    memchr(byte, text)
}
