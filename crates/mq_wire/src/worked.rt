//! Examples of serialized forms: each is proved of the definitions alone.

ghost use Rattle.std.specs.Prelude.{◌≡◌, ◌+◌, ◌-◌, ◌^◌, ◌∷◌, [], pos, negsuc, false, true};
ghost use Rattle.std.specs.Prelude.{None, Some};

use crate::bytes::Bytes;
use crate::wire::Wire;

/// The bytes of numbers. A number out of its type's range has bytes that no input begins with.
#[tactic(auto, unfolding(crate::specs::Encoding::u16_bytes, crate::specs::Encoding::u32_bytes, crate::specs::Encoding::u64_bytes, crate::specs::Encoding::i8_bytes, crate::specs::Encoding::i16_bytes, crate::specs::Encoding::i32_bytes, crate::specs::Encoding::i64_bytes))]
pub fn worked_numbers()
    ensures u8 { ⟦<u8 as Wire>⟧.bytes_of 7 ≡ 7 ∷ [] }
    ensures u16 { ⟦<u16 as Wire>⟧.bytes_of 258 ≡ 2 ∷ 1 ∷ [] }
    ensures u32 { ⟦<u32 as Wire>⟧.bytes_of (2 ^ 32 - 2) ≡ 254 ∷ 255 ∷ 255 ∷ 255 ∷ [] }
    ensures u64 { ⟦<u64 as Wire>⟧.bytes_of (2 ^ 40 + 3)
        ≡ 3 ∷ 0 ∷ 0 ∷ 0 ∷ 0 ∷ 1 ∷ 0 ∷ 0 ∷ [] }
    ensures i8 { ⟦<i8 as Wire>⟧.bytes_of (negsuc 127) ≡ 128 ∷ [] }
    ensures i16 { ⟦<i16 as Wire>⟧.bytes_of (negsuc 1) ≡ 254 ∷ 255 ∷ [] }
    ensures i32 { ⟦<i32 as Wire>⟧.bytes_of (pos (2 ^ 31 - 1)) ≡ 255 ∷ 255 ∷ 255 ∷ 127 ∷ [] }
    ensures i64 { ⟦<i64 as Wire>⟧.bytes_of (negsuc (2 ^ 63 - 1))
        ≡ 0 ∷ 0 ∷ 0 ∷ 0 ∷ 0 ∷ 0 ∷ 0 ∷ 128 ∷ [] }
    ensures over_u16 { ⟦<u16 as Wire>⟧.bytes_of (2 ^ 16) ≡ 256 ∷ [] }
    ensures over_i8 { ⟦<i8 as Wire>⟧.bytes_of (pos 128) ≡ 256 ∷ [] }
    ensures under_i8 { ⟦<i8 as Wire>⟧.bytes_of (negsuc 128) ≡ 256 ∷ [] }
{}

/// The bytes of values that are made of others.
#[tactic(auto, unfolding(crate::specs::Encoding::u16_bytes, crate::specs::Encoding::u64_bytes, crate::specs::Encoding::bool_bytes, crate::specs::Encoding::array_bytes, crate::specs::Encoding::option_bytes, crate::specs::Encoding::counted_bytes))]
pub fn worked_compounds()
    ensures no { ⟦<bool as Wire>⟧.bytes_of false ≡ 0 ∷ [] }
    ensures yes { ⟦<bool as Wire>⟧.bytes_of true ≡ 1 ∷ [] }
    ensures array { ⟦<[u8; 2] as Wire>⟧.bytes_of (8 ∷ 7 ∷ []) ≡ 8 ∷ 7 ∷ [] }
    ensures pair { ⟦<(u8, u16) as Wire>⟧.bytes_of (7, 258) ≡ 7 ∷ 2 ∷ 1 ∷ [] }
    ensures triple { ⟦<(u16, u8, bool) as Wire>⟧.bytes_of (258, 7, true) ≡ 2 ∷ 1 ∷ 7 ∷ 1 ∷ [] }
    ensures none { ⟦<Option<u16> as Wire>⟧.bytes_of None ≡ 0 ∷ [] }
    ensures some { ⟦<Option<u16> as Wire>⟧.bytes_of (Some 258) ≡ 1 ∷ 2 ∷ 1 ∷ [] }
    ensures list { ⟦<Bytes as Wire>⟧.bytes_of (9 ∷ 8 ∷ [])
        ≡ 2 ∷ 0 ∷ 0 ∷ 0 ∷ 0 ∷ 0 ∷ 0 ∷ 0 ∷ 9 ∷ 8 ∷ [] }
{}

/// Which values allocate when they are read.
pub fn worked_memory()
    ensures fixed { ⟦<(u8, Option<u16>, [u8; 2]) as Wire>⟧.allocates ≡ false }
    ensures list { ⟦<Option<(u8, Bytes)> as Wire>⟧.allocates ≡ true }
{}
