//! The serialized form of unsigned integers: little-endian, of a fixed width.

ghost use Rattle.std.specs.Prelude.{◌≡◌, ◌++◌, [], ◌∷◌, false};
ghost use Rattle.mq_wire.specs.Encoding.{u16_bytes, u32_bytes, u64_bytes};

use crate::front::take_array;
use crate::unread_error::UnreadError;
use crate::wire::Wire;
use std::alloc::{AllocError, Global};

/// One byte.
impl Wire for u8 {
    ghost bytes_of = { λ x. x ∷ [] };

    ghost allocates = { false };

    fn write(&self, out: &mut Vec<u8>) -> Result<(), AllocError> {
        out.extend_from_slice(&[*self])
    }

    fn read(_alloc: Global, from: &mut &[u8]) -> Result<u8, UnreadError> {
        match from.split_off_first() {
            Some(byte) => Ok(*byte),
            None => Err(UnreadError::NoValue),
        }
    }
}

/// Two bytes, little-endian.
#[tactic(auto, unfolding(crate::specs::Encoding::u16_bytes))]
impl Wire for u16 {
    ghost bytes_of = { u16_bytes };

    ghost allocates = { false };

    fn write(&self, out: &mut Vec<u8>) -> Result<(), AllocError> {
        out.extend_from_slice(&u16::to_le_bytes(*self))
    }

    fn read(_alloc: Global, from: &mut &[u8]) -> Result<u16, UnreadError> {
        Ok(u16::from_le_bytes(take_array(from)?))
    }
}

/// Four bytes, little-endian.
#[tactic(auto, unfolding(crate::specs::Encoding::u32_bytes))]
impl Wire for u32 {
    ghost bytes_of = { u32_bytes };

    ghost allocates = { false };

    fn write(&self, out: &mut Vec<u8>) -> Result<(), AllocError> {
        out.extend_from_slice(&u32::to_le_bytes(*self))
    }

    fn read(_alloc: Global, from: &mut &[u8]) -> Result<u32, UnreadError> {
        Ok(u32::from_le_bytes(take_array(from)?))
    }
}

/// Eight bytes, little-endian.
#[tactic(auto, unfolding(crate::specs::Encoding::u64_bytes))]
impl Wire for u64 {
    ghost bytes_of = { u64_bytes };

    ghost allocates = { false };

    fn write(&self, out: &mut Vec<u8>) -> Result<(), AllocError> {
        out.extend_from_slice(&u64::to_le_bytes(*self))
    }

    fn read(_alloc: Global, from: &mut &[u8]) -> Result<u64, UnreadError> {
        Ok(u64::from_le_bytes(take_array(from)?))
    }
}
