//! The serialized form of signed integers: two's complement, little-endian, of a fixed width.

ghost use Rattle.std.specs.Prelude.{◌≡◌, ◌++◌, false};
ghost use Rattle.mq_wire.specs.Encoding.{i16_bytes, i32_bytes, i64_bytes, i8_bytes};

use crate::front::take_array;
use crate::unread_error::UnreadError;
use crate::wire::Wire;
use std::alloc::{AllocError, Global};

/// One byte of two's complement.
#[tactic(auto, unfolding(crate::specs::Encoding::i8_bytes))]
impl Wire for i8 {
    ghost bytes_of = { i8_bytes };

    ghost allocates = { false };

    fn write(&self, out: &mut Vec<u8>) -> Result<(), AllocError> {
        out.extend_from_slice(&[self.cast_unsigned()])
    }

    fn read(_alloc: Global, from: &mut &[u8]) -> Result<i8, UnreadError> {
        let [byte] = take_array::<1>(from)?;
        Ok(byte.cast_signed())
    }
}

/// Two bytes of two's complement, little-endian.
#[tactic(auto, unfolding(crate::specs::Encoding::i16_bytes))]
impl Wire for i16 {
    ghost bytes_of = { i16_bytes };

    ghost allocates = { false };

    fn write(&self, out: &mut Vec<u8>) -> Result<(), AllocError> {
        out.extend_from_slice(&i16::to_le_bytes(*self))
    }

    fn read(_alloc: Global, from: &mut &[u8]) -> Result<i16, UnreadError> {
        Ok(u16::from_le_bytes(take_array(from)?).cast_signed())
    }
}

/// Four bytes of two's complement, little-endian.
#[tactic(auto, unfolding(crate::specs::Encoding::i32_bytes))]
impl Wire for i32 {
    ghost bytes_of = { i32_bytes };

    ghost allocates = { false };

    fn write(&self, out: &mut Vec<u8>) -> Result<(), AllocError> {
        out.extend_from_slice(&i32::to_le_bytes(*self))
    }

    fn read(_alloc: Global, from: &mut &[u8]) -> Result<i32, UnreadError> {
        Ok(u32::from_le_bytes(take_array(from)?).cast_signed())
    }
}

/// Eight bytes of two's complement, little-endian.
#[tactic(auto, unfolding(crate::specs::Encoding::i64_bytes))]
impl Wire for i64 {
    ghost bytes_of = { i64_bytes };

    ghost allocates = { false };

    fn write(&self, out: &mut Vec<u8>) -> Result<(), AllocError> {
        out.extend_from_slice(&i64::to_le_bytes(*self))
    }

    fn read(_alloc: Global, from: &mut &[u8]) -> Result<i64, UnreadError> {
        Ok(u64::from_le_bytes(take_array(from)?).cast_signed())
    }
}
