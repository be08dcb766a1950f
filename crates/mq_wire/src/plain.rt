//! The serialized form of bools and of the unit type.

ghost use Rattle.std.specs.Prelude.{◌≡◌, ◌++◌, [], false};
ghost use Rattle.mq_wire.specs.Encoding.{bool_bytes};

use crate::unread_error::UnreadError;
use crate::wire::Wire;
use std::alloc::{AllocError, Global};

/// One byte, 0 or 1.
#[tactic(auto, unfolding(crate::specs::Encoding::bool_bytes))]
impl Wire for bool {
    ghost bytes_of = { bool_bytes };

    ghost allocates = { false };

    fn write(&self, out: &mut Vec<u8>) -> Result<(), AllocError> {
        (if *self { 1u8 } else { 0 }).write(out)
    }

    fn read(alloc: Global, from: &mut &[u8]) -> Result<bool, UnreadError> {
        match u8::read(alloc, from)? {
            0 => Ok(false),
            1 => Ok(true),
            _ => Err(UnreadError::NoValue),
        }
    }
}

/// No byte.
impl Wire for () {
    ghost bytes_of = { λ _. [] };

    ghost allocates = { false };

    fn write(&self, _out: &mut Vec<u8>) -> Result<(), AllocError> {
        Ok(())
    }

    fn read(_alloc: Global, _from: &mut &[u8]) -> Result<(), UnreadError> {
        Ok(())
    }
}
