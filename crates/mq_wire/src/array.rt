//! The serialized form of byte arrays, whose length the type has.

ghost use Rattle.std.specs.Prelude.{◌≡◌, ◌++◌, false};
ghost use Rattle.mq_wire.specs.Encoding.{array_bytes};

use crate::front::take_array;
use crate::unread_error::UnreadError;
use crate::wire::Wire;
use std::alloc::{AllocError, Global};

/// Its bytes alone, with no length.
#[tactic(auto, unfolding(crate::specs::Encoding::array_bytes))]
impl<const N: usize> Wire for [u8; N] {
    ghost bytes_of = { λ x. array_bytes N x };

    ghost allocates = { false };

    fn write(&self, out: &mut Vec<u8>) -> Result<(), AllocError> {
        out.extend_from_slice(self)
    }

    fn read(_alloc: Global, from: &mut &[u8]) -> Result<[u8; N], UnreadError> {
        take_array(from)
    }
}
