//! The serialized form of options: a tag byte, then the value if there is one.

ghost use Rattle.std.specs.Prelude.{◌≡◌, ◌++◌, Option};
ghost use Rattle.mq_wire.specs.Encoding.{option_bytes};

use crate::unread_error::UnreadError;
use crate::wire::Wire;
use std::alloc::{AllocError, Global};

/// One byte, 0 or 1, and after 1 the value's bytes.
#[tactic(auto, unfolding(crate::specs::Encoding::option_bytes))]
impl<A: Wire> Wire for Option<A> {
    ghost bytes_of = { λ x. option_bytes A.bytes_of x };

    ghost allocates = { A.allocates };

    fn write(&self, out: &mut Vec<u8>) -> Result<(), AllocError> {
        match self {
            None => 0u8.write(out),
            Some(x) => {
                1u8.write(out)?;
                x.write(out)
            }
        }
    }

    fn read(alloc: Global, from: &mut &[u8]) -> Result<Option<A>, UnreadError> {
        match u8::read(alloc, from)? {
            0 => Ok(None),
            1 => Ok(Some(A::read(alloc, from)?)),
            _ => Err(UnreadError::NoValue),
        }
    }
}
