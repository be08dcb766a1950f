//! The serialized form of pairs.

ghost use Rattle.std.specs.Prelude.{◌≡◌, ◌++◌, ◌||◌};

use crate::unread_error::UnreadError;
use crate::wire::Wire;
use std::alloc::{AllocError, Global};

/// The bytes of the first, then those of the second.
impl<A: Wire, B: Wire> Wire for (A, B) {
    ghost bytes_of = { λ x. A.bytes_of x.0 ++ B.bytes_of x.1 };

    ghost allocates = { A.allocates || B.allocates };

    fn write(&self, out: &mut Vec<u8>) -> Result<(), AllocError> {
        self.0.write(out)?;
        self.1.write(out)
    }

    fn read(alloc: Global, from: &mut &[u8]) -> Result<(A, B), UnreadError> {
        Ok((A::read(alloc, from)?, B::read(alloc, from)?))
    }
}
