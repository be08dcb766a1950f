//! The serialized form of triples.

ghost use Rattle.std.specs.Prelude.{◌≡◌, ◌++◌, ◌||◌};

use crate::unread_error::UnreadError;
use crate::wire::Wire;
use std::alloc::{AllocError, Global};

/// The bytes of each, in their order.
impl<A: Wire, B: Wire, C: Wire> Wire for (A, B, C) {
    ghost bytes_of = { λ x. A.bytes_of x.0 ++ B.bytes_of x.1 ++ C.bytes_of x.2 };

    ghost allocates = { A.allocates || B.allocates || C.allocates };

    fn write(&self, out: &mut Vec<u8>) -> Result<(), AllocError> {
        self.0.write(out)?;
        self.1.write(out)?;
        self.2.write(out)
    }

    fn read(alloc: Global, from: &mut &[u8]) -> Result<(A, B, C), UnreadError> {
        Ok((
            A::read(alloc, from)?,
            B::read(alloc, from)?,
            C::read(alloc, from)?,
        ))
    }
}
