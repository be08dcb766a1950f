//! A body on the heap, for queues without an arena.

ghost use Rattle.std.specs.Prelude.{◌≡◌, IfOk, take};

use crate::Body;
use std::alloc::{AllocError, Global};
use std::marker::Model;

/// Bytes in a vector of their own.
#[derive(Drop)]
pub struct VecBody {
    bytes: Vec<u8>,
}

impl Model for VecBody {
    ghost use Rattle.std.specs.Prelude.{List, ℕ};

    ghost Value = { List ℕ };

    ghost view = { λ body. body.bytes.items };
}

impl VecBody {
    /// A body with a copy of these bytes.
    pub fn from_slice(alloc: Global, bytes: &[u8]) -> Result<VecBody, AllocError>
        ensures ok { IfOk result (λ body. body ≡ bytes.now) }
    {
        Ok(VecBody {
            bytes: bytes.to_vec(alloc)?,
        })
    }

    /// A body of these very bytes.
    pub fn from_vec(bytes: Vec<u8>) -> VecBody
        ensures { result ≡ bytes.items }
    {
        VecBody { bytes }
    }

    pub fn bytes(&self) -> &[u8]
        ensures { result.now ≡ self.now }
    {
        self.bytes.as_slice()
    }
}

impl Body for VecBody {
    ghost bytes = { λ body. body };

    ghost keeps = { λ _ _. Unit {0} };

    fn len(&self) -> u64 {
        self.bytes.len() as u64
    }

    fn cut(&mut self, n: u64) {
        self.bytes
            .truncate(usize::try_from(n).unwrap_or(usize::MAX));
    }
}
