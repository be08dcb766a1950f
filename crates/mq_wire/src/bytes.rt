//! Lists of bytes and their serialized form: length-prefixed.

ghost use Rattle.std.specs.Prelude.{◌≡◌, ◌++◌, ℕ, List, IfOk};
ghost use Rattle.mq_wire.specs.Encoding.{counted_bytes};

use crate::unread_error::UnreadError;
use crate::wire::Wire;
use std::alloc::{AllocError, Global};
use std::marker::Model;

/// A list of bytes of any length.
#[derive(Debug, Drop)]
pub struct Bytes {
    bytes: Vec<u8>,
}

impl Model for Bytes {
    ghost Value = { List ℕ };

    ghost view = { λ b. b.bytes.items };
}

impl Bytes {
    /// A copy of these bytes.
    pub fn from_slice(alloc: Global, bytes: &[u8]) -> Result<Bytes, AllocError>
        ensures ok { IfOk result (λ copy. copy ≡ bytes.now) }
    {
        Ok(Bytes {
            bytes: bytes.to_vec(alloc)?,
        })
    }

    pub fn from_vec(bytes: Vec<u8>) -> Bytes
        ensures { result ≡ bytes.items }
    {
        Bytes { bytes }
    }

    pub fn as_slice(&self) -> &[u8]
        ensures { result.now ≡ self.now }
    {
        self.bytes.as_slice()
    }

    pub fn into_vec(self) -> Vec<u8>
        ensures { result.items ≡ self }
    {
        let Bytes { bytes } = self;
        bytes
    }
}

/// The length in eight bytes, little-endian, and then the bytes.
#[tactic(auto, unfolding(crate::specs::Encoding::counted_bytes))]
impl Wire for Bytes {
    ghost bytes_of = { counted_bytes };

    fn write(&self, out: &mut Vec<u8>) -> Result<(), AllocError> {
        let bytes = self.as_slice();
        (bytes.len() as u64).write(out)?;
        out.extend_from_slice(bytes)
    }

    fn read(alloc: Global, from: &mut &[u8]) -> Result<Bytes, UnreadError> {
        let length = u64::read(alloc, from)? as usize;
        let Some((front, rest)) = from.split_at_checked(length) else {
            return Err(UnreadError::NoValue);
        };
        *from = rest;
        match Bytes::from_slice(alloc, front) {
            Ok(bytes) => Ok(bytes),
            Err(_) => Err(UnreadError::NoMemory),
        }
    }
}
