//! Serialization: a sender writes a value as bytes, and a receiver reads the same value back.
//! Numbers are little-endian; a bool is one byte, and so is the tag of an option; a list of bytes
//! is prefixed with its length, in eight bytes.

#![tactic(auto)]

mod array;
mod bytes;
mod front;
mod option;
mod pair;
mod plain;
mod signed;
mod triple;
mod unread_error;
mod unsigned;
mod wire;
pub mod worked;

pub use bytes::Bytes;
pub use unread_error::UnreadError;
pub use wire::Wire;
