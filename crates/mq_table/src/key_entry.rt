//! The entries of the key table, as `KeyTable::entry` returns them.

use crate::Id;

/// A key and the id of its queue.
#[derive(Clone, Copy, Debug, PartialEq, Eq)]
pub struct KeyEntry {
    pub key: i32,
    pub id: Id,
}
