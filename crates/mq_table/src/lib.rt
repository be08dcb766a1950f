//! The queues' ids and keys, and the slots in which queues are made and removed one after another.

#![tactic(auto)]

mod cut;
mod entries;
mod id;
mod key_entry;
mod keys;
pub mod laws;
mod limits;
mod live;
mod refusal;
mod slot;
mod turnover;
mod under;

pub use cut::Cut;
pub use id::Id;
pub use key_entry::KeyEntry;
pub use keys::KeyTable;
pub use limits::{MAX_PAST, MAX_SEQ, MAX_SLOTS};
pub use refusal::IdRefusal;
pub use slot::Slot;
pub use under::{make_under, remove_under};
