//! Tests of ids, keys and slots.

mod keys;
mod lists;
mod notices;
mod plays;
mod slot_calls;
