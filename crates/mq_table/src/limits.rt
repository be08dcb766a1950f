//! The limits of the queue table: its slots, the queues of a slot, and the slot list.

/// The greatest number of slots.
pub const MAX_SLOTS: u8 = 64;

/// The greatest seq that may be the last one of a slot: `MAX_SEQ + 1` queues, one after another.
pub const MAX_SEQ: u32 = 32767;

/// The most entries of a slot's list that were drained or are of removed queues. A vector has fewer
/// than 2 ^ 63 events, so each entry has a number below 2 ^ 64.
pub const MAX_PAST: u64 = (1 << 63) - 1;
