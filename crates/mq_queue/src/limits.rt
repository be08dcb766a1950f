//! The limits of a queue, by their names in msgop(2), and the limit of a drain.

/// The greatest length of a text, in bytes.
pub const MSGMAX: u64 = 65536;

/// The greatest quota of a queue, and the one that it is made with: the most bytes that may be
/// pending, and the most messages.
pub const MSGMNB: u64 = 131072;

/// The most events that may be drained from a log. A vector has fewer than 2 ^ 63, so each event of
/// a log has a place below 2 ^ 64.
pub const MAX_CUT: u64 = (1 << 63) - 1;
