//! The limit of the participants of a system, which `Config` checks.

/// The greatest number of seats.
pub const MAX_SEATS: u16 = 16;
