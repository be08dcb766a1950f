//! The limits of scripts, and the default sizes of their queues.

ghost use Rattle.std.specs.Prelude.{◌≡◌};

use mq_calls::{Config, DEFAULTS};

/// The size of the queue system of a script that is given none: an arena of 64 pages, whose
/// `arena` lines can be followed by hand.
pub const SCRIPT_DEFAULTS: Config = Config {
    height: 6,
    ..DEFAULTS
};

/// The greatest length of a script, in bytes.
pub const SCRIPT_LIMIT: usize = 1_048_576;

/// The greatest length of a line, in bytes, without its end.
pub const LINE_LIMIT: usize = 4096;

/// The number of read calls after which reading a script ends as a fault. Each gives a byte at
/// least, so a reader that keeps its contract is never asked so often.
pub(crate) const READ_CALLS: u32 = 2_097_152;

/// The number of a typed line at which a run ends as a fault: the count of lines is a `u64`.
pub(crate) const TYPED_LIMIT: u64 = u64::MAX;

/// How many sections a threads script has at most: the main part has seat 1, and each section one
/// of the others.
pub(crate) const MAX_WORKERS: usize = 15;

/// How many messages a line of a section sends or receives at most.
pub(crate) const MAX_MESSAGES: u32 = 100_000;

/// Within how many milliseconds the waits of a line end at most, where it says so.
pub(crate) const MAX_WITHIN: u64 = 1_000_000;

/// The limits as numbers.
pub fn the_limits()
    ensures height { SCRIPT_DEFAULTS.height ≡ 6 }
    ensures script { SCRIPT_LIMIT ≡ 1048576 }
    ensures line { LINE_LIMIT ≡ 4096 }
    ensures reads { READ_CALLS ≡ 2097152 }
    ensures typed { TYPED_LIMIT ≡ 18446744073709551615 }
    ensures workers { MAX_WORKERS ≡ 15 }
    ensures count { MAX_MESSAGES ≡ 100000 }
    ensures within { MAX_WITHIN ≡ 1000000 }
{}
