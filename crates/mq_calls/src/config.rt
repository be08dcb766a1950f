//! The sizes of a queue system.

ghost use Rattle.std.specs.Prelude.{◌≡◌, IsTrue};
ghost use Rattle.mq_calls.specs.Limits.{keeps_limits, IsWithin};
ghost use Rattle.mq_calls.specs.Sizes.{config_with_height, config_with_slots};
ghost use Rattle.mq_calls.specs.Sizes.{config_with_seats, config_with_last_seq};

use crate::{ConfigError, MAX_SEATS};
use mq_table::{MAX_SEQ, MAX_SLOTS};
use mq_tree::MAX_HEIGHT;
use thiserror::Error;

/// The size of a queue system.
#[derive(Clone, Copy, Debug, PartialEq, Eq)]
pub struct Config {
    /// The arena has `2 ^ height` pages of 1,024 bytes: 0 to `MAX_HEIGHT`.
    pub height: u8,
    /// The number of queues at a time: 1 to `MAX_SLOTS`.
    pub slots: u8,
    /// The number of seats: 1 to `MAX_SEATS`. `OneThread` only checks it: its calls take any seat,
    /// and where a queue's figures name the seat that sent or received last, 0 means none yet.
    pub seats: u16,
    /// The greatest seq of an id, 0 to `MAX_SEQ`: each slot has `last_seq + 1` queues, one after
    /// another, and is then used up.
    pub last_seq: u32,
}

/// Why a queue system is not made, in the order of the tests.
#[derive(Clone, Copy, Debug, PartialEq, Eq, Error)]
pub enum SysError {
    #[error("a value of the configuration is out of its limits")]
    Config,
    #[error("out of memory")]
    Memory,
}

/// The size of a queue system where no other is needed. Each text but the empty one takes at
/// least a page, so the arena is the highest: 1,024 such texts may be drafted or pending.
pub const DEFAULTS: Config = Config {
    height: MAX_HEIGHT,
    slots: 16,
    seats: MAX_SEATS,
    last_seq: MAX_SEQ,
};

impl Config {
    /// Whether each value is within its limits.
    pub fn is_valid(self) -> bool
        ensures value { result ≡ keeps_limits self }
        ensures limits { IsTrue result → IsWithin self }
    {
        self.height <= MAX_HEIGHT
            && 1 <= self.slots
            && self.slots <= MAX_SLOTS
            && 1 <= self.seats
            && self.seats <= MAX_SEATS
            && self.last_seq <= MAX_SEQ
    }

    /// The same with another height.
    pub fn with_height(self, height: u8) -> Result<Config, ConfigError>
        ensures { result ≡ config_with_height self height }
    {
        if height <= MAX_HEIGHT {
            Ok(Config { height, ..self })
        } else {
            Err(ConfigError::Height)
        }
    }

    /// The same with another number of slots.
    pub fn with_slots(self, slots: u8) -> Result<Config, ConfigError>
        ensures { result ≡ config_with_slots self slots }
    {
        if 1 <= slots && slots <= MAX_SLOTS {
            Ok(Config { slots, ..self })
        } else {
            Err(ConfigError::Slots)
        }
    }

    /// The same with another number of seats.
    pub fn with_seats(self, seats: u16) -> Result<Config, ConfigError>
        ensures { result ≡ config_with_seats self seats }
    {
        if 1 <= seats && seats <= MAX_SEATS {
            Ok(Config { seats, ..self })
        } else {
            Err(ConfigError::Seats)
        }
    }

    /// The same with another greatest seq.
    pub fn with_last_seq(self, last_seq: u32) -> Result<Config, ConfigError>
        ensures { result ≡ config_with_last_seq self last_seq }
    {
        if last_seq <= MAX_SEQ {
            Ok(Config { last_seq, ..self })
        } else {
            Err(ConfigError::LastSeq)
        }
    }
}

/// `DEFAULTS`.
impl Default for Config {
    ghost use Rattle.mq_calls.specs.declared.config.TheConstants.{DEFAULTS};

    ghost is_default = { λ config. config ≡ DEFAULTS };

    fn default() -> Config {
        DEFAULTS
    }
}
