//! The sizes in numbers: proved of the constants alone.

ghost use Rattle.std.specs.Prelude.{◌≡◌, true};
ghost use Rattle.mq_calls.specs.Limits.{keeps_limits};

use crate::DEFAULTS;

/// The size that `DEFAULTS` is.
pub fn the_defaults()
    ensures size { DEFAULTS ≡ record { height = 10; slots = 16; seats = 16; last_seq = 32767 } }
    ensures limits { keeps_limits DEFAULTS ≡ true }
{}
