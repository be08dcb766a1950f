//! What the tests share.
ghost use Rattle.std.specs.Prelude.{⊤};

use mq::{Config, Pledge};

pub(crate) const SMALL: Config = Config {
    height: 5,
    slots: 4,
    seats: 3,
    last_seq: 9,
};

/// Nothing is pledged.
pub(crate) struct Nothing;

impl Pledge for Nothing {
    ghost kept = { λ _ _ _ _. ⊤ };
}
