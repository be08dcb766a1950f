//! The error of the builder methods of `Config`, such as `with_height`.

ghost use Rattle.std.specs.Prelude.{◌≡◌};
ghost use Rattle.mq_calls.specs.declared.errno.Errno.TheVariants.{EINVAL};

use crate::{Errno, MAX_SEATS};
use mq_table::{MAX_SEQ, MAX_SLOTS};
use mq_tree::MAX_HEIGHT;
use thiserror::Error;

/// Which size of a queue system is out of its limits: `EINVAL`.
#[derive(Clone, Copy, Debug, PartialEq, Eq, Error)]
pub enum ConfigError {
    /// The height is above [`MAX_HEIGHT`](crate::MAX_HEIGHT).
    #[error("the height is above {most}", most = MAX_HEIGHT)]
    Height,
    /// The number of slots is not 1 to [`MAX_SLOTS`](crate::MAX_SLOTS).
    #[error("the number of slots is not 1 to {most}", most = MAX_SLOTS)]
    Slots,
    /// The number of seats is not 1 to [`MAX_SEATS`](crate::MAX_SEATS).
    #[error("the number of seats is not 1 to {most}", most = MAX_SEATS)]
    Seats,
    /// The greatest seq is above [`MAX_SEQ`](crate::MAX_SEQ).
    #[error("the last seq is above {most}", most = MAX_SEQ)]
    LastSeq,
}

impl From<ConfigError> for Errno {
    ghost from_gives = { λ _ errno. errno ≡ EINVAL };

    fn from(_refusal: ConfigError) -> Errno {
        Errno::EINVAL
    }
}
