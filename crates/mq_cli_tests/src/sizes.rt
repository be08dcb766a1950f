//! The configurations that the tests run scripts with.

use mq_calls::Config;
pub use mq_calls::DEFAULTS;

/// The defaults over one page, for runs that are repeated often.
pub const ONE_PAGE: Config = Config {
    height: 0,
    ..DEFAULTS
};
