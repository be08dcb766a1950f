//! The builder of a system: its configuration, and the limit of its logs.

ghost use Rattle.std.specs.Prelude.{◌≡◌, ◌-◌, ◌^◌};

use mq_system::Config;

/// How a system is made: of which size, and whether its logs are retained.
#[derive(Clone, Copy, Debug, PartialEq, Eq)]
pub struct Setup {
    pub config: Config,
    /// How many entries of a slot's log are retained before a call drains them.
    pub log_limit: u64,
}

impl Setup {
    /// A system of this size, which retains its logs.
    pub fn new(config: Config) -> Setup
        ensures { result ≡ record { config = config; log_limit = u64.MAX } }
    {
        Setup {
            config,
            log_limit: u64::MAX,
        }
    }

    /// The same, but its logs need not grow: a call that finds `entries` or more retained entries
    /// in its slot's log, and no fewer than messages are pending there, first drains and drops
    /// them. So a drain, which takes time linear in the number of pending messages, costs each
    /// entry a constant. Where a drain is out of memory, the next call makes it.
    pub fn cut_logs_after(self, entries: u64) -> Setup
        ensures { result ≡ record { config = self.config; log_limit = entries } }
    {
        Setup {
            log_limit: entries,
            ..self
        }
    }
}

impl From<Config> for Setup {
    ghost from_gives = { λ config setup. setup
        ≡ record { config = config; log_limit = 2 ^ 64 - 1 } };

    fn from(config: Config) -> Setup {
        Setup::new(config)
    }
}
