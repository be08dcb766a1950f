//! The command-line arguments of a benchmark, by position.

use anyhow::Result;
use mq::{Config, Setup};

/// The arguments of a command line, of which the first names what is measured.
#[derive(Drop)]
pub(crate) struct Words {
    pub words: Vec<String>,
}

impl Words {
    /// The argument at a position, or an empty text where there is none.
    pub(crate) fn word(&self, place: usize) -> &str {
        match self.words.get(place) {
            Some(word) => word.as_str(),
            None => "",
        }
    }

    /// A system of this size, whose logs are cut after as many entries as the number at a position
    /// says, or retained where there is none.
    pub(crate) fn setup(&self, place: usize, config: Config) -> Result<Setup> {
        Ok(match self.number(place, 0)? {
            0 => Setup::new(config),
            entries => Setup::new(config).cut_logs_after(u64::from(entries)),
        })
    }

    /// The number at a position, or that default where there is none.
    pub(crate) fn number(&self, place: usize, default: u32) -> Result<u32> {
        match self.words.get(place) {
            Some(word) => Ok(word.parse()?),
            None => Ok(default),
        }
    }
}
