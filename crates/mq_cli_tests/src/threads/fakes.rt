//! A fake writer for the tests of `run_threads`, which also detects that a run was out of memory.

use crate::fakes::Narrow;
use crate::threads::scripts::tells_enomem;
use mq_cli::RunFault;
use std::io::{ErrorKind, Write};

/// A narrow writer that may fail at one of its flushes.
#[derive(Drop)]
pub struct Flushing {
    pub narrow: Narrow,
    /// The flushes so far, and the one that fails, from 1; 0 for none.
    pub flushes: u64,
    pub fails_at: u64,
    /// Whether it was given ENOMEM to write, for which it may have had no room.
    pub enomem: bool,
}

impl Flushing {
    pub fn new(narrow: Narrow, fails_at: u64) -> Flushing {
        Flushing {
            narrow,
            flushes: 0,
            fails_at,
            enomem: false,
        }
    }

    /// Whether the run that has ended so, or a worker of it, lacked memory.
    pub fn lacked_memory(&self, ended: Result<(), RunFault>) -> bool {
        self.enomem || matches!(ended, Err(RunFault::Memory | RunFault::Thread))
    }
}

impl Write for Flushing {
    fn write(&mut self, buf: &[u8]) -> std::io::Result<usize> {
        self.enomem = self.enomem || tells_enomem(buf);
        self.narrow.write(buf)
    }

    fn flush(&mut self) -> std::io::Result<()> {
        self.flushes = self.flushes.saturating_add(1);
        if self.flushes == self.fails_at {
            return Err(ErrorKind::Other.into());
        }
        Ok(())
    }
}
