//! Fake readers and writers: short reads and writes, failures at a chosen call, counted flushes.

ghost use Rattle.std.specs.Prelude.{◌≡◌, IfOk, length};

use std::io::{ErrorKind, Read, Result, Write};

/// Keeps these bytes, and returns how many they are.
fn kept(taken: &mut Vec<u8>, bytes: &[u8]) -> Result<usize>
    ensures { IfOk result (λ n. n ≡ length bytes.now) }
{
    taken.extend_from_slice(bytes)?;
    Ok(bytes.len())
}

/// A reader that gives one byte a call, and fails at a call of its own.
#[derive(Drop)]
pub struct Trickle<'a> {
    pub rest: &'a [u8],
    /// The calls so far.
    pub calls: u64,
    /// The call that fails, from 1; 0 for none.
    pub fails_at: u64,
}

impl Read for Trickle<'_> {
    fn read(&mut self, buf: &mut [u8]) -> Result<usize> {
        self.calls = self.calls.saturating_add(1);
        if self.calls == self.fails_at {
            return Err(ErrorKind::Other.into());
        }
        match (self.rest, buf) {
            ([first, rest @ ..], [place, ..]) => {
                *place = *first;
                self.rest = rest;
                Ok(1)
            }
            _ => Ok(0),
        }
    }
}

/// A writer that takes a number of bytes, and then fails or takes nothing.
#[derive(Drop)]
pub struct Narrow {
    pub taken: Vec<u8>,
    pub room: usize,
    pub fails: bool,
}

impl Write for Narrow {
    fn write(&mut self, buf: &[u8]) -> Result<usize> {
        let left = self.room.saturating_sub(self.taken.len());
        if left == 0 && self.fails {
            return Err(ErrorKind::Other.into());
        }
        kept(&mut self.taken, &buf[..left.min(buf.len())])
    }

    fn flush(&mut self) -> Result<()> {
        Ok(())
    }
}

/// A writer that takes all that it is given, counts its flushes, and may fail in each.
#[derive(Drop)]
pub struct Flushed {
    pub taken: Vec<u8>,
    /// The flushes so far.
    pub flushes: u64,
    /// What was taken before the last flush.
    pub flushed: usize,
    pub fails: bool,
}

impl Write for Flushed {
    fn write(&mut self, buf: &[u8]) -> Result<usize> {
        kept(&mut self.taken, buf)
    }

    fn flush(&mut self) -> Result<()> {
        self.flushes = self.flushes.saturating_add(1);
        self.flushed = self.taken.len();
        if self.fails {
            return Err(ErrorKind::Other.into());
        }
        Ok(())
    }
}

/// A writer that fails at one call, and takes all at each other.
#[derive(Drop)]
pub struct FailsOnce {
    pub taken: Vec<u8>,
    /// The calls so far.
    pub calls: u64,
    /// The call that fails, from 1.
    pub fails_at: u64,
    pub kind: ErrorKind,
}

impl Write for FailsOnce {
    fn write(&mut self, buf: &[u8]) -> Result<usize> {
        self.calls = self.calls.saturating_add(1);
        if self.calls == self.fails_at {
            return Err(self.kind.into());
        }
        kept(&mut self.taken, buf)
    }

    fn flush(&mut self) -> Result<()> {
        Ok(())
    }
}
