//! Writers that fail, and that count what they are given.

ghost use Rattle.std.specs.Prelude.{◌≡◌, IfOk, length};

use std::io::{ErrorKind, Result, Write};

/// Stores these bytes, and returns how many they are.
fn kept(taken: &mut Vec<u8>, bytes: &[u8]) -> Result<usize>
    ensures { IfOk result (λ n. n ≡ length bytes.now) }
{
    taken.extend_from_slice(bytes)?;
    Ok(bytes.len())
}

/// A writer that takes a number of bytes, and then fails or takes nothing.
#[derive(Drop)]
pub struct Narrow {
    pub taken: Vec<u8>,
    pub room: usize,
    pub fails: bool,
}

impl Write for Narrow {
    fn write(&mut self, buf: &[u8]) -> Result<usize> {
        let left = self.room.saturating_sub(self.taken.len());
        if left == 0 && self.fails {
            return Err(ErrorKind::Other.into());
        }
        kept(&mut self.taken, &buf[..left.min(buf.len())])
    }

    fn flush(&mut self) -> Result<()> {
        Ok(())
    }
}

/// A writer that counts what it is given.
#[derive(Drop)]
pub struct Counted {
    pub calls: usize,
    pub bytes: usize,
    /// The most bytes of a call.
    pub most: usize,
}

impl Write for Counted {
    fn write(&mut self, buf: &[u8]) -> Result<usize> {
        self.calls = self.calls.saturating_add(1);
        self.bytes = self.bytes.saturating_add(buf.len());
        self.most = self.most.max(buf.len());
        Ok(buf.len())
    }

    fn flush(&mut self) -> Result<()> {
        Ok(())
    }
}
