//! What is gathered is written once it is long, so memory does not grow with a trace.

ghost use Rattle.std.specs.Prelude.{◌≡◌, [], MatchResult, OnOk};
ghost use Rattle.std.specs.Io.KnownBytes.{Appends};
ghost use Rattle.mq_trace.specs.Written.{AppendsPrefix, WritesRecords};

use crate::TraceError;
use crate::sheet::Sheet;
use std::io::Write;

/// The length in bytes from which on a sheet is written.
const SHEET_LEN: usize = 32768;

/// A write failed, or took nothing.
pub(crate) struct WriteFailed;

/// Writes all of these bytes, or a prefix of them where a write fails or takes nothing.
pub(crate) fn write_bytes<W: Write>(writer: &mut W, bytes: &[u8]) -> Result<(), WriteFailed>
    ensures { MatchResult result
        (λ _. Appends (W.contents writer.old) (W.contents writer.new) bytes.now)
        (λ _. AppendsPrefix (W.contents writer.old) (W.contents writer.new) bytes.now) }
{
    let mut rest = bytes;
    while !rest.is_empty() {
        match writer.write(rest) {
            Ok(0) | Err(_) => return Err(WriteFailed),
            Ok(count) => rest = &rest[count..],
        }
    }
    Ok(())
}

impl Sheet {
    /// Writes the sheet, which is empty then.
    pub(crate) fn write_out<W: Write>(&mut self, writer: &mut W) -> Result<(), TraceError>
        ensures records { WritesRecords (W.contents writer.old) (W.contents writer.new)
            self.old self.new [] result }
        ensures empty { OnOk result (self.new.text.items ≡ []) }
    {
        match write_bytes(writer, &self.text) {
            Ok(()) => {
                self.text.clear();
                Ok(())
            }
            Err(WriteFailed) => Err(TraceError::Write),
        }
    }

    /// The same where the sheet is long.
    pub(crate) fn write_if_long<W: Write>(&mut self, writer: &mut W) -> Result<(), TraceError>
        ensures { WritesRecords (W.contents writer.old) (W.contents writer.new)
            self.old self.new [] result }
    {
        if self.text.len() < SHEET_LEN {
            return Ok(());
        }
        self.write_out(writer)
    }
}
