//! Writing of bytes to a writer that may take some of them, or fail.

ghost use Rattle.std.specs.Prelude.{MatchResult};
ghost use Rattle.std.specs.Io.KnownBytes.{Appends};
ghost use Rattle.mq_cli.specs.Serial.{AppendsPrefix};

use std::io::Write;

/// A write failed, or took nothing.
#[derive(Clone, Copy, Debug)]
pub struct WriteFailed;

/// Writes all of these bytes, or a prefix of them where a write fails or takes nothing. Unlike
/// `write_all` of std it does not try again.
pub(crate) fn write_bytes<W: Write>(writer: &mut W, bytes: &[u8]) -> Result<(), WriteFailed>
    ensures { MatchResult result
        (λ _. Appends (W.contents writer.old) (W.contents writer.new) bytes.now)
        (λ _. AppendsPrefix (W.contents writer.old) (W.contents writer.new) bytes.now) }
{
    let mut rest = bytes;
    while !rest.is_empty() {
        match writer.write(rest) {
            Ok(0) | Err(_) => return Err(WriteFailed),
            Ok(count) => rest = &rest[count..],
        }
    }
    Ok(())
}
