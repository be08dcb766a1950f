//! What is checked of a line before its words are parsed.

ghost use Rattle.std.specs.Prelude.{◌≡◌};
ghost use Rattle.std.specs.List.{list_all};
ghost use Rattle.mq_cli.specs.Commands.{is_filled, speaks};
ghost use Rattle.mq_cli.specs.Commands.{is_skipped as is_skipped_line};
ghost use Rattle.mq_cli.specs.Lines.{is_printable, words_of};

use crate::words::Words;
use crate::{Cause, LINE_LIMIT};

/// Whether a line without its end says something: an empty line and a comment do not.
pub(crate) fn says_something(line: &[u8]) -> Result<bool, Cause>
    ensures { result ≡ speaks line.now }
{
    if line.len() > LINE_LIMIT {
        return Err(Cause::Long);
    }
    if !is_printable_line(line) {
        return Err(Cause::Byte);
    }
    Ok(!is_skipped(line))
}

// It has no early way out, so that many bytes are compared at a time.
fn is_printable_line(line: &[u8]) -> bool
    ensures { result ≡ list_all is_printable line.now }
{
    line.iter()
        .copied()
        .fold(true, |all, b| all & (b >= 0x20 && b <= 0x7e))
}

fn is_skipped(line: &[u8]) -> bool
    ensures { result ≡ is_skipped_line line.now }
{
    match line {
        [] => true,
        [first, ..] => *first == b'#',
    }
}

/// Whether no word is empty.
pub(crate) fn are_filled(line: &[u8]) -> bool
    ensures { result ≡ list_all is_filled (words_of line.now) }
{
    for word in Words::new(line) {
        if word.is_empty() {
            return false;
        }
    }
    true
}
