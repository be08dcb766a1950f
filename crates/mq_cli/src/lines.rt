//! An iterator over the lines of a script.

ghost use Rattle.std.specs.Prelude.{◌≡◌};
ghost use Rattle.std.specs.Iterator.{YieldsFirstRef, item_count};
ghost use Rattle.mq_cli.specs.Lines.{lines_of, without_return};
ghost use Rattle.mq_cli.specs.Parts.{lines_left};

use crate::parts::first_long_part;

/// The lines of a script, each without its LF and without one CR before that. What follows the
/// last LF is a line too, an empty one where nothing does.
#[derive(Drop)]
pub struct Lines<'a> {
    rest: Option<&'a [u8]>,
}

impl<'a> Lines<'a> {
    pub(crate) fn new(script: &'a [u8]) -> Lines<'a>
        ensures { lines_left result.rest ≡ lines_of script.now }
    {
        Lines { rest: Some(script) }
    }
}

impl<'a> Iterator for Lines<'a> {
    type Item = &'a [u8];

    ghost next_gives = { YieldsFirstRef (λ lines. lines_left lines.rest) };

    ghost remaining = { item_count (λ lines. lines_left lines.rest) };

    fn next(&mut self) -> Option<&'a [u8]> {
        let (line, rest) = first_long_part(b'\n', self.rest?);
        self.rest = rest;
        Some(trimmed(line))
    }
}

/// A line without the CR that may end it.
pub(crate) fn trimmed(line: &[u8]) -> &[u8]
    ensures { result.now ≡ without_return line.now }
{
    match line {
        [front @ .., b'\r'] => front,
        _ => line,
    }
}
