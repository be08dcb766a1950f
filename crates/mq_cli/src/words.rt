//! An iterator over the words of a line.

ghost use Rattle.std.specs.Prelude.{◌≡◌};
ghost use Rattle.std.specs.Iterator.{YieldsFirstRef, item_count};
ghost use Rattle.std.specs.List.{join_with_byte};
ghost use Rattle.mq_cli.specs.Lines.{words_of};
ghost use Rattle.mq_cli.specs.Parts.{parts_left};

use crate::parts::first_part;

/// The words of a line, with one space between each two: between two spaces is an empty word.
#[derive(Drop)]
pub struct Words<'a> {
    rest: Option<&'a [u8]>,
}

impl<'a> Words<'a> {
    pub(crate) fn new(line: &'a [u8]) -> Words<'a>
        ensures { parts_left 32 result.rest ≡ words_of line.now }
    {
        Words { rest: Some(line) }
    }

    /// The rest of the line, spaces and all.
    pub(crate) fn into_rest(self) -> &'a [u8]
        ensures { result.now ≡ join_with_byte 32 (parts_left 32 self.entry.rest) }
    {
        match self.rest {
            Some(rest) => rest,
            None => &[],
        }
    }
}

impl<'a> Iterator for Words<'a> {
    type Item = &'a [u8];

    ghost next_gives = { YieldsFirstRef (λ words. parts_left 32 words.rest) };

    ghost remaining = { item_count (λ words. parts_left 32 words.rest) };

    fn next(&mut self) -> Option<&'a [u8]> {
        let (word, rest) = first_part(b' ', self.rest?);
        self.rest = rest;
        Some(word)
    }
}
