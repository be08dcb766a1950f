//! How refused calls are shown.

ghost use Rattle.std.specs.Prelude.{◌≡◌};

use crate::{Refused, SendRefused};
use std::error::Error;
use std::fmt;

/// The errno, and after how many entries, where the slot was read: `EAGAIN after 5 entries`.
impl fmt::Display for Refused {
    fn fmt<W: fmt::Write>(&self, f: &mut fmt::Formatter<W>) -> fmt::Result {
        match self.entry {
            Some(entry) => write!(f, "{} after {entry} entries", self.errno),
            None => write!(f, "{}", self.errno),
        }
    }
}

impl Error for Refused {}

impl<B> SendRefused<B> {
    /// The refusal, and the text to send again or to spend.
    pub fn into_text(self) -> (Refused, B)
        ensures { result ≡ (self.refused, self.text) }
    {
        let SendRefused { refused, text } = self;
        (refused, text)
    }
}

/// As its `Refused`: the text is not shown.
impl<B> fmt::Display for SendRefused<B> {
    fn fmt<W: fmt::Write>(&self, f: &mut fmt::Formatter<W>) -> fmt::Result {
        write!(f, "{}", self.refused)
    }
}

impl<B> fmt::Debug for SendRefused<B> {
    fn fmt<W: fmt::Write>(&self, f: &mut fmt::Formatter<W>) -> fmt::Result {
        write!(f, "SendRefused({:?})", self.refused)
    }
}
