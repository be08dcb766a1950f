//! What `ipcs` of a script shows.

ghost use Rattle.std.specs.Prelude.{◌≡◌};
ghost use Rattle.mq_cli.specs.Commands.{listing_asked};
ghost use Rattle.mq_cli.specs.Parts.{parts_left};

use crate::words::Words;
use mq_trace::ipcs::Keys;

/// What `ipcs` shows.
#[derive(Clone, Copy)]
pub enum Listing {
    /// All figures of each live queue.
    Table,
    /// What `ipcs -q` of util-linux shows.
    Queues(Keys),
    /// What its `ipcs -l` says of queues.
    Limits,
}

/// What is shown by these words: none, `-q`, `-q x` or `-l`.
pub(crate) fn read_listing(mut words: Words<'_>) -> Option<Listing>
    ensures { result ≡ listing_asked (parts_left 32 words.entry.rest) }
{
    let Some(option) = words.next() else {
        return Some(Listing::Table);
    };
    match (words.next(), words.next()) {
        (None, _) if option == b"-q".as_slice() => Some(Listing::Queues(Keys::Decimal)),
        (None, _) if option == b"-l".as_slice() => Some(Listing::Limits),
        (Some(keys), None) if option == b"-q".as_slice() && keys == b"x".as_slice() => {
            Some(Listing::Queues(Keys::Hexadecimal))
        }
        _ => None,
    }
}
