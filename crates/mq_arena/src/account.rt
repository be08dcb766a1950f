//! The count of the allocated pages, by a ledger.
ghost use Rattle.std.specs.Prelude.{◌≡◌, ◌+◌, ◌^◌, ◌<◌, ◌≤◌};
ghost use Rattle.mq_arena.specs.Account.{pages_of};

use crate::block::Block;
use crate::limits::MAX_ORDER;
use std::sync::ledger::{Book, Ledger, Share};

/// How many pages a block of that order has.
pub(crate) fn page_count(order: u8) -> u32
    requires { order ≤ MAX_ORDER }
    ensures { result ≡ 2 ^ order }
{
    1 << order
}

/// Shows that the book counts the pages of all these blocks. It changes nothing.
pub(crate) fn audit<L: Ledger>(book: &mut Book<L>, share: &mut Share<L>, blocks: &mut [Block<L>])
    requires { 0 < share.old.parts }
    ensures total { book.new.total ≡ book.old.total }
    ensures parts { share.new.parts ≡ share.old.parts }
    ensures amount { share.new.amount ≡ share.old.amount }
    ensures blocks { blocks.new ≡ blocks.old }
    ensures counted { share.old.amount + pages_of blocks.old ≤ book.old.total }
{
    match blocks.split_first_mut() {
        Some((first, rest)) => {
            let count = page_count(first.order) as u64;
            first.share.give(share, count, count);
            audit(book, share, rest);
            share.give(&mut first.share, count, count);
        }
        None => book.audit(share),
    }
}
