//! The size classes of texts: which order of block a text is drafted with.
ghost use Rattle.std.specs.Prelude.{◌≡◌, ℕ, ◌*◌, ◌^◌, ◌<◌, ◌≤◌};
ghost use Rattle.mq_arena.specs.Text.{order_for};

use crate::limits::{INLINE_ORDER, INLINE_PAGES, MAX_ORDER, MAX_PAGES};
use crate::page::PAGE_LEN;

/// How many bytes the longest text has: those of a block of the greatest order.
pub const TEXT_LEN: usize = PAGE_LEN * MAX_PAGES;

/// How many bytes the longest text has that is drafted without the heap.
pub const INLINE_LEN: usize = PAGE_LEN * INLINE_PAGES;

/// The order of the block that a text of that many bytes is drafted with.
#[tactic(auto, using(crate::proofs::Orders::order_least))]
pub fn order_for(len: usize) -> u8
    requires { len ≤ TEXT_LEN }
    ensures value { result ≡ order_for len }
    ensures enough { len ≤ PAGE_LEN * 2 ^ result }
    ensures least { (order : ℕ) → len ≤ PAGE_LEN * 2 ^ order → result ≤ order }
    ensures inline { len ≤ INLINE_LEN → result ≤ INLINE_ORDER }
{
    if len <= PAGE_LEN {
        0
    } else if len <= 2 * PAGE_LEN {
        1
    } else if len <= 4 * PAGE_LEN {
        2
    } else if len <= INLINE_LEN {
        INLINE_ORDER
    } else {
        over_inline(len)
    }
}

/// The same for a text whose draft takes memory from the heap.
#[tactic(auto, using(crate::proofs::Orders::order_least))]
fn over_inline(len: usize) -> u8
    requires over { INLINE_LEN < len }
    requires most { len ≤ TEXT_LEN }
    ensures value { result ≡ order_for len }
    ensures within { result ≤ MAX_ORDER }
{
    if len <= 2 * INLINE_LEN {
        INLINE_ORDER + 1
    } else if len <= 4 * INLINE_LEN {
        INLINE_ORDER + 2
    } else {
        INLINE_ORDER + 3
    }
}
