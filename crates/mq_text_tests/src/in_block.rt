//! What is written into a block, and what it shows then.
ghost use Rattle.std.specs.Prelude.{◌≡◌, ◌*◌, ◌^◌, ◌<◌, ◌≤◌, length};

use crate::bytes::{after, are_all};
use mq_arena::{Block, PAGE_LEN, Page, fill};
use std::process::Abort;
use std::sync::ledger::Ledger;
use std::thread::Threads;

fn shows<L: Ledger>(rt: &impl Abort, block: &Block<L>, bytes: &[u8]) {
    let mut rest = bytes;
    for part in block.parts_to(bytes.len()) {
        rest = after(rt, part, rest);
    }
    holds!(rt; rest.is_empty());
}

/// The first five bytes are 8 and the last one of the last part is 9, beside bytes that are 7.
fn has_ends<L: Ledger>(rt: &impl Abort, block: &Block<L>, last: usize)
    requires { last < 2 ^ block.now.order }
{
    let front = block.part(0);
    holds!(rt; front[4] == 8);
    holds!(rt; front[5] == 7);
    let back = block.part(last);
    holds!(rt; back[1022] == 7);
    holds!(rt; back[1023] == 9);
}

/// Fills a block with letters, which are 7, and writes over its ends.
pub(crate) fn write<L: Ledger>(rt: &impl Abort, block: &mut Block<L>, letters: &[u8])
    requires { length letters.now ≡ PAGE_LEN * 2 ^ block.old.order }
{
    let last = (1usize << block.order()) - 1;
    block.fill(letters);
    shows(rt, block, letters);
    block.part_mut(last)[1023] = 9;
    block.front_mut(0, 5).fill(8);
    has_ends(rt, block, last);
}

/// All bytes of the block are zero.
pub(crate) fn is_zero<L: Ledger>(rt: &impl Abort, block: &Block<L>) {
    let count = 1usize << block.order();
    for part in block.parts() {
        are_all(rt, part, 0);
    }
    holds!(rt; block.parts().count() == count);
}

/// Of 1,500 bytes that are 5, the last is in the second page, and zeros are behind it.
pub(crate) fn is_filled<L: Ledger>(rt: &impl Abort, block: &Block<L>)
    requires { 2 ≤ 2 ^ block.now.order }
{
    shows(rt, block, &[5; 1500]);
    holds!(rt; block.part(1)[475] == 5);
    are_all(rt, &block.part(1)[476..], 0);
    for part in block.parts().skip(2) {
        are_all(rt, part, 0);
    }
}

fn is_cut<L: Ledger>(rt: &impl Abort, block: &Block<L>, i: usize, letters: (u8, u8)) {
    let mut k: usize = 0;
    for part in block.parts() {
        let letter = if k < i { letters.0 } else { letters.1 };
        are_all(rt, part, letter);
        k = k.saturating_add(1);
    }
    holds!(rt; k == 1 << block.order());
}

/// Writes the pages below `i` and those from there on by two threads, and then once more with the
/// letters changed.
pub(crate) fn write_cut_at<L: Ledger, R: Abort + Threads>(
    rt: &R,
    block: &mut Block<L>,
    i: usize,
    first: &[u8],
    second: &[u8],
)
    requires within { i ≤ 2 ^ block.old.order }
    requires first { length first.now ≡ PAGE_LEN * 2 ^ block.old.order }
    requires second { length second.now ≡ PAGE_LEN * 2 ^ block.old.order }
{
    block.fill_halves(rt, i, &first[..PAGE_LEN * i], &second[PAGE_LEN * i..]);
    is_cut(rt, block, i, (b'A', b'B'));
    let front = &second[..PAGE_LEN * i];
    let back = &first[PAGE_LEN * i..];
    block.write_halves(
        rt,
        i,
        |pages: &mut [Page]| fill(pages, front),
        |pages: &mut [Page]| fill(pages, back),
    );
    is_cut(rt, block, i, (b'B', b'A'));
}
