//! Moves of pages out of an arena's vector into a block, and back.
ghost use Rattle.std.specs.Prelude.{◌≡◌, ◌+◌, ◌≤◌, [], length};
ghost use Rattle.mq_arena.specs.Bytes.{AreWhole};
ghost use Rattle.mq_arena.specs.Homes.{AreHome, SameOutside};

use crate::page::Page;
use crate::shell::Places;
use std::alloc::Global;
use std::default::MadeWith;
use std::mem::replace;

/// Moves the pages from `start` on out of the arena, with the bytes that they have.
pub(crate) fn take_pages(
    alloc: Global,
    homes: &mut [Page],
    start: usize,
    count: usize,
    mut places: Places,
) -> Places
    requires within { start + count ≤ length homes.old }
    requires there { AreHome homes.old start count }
    requires empty { places.value.items ≡ [] }
    requires room { count ≤ places.value.capacity }
    ensures whole { AreWhole result.value.items }
    ensures count { length result.value.items ≡ count }
    ensures others { SameOutside homes.old homes.new start count }
{
    for i in start..start + count {
        let page = replace(&mut homes[i], Page::made_with(alloc));
        places.push_reserved(page);
    }
    places
}

/// Moves the pages back into the arena from `start` on, and returns the empty places.
pub(crate) fn put_pages(homes: &mut [Page], start: usize, mut places: Places) -> Places
    requires within { start + length places.value.items ≤ length homes.old }
    requires whole { AreWhole places.value.items }
    ensures there { AreHome homes.new start (length places.value.items) }
    ensures others { SameOutside homes.old homes.new start (length places.value.items) }
    ensures empty { result.value.items ≡ [] }
{
    while let Some(page) = places.pop() {
        homes[start + places.len()] = page;
    }
    places
}
