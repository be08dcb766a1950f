//! Tests of an arena under its lock, by threads that allocate and free blocks concurrently.
ghost use Rattle.std.specs.Prelude.{◌≡◌, ◌^◌, ◌<◌, ◌≤◌, IfSome};

use mq_arena::{Arena, Block, Homecoming, LEDGER_PARTS, MAX_ORDER, OfHeight, Unopened};
use std::marker::Brand;
use std::process::Abort;
use std::sync::Wait;
use std::sync::atomic::{AtomicU32, Ordering};
use std::sync::ledger::{Blank, Ledger};
use std::test::Fail;
use std::thread::{Threads, join};

// How often each thread asks for a block.
const TURNS: u32 = 500;

/// All pages of an arena are free.
pub(crate) fn all_home<L: OfHeight>(rt: &impl Abort, arena: Arena<L>) {
    let state = arena.into_state();
    holds!(rt; state.free_pages() == state.pages(), "all pages are home");
}

// The block has 1,500 of these letters.
fn has_letters<L: OfHeight>(rt: &impl Abort, block: &Block<L>, letter: u8)
    requires { 2 ≤ 2 ^ block.now.order }
{
    holds!(rt; block.part(0)[0] == letter);
    let last = block.part(1);
    holds!(rt; last[475] == letter);
    holds!(rt; last[476] == 0);
}

// Takes a block with 1,500 of these letters, if there is one. No more than two are ever out.
fn taken<L: OfHeight, R: Abort + Wait>(
    rt: &R,
    arena: &Arena<L>,
    out: &AtomicU32,
    order: u8,
    letter: u8,
) -> Option<Block<L>>
    requires order { order ≤ MAX_ORDER }
    requires two { 2 ≤ 2 ^ order }
    ensures { IfSome result (λ b. b.order ≡ order) }
{
    let block = arena.take_filled(rt, order, &[letter; 1500]).ok()?;
    holds!(rt; out.fetch_add(1, Ordering::SeqCst) <= 1);
    has_letters(rt, &block, letter);
    Some(block)
}

fn given<L: OfHeight, R: Abort + Wait>(
    rt: &R,
    arena: &Arena<L>,
    out: &AtomicU32,
    block: Option<Block<L>>,
) {
    if let Some(block) = block {
        out.fetch_sub(1, Ordering::SeqCst);
        holds!(rt; arena.put(rt, block) == Homecoming::Home);
    }
}

// Asks for two blocks, and gives back those that it got, again and again.
fn takes_and_gives<L: OfHeight, R: Abort + Wait>(
    rt: &R,
    arena: &Arena<L>,
    out: &AtomicU32,
    order: u8,
    letter: u8,
)
    requires order { order ≤ MAX_ORDER }
    requires two { 2 ≤ 2 ^ order }
{
    for _ in 0..TURNS {
        let one = taken(rt, arena, out, order, letter);
        let other = taken(rt, arena, out, order, letter);
        given(rt, arena, out, one);
        given(rt, arena, out, other);
    }
}

// A block that is there is zero, and is then freed.
fn comes_zero<L: OfHeight, R: Abort + Wait>(rt: &R, arena: &Arena<L>, order: u8)
    requires { order ≤ MAX_ORDER }
{
    if let Ok(block) = arena.take(rt, order) {
        holds!(rt; block.part(0)[0] == 0);
        holds!(rt; arena.put(rt, block) == Homecoming::Home);
    }
}

fn shared<L: OfHeight + Send + Sync, R: Abort + Threads + Wait + Sync>(
    rt: &R,
    unopened: Unopened,
    ledger: Blank,
    order: u8,
)
    requires order { order ≤ MAX_ORDER }
    requires two { 2 ≤ 2 ^ order }
    requires name { ledger.name ≡ L.name }
    requires parts { ledger.parts ≡ L.parts }
    requires enough { 2 ^ unopened < ledger.parts }
    requires height { unopened ≡ L.height }
{
    let arena = Arena::new(unopened.open::<L>(ledger));
    let out = AtomicU32::new(0);
    join(
        rt,
        || takes_and_gives(rt, &arena, &out, order, b'A'),
        || takes_and_gives(rt, &arena, &out, order, b'B'),
    );
    comes_zero(rt, &arena, order);
    all_home(rt, arena);
}

#[test]
fn threads_share_an_arena_and_no_page_is_lost(rt: HostRuntime) -> Result<(), Fail> {
    let unopened = Unopened::new(rt.alloc(), 2)?;
    shared::<Brand, HostRuntime>(&rt, unopened, Blank::new(LEDGER_PARTS), 1);
    Ok(())
}

// Each block of 16 pages takes memory while it is allocated, and frees it.
#[test]
fn threads_share_large_blocks_and_no_page_is_lost(rt: HostRuntime) -> Result<(), Fail> {
    let unopened = Unopened::new(rt.alloc(), 5)?;
    shared::<Brand, HostRuntime>(&rt, unopened, Blank::new(LEDGER_PARTS), 4);
    Ok(())
}
