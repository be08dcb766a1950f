//! Tests of magazines: what they keep, what they return, and that all of it is freed.
ghost use Rattle.std.specs.Prelude.{◌≡◌, ◌^◌, ◌<◌};

use crate::arenas::all_home;
use mq_arena::{Arena, Block, LEDGER_PARTS, MAGAZINE_PAGES, Magazine, OfHeight, Unopened};
use std::alloc::{AllocError, Global};
use std::marker::Brand;
use std::process::Abort;
use std::sync::Wait;
use std::sync::ledger::Blank;
use std::test::Fail;

/// A block of that order.
fn block<L: OfHeight, R: Abort + Wait>(rt: &R, arena: &Arena<L>, order: u8) -> Block<L>
    requires { order < 4 }
{
    match arena.take_unwritten(rt, order) {
        Ok(taken) => taken.overwrite(&[]),
        Err(_) => panic!(rt; "no block"),
    }
}

/// Puts a block into a magazine that has room for it.
fn put<L: OfHeight, R: Abort>(rt: &R, magazine: &mut Magazine<L>, block: Block<L>) {
    match magazine.put(block) {
        Ok(()) => (),
        Err(_block) => panic!(rt; "it has no room"),
    }
}

/// Takes a block of one page, which a magazine has not.
fn lacks_a_page<L: OfHeight, R: Abort>(rt: &R, magazine: &mut Magazine<L>) {
    match magazine.take(0) {
        None => (),
        Some(_block) => panic!(rt; "it has a block of one page"),
    }
}

/// Fills a magazine with pairs of pages, and then gives it one more, which it returns.
fn fills<L: OfHeight, R: Abort + Wait>(rt: &R, arena: &Arena<L>, magazine: &mut Magazine<L>) {
    for _ in 0..MAGAZINE_PAGES / 2 {
        put(rt, magazine, block(rt, arena, 1));
    }
    match magazine.put(block(rt, arena, 1)) {
        Ok(()) => panic!(rt; "it keeps more than it may"),
        Err(block) => {
            arena.put(rt, block);
        }
    }
}

/// How many blocks of that order are taken out of a magazine, which are freed.
fn emptied<L: OfHeight, R: Abort + Wait>(
    rt: &R,
    arena: &Arena<L>,
    magazine: &mut Magazine<L>,
    order: u8,
) -> u32
    requires { order < 4 }
{
    let mut count = 0u32;
    for _ in 0..=MAGAZINE_PAGES {
        match magazine.take(order) {
            Some(taken) => {
                arena.put(rt, taken.overwrite(&[]));
                count = count.saturating_add(1);
            }
            None => return count,
        }
    }
    panic!(rt; "it has more blocks than pages");
}

/// Takes the last block out of a magazine, which is of that order, and frees it.
fn pops<L: OfHeight, R: Abort + Wait>(
    rt: &R,
    arena: &Arena<L>,
    magazine: &mut Magazine<L>,
    order: u8,
) {
    let Some(block) = magazine.pop() else {
        panic!(rt; "it is empty");
    };
    holds!(rt; block.order() == order);
    arena.put(rt, block);
}

/// Does all that is done with a magazine, in an arena of 32 pages.
fn kept<L: OfHeight, R: Abort + Wait>(
    rt: &R,
    alloc: Global,
    unopened: Unopened,
    ledger: Blank,
) -> Result<(), AllocError>
    requires name { ledger.name ≡ L.name }
    requires parts { ledger.parts ≡ L.parts }
    requires enough { 2 ^ unopened < ledger.parts }
    requires height { unopened ≡ L.height }
{
    let arena = Arena::new(unopened.open::<L>(ledger));
    let Ok(mut magazine) = Magazine::new(alloc) else {
        return Err(AllocError);
    };
    lacks_a_page(rt, &mut magazine);
    fills(rt, &arena, &mut magazine);
    lacks_a_page(rt, &mut magazine);
    holds!(rt;
        emptied(rt, &arena, &mut magazine, 1) == MAGAZINE_PAGES / 2,
        "it kept as many pages as it may"
    );

    fills(rt, &arena, &mut magazine);
    pops(rt, &arena, &mut magazine, 1);
    arena.put_all(rt, &mut magazine);
    magazine.end();
    all_home(rt, arena);
    Ok(())
}

/// Moves blocks between two magazines, in an arena of 32 pages.
fn moved<L: OfHeight, R: Abort + Wait>(
    rt: &R,
    alloc: Global,
    unopened: Unopened,
    ledger: Blank,
) -> Result<(), AllocError>
    requires name { ledger.name ≡ L.name }
    requires parts { ledger.parts ≡ L.parts }
    requires enough { 2 ^ unopened < ledger.parts }
    requires height { unopened ≡ L.height }
{
    let arena = Arena::new(unopened.open::<L>(ledger));
    let Ok(mut magazine) = Magazine::new(alloc) else {
        return Err(AllocError);
    };
    let Ok(mut other) = Magazine::new(alloc) else {
        magazine.end();
        return Err(AllocError);
    };
    put(rt, &mut magazine, block(rt, &arena, 0));
    put(rt, &mut magazine, block(rt, &arena, 1));
    magazine.move_to(&mut other);
    pops(rt, &arena, &mut other, 0);
    pops(rt, &arena, &mut other, 1);

    put(rt, &mut magazine, block(rt, &arena, 0));
    fills(rt, &arena, &mut other);
    magazine.move_to(&mut other);
    lacks_a_page(rt, &mut other);
    other.move_to(&mut magazine);
    holds!(rt; emptied(rt, &arena, &mut other, 1) == 1, "the last pair has no room");
    holds!(rt;
        emptied(rt, &arena, &mut magazine, 1) == MAGAZINE_PAGES / 2 - 1,
        "all others have moved"
    );
    pops(rt, &arena, &mut magazine, 0);

    arena.put_all(rt, &mut magazine);
    magazine.end();
    arena.put_all(rt, &mut other);
    other.end();
    all_home(rt, arena);
    Ok(())
}

#[test]
fn a_magazine_caches_so_many_pages_and_frees_all(rt: HostRuntime) -> Result<(), Fail> {
    let unopened = Unopened::new(rt.alloc(), 5)?;
    kept::<Brand, HostRuntime>(&rt, rt.alloc(), unopened, Blank::new(LEDGER_PARTS))?;
    Ok(())
}

#[test]
fn blocks_move_to_another_magazine_as_long_as_they_fit(rt: HostRuntime) -> Result<(), Fail> {
    let unopened = Unopened::new(rt.alloc(), 5)?;
    moved::<Brand, HostRuntime>(&rt, rt.alloc(), unopened, Blank::new(LEDGER_PARTS))?;
    Ok(())
}
