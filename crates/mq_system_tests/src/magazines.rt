//! Texts that a seat has spent: its magazine caches their pages for its next drafts, and other
//! seats can allocate them all the same.
ghost use Rattle.std.specs.Prelude.{◌≡◌};
ghost use Rattle.std.specs.VecDeque.{deque_len};

use crate::calls::seat;
use crate::day::{Day, config, left_by};
use crate::system::Calls;
use crate::{granted, holds};
use mq_calls::Delivered;
use mq_system::{Config, DraftError, Letter};
use std::alloc::Global;
use std::collections::VecDeque;
use std::process::Abort;
use std::sync::Wait;
use std::test::Fail;
use std::thread::Threads;

/// The bytes of a text of eight pages.
const WHOLE: [u8; 8192] = [b'w'; 8192];

/// So many of these bytes.
fn front(len: usize) -> &'static [u8] {
    WHOLE.as_slice().split_at(len.min(WHOLE.len())).0
}

/// No eight pages are free, since one is in use.
fn finds_no_run<S: Calls, R: Abort + Wait>(rt: &R, system: &S, seat: &S::Seat) {
    match system.draft_by(rt, seat, front(8192)) {
        Err(DraftError::NoRun) => (),
        _ => panic!(rt; "a page is in use, and all are drafted"),
    }
}

/// A text of these bytes, drafted by a seat.
fn drafted<S: Calls, R: Abort + Wait>(
    rt: &R,
    system: &S,
    seats: &mut [S::Seat],
    number: usize,
    bytes: &[u8],
) -> S::Text {
    match system.draft_by(rt, seat(rt, seats, number.saturating_sub(1)), bytes) {
        Ok(text) => text,
        Err(refused) => panic!(rt; "seat {number} is refused: {refused}"),
    }
}

fn spent<S: Calls, R: Abort + Wait>(
    rt: &R,
    system: &S,
    seats: &mut [S::Seat],
    number: usize,
    text: S::Text,
) {
    system.spend_by(rt, seat(rt, seats, number.saturating_sub(1)), text);
}

/// The text has these bytes.
fn has<S: Calls, R: Abort>(rt: &R, system: &S, text: &S::Text, bytes: &[u8]) {
    holds(rt, system.shows(text, bytes), "its bytes");
}

/// The text stands where a text stood that was spent.
fn stands_at<S: Calls, R: Abort>(rt: &R, system: &S, text: &S::Text, start: Option<u32>) {
    let its_start = system.shape(text).start;
    holds(rt, its_start == start, "a block that was spent");
}

/// The text stands elsewhere than a text that another seat has spent.
fn stands_elsewhere<S: Calls, R: Abort>(rt: &R, system: &S, text: &S::Text, start: Option<u32>) {
    let its_start = system.shape(text).start;
    holds(rt, its_start != start, "a block of another seat is taken");
}

/// Seat 1 caches each page, or one in the first half and one in the second.
fn seat_1_keeps_pages<S: Calls, R: Abort + Wait>(rt: &R, system: &S, seats: &mut [S::Seat]) {
    let half = drafted(rt, system, seats, 1, front(4096));
    let page = drafted(rt, system, seats, 1, b"page");
    spent(rt, system, seats, 1, half);
    spent(rt, system, seats, 1, page);
}

/// What one seat caches another one drafts, and so does a thread without a seat.
struct Withholds;

impl Day for Withholds {
    fn spend<S: Calls, R: Abort + Threads + Wait>(
        &self,
        rt: &R,
        system: &S,
        seats: &mut [S::Seat],
    ) {
        seat_1_keeps_pages(rt, system, seats);
        let whole = drafted(rt, system, seats, 2, front(8192));
        has(rt, system, &whole, front(8192));
        spent(rt, system, seats, 2, whole);

        let page = drafted(rt, system, seats, 1, b"page");
        finds_no_run(rt, system, seat(rt, seats, 1));
        spent(rt, system, seats, 1, page);

        let whole = granted::zeros(rt, system, 8192);
        holds(rt, system.is_zero(&whole), "it is zero");
        spent(rt, system, seats, 2, whole);
        let page = granted::drafted(rt, system, b"page");
        has(rt, system, &page, b"page");
        system.spend(rt, page);
        seat_1_keeps_pages(rt, system, seats);
    }
}

#[test]
fn what_a_magazine_caches_is_withheld_from_no_seat(rt: HostRuntime) -> Result<(), Fail> {
    let left = left_by(&rt, rt.alloc(), config(3, 1, 9), &Withholds);
    holds(&rt, left.free_pages == 8, "all pages are home");
    Ok(())
}

fn is_one_page<S: Calls, R: Abort>(rt: &R, system: &S, text: &S::Text) {
    holds(rt, system.shape(text).order == Some(0), "one page");
}

/// A seat drafts the block that it has spent, and that of its own order.
struct Reuses;

impl Day for Reuses {
    fn spend<S: Calls, R: Abort + Threads + Wait>(
        &self,
        rt: &R,
        system: &S,
        seats: &mut [S::Seat],
    ) {
        let first = drafted(rt, system, seats, 1, b"first");
        let second = drafted(rt, system, seats, 1, b"second");
        let pair = drafted(rt, system, seats, 1, front(2048));
        let (start, two) = (system.shape(&second).start, system.shape(&pair).start);
        spent(rt, system, seats, 1, second);
        spent(rt, system, seats, 1, pair);

        let third = drafted(rt, system, seats, 2, b"third");
        stands_elsewhere(rt, system, &third, start);
        let pair = drafted(rt, system, seats, 1, front(1025));
        stands_at(rt, system, &pair, two);
        let fourth = drafted(rt, system, seats, 1, b"4th");
        stands_at(rt, system, &fourth, start);
        has(rt, system, &fourth, b"4th");
        is_one_page(rt, system, &fourth);
        spent(rt, system, seats, 1, granted::zeros(rt, system, 0));
        spent(rt, system, seats, 1, first);
        spent(rt, system, seats, 1, third);
        spent(rt, system, seats, 1, pair);
        spent(rt, system, seats, 1, fourth);
    }
}

#[test]
fn a_seat_drafts_the_block_that_it_has_spent(rt: HostRuntime) -> Result<(), Fail> {
    let left = left_by(&rt, rt.alloc(), config(3, 1, 9), &Reuses);
    holds(&rt, left.free_pages == 8, "all pages are home");
    Ok(())
}

/// A seat caches what it spends of another, and frees it where its magazine is full.
struct GoesBack;

impl Day for GoesBack {
    fn spend<S: Calls, R: Abort + Threads + Wait>(
        &self,
        rt: &R,
        system: &S,
        seats: &mut [S::Seat],
    ) {
        let page = drafted(rt, system, seats, 1, b"page");
        let least = system.shape(&page).start;
        spent(rt, system, seats, 2, page);
        let page = drafted(rt, system, seats, 2, b"page");
        stands_at(rt, system, &page, least);
        let other = drafted(rt, system, seats, 1, b"other");
        let first = drafted(rt, system, seats, 2, front(8192));
        let second = drafted(rt, system, seats, 2, front(8192));
        spent(rt, system, seats, 2, first);
        spent(rt, system, seats, 2, second);
        system.spend(rt, page);
        let start = system.shape(&other).start;
        spent(rt, system, seats, 2, other);
        let other = drafted(rt, system, seats, 1, b"other");
        stands_at(rt, system, &other, start);
        spent(rt, system, seats, 1, other);
    }
}

#[test]
fn what_another_seat_spends_is_returned_where_it_has_no_room(rt: HostRuntime) -> Result<(), Fail> {
    let left = left_by(&rt, rt.alloc(), config(5, 1, 9), &GoesBack);
    holds(&rt, left.free_pages == 32, "all pages are home");
    Ok(())
}

/// The last of nine seats gets a block of the arena's upper half back that another has spent, and
/// not the page before it, which is free; and it drafts that block once it has spent it.
struct GoesBackToTheLast;

impl Day for GoesBackToTheLast {
    fn spend<S: Calls, R: Abort + Threads + Wait>(
        &self,
        rt: &R,
        system: &S,
        seats: &mut [S::Seat],
    ) {
        let first = drafted(rt, system, seats, 2, front(8192));
        let second = drafted(rt, system, seats, 2, front(8192));
        let page = granted::drafted(rt, system, b"page");
        let other = drafted(rt, system, seats, 9, b"other");
        let start = system.shape(&other).start;
        holds(rt, start == Some(17), "a page of the upper half");
        spent(rt, system, seats, 2, first);
        spent(rt, system, seats, 2, second);
        system.spend(rt, page);
        spent(rt, system, seats, 2, other);
        let other = drafted(rt, system, seats, 9, b"other");
        stands_at(rt, system, &other, start);
        spent(rt, system, seats, 9, other);
        let other = drafted(rt, system, seats, 9, b"other");
        stands_at(rt, system, &other, start);
        spent(rt, system, seats, 9, other);
    }
}

#[test]
fn the_last_seat_gets_back_what_it_has_drafted(rt: HostRuntime) -> Result<(), Fail> {
    let nine = Config {
        seats: 9,
        ..config(5, 1, 9)
    };
    let left = left_by(&rt, rt.alloc(), nine, &GoesBackToTheLast);
    holds(&rt, left.free_pages == 32, "all pages are home");
    Ok(())
}

/// Seat 1 drafts four texts of four pages, which stand there.
fn four_stand_at<S: Calls, R: Abort + Wait>(
    rt: &R,
    system: &S,
    seats: &mut [S::Seat],
    starts: [Option<u32>; 4],
) {
    let [start_1, start_2, start_3, start_4] = starts;
    let first = drafted(rt, system, seats, 1, front(4096));
    stands_at(rt, system, &first, start_1);
    let second = drafted(rt, system, seats, 1, front(4096));
    stands_at(rt, system, &second, start_2);
    let third = drafted(rt, system, seats, 1, front(4096));
    stands_at(rt, system, &third, start_3);
    let fourth = drafted(rt, system, seats, 1, front(4096));
    stands_at(rt, system, &fourth, start_4);
    spent(rt, system, seats, 1, first);
    spent(rt, system, seats, 1, second);
    spent(rt, system, seats, 1, third);
    spent(rt, system, seats, 1, fourth);
}

/// A seat caches four blocks of four pages that another has drafted. With the fifth they go back to
/// it, the last ones first; the first of them finds no room there.
struct HandsOver;

impl Day for HandsOver {
    fn spend<S: Calls, R: Abort + Threads + Wait>(
        &self,
        rt: &R,
        system: &S,
        seats: &mut [S::Seat],
    ) {
        let first = drafted(rt, system, seats, 1, front(4096));
        let second = drafted(rt, system, seats, 1, front(4096));
        let third = drafted(rt, system, seats, 1, front(4096));
        let fourth = drafted(rt, system, seats, 1, front(4096));
        let fifth = drafted(rt, system, seats, 1, front(4096));
        let (start_2, start_3) = (system.shape(&second).start, system.shape(&third).start);
        let (start_4, start_5) = (system.shape(&fourth).start, system.shape(&fifth).start);
        spent(rt, system, seats, 2, first);
        spent(rt, system, seats, 2, second);
        spent(rt, system, seats, 2, third);
        spent(rt, system, seats, 2, fourth);
        spent(rt, system, seats, 2, fifth);
        four_stand_at(rt, system, seats, [start_5, start_2, start_3, start_4]);
    }
}

#[test]
fn a_full_magazine_is_handed_over_to_the_seat_that_drafted(rt: HostRuntime) -> Result<(), Fail> {
    let left = left_by(&rt, rt.alloc(), config(5, 1, 9), &HandsOver);
    holds(&rt, left.free_pages == 32, "all pages are home");
    Ok(())
}

/// Seat 1 drafts a text of these bytes, and adds it to a list of received ones.
fn add<S: Calls, R: Abort + Wait>(
    rt: &R,
    system: &S,
    seats: &mut [S::Seat],
    bytes: &[u8],
    texts: &mut VecDeque<Delivered<S::Text>>,
) -> Option<u32> {
    let text = drafted(rt, system, seats, 1, bytes);
    let start = system.shape(&text).start;
    let delivered = Delivered {
        entry: 0,
        mtype: 1,
        tag: 0,
        length: bytes.len() as u64,
        text,
        sender: 1,
    };
    match texts.push_back(delivered) {
        Ok(()) => start,
        Err(_) => panic!(rt; "out of memory"),
    }
}

/// A seat spends by one call as it does by as many: its magazine is full before the last text.
#[derive(Drop)]
struct HandsOverAll {
    alloc: Global,
}

impl Day for HandsOverAll {
    fn spend<S: Calls, R: Abort + Threads + Wait>(
        &self,
        rt: &R,
        system: &S,
        seats: &mut [S::Seat],
    ) {
        let mut texts = VecDeque::new(self.alloc);
        add(rt, system, seats, b"", &mut texts);
        add(rt, system, seats, front(4096), &mut texts);
        let start_2 = add(rt, system, seats, front(4096), &mut texts);
        let start_3 = add(rt, system, seats, front(4096), &mut texts);
        add(rt, system, seats, b"", &mut texts);
        let start_4 = add(rt, system, seats, front(4096), &mut texts);
        let start_5 = add(rt, system, seats, front(4096), &mut texts);
        let start = add(rt, system, seats, b"page", &mut texts);
        add(rt, system, seats, b"", &mut texts);
        system.spend_texts_by(rt, seat(rt, seats, 1), &mut texts);
        texts.destroy_empty();
        four_stand_at(rt, system, seats, [start_5, start_2, start_3, start_4]);
        let page = drafted(rt, system, seats, 2, b"page");
        stands_at(rt, system, &page, start);
        spent(rt, system, seats, 2, page);
    }
}

#[test]
fn texts_are_spent_by_one_call_as_by_a_call_each(rt: HostRuntime) -> Result<(), Fail> {
    let day = HandsOverAll { alloc: rt.alloc() };
    let left = left_by(&rt, rt.alloc(), config(5, 1, 9), &day);
    holds(&rt, left.free_pages == 32, "all pages are home");
    Ok(())
}

/// The text of these bytes that a seat drafts by a call of several.
fn drafted_of_several<S: Calls, R: Abort + Wait>(
    rt: &R,
    alloc: Global,
    system: &S,
    seat: &S::Seat,
    bytes: &[u8],
) -> S::Text {
    let letters = [Letter {
        mtype: 1,
        tag: 0,
        text: bytes,
    }];
    let Ok(mut texts) = VecDeque::with_capacity(alloc, 1) else {
        panic!(rt; "out of memory");
    };
    let drafted = system.draft_texts_by(alloc, rt, seat, &letters, &mut texts);
    let text = texts.pop_front();
    spend_rest(rt, system, &mut texts);
    texts.destroy_empty();
    match text {
        Some(letter) => letter.text,
        None => panic!(rt; "it is refused: {drafted:?}"),
    }
}

/// Spends the letters that are left.
fn spend_rest<S: Calls, R: Wait>(rt: &R, system: &S, letters: &mut VecDeque<Letter<S::Text>>)
    ensures { deque_len letters.new ≡ 0 }
{
    while let Some(letter) = letters.pop_front() {
        system.spend(rt, letter.text);
    }
}

/// A seat that drafts a block by a call of several gets it back from a seat that has drafted it
/// before, and whose magazine is full.
#[derive(Drop)]
struct GoesBackOfSeveral {
    alloc: Global,
}

impl Day for GoesBackOfSeveral {
    fn spend<S: Calls, R: Abort + Threads + Wait>(
        &self,
        rt: &R,
        system: &S,
        seats: &mut [S::Seat],
    ) {
        let page = drafted(rt, system, seats, 1, b"page");
        let other = drafted(rt, system, seats, 2, b"other");
        let start = system.shape(&other).start;
        spent(rt, system, seats, 1, other);
        let other = drafted_of_several(rt, self.alloc, system, seat(rt, seats, 0), b"again");
        stands_at(rt, system, &other, start);
        has(rt, system, &other, b"again");
        let first = drafted(rt, system, seats, 2, front(8192));
        let second = drafted(rt, system, seats, 2, front(8192));
        spent(rt, system, seats, 2, first);
        spent(rt, system, seats, 2, second);
        system.spend(rt, page);
        spent(rt, system, seats, 2, other);
        let other = drafted(rt, system, seats, 1, b"other");
        stands_at(rt, system, &other, start);
        spent(rt, system, seats, 1, other);
    }
}

#[test]
fn a_seat_gets_back_what_it_has_drafted_by_a_call_of_several(rt: HostRuntime) -> Result<(), Fail> {
    let day = GoesBackOfSeveral { alloc: rt.alloc() };
    let left = left_by(&rt, rt.alloc(), config(5, 1, 9), &day);
    holds(&rt, left.free_pages == 32, "all pages are home");
    Ok(())
}
