//! A text that is sent again and again stays in its own block.
ghost use Rattle.std.specs.Prelude.{◌≡◌, ◌^◌, ◌<◌, length};
ghost use Rattle.mq_arena.specs.Text.{count_of};

use mq_arena::{ArenaState, Homecoming, LEDGER_PARTS, PAGE_LEN, Page, Text, Unopened, fill};
use mq_message::{Body, Message, Selection, Waiting};
use mq_queue::{NoNotice, QueueError, QueueState, Received};
use mq_select::ListWaiting;
use std::alloc::Global;
use std::marker::Brand;
use std::process::Abort;
use std::sync::ledger::{Blank, Ledger};
use std::test::Fail;
use std::thread::Threads;

const LEN: usize = 2050;

type Queue<L> = QueueState<Text<L>, ListWaiting<Text<L>>>;

fn drafted<L: Ledger>(rt: &impl Abort, arena: &mut ArenaState<L>) -> Text<L>
    ensures { length result.bytes ≡ LEN }
{
    match arena.take(2) {
        Ok(block) => Text::of(block, LEN),
        Err(_) => panic!(rt; "no block"),
    }
}

fn spent<L: Ledger>(rt: &impl Abort, arena: &mut ArenaState<L>, text: Text<L>) {
    match text.into_block() {
        Some(block) => holds!(rt; arena.put(block) == Homecoming::Home),
        None => panic!(rt; "no block"),
    }
}

fn made<L: Ledger>(rt: &impl Abort, alloc: Global) -> Queue<L> {
    match Queue::made(alloc, 0, 1, 0, &mut NoNotice) {
        Ok(queue) => queue,
        Err(_) => panic!(rt; "out of memory"),
    }
}

fn sent<L: Ledger>(rt: &impl Abort, queue: &mut Queue<L>, text: Text<L>) {
    let message = Message {
        mtype: 1,
        sender: 3,
        tag: 70,
        body: text,
    };
    match queue.send(message, 1, &mut NoNotice) {
        Ok(_) => (),
        Err((refusal, _message)) => {
            holds!(rt; refusal != QueueError::Memory, "out of memory");
            panic!(rt; "refused");
        }
    }
}

fn received<L: Ledger>(rt: &impl Abort, queue: &mut Queue<L>) -> Text<L> {
    match queue.receive(LEN as u64, Selection::Any, false, 2, 1, &mut NoNotice) {
        Ok(
            Received {
                entry: _,
                place: _,
                mtype: _,
                sender: _,
                tag: _,
                length: _,
                body,
            },
        ) => body,
        Err(refusal) => {
            holds!(rt; refusal != QueueError::Memory, "out of memory");
            panic!(rt; "refused");
        }
    }
}

fn ended<L: Ledger>(rt: &impl Abort, queue: Queue<L>) {
    let (_, mut waiting) = queue.into_parts();
    match waiting.pop_any() {
        None => waiting.end(),
        Some(_message) => panic!(rt; "a message waits"),
    }
}

fn repeats(part: &[u8], len: usize, letter: u8) -> bool {
    for byte in part {
        if *byte != letter {
            return false;
        }
    }
    part.len() == len
}

/// Whether the text has the one letter in its first part, and the other in the rest.
fn has_letters<L: Ledger>(text: &Text<L>, first: u8, rest: u8) -> bool {
    text.count() == 3
        && repeats(text.part(0), PAGE_LEN, first)
        && repeats(text.part(1), PAGE_LEN, rest)
        && repeats(text.part(2), 2, rest)
}

/// Whether the text has the letters that were filled in, and is in the block where it was.
fn is_as_filled<L: Ledger>(text: &Text<L>, start: Option<u32>) -> bool {
    text.start() == start && has_letters(text, b'A', b'B')
}

fn is_zero<L: Ledger>(text: &Text<L>) -> bool {
    has_letters(text, 0, 0)
}

/// A text in the arena's second block of its order, filled by two threads.
fn filled<L: Ledger, R: Abort + Threads>(rt: &R, arena: &mut ArenaState<L>) -> Text<L> {
    let before = drafted(rt, arena);
    let mut text = drafted(rt, arena);
    spent(rt, arena, before);
    holds!(rt; is_zero(&text));
    text.fill_halves(rt, 1, &[b'A'; PAGE_LEN], &[b'B'; 1026]);
    text
}

/// Writes this letter over all pages, the first on one thread and the rest on another, whatever the
/// order of the text's block is.
fn written_over<L: Ledger>(rt: &impl Threads, text: &mut Text<L>, letter: u8) {
    if text.order() != Some(2) || text.count() == 0 {
        return;
    }
    text.write_halves(
        rt,
        1,
        |pages: &mut [Page]| fill(pages, &[letter; PAGE_LEN]),
        |pages: &mut [Page]| fill(pages, &[letter; 3 * PAGE_LEN]),
    );
}

/// The text once it was sent to a new queue and received from it.
fn handed_on<L: Ledger>(rt: &impl Abort, alloc: Global, text: Text<L>) -> Text<L> {
    let mut queue = made(rt, alloc);
    sent(rt, &mut queue, text);
    let text = received(rt, &mut queue);
    ended(rt, queue);
    text
}

fn sent_on<L: Ledger, R: Abort + Threads>(rt: &R, alloc: Global, unopened: Unopened, ledger: Blank)
    requires name { ledger.name ≡ L.name }
    requires parts { ledger.parts ≡ L.parts }
    requires enough { 2 ^ unopened < ledger.parts }
{
    let mut arena = unopened.open::<L>(ledger);
    let text = filled(rt, &mut arena);
    let start = text.start();
    holds!(rt; start == Some(4));
    let text = handed_on(rt, alloc, text);
    holds!(rt; is_as_filled(&text, start));
    let mut text = handed_on(rt, alloc, text);
    holds!(rt; is_as_filled(&text, start));
    holds!(rt; arena.free_pages() == 60);
    written_over(rt, &mut text, b'C');
    holds!(rt; has_letters(&text, b'C', b'C'));
    spent(rt, &mut arena, text);
    holds!(rt; arena.free_pages() == 64);
}

#[test]
fn a_text_is_sent_and_received_in_its_own_block(rt: HostRuntime) -> Result<(), Fail> {
    let unopened = Unopened::new(rt.alloc(), 6)?;
    sent_on::<Brand, HostRuntime>(&rt, rt.alloc(), unopened, Blank::new(LEDGER_PARTS));
    Ok(())
}

#[tactic(auto, using(mq_arena::proofs::Loans::left_length))]
fn part_copied<L: Ledger>(rt: &impl Abort, copy: &mut Text<L>, text: &Text<L>, i: usize)
    requires within { i < count_of (length text.now.bytes) }
    requires same { length copy.old.bytes ≡ length text.now.bytes }
    ensures { length copy.new.bytes ≡ length copy.old.bytes }
{
    let bytes = text.part(i);
    let part = copy.part_mut(i);
    holds!(rt; part.len() == bytes.len());
    part.copy_from_slice(bytes);
}

/// The same bytes in another block.
fn copied<L: Ledger>(rt: &impl Abort, arena: &mut ArenaState<L>, text: Text<L>) -> Text<L> {
    let mut copy = drafted(rt, arena);
    holds!(rt; text.len() == LEN as u64);
    for i in 0..text.count() {
        part_copied(rt, &mut copy, &text, i);
    }
    spent(rt, arena, text);
    copy
}

fn copied_on_its_way<L: Ledger, R: Abort + Threads>(
    rt: &R,
    alloc: Global,
    unopened: Unopened,
    ledger: Blank,
)
    requires name { ledger.name ≡ L.name }
    requires parts { ledger.parts ≡ L.parts }
    requires enough { 2 ^ unopened < ledger.parts }
{
    let mut arena = unopened.open::<L>(ledger);
    let text = filled(rt, &mut arena);
    let start = text.start();
    let text = handed_on(rt, alloc, text);
    let text = copied(rt, &mut arena, text);
    let text = handed_on(rt, alloc, text);
    holds!(rt; !is_as_filled(&text, start));
    holds!(rt; is_as_filled(&text, text.start()));
    spent(rt, &mut arena, text);
    holds!(rt; arena.free_pages() == 64);
}

#[test]
fn a_text_that_was_copied_on_its_way_is_found_out(rt: HostRuntime) -> Result<(), Fail> {
    let unopened = Unopened::new(rt.alloc(), 6)?;
    copied_on_its_way::<Brand, HostRuntime>(&rt, rt.alloc(), unopened, Blank::new(LEDGER_PARTS));
    Ok(())
}
