//! An arena as its tests see it: its calls, and nothing of what it is made of.
ghost use Rattle.std.specs.Prelude.{◌≡◌};

use crate::threads::write_both;
use crate::{in_block, in_text};
use mq_arena::{
    ArenaState, Block, Homecoming, MAX_ORDER, PAGE_LEN, TEXT_LEN, TakeError, Text, order_for,
};
use mq_message::Body;
use std::process::Abort;
use std::slice::from_mut;
use std::sync::ledger::Ledger;
use std::thread::Threads;

/// Where a text stands, and how much of it there is.
#[derive(Clone, Copy)]
pub(crate) struct Shape {
    pub(crate) len: u64,
    /// The number of its parts.
    pub(crate) count: usize,
    pub(crate) start: Option<u32>,
    pub(crate) order: Option<u8>,
}

/// The calls of `mq_arena::ArenaState`, of its blocks and of its texts. The preconditions of a call
/// are checked when it is made, and end the test where they do not hold.
pub(crate) trait Lender {
    type Block;

    type Text;

    fn pages(&self) -> u32;

    fn free_pages(&self) -> u32;

    fn lent_pages(&self) -> u32;

    fn largest(&self) -> Option<u8>;

    /// The order must be one that blocks have.
    fn take<R: Abort>(&mut self, rt: &R, order: u8) -> Result<Self::Block, TakeError>;

    /// The same, and the block must have room for the bytes.
    fn take_filled<R: Abort>(
        &mut self,
        rt: &R,
        order: u8,
        bytes: &[u8],
    ) -> Result<Self::Block, TakeError>;

    fn put(&mut self, block: Self::Block) -> Homecoming;

    fn account(&mut self, block: &mut Self::Block);

    /// The first page of a block.
    fn start(&self, block: &Self::Block) -> u32;

    fn order(&self, block: &Self::Block) -> u8;

    /// Fills a block with as many letters as it has bytes, which are 7, and writes over its ends.
    fn write_block<R: Abort>(&self, rt: &R, block: &mut Self::Block, letters: &[u8]);

    /// All bytes of a block are zero.
    fn block_is_zero<R: Abort>(&self, rt: &R, block: &Self::Block);

    /// A block of two pages or more has 1,500 bytes that are 5, and zeros behind them.
    fn block_is_filled<R: Abort>(&self, rt: &R, block: &Self::Block);

    /// Writes the pages below `i` and those from there on by two threads, twice. There must be as
    /// many letters as the block has bytes.
    fn write_block_at<R: Abort + Threads>(
        &self,
        rt: &R,
        block: &mut Self::Block,
        i: usize,
        first: &[u8],
        second: &[u8],
    );

    fn no_text(&self) -> Self::Text;

    /// A text of that many bytes of a block, which must have the order for them.
    fn text_of<R: Abort>(&self, rt: &R, block: Self::Block, len: usize) -> Self::Text;

    /// The bytes must be those of a text.
    fn text_of_bytes<R: Abort>(&mut self, rt: &R, bytes: &[u8]) -> Result<Self::Text, TakeError>;

    fn into_block(&self, text: Self::Text) -> Option<Self::Block>;

    fn shape(&self, text: &Self::Text) -> Shape;

    /// The text has these bytes.
    fn shows<R: Abort>(&self, rt: &R, text: &Self::Text, bytes: &[u8]);

    /// All bytes of a text are zero.
    fn text_is_zero<R: Abort>(&self, rt: &R, text: &Self::Text);

    /// Part `i` of the text is this letter so many times.
    fn repeats<R: Abort>(&self, rt: &R, text: &Self::Text, i: usize, len: usize, letter: u8);

    /// There must be as many bytes as the text has.
    fn fill<R: Abort>(&self, rt: &R, text: &mut Self::Text, bytes: &[u8]);

    fn fill_part<R: Abort>(&self, rt: &R, text: &mut Self::Text, i: usize, letter: u8);

    /// The front must be as long as the parts below `i`, and the back as the others.
    fn fill_halves<R: Abort + Threads>(
        &self,
        rt: &R,
        text: &mut Self::Text,
        i: usize,
        front: &[u8],
        back: &[u8],
    );

    /// Writes these bytes over pages of a text's block by two threads, one of which is lent those
    /// below `i`. The bytes must fit.
    fn write_halves<R: Abort + Threads>(
        &self,
        rt: &R,
        text: &mut Self::Text,
        i: usize,
        front: &[u8],
        back: &[u8],
    );

    /// Writes the first page of each half of a text's block, which are split at page `i`, while the
    /// other half is written too.
    fn write_both<R: Abort + Threads>(&self, rt: &R, text: &mut Self::Text, i: usize);

    /// Truncates a text, and checks its length.
    fn cut_to<R: Abort>(&self, rt: &R, text: &mut Self::Text, n: u64);
}

impl<L: Ledger> Lender for ArenaState<L> {
    type Block = Block<L>;

    type Text = Text<L>;

    fn pages(&self) -> u32 {
        self.pages()
    }

    fn free_pages(&self) -> u32 {
        self.free_pages()
    }

    fn lent_pages(&self) -> u32 {
        self.lent_pages()
    }

    fn largest(&self) -> Option<u8> {
        self.largest()
    }

    fn take<R: Abort>(&mut self, rt: &R, order: u8) -> Result<Block<L>, TakeError> {
        holds!(rt; order <= MAX_ORDER);
        self.take(order)
    }

    fn take_filled<R: Abort>(
        &mut self,
        rt: &R,
        order: u8,
        bytes: &[u8],
    ) -> Result<Block<L>, TakeError> {
        holds!(rt; order <= MAX_ORDER);
        holds!(rt; bytes.len() <= PAGE_LEN << order);
        self.take_filled(order, bytes)
    }

    fn put(&mut self, block: Block<L>) -> Homecoming {
        self.put(block)
    }

    fn account(&mut self, block: &mut Block<L>) {
        self.account(from_mut(block));
    }

    fn start(&self, block: &Block<L>) -> u32 {
        block.start()
    }

    fn order(&self, block: &Block<L>) -> u8 {
        block.order()
    }

    fn write_block<R: Abort>(&self, rt: &R, block: &mut Block<L>, letters: &[u8]) {
        holds!(rt; letters.len() == PAGE_LEN << block.order());
        in_block::write(rt, block, letters);
    }

    fn block_is_zero<R: Abort>(&self, rt: &R, block: &Block<L>) {
        in_block::is_zero(rt, block);
    }

    fn block_is_filled<R: Abort>(&self, rt: &R, block: &Block<L>) {
        holds!(rt; 2 <= 1usize << block.order());
        in_block::is_filled(rt, block);
    }

    fn write_block_at<R: Abort + Threads>(
        &self,
        rt: &R,
        block: &mut Block<L>,
        i: usize,
        first: &[u8],
        second: &[u8],
    ) {
        let order = block.order();
        holds!(rt; i <= 1usize << order);
        holds!(rt; first.len() == PAGE_LEN << order);
        holds!(rt; second.len() == PAGE_LEN << order);
        in_block::write_cut_at(rt, block, i, first, second);
    }

    fn no_text(&self) -> Text<L> {
        Text::empty()
    }

    fn text_of<R: Abort>(&self, rt: &R, block: Block<L>, len: usize) -> Text<L> {
        holds!(rt; 0 < len);
        holds!(rt; len <= TEXT_LEN);
        holds!(rt; block.order() == order_for(len));
        Text::of(block, len)
    }

    fn text_of_bytes<R: Abort>(&mut self, rt: &R, bytes: &[u8]) -> Result<Text<L>, TakeError> {
        holds!(rt; 0 < bytes.len());
        holds!(rt; bytes.len() <= TEXT_LEN);
        Text::of_bytes(self, bytes)
    }

    fn into_block(&self, text: Text<L>) -> Option<Block<L>> {
        text.into_block()
    }

    fn shape(&self, text: &Text<L>) -> Shape {
        Shape {
            len: text.len(),
            count: text.count(),
            start: text.start(),
            order: text.order(),
        }
    }

    fn shows<R: Abort>(&self, rt: &R, text: &Text<L>, bytes: &[u8]) {
        in_text::shows(rt, text, bytes);
    }

    fn text_is_zero<R: Abort>(&self, rt: &R, text: &Text<L>) {
        in_text::is_zero(rt, text);
    }

    fn repeats<R: Abort>(&self, rt: &R, text: &Text<L>, i: usize, len: usize, letter: u8) {
        in_text::repeats(rt, text, i, len, letter);
    }

    fn fill<R: Abort>(&self, rt: &R, text: &mut Text<L>, bytes: &[u8]) {
        holds!(rt; bytes.len() as u64 == text.len());
        text.fill(bytes);
    }

    fn fill_part<R: Abort>(&self, rt: &R, text: &mut Text<L>, i: usize, letter: u8) {
        holds!(rt; i < text.count());
        in_text::fill_part(text, i, letter);
    }

    fn fill_halves<R: Abort + Threads>(
        &self,
        rt: &R,
        text: &mut Text<L>,
        i: usize,
        front: &[u8],
        back: &[u8],
    ) {
        in_text::fill_halves(rt, text, i, front, back);
    }

    fn write_halves<R: Abort + Threads>(
        &self,
        rt: &R,
        text: &mut Text<L>,
        i: usize,
        front: &[u8],
        back: &[u8],
    ) {
        in_text::write_halves(rt, text, i, front, back);
    }

    fn write_both<R: Abort + Threads>(&self, rt: &R, text: &mut Text<L>, i: usize) {
        write_both(rt, text, i);
    }

    fn cut_to<R: Abort>(&self, rt: &R, text: &mut Text<L>, n: u64) {
        in_text::cut_to(rt, text, n);
    }
}
