//! The allocator of page numbers, on which an arena stands: a binary buddy system.

ghost use Rattle.std.specs.Prelude.{◌≡◌, ◌^◌, ◌<◌, ◌↔◌, [], IfOk, IsErrOf, IfSome, IfNone};
ghost use Rattle.std.specs.Bool.{OnFalse};
ghost use Rattle.mq_tree.specs.Blocks.{block};
ghost use Rattle.mq_tree.specs.LentSet.{IsLentSet, inserted, left, is_lent, free_pages, with_lent};
ghost use Rattle.mq_tree.specs.Fit.{fit, largest};

use crate::error::TreeError;
use crate::free::free_all;
use crate::give::give_in;
use crate::lend::lend_in;
use crate::limits::MAX_HEIGHT;
use crate::node::{Node, free_run, largest_in, pages_in};
use std::alloc::Global;
use std::marker::Model;

/// The pages of an arena, lent in blocks of `2 ^ order` pages that start at a multiple of their
/// length: Knowlton's buddy system ("A fast storage allocator", CACM 1965). A tree of status nodes
/// has for each run of pages the largest order that fits in it, so `lend` and `give` take a step
/// for each level of the tree, and the queries one.
#[derive(Drop)]
pub struct OrderTree {
    height: u8,
    free: u32,
    nodes: Vec<Node>,
}

impl Model for OrderTree {
    ghost use Rattle.mq_tree.specs.LentSet.{Lending};
    ghost use Rattle.mq_tree.specs.Trees.{IsOrderTree, lent_blocks};

    ghost Value = { Lending };

    ghost view = { λ t. record { height = t.height; lent = lent_blocks t.height t.nodes.items } };

    ghost invariant = { λ t. IsOrderTree t.height t.free t.nodes.items };
}

impl OrderTree {
    /// An arena of `2 ^ height` pages, all free. The one call that takes memory from the allocator.
    pub fn new(alloc: Global, height: u8) -> Result<OrderTree, TreeError>
        ensures ok { IfOk result (λ tree. tree ≡ record { height = height; lent = [] }) }
        ensures err { IsErrOf result TreeError.Height ↔ (MAX_HEIGHT < height) }
    {
        if height > MAX_HEIGHT {
            return Err(TreeError::Height);
        }
        let pages = pages_in(height);
        let mut nodes = Vec::new(alloc);
        if nodes.resize(2 * pages as usize, free_run(0)).is_err() {
            return Err(TreeError::Memory);
        }
        free_all(nodes.as_mut_slice(), height);
        Ok(OrderTree {
            height,
            free: pages,
            nodes,
        })
    }

    /// Allocates the block of that order with the least start, and returns its first page.
    /// `None` where no block of that order fits, so for each order over the height.
    pub fn lend(&mut self, order: u8) -> Option<u32>
        ensures fit { result ≡ fit self.old.height self.old.lent order }
        ensures lent { IfSome result
            (λ start. self.new ≡ with_lent self.old (inserted (block start order) self.old.lent)) }
        ensures unchanged { IfNone result (self.new ≡ self.old) }
        ensures lent_set { IsLentSet self.new.height self.new.lent }
    {
        if order > self.height {
            return None;
        }
        if self.nodes.as_slice()[1] < free_run(order) {
            return None;
        }
        let start = lend_in(self.nodes.as_mut_slice(), self.height, order);
        self.free -= pages_in(order);
        Some(start)
    }

    /// Frees a block: false, with nothing changed, where that very block is not allocated.
    pub fn give(&mut self, start: u32, order: u8) -> bool
        ensures lent { result ≡ is_lent (block start order) self.old.lent }
        ensures left { self.new ≡ with_lent self.old (left (block start order) self.old.lent) }
        ensures kept { OnFalse result (self.new ≡ self.old) }
        ensures lent_set { IsLentSet self.new.height self.new.lent }
    {
        if !give_in(self.nodes.as_mut_slice(), self.height, start, order) {
            return false;
        }
        self.free += pages_in(order);
        true
    }

    /// The largest order of which `lend` would find a block.
    pub fn largest(&self) -> Option<u8>
        ensures value { result ≡ largest self.now.height self.now.lent }
    {
        largest_in(self.nodes.as_slice()[1])
    }

    /// How many pages are in no lent block.
    pub fn free_pages(&self) -> u32
        ensures value { result ≡ free_pages self.now.height self.now.lent }
    {
        self.free
    }

    /// How many pages the arena has, lent or not.
    pub fn pages(&self) -> u32
        ensures value { result ≡ 2 ^ self.now.height }
    {
        pages_in(self.height)
    }
}
