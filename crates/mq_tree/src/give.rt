//! Freeing of a block: a free run merges with its buddy as long as that is free (Knowlton).

ghost use Rattle.std.specs.Prelude.{◌≡◌, ◌≤◌, MatchOption};
ghost use Rattle.std.specs.Bool.{OnTrue};
ghost use Rattle.mq_tree.specs.Blocks.{block};
ghost use Rattle.mq_tree.specs.LentSet.{left as without, is_lent};
ghost use Rattle.mq_tree.specs.Trees.{IsTree, IsTreeOf, IsFreed, IsParted, IsRunOf, IsNoRun, lent_blocks};

use crate::close::close;
use crate::limits::MAX_HEIGHT;
use crate::node::{LENT, Node, buddy, free_run, pages_in};

// The node of that run of pages, if the arena has one.
fn run_at(height: u8, start: u32, order: u8) -> Option<usize>
    requires { height ≤ MAX_HEIGHT }
    ensures { MatchOption result (IsNoRun height order start) (IsRunOf height order start) }
{
    if order > height {
        return None;
    }
    let all = pages_in(height);
    let pages = pages_in(order);
    if start >= all {
        return None;
    }
    let inside = start % pages;
    if inside != 0 {
        return None;
    }
    Some(((all + start) / pages) as usize)
}

// Merges the free run of that node with its buddy, and on the way up as long as the buddy is free.
fn join(nodes: &mut [Node], height: u8, order: u8, below: usize) -> usize
    requires { IsFreed height order below nodes.old }
    ensures parted { IsParted height result nodes.new }
    ensures unchanged { lent_blocks height nodes.new ≡ lent_blocks height nodes.old }
{
    let mut at = below;
    let mut free = free_run(order);
    while nodes[buddy(at)] == free {
        at /= 2;
        free += 1;
        nodes[at] = free;
    }
    at
}

// Frees that block, if it is allocated.
pub(crate) fn give_in(nodes: &mut [Node], height: u8, start: u32, order: u8) -> bool
    requires { IsTree height nodes.old }
    ensures order { OnTrue result (order ≤ height) }
    ensures lent { result ≡ is_lent (block start order) (lent_blocks height nodes.old) }
    ensures left { IsTreeOf height nodes.new
        (without (block start order) (lent_blocks height nodes.old)) }
{
    let Some(at) = run_at(height, start, order) else {
        return false;
    };
    if nodes[at] != LENT {
        return false;
    }
    nodes[at] = free_run(order);
    let run = join(nodes, height, order, at);
    close(nodes, height, run);
    true
}
