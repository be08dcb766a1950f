//! Allocation of a block: the first free run with room for it is found and split (Knowlton).

ghost use Rattle.std.specs.Prelude.{◌≡◌, Some, slice_set};
ghost use Rattle.mq_tree.specs.Blocks.{block};
ghost use Rattle.mq_tree.specs.LentSet.{inserted};
ghost use Rattle.mq_tree.specs.Fit.{fit};
ghost use Rattle.mq_tree.specs.Trees.{HasRoom, IsTreeOf, IsParted, Found, FoundRun, lent_blocks};

use crate::close::close;
use crate::node::{LENT, Node, free_run, pages_in};

// The node of the first free run with room for that order, by the largest orders on the way down.
fn first_free(nodes: &[Node], height: u8, order: u8) -> usize
    requires { HasRoom height order nodes.now }
    ensures { FoundRun height order result nodes.now }
{
    let free = free_run(order);
    let mut at = 1;
    let mut whole = free_run(height);
    while nodes[at] != whole {
        let left = 2 * at;
        at = if nodes[left] >= free { left } else { left + 1 };
        whole -= 1;
    }
    at
}

// Allocates the first block of a free run, and splits what is over it: each right half stays free.
fn split(nodes: &mut [Node], height: u8, order: u8, run: usize) -> usize
    requires { FoundRun height order run nodes.old }
    ensures found { Found height order result nodes.old }
    ensures parted { IsParted height run nodes.new }
    ensures lent { lent_blocks height nodes.new ≡ lent_blocks height (slice_set nodes.old result 0) }
{
    let mut free = free_run(order);
    let steps = nodes[run] as u32 - free as u32;
    let first = run << steps;
    nodes[first] = LENT;
    let mut at = first;
    while at > run {
        at /= 2;
        nodes[at] = free;
        free += 1;
    }
    first
}

// Allocates the first block of that order that fits.
pub(crate) fn lend_in(nodes: &mut [Node], height: u8, order: u8) -> u32
    requires { HasRoom height order nodes.old }
    ensures fit { fit height (lent_blocks height nodes.old) order ≡ Some result }
    ensures lent { IsTreeOf height nodes.new
        (inserted (block result order) (lent_blocks height nodes.old)) }
{
    let run = first_free(nodes, height, order);
    let at = split(nodes, height, order, run);
    close(nodes, height, run);
    at as u32 * pages_in(order) - pages_in(height)
}
