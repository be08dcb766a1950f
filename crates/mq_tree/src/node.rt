//! The nodes of the tree in the layout of a binary heap: the root is node 1, and the two halves of
//! the run of node `n` are nodes `2 * n` and `2 * n + 1`.

ghost use Rattle.std.specs.Prelude.{◌≡◌, ◌≢◌, ◌/◌, ◌^◌, ◌≤◌};
ghost use Rattle.mq_tree.specs.Nodes.{whole_free, largest_under};

use crate::limits::MAX_HEIGHT;

/// What the tree knows of one aligned run of pages: 0 where it is lent as one block, 1 where
/// nothing in it is free, else two more than the largest order that is free in it.
pub(crate) type Node = u8;

/// A run that is lent as one block.
pub(crate) const LENT: Node = 0;

/// A run in which no page is free, lent in parts.
pub(crate) const FULL: Node = 1;

/// Node 0, over the root: larger than each other node, so that a way up ends there.
pub(crate) const ROOF: Node = 255;

// How many pages a block of this order has.
pub(crate) fn pages_in(order: u8) -> u32
    requires { order ≤ MAX_HEIGHT }
    ensures { result ≡ 2 ^ order }
{
    1 << order
}

// The node of a run of that height that is free.
pub(crate) fn free_run(height: u8) -> Node
    requires { height ≤ MAX_HEIGHT }
    ensures { result ≡ whole_free height }
{
    height + 2
}

// The node of the other half of the run that this node's run is a half of.
pub(crate) fn buddy(node: usize) -> usize
    ensures over { result / 2 ≡ node / 2 }
    ensures other { result ≢ node }
{
    node ^ 1
}

// The largest order that is free in that run.
pub(crate) fn largest_in(node: Node) -> Option<u8>
    ensures { result ≡ largest_under node }
{
    if node > FULL { Some(node - 2) } else { None }
}
