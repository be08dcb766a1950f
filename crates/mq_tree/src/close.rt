//! The last step of allocating and of freeing: the nodes above a changed one are updated.

ghost use Rattle.mq_tree.specs.Trees.{IsParted, IsTreeOf, lent_blocks};

use crate::node::{FULL, Node, buddy};

// Gives each node above that one the larger order of its two halves, from the lowest up. Where a
// node stays as it was, so do those above it.
pub(crate) fn close(nodes: &mut [Node], height: u8, below: usize)
    requires { IsParted height below nodes.old }
    ensures { IsTreeOf height nodes.new (lent_blocks height nodes.old) }
{
    let mut at = below;
    let mut node = nodes[at].max(FULL);
    loop {
        node = node.max(nodes[buddy(at)]);
        at /= 2;
        let over = nodes[at];
        if node == over {
            return;
        }
        nodes[at] = node;
    }
}
