//! The nodes of a fresh tree, in which every page is free.

ghost use Rattle.std.specs.Prelude.{[]};
ghost use Rattle.mq_tree.specs.Trees.{ArePagesFree, IsTreeOf};

use crate::node::{Node, ROOF, pages_in};

// Makes each node over the pages, all free, that of a free run, and sets node 0.
pub(crate) fn free_all(nodes: &mut [Node], height: u8)
    requires { ArePagesFree height nodes.old }
    ensures { IsTreeOf height nodes.new [] }
{
    nodes[0] = ROOF;
    let pages = pages_in(height) as usize;
    for at in (1..pages).rev() {
        nodes[at] = nodes[2 * at] + 1;
    }
}
