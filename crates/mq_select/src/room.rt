//! Preallocated list nodes: a send allocates before it changes anything, and adding its message
//! then cannot fail.

ghost use Rattle.std.specs.Prelude.{◌≡◌, ◌∷◌, [], true, false, Some, None, OnOk, OnErr};

use mq_message::Message;
use std::alloc::{AllocError, Global};
use std::collections::LinkedList;
use std::marker::Model;

/// A message at its place, or an empty node in which there will be one.
pub(crate) type MessageNode<B> = Option<(u64, Message<B>)>;

/// Room for one message, once it is made: a node that a queue takes for its next message.
pub struct Room<B> {
    pub(crate) node: LinkedList<MessageNode<B>>,
}

impl<B> Model for Room<B> {
    ghost use Rattle.std.specs.Prelude.{◌≡◌, ◌⊎◌, [], ◌∷◌, None, Bool, length, not, ◌==◌};

    ghost Value = { Bool };

    ghost view = { λ r. not (length r.node == 0) };

    ghost invariant = { (λ r. (r.node ≡ []) ⊎ (r.node ≡ None ∷ [])) };
}

/// Consumes an empty node, which has no message to drop.
fn let_go<B>(node: MessageNode<B>)
    requires { node ≡ None }
{
    match node {
        None => (),
        Some(_) => unreachable!(),
    }
}

impl<B> Room<B> {
    pub fn new(alloc: Global) -> Room<B>
        ensures { result ≡ false }
    {
        Room {
            node: LinkedList::new(alloc),
        }
    }

    /// Allocates one node, unless there is room already. `Err` means out of memory.
    pub fn make(&mut self) -> Result<(), AllocError>
        ensures ok { OnOk result (self.new ≡ true) }
        ensures refused { OnErr result ((self.old ≡ false) × (self.new ≡ false)) }
    {
        if self.node.is_empty() {
            match self.node.push_back(None) {
                Ok(()) => Ok(()),
                Err(refused) => {
                    let_go(refused.value);
                    Err(AllocError)
                }
            }
        } else {
            Ok(())
        }
    }

    /// Frees the node, if there is one.
    pub fn end(self) {
        let Room { node } = self;
        let mut node = node;
        match node.pop_front() {
            Some(empty) => let_go(empty),
            None => (),
        }
        node.destroy_empty();
    }
}

/// Puts a message into the one empty node of a list.
pub(crate) fn fill<B>(node: &mut LinkedList<MessageNode<B>>, message: (u64, Message<B>))
    requires { node.old ≡ None ∷ [] }
    ensures { node.new ≡ Some message ∷ [] }
{
    let slot = node.front_mut().unwrap();
    let_go(slot.replace(message));
}
