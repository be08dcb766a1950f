//! A FIFO of the messages of one type, as a linked list whose nodes are allocated beforehand.

ghost use Rattle.std.specs.Prelude.{◌≡◌, ◌==◌, ◌<◌, ◌^◌, ◌++◌, ◌∷◌, [], All, IfSome, IsSome, OnOk};
ghost use Rattle.std.specs.Prelude.{false, true, find, length, position, remove, slice_get};
ghost use Rattle.std.specs.Option.{option_copied, option_map, option_map_or};
ghost use Rattle.mq_message.specs.Waiting.{headers_of, message_at, without};
ghost use Rattle.mq_select.specs.Queue.{in_nodes};

use crate::Room;
use crate::room::{MessageNode, fill};
use mq_message::{Body, Header, Message};
use std::alloc::{AllocError, Global};
use std::collections::LinkedList;
use std::marker::Model;

/// The pending messages of one type, in the order of sending. Each has a node of its own, so a
/// queue that is emptied keeps no memory. It can't be dropped, whatever its bodies are.
pub struct TypeQueue<B> {
    nodes: LinkedList<MessageNode<B>>,
}

impl<B> Model for TypeQueue<B> {
    ghost use Rattle.std.specs.Prelude.{◌≡◌, ◌<◌, ℕ, List, Some, AllPairs, map};
    ghost use Rattle.mq_message.specs.declared.message.Message.{Message};
    ghost use Rattle.mq_select.specs.Queue.{in_nodes};

    ghost Value = { List (ℕ × Message B) };

    ghost view = { λ q. in_nodes q.nodes };

    ghost invariant = { (λ q. (q.nodes ≡ map Some (in_nodes q.nodes))
        × AllPairs (λ a b. a.0 < b.0) (in_nodes q.nodes)) };
}

/// Whether the message of a node is at this place.
fn is_at<B>(node: &MessageNode<B>, place: u64) -> bool
    ensures { result ≡ option_map_or (λ m. m.0 == place) node.now false }
{
    match node {
        Some(message) => message.0 == place,
        None => false,
    }
}

/// The index of the node whose message is at this place.
fn index_of<B>(nodes: &LinkedList<MessageNode<B>>, place: u64) -> Option<usize>
    ensures { result ≡ position (λ n. option_map_or (λ m. m.0 == place) n false) nodes.now }
{
    nodes.iter().position(|node| is_at(node, place))
}

/// The node whose message is at this place.
fn node_at<B>(nodes: &LinkedList<MessageNode<B>>, place: u64) -> Option<&MessageNode<B>>
    ensures { option_copied result
        ≡ find (λ n. option_map_or (λ m. m.0 == place) n false) nodes.now }
{
    nodes.iter().find(|node| is_at(node, place))
}

/// Takes the node at an index out of a list.
fn taken_at<B>(nodes: &mut LinkedList<MessageNode<B>>, index: usize) -> MessageNode<B>
    requires { index < length nodes.old }
    ensures taken { slice_get nodes.old index ≡ Some result }
    ensures rest { nodes.new ≡ remove nodes.old index }
{
    let _len = nodes.len();
    let mut tail = match nodes.split_off(index) {
        Ok(tail) => tail,
        Err(_) => unreachable!(),
    };
    let node = tail.pop_front().unwrap();
    match nodes.append(&mut tail) {
        Ok(()) => (),
        Err(_) => unreachable!(),
    }
    tail.destroy_empty();
    node
}

/// Adds the headers of the messages in the nodes. `Err` means out of memory.
fn add_nodes<B: Body>(
    nodes: &LinkedList<MessageNode<B>>,
    headers: &mut Vec<Header>,
) -> Result<(), AllocError>
    ensures { OnOk result (headers.new.items
        ≡ headers.old.items ++ headers_of B.bytes (in_nodes nodes.now)) }
{
    let mut rest = nodes.iter();
    while let Some(node) = rest.next() {
        if let Some((place, message)) = node {
            headers.push(Header {
                place: *place,
                seat: message.sender,
                tag: message.tag,
                mtype: message.mtype,
                length: message.body.len(),
            })?;
        }
    }
    Ok(())
}

impl<B> TypeQueue<B> {
    pub fn new(alloc: Global) -> TypeQueue<B>
        ensures { result ≡ [] }
    {
        TypeQueue {
            nodes: LinkedList::new(alloc),
        }
    }

    pub(crate) fn len(&self) -> usize
        ensures { result ≡ length self.now }
    {
        self.nodes.len()
    }

    /// The place of the first message.
    pub fn first(&self) -> Option<u64>
        ensures { result ≡ option_map (λ m. m.0) (slice_get self.now 0) }
    {
        match self.nodes.front() {
            Some(Some(message)) => Some(message.0),
            _ => None,
        }
    }

    /// Adds a message at the end, in the preallocated node.
    pub fn put(&mut self, room: &mut Room<B>, place: u64, message: Message<B>)
        requires room { room.old ≡ true }
        requires few { length self.old < 2 ^ 62 }
        requires above { All (λ m. m.0 < place) self.old }
        ensures added { self.new ≡ self.old ++ (place, message) ∷ [] }
        ensures used { room.new ≡ false }
    {
        fill(&mut room.node, (place, message));
        match self.nodes.append(&mut room.node) {
            Ok(()) => (),
            Err(_) => unreachable!(),
        }
    }

    /// Takes out the message at this place.
    pub fn take(&mut self, place: u64) -> Message<B>
        requires { IsSome (message_at place self.old) }
        ensures taken { message_at place self.old ≡ Some result }
        ensures rest { self.new ≡ without place self.old }
    {
        let index = index_of(&self.nodes, place).unwrap();
        match taken_at(&mut self.nodes, index) {
            Some((_, message)) => message,
            None => unreachable!(),
        }
    }

    /// The number of bytes of the message at this place.
    pub fn length_of(&self, place: u64) -> u64
    where
        B: Body,
        requires { IsSome (message_at place self.now) }
        ensures { IfSome (message_at place self.now) (λ m. result ≡ length (B.bytes m.body)) }
    {
        match node_at(&self.nodes, place) {
            Some(Some(message)) => message.1.body.len(),
            Some(None) => unreachable!(),
            None => unreachable!(),
        }
    }

    /// Adds the headers of the messages, in the order of sending. `Err` means out of memory.
    pub(crate) fn add_headers(&self, headers: &mut Vec<Header>) -> Result<(), AllocError>
    where
        B: Body,
        ensures { OnOk result (headers.new.items
            ≡ headers.old.items ++ headers_of B.bytes self.now) }
    {
        add_nodes(&self.nodes, headers)
    }

    /// Ends an empty queue.
    pub fn end(self)
        requires { self ≡ [] }
    {
        let TypeQueue { nodes } = self;
        nodes.destroy_empty();
    }
}
