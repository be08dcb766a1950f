//! A worker's record of what it received: the last tag of each stream, and if tags always rose.

ghost use Rattle.std.specs.Prelude.{◌≡◌, ◌<◌, ◌≤◌, ◌+◌, [], MatchResult, length};
ghost use Rattle.std.specs.HashMap.{spare};
ghost use Rattle.mq_calls.specs.declared.errno.Errno.TheVariants.{ENOMEM};
ghost use Rattle.mq_cli.specs.Calls.{messages_of, stream_of};
ghost use Rattle.mq_cli.specs.Progress.{AreNotes, HoldSame, NotesAll, NotesTag};

use crate::Taken;
use mq_calls::Errno;
use mq_table::Id;
use std::alloc::Global;
use std::collections::HashMap;

/// The messages of one sender and one type in one queue.
#[derive(Clone, Copy, PartialEq, Eq, Hash)]
pub(crate) struct Stream {
    pub id: u32,
    pub sender: u16,
    pub mtype: i64,
}

impl Stream {
    pub(crate) fn of(id: Id, taken: Taken) -> Stream
        ensures { result ≡ stream_of (record { id = id; taken = taken }) }
    {
        Stream {
            id: id.number(),
            sender: taken.sender,
            mtype: taken.mtype,
        }
    }
}

/// A worker's own notes of what it received.
#[derive(Drop)]
pub(crate) struct Notes {
    /// The last tag of each stream.
    last: HashMap<Stream, u64>,
    ordered: bool,
}

impl Notes {
    pub(crate) fn new(alloc: Global) -> Notes
        ensures { AreNotes ⟦<Stream as PartialEq>⟧.eq [] result }
    {
        Notes {
            last: HashMap::new(alloc),
            ordered: true,
        }
    }

    /// Whether the tags of each stream always rose.
    pub(crate) fn ordered(&self) -> bool
        ensures { result ≡ self.now.ordered }
    {
        self.ordered
    }

    /// Makes room for `count` more notes. ENOMEM alone.
    pub(crate) fn reserve(&mut self, count: usize) -> Result<(), Errno>
        ensures same { HoldSame ⟦<Stream as PartialEq>⟧.eq self.old self.new }
        ensures room { MatchResult result (λ _. count ≤ spare self.new.last)
            (λ errno. errno ≡ ENOMEM) }
    {
        match self.last.reserve(count) {
            Ok(()) => Ok(()),
            Err(_) => Err(Errno::ENOMEM),
        }
    }

    /// Notes the tag of a message for which there is room. They are in order as long as each tag
    /// is above that of the message before in its stream.
    fn note(&mut self, stream: Stream, tag: u64)
        requires { 0 < spare self.old.last }
        ensures noted { NotesTag ⟦<Stream as PartialEq>⟧.eq self.old self.new stream tag }
        ensures room { spare self.old.last ≤ spare self.new.last + 1 }
    {
        let Ok(before) = self.last.insert(stream, tag) else {
            unreachable!()
        };
        if let Some(last) = before {
            if last >= tag {
                self.ordered = false;
            }
        }
    }
    /// Notes a message of a queue for which there is room.
    fn note_one(&mut self, id: Id, taken: Taken)
        requires { 0 < spare self.old.last }
        ensures noted { NotesTag ⟦<Stream as PartialEq>⟧.eq self.old self.new
            (stream_of (record { id = id; taken = taken })) taken.tag }
        ensures room { spare self.old.last ≤ spare self.new.last + 1 }
    {
        self.note(Stream::of(id, taken), taken.tag);
    }

    /// Notes messages of a queue for which there is room, one after another.
    pub(crate) fn note_all(&mut self, id: Id, came: &[Taken])
        requires { length came.now ≤ spare self.old.last }
        ensures { NotesAll ⟦<Stream as PartialEq>⟧.eq self.old self.new (messages_of id came.now) }
    {
        for taken in came {
            self.note_one(id, *taken);
        }
    }
}
