//! A system as its tests see it: its calls, and nothing of what it is made of.

use crate::calls::Wanted;
use mq_arena::{Homecoming, Text};
use mq_calls::{Delivered, DraftError, Errno, GetFlags, Got, Refused, Removal, SendRefused};
use mq_local::OneThread;
use mq_message::{Body, Message};
use mq_queue::{BoardRow, Figures};
use mq_table::{Cut, Id};
use std::collections::VecDeque;
use std::process::Abort;
use std::sync::ledger::Ledger;

/// Where a text stands, and how much of it there is.
#[derive(Clone, Copy)]
pub(crate) struct Shape {
    pub(crate) len: u64,
    /// The number of its pages that have bytes.
    pub(crate) pages: usize,
    pub(crate) start: Option<u32>,
}

/// The calls of `mq_local::OneThread` and of its texts, by the same names. The preconditions
/// of a call are checked when it is made, and end the test where they do not hold.
pub(crate) trait Calls {
    type Text;

    fn free_pages(&self) -> u32;

    fn largest(&self) -> Option<u8>;

    /// The slot must be there.
    fn row<R: Abort>(&self, rt: &R, slot: u8) -> BoardRow;

    fn msgget(&mut self, seat: u16, key: i32, flags: GetFlags, moment: u64) -> Result<Got, Errno>;

    fn msgsnd(
        &mut self,
        seat: u16,
        id: Id,
        mtype: i64,
        tag: u64,
        text: Self::Text,
        moment: u64,
    ) -> Result<u64, SendRefused<Self::Text>>;

    fn msgrcv(
        &mut self,
        seat: u16,
        id: Id,
        size: u64,
        msgtyp: i64,
        except: bool,
        noerror: bool,
        moment: u64,
    ) -> Result<Delivered<Self::Text>, Refused>;

    fn msgsnd_many(
        &mut self,
        id: Id,
        messages: &mut VecDeque<Message<Self::Text>>,
        moment: u64,
    ) -> Result<(), Refused>;

    /// Nothing may be in `out`, and there must be room for as many.
    fn msgrcv_many<R: Abort>(
        &mut self,
        rt: &R,
        seat: u16,
        id: Id,
        wanted: Wanted,
        n: usize,
        moment: u64,
        out: &mut Vec<Delivered<Self::Text>>,
    ) -> Result<(), Refused>;

    fn set(&mut self, seat: u16, id: Id, qbytes: u64, moment: u64) -> Result<u64, Refused>;

    fn rmid(&mut self, seat: u16, id: Id, moment: u64) -> Result<Removal, Refused>;

    fn stat(&self, id: Id) -> Result<Figures, Errno>;

    /// The slot must be there.
    fn cut_log<R: Abort>(&mut self, rt: &R, slot: u8) -> Result<Cut, Refused>;

    fn draft(&mut self, len: u64) -> Result<Self::Text, DraftError>;

    fn draft_of(&mut self, bytes: &[u8]) -> Result<Self::Text, DraftError>;

    fn spend(&mut self, text: Self::Text) -> Homecoming;

    /// The text must have as many bytes.
    fn fill<R: Abort>(&self, rt: &R, text: &mut Self::Text, bytes: &[u8]);

    fn shape(&self, text: &Self::Text) -> Shape;

    /// Whether the text is of one page, and has these bytes.
    fn has(&self, text: &Self::Text, bytes: &[u8]) -> bool;

    /// Whether each of the text's bytes is this one.
    fn is_all(&self, text: &Self::Text, letter: u8) -> bool;
}

impl<L: Ledger> Calls for OneThread<L> {
    type Text = Text<L>;

    fn free_pages(&self) -> u32 {
        self.free_pages()
    }

    fn largest(&self) -> Option<u8> {
        self.largest()
    }

    fn row<R: Abort>(&self, rt: &R, slot: u8) -> BoardRow {
        if slot >= self.slots() {
            panic!(rt; "there is no slot {slot}");
        }
        self.row(slot)
    }

    fn msgget(&mut self, seat: u16, key: i32, flags: GetFlags, moment: u64) -> Result<Got, Errno> {
        self.msgget(seat, key, flags, moment)
    }

    fn msgsnd(
        &mut self,
        seat: u16,
        id: Id,
        mtype: i64,
        tag: u64,
        text: Text<L>,
        moment: u64,
    ) -> Result<u64, SendRefused<Text<L>>> {
        self.msgsnd(seat, id, mtype, tag, text, moment)
    }

    fn msgrcv(
        &mut self,
        seat: u16,
        id: Id,
        size: u64,
        msgtyp: i64,
        except: bool,
        noerror: bool,
        moment: u64,
    ) -> Result<Delivered<Text<L>>, Refused> {
        self.msgrcv(seat, id, size, msgtyp, except, noerror, moment)
    }

    fn msgsnd_many(
        &mut self,
        id: Id,
        messages: &mut VecDeque<Message<Text<L>>>,
        moment: u64,
    ) -> Result<(), Refused> {
        self.msgsnd_many(id, messages, moment)
    }

    fn msgrcv_many<R: Abort>(
        &mut self,
        rt: &R,
        seat: u16,
        id: Id,
        wanted: Wanted,
        n: usize,
        moment: u64,
        out: &mut Vec<Delivered<Text<L>>>,
    ) -> Result<(), Refused> {
        if !out.is_empty() {
            panic!(rt; "something was received before");
        }
        if n > out.capacity() {
            panic!(rt; "there is no room for as many");
        }
        let Wanted {
            size,
            msgtyp,
            except,
            noerror,
        } = wanted;
        self.msgrcv_many(seat, id, size, msgtyp, except, noerror, n, moment, out)
    }

    fn set(&mut self, seat: u16, id: Id, qbytes: u64, moment: u64) -> Result<u64, Refused> {
        self.set(seat, id, qbytes, moment)
    }

    fn rmid(&mut self, seat: u16, id: Id, moment: u64) -> Result<Removal, Refused> {
        self.rmid(seat, id, moment)
    }

    fn stat(&self, id: Id) -> Result<Figures, Errno> {
        self.stat(id)
    }

    fn cut_log<R: Abort>(&mut self, rt: &R, slot: u8) -> Result<Cut, Refused> {
        if slot >= self.slots() {
            panic!(rt; "there is no slot {slot}");
        }
        self.cut_log(slot)
    }

    fn draft(&mut self, len: u64) -> Result<Text<L>, DraftError> {
        self.draft(len)
    }

    fn draft_of(&mut self, bytes: &[u8]) -> Result<Text<L>, DraftError> {
        self.draft_of(bytes)
    }

    fn spend(&mut self, text: Text<L>) -> Homecoming {
        self.spend(text)
    }

    fn fill<R: Abort>(&self, rt: &R, text: &mut Text<L>, bytes: &[u8]) {
        if text.len() != bytes.len() as u64 {
            panic!(rt; "a text has another length");
        }
        text.fill(bytes);
    }

    fn shape(&self, text: &Text<L>) -> Shape {
        Shape {
            len: text.len(),
            pages: text.count(),
            start: text.start(),
        }
    }

    fn has(&self, text: &Text<L>, bytes: &[u8]) -> bool {
        text.count() == 1 && text.part(0) == bytes && text.parts().next() == Some(bytes)
    }

    fn is_all(&self, text: &Text<L>, letter: u8) -> bool {
        for part in text.parts() {
            for byte in part {
                if *byte != letter {
                    return false;
                }
            }
        }
        true
    }
}
