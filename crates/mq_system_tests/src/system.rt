//! A system as its tests see it: its calls, and nothing of what it is made of.
ghost use Rattle.std.specs.Prelude.{◌≡◌};
ghost use Rattle.std.specs.VecDeque.{deque_len};

use crate::calls::Wanted;
use crate::day::Anything;
use crate::holds;
use mq_arena::{Homecoming, PAGE_LEN};
use mq_calls::{Delivered, Removal, SendRefused, Usage};
use mq_message::{Body, Selection};
use mq_queue::{BoardRow, Figures};
use mq_system::{
    BatchSent, DraftError, Errno, GetFlags, Got, Letter, MAX_BATCH, Names, NoWait, Patience,
    ReceiveRequest, RecvFlags, Refused, Seat, SendFlags, System, TextOf,
};
use mq_table::{Cut, Id};
use std::alloc::Global;
use std::collections::VecDeque;
use std::process::Abort;
use std::sync::Wait;
use std::thread::Threads;

/// Where a text stands, and how much of it there is.
#[derive(Clone, Copy)]
pub(crate) struct Shape {
    pub(crate) len: u64,
    /// The number of its pages that have bytes.
    pub(crate) pages: usize,
    pub(crate) start: Option<u32>,
    pub(crate) order: Option<u8>,
}

/// The calls of `mq_system::System`, of its seats and of its texts, by the same names. The
/// preconditions of a call are checked when it is made, and end the test where they do not hold.
pub(crate) trait Calls {
    type Seat;

    type Text;

    fn slots(&self) -> u8;

    fn msgget<R: Wait>(
        &self,
        rt: &R,
        seat: &mut Self::Seat,
        key: i32,
        flags: GetFlags,
        moment: u64,
    ) -> Result<Got, Errno>;

    fn msgsnd<R: Wait>(
        &self,
        rt: &R,
        seat: &mut Self::Seat,
        id: Id,
        mtype: i64,
        tag: u64,
        text: Self::Text,
        flags: SendFlags,
        moment: u64,
    ) -> Result<u64, SendRefused<Self::Text>>;

    fn msgrcv<R: Wait>(
        &self,
        rt: &R,
        seat: &mut Self::Seat,
        id: Id,
        size: u64,
        msgtyp: i64,
        flags: RecvFlags,
        moment: u64,
    ) -> Result<Delivered<Self::Text>, Refused>;

    fn msgsnd_many<R: Wait, T: Patience>(
        &self,
        rt: &R,
        seat: &mut Self::Seat,
        id: Id,
        letters: &mut VecDeque<Letter<Self::Text>>,
        flags: SendFlags,
        patience: &mut T,
        moment: u64,
    ) -> BatchSent;

    /// There must be room for as many, and nothing in it.
    fn msgrcv_many<R: Abort + Wait, T: Patience>(
        &self,
        rt: &R,
        seat: &mut Self::Seat,
        id: Id,
        wanted: Wanted,
        patience: &mut T,
        n: usize,
        moment: u64,
        out: &mut Vec<Delivered<Self::Text>>,
    ) -> Result<(), Refused>;

    fn set<R: Wait>(
        &self,
        rt: &R,
        seat: &mut Self::Seat,
        id: Id,
        qbytes: u64,
        moment: u64,
    ) -> Result<u64, Refused>;

    fn rmid<R: Wait>(
        &self,
        rt: &R,
        seat: &mut Self::Seat,
        id: Id,
        moment: u64,
    ) -> Result<Removal, Refused>;

    fn stat(&self, seat: &mut Self::Seat, id: Id) -> Result<Figures, Errno>;

    /// There must be as many rows as slots.
    fn report<R: Abort>(&self, rt: &R, seat: &mut Self::Seat, rows: &mut [BoardRow]);

    fn info(&self, seat: &mut Self::Seat) -> Usage;

    /// The slot must be there.
    fn cut_log<R: Abort + Wait>(
        &self,
        rt: &R,
        seat: &mut Self::Seat,
        slot: u8,
    ) -> Result<Cut, Refused>;

    fn draft<R: Wait>(&self, rt: &R, len: u64) -> Result<Self::Text, DraftError>;

    fn draft_of<R: Wait>(&self, rt: &R, bytes: &[u8]) -> Result<Self::Text, DraftError>;

    fn draft_by<R: Wait>(
        &self,
        rt: &R,
        seat: &Self::Seat,
        bytes: &[u8],
    ) -> Result<Self::Text, DraftError>;

    /// Without a wait. The list must have room for the texts.
    fn draft_texts_by<R: Abort + Wait>(
        &self,
        alloc: Global,
        rt: &R,
        seat: &Self::Seat,
        letters: &[Letter<&[u8]>],
        texts: &mut VecDeque<Letter<Self::Text>>,
    ) -> Result<(), DraftError>;

    fn spend<R: Wait>(&self, rt: &R, text: Self::Text) -> Homecoming;

    fn spend_by<R: Wait>(&self, rt: &R, seat: &Self::Seat, text: Self::Text);

    fn spend_texts_by<R: Wait>(
        &self,
        rt: &R,
        seat: &Self::Seat,
        texts: &mut VecDeque<Delivered<Self::Text>>,
    )
        ensures { deque_len texts.new ≡ 0 };

    /// The number of a seat.
    fn number(&self, seat: &Self::Seat) -> u16;

    /// How many changes a seat made in a slot, which must be there.
    fn count<R: Abort>(&self, rt: &R, seat: &Self::Seat, slot: u8) -> u64;

    fn shape(&self, text: &Self::Text) -> Shape;

    /// Whether the text has these bytes, in parts of a page but for the last one.
    fn shows(&self, text: &Self::Text, bytes: &[u8]) -> bool;

    fn is_zero(&self, text: &Self::Text) -> bool;

    /// Fills a text by two threads, one of which takes the pages below `at`. It must have as many
    /// bytes and so many pages.
    fn fill_halves<R: Abort + Threads>(
        &self,
        rt: &R,
        text: &mut Self::Text,
        at: usize,
        bytes: &[u8],
    );
}

impl<N: Names> Calls for System<Anything, N> {
    type Seat = Seat<N>;

    type Text = TextOf<N>;

    fn slots(&self) -> u8 {
        self.slots()
    }

    fn msgget<R: Wait>(
        &self,
        rt: &R,
        seat: &mut Seat<N>,
        key: i32,
        flags: GetFlags,
        moment: u64,
    ) -> Result<Got, Errno> {
        self.msgget(rt, seat, key, flags, moment)
    }

    fn msgsnd<R: Wait>(
        &self,
        rt: &R,
        seat: &mut Seat<N>,
        id: Id,
        mtype: i64,
        tag: u64,
        text: TextOf<N>,
        flags: SendFlags,
        moment: u64,
    ) -> Result<u64, SendRefused<TextOf<N>>> {
        self.msgsnd(rt, seat, id, mtype, tag, text, flags, moment)
    }

    fn msgrcv<R: Wait>(
        &self,
        rt: &R,
        seat: &mut Seat<N>,
        id: Id,
        size: u64,
        msgtyp: i64,
        flags: RecvFlags,
        moment: u64,
    ) -> Result<Delivered<TextOf<N>>, Refused> {
        self.msgrcv(rt, seat, id, size, msgtyp, flags, moment)
    }

    fn msgsnd_many<R: Wait, T: Patience>(
        &self,
        rt: &R,
        seat: &mut Seat<N>,
        id: Id,
        letters: &mut VecDeque<Letter<TextOf<N>>>,
        flags: SendFlags,
        patience: &mut T,
        moment: u64,
    ) -> BatchSent {
        if flags.nowait {
            return self.msgsnd_many_within(rt, seat, id, letters, &mut NoWait, moment);
        }
        self.msgsnd_many_within(rt, seat, id, letters, patience, moment)
    }

    fn msgrcv_many<R: Abort + Wait, T: Patience>(
        &self,
        rt: &R,
        seat: &mut Seat<N>,
        id: Id,
        wanted: Wanted,
        patience: &mut T,
        n: usize,
        moment: u64,
        out: &mut Vec<Delivered<TextOf<N>>>,
    ) -> Result<(), Refused> {
        holds(rt, out.is_empty(), "nothing was received before");
        holds(rt, n.min(MAX_BATCH) <= out.capacity(), "room for as many");
        let flags = wanted.flags();
        let request = ReceiveRequest {
            id,
            size: wanted.size,
            selection: Selection::read(wanted.msgtyp, flags.except),
            noerror: flags.noerror,
            moment,
        };
        if flags.nowait {
            return self.msgrcv_many_within(rt, seat, &request, &mut NoWait, n, out);
        }
        self.msgrcv_many_within(rt, seat, &request, patience, n, out)
    }

    fn set<R: Wait>(
        &self,
        rt: &R,
        seat: &mut Seat<N>,
        id: Id,
        qbytes: u64,
        moment: u64,
    ) -> Result<u64, Refused> {
        self.set(rt, seat, id, qbytes, moment)
    }

    fn rmid<R: Wait>(
        &self,
        rt: &R,
        seat: &mut Seat<N>,
        id: Id,
        moment: u64,
    ) -> Result<Removal, Refused> {
        self.rmid(rt, seat, id, moment)
    }

    fn stat(&self, seat: &mut Seat<N>, id: Id) -> Result<Figures, Errno> {
        self.stat(seat, id)
    }

    fn report<R: Abort>(&self, rt: &R, seat: &mut Seat<N>, rows: &mut [BoardRow]) {
        holds(
            rt,
            rows.len() == self.slots() as usize,
            "a row for each slot",
        );
        self.report(seat, rows);
    }

    fn info(&self, seat: &mut Seat<N>) -> Usage {
        self.info(seat)
    }

    fn cut_log<R: Abort + Wait>(
        &self,
        rt: &R,
        seat: &mut Seat<N>,
        slot: u8,
    ) -> Result<Cut, Refused> {
        holds(rt, slot < self.slots(), "a slot that is cut is there");
        self.cut_log(rt, seat, slot)
    }

    fn draft<R: Wait>(&self, rt: &R, len: u64) -> Result<TextOf<N>, DraftError> {
        self.draft(rt, len)
    }

    fn draft_of<R: Wait>(&self, rt: &R, bytes: &[u8]) -> Result<TextOf<N>, DraftError> {
        self.draft_of(rt, bytes)
    }

    fn draft_by<R: Wait>(
        &self,
        rt: &R,
        seat: &Seat<N>,
        bytes: &[u8],
    ) -> Result<TextOf<N>, DraftError> {
        self.draft_by(rt, seat, bytes)
    }

    fn draft_texts_by<R: Abort + Wait>(
        &self,
        alloc: Global,
        rt: &R,
        seat: &Seat<N>,
        letters: &[Letter<&[u8]>],
        texts: &mut VecDeque<Letter<TextOf<N>>>,
    ) -> Result<(), DraftError> {
        let room = texts.capacity().saturating_sub(texts.len());
        holds(rt, letters.len() <= room, "the list has room");
        self.draft_texts_by_within(alloc, rt, seat, letters, &mut NoWait, texts)
    }

    fn spend<R: Wait>(&self, rt: &R, text: TextOf<N>) -> Homecoming {
        self.spend(rt, text)
    }

    fn spend_by<R: Wait>(&self, rt: &R, seat: &Seat<N>, text: TextOf<N>) {
        self.spend_by(rt, seat, text);
    }

    fn spend_texts_by<R: Wait>(
        &self,
        rt: &R,
        seat: &Seat<N>,
        texts: &mut VecDeque<Delivered<TextOf<N>>>,
    )
        ensures { deque_len texts.new ≡ 0 }
    {
        self.spend_texts_by(rt, seat, texts);
    }

    fn number(&self, seat: &Seat<N>) -> u16 {
        seat.number()
    }

    fn count<R: Abort>(&self, rt: &R, seat: &Seat<N>, slot: u8) -> u64 {
        holds(rt, slot < self.slots(), "a slot that is counted is there");
        seat.count(slot as usize)
    }

    fn shape(&self, text: &TextOf<N>) -> Shape {
        Shape {
            len: text.len(),
            pages: text.count(),
            start: text.start(),
            order: text.order(),
        }
    }

    fn shows(&self, text: &TextOf<N>, bytes: &[u8]) -> bool {
        let mut rest = bytes;
        for part in text.parts() {
            let (own, later) = rest.split_at(rest.len().min(PAGE_LEN));
            if part != own {
                return false;
            }
            rest = later;
        }
        rest.is_empty()
    }

    fn is_zero(&self, text: &TextOf<N>) -> bool {
        for part in text.parts() {
            for byte in part {
                if *byte != 0 {
                    return false;
                }
            }
        }
        true
    }

    fn fill_halves<R: Abort + Threads>(
        &self,
        rt: &R,
        text: &mut TextOf<N>,
        at: usize,
        bytes: &[u8],
    ) {
        holds(rt, text.len() == bytes.len() as u64, "its length");
        holds(rt, at <= text.count(), "its pages below the other thread's");
        let (front, back) = bytes.split_at(bytes.len().min(PAGE_LEN * at));
        text.fill_halves(rt, at, front, back);
    }
}
