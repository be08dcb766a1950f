//! The lists of calls. None of them may be refused but where the list says so.

use crate::memory::calls::Calls;
use mq::{Config, DraftError, Errno, Id, MSGMNB};

/// A call of a list, or what is expected of it.
#[derive(Clone, Copy, Drop)]
pub(crate) enum Step {
    Msgget,
    Draft,
    Msgsnd,
    Msgrcv,
    Set,
    Stat,
    CutLog,
    Rmid,
    Full,
    UsedUp,
    IdOfSlot,
    NextId,
    IdAnew,
}

impl Step {
    pub(crate) fn name(self) -> &'static str {
        match self {
            Step::Msgget => "msgget",
            Step::Draft => "draft",
            Step::Msgsnd => "msgsnd",
            Step::Msgrcv => "msgrcv",
            Step::Set => "set",
            Step::Stat => "stat",
            Step::CutLog => "cut_log",
            Step::Rmid => "rmid",
            Step::Full => "a text in a full queue",
            Step::UsedUp => "a queue in a slot that is used up",
            Step::IdOfSlot => "the id of a slot",
            Step::NextId => "the id of the next queue",
            Step::IdAnew => "the id of a queue that is made anew",
        }
    }
}

/// A call that answered otherwise, and the refusal where it was refused.
#[derive(Drop)]
pub(crate) struct Wrong {
    pub(crate) call: Step,
    pub(crate) errno: Option<Errno>,
}

#[derive(Clone, Copy, Drop)]
pub(crate) enum List {
    /// Texts of each length that the arena has pages for.
    Lengths,
    /// Each call at each of 16 seats, in each of 64 slots.
    Slots,
    /// A queue is half full, and then full.
    Full,
    /// Thousands of calls in one queue, and a removal where 16,384 messages are pending.
    Many,
    /// As many messages as can be pending, all but the first of the greatest type; then a drain of
    /// their log and a removal.
    Most,
    /// All queues that a slot can have.
    Used,
}

/// The lengths at which a text has one page more, or a block of another order, and some between.
const LENGTHS: [u64; 16] = [
    0, 1, 1023, 1024, 1025, 2048, 2049, 4000, 4096, 4097, 8192, 8193, 16_384, 32_768, 32_769,
    65_536,
];

/// How many messages are sent and received one by one.
const CYCLES: u64 = 2000;

/// How many messages are pending at a removal.
const WAITING: u64 = 16_384;

/// The key of the queue in this slot: the lowest ones and the highest ones.
fn key_of(slot: u8) -> i32 {
    let slot = i32::from(slot);
    if slot % 2 == 0 {
        i32::MIN + slot
    } else {
        i32::MAX - slot
    }
}

/// Makes calls, none of which may be refused, and keeps what was wrong first.
#[derive(Drop)]
struct Player<C: Calls + Drop> {
    calls: C,
    wrong: Option<Wrong>,
}

impl<C: Calls + Drop> Player<C> {
    fn is_wrong(&mut self, call: Step, errno: Option<Errno>) {
        if self.wrong.is_none() {
            self.wrong = Some(Wrong { call, errno });
        }
    }

    /// Checks that an answer is right.
    fn is(&mut self, call: Step, right: bool) {
        if !right {
            self.is_wrong(call, None);
        }
    }

    fn did(&mut self, call: Step, answer: Result<(), Errno>) {
        if let Err(errno) = answer {
            self.is_wrong(call, Some(errno));
        }
    }

    /// Checks this number.
    fn told(&mut self, call: Step, answer: Result<u64, Errno>, wanted: u64) {
        match answer {
            Ok(number) => self.is(call, number == wanted),
            Err(errno) => self.is_wrong(call, Some(errno)),
        }
    }

    /// The queue with this key; any id where it is refused.
    fn queue(&mut self, seat: u16, key: i32) -> Id {
        match self.calls.queue(seat, key) {
            Ok(id) => id,
            Err(errno) => {
                self.is_wrong(Step::Msgget, Some(errno));
                Id::from_number(0)
            }
        }
    }

    fn drafts(&mut self, len: u64) {
        if let Err(error) = self.calls.draft(len) {
            self.is_wrong(Step::Draft, Some(error.errno()));
        }
    }

    fn sends(&mut self, seat: u16, id: Id, mtype: i64, bytes: &[u8]) {
        let answer = self.calls.send(seat, id, mtype, bytes);
        self.did(Step::Msgsnd, answer);
    }

    /// Checks that so many bytes are received.
    fn takes(&mut self, seat: u16, id: Id, size: u64, msgtyp: i64, len: u64) {
        let answer = self.calls.receive(seat, id, size, msgtyp);
        self.told(Step::Msgrcv, answer, len);
    }

    fn sets(&mut self, seat: u16, id: Id, qbytes: u64) {
        let answer = self.calls.set(seat, id, qbytes);
        self.did(Step::Set, answer);
    }

    /// Checks that so many messages are pending.
    fn waits(&mut self, seat: u16, id: Id, count: u64) {
        let answer = self.calls.waiting(seat, id);
        self.told(Step::Stat, answer, count);
    }

    fn cuts(&mut self, seat: u16, slot: u8) {
        let answer = self.calls.cut(seat, slot);
        self.did(Step::CutLog, answer);
    }

    fn removes(&mut self, seat: u16, id: Id) {
        let answer = self.calls.remove(seat, id);
        self.did(Step::Rmid, answer);
    }

    /// A text of this length, which is drafted, sent, and received by either way to name its type.
    fn passes(&mut self, id: Id, text: &[u8]) {
        let len = text.len() as u64;
        let most = self.calls.most();
        self.drafts(len);
        self.sends(0, id, i64::MAX, text);
        self.takes(0, id, most, i64::MAX, len);
        self.sends(0, id, 1, text);
        self.takes(0, id, len, i64::MIN, len);
    }

    fn lengths(&mut self, bytes: &[u8]) {
        let id = self.queue(0, i32::MIN);
        for len in LENGTHS {
            if len <= bytes.len() as u64 {
                let (text, _rest) = bytes.split_at(len as usize);
                self.passes(id, text);
            }
        }
    }

    /// Each call of a seat at the queue of a slot, which the first seat makes.
    fn at_seat(&mut self, seat: u16, slot: u8) {
        let id = self.queue(seat, key_of(slot));
        self.is(Step::IdOfSlot, id.slot() == slot && id.seq() == 0);
        for qbytes in [0, 1, MSGMNB] {
            self.sets(seat, id, qbytes);
        }
        self.sends(seat, id, 1, b"word");
        self.waits(seat, id, 1);
        self.takes(seat, id, 4, 0, 4);
        self.cuts(seat, slot);
    }

    /// The queue of a slot is removed, and made anew.
    fn anew(&mut self, first: Id) {
        self.removes(15, first);
        let id = self.queue(0, key_of(first.slot()));
        let next = id.slot() == first.slot() && id.seq() == 1;
        self.is(Step::IdAnew, next);
    }

    fn slots(&mut self) {
        for slot in 0..64u8 {
            for seat in 0..16u16 {
                self.at_seat(seat, slot);
            }
        }
        for slot in 0..64u8 {
            self.anew(Id::of(slot, 0));
        }
    }

    fn full(&mut self, bytes: &[u8]) {
        let id = self.queue(0, 0);
        let half = bytes.len() as u64;
        for count in 0..3u64 {
            if count < 2 {
                self.sends(0, id, 1, bytes);
            } else {
                let refused = matches!(self.calls.send(0, id, 1, bytes), Err(Errno::EAGAIN));
                self.is(Step::Full, refused);
            }
            let _other = self.queue(0, 9);
            self.sets(0, id, MSGMNB);
            self.waits(0, id, count.min(1) + 1);
            self.cuts(0, 0);
        }
        for _ in 0..2 {
            self.takes(0, id, half, 0, half);
        }
        self.removes(0, id);
    }

    fn many(&mut self) {
        let id = self.queue(0, 7);
        for _ in 0..CYCLES {
            self.sends(0, id, 1, b"");
            self.takes(0, id, 0, 0, 0);
        }
        for place in 0..WAITING {
            self.sends(0, id, (place % 99) as i64 + 1, b"");
        }
        self.cuts(0, 0);
        for mtype in 1..99i64 {
            self.takes(0, id, 0, mtype, 0);
            self.sends(0, id, mtype, b"");
        }
        self.sets(0, id, MSGMNB);
        self.waits(0, id, WAITING);
        self.removes(0, id);
        self.cuts(0, 0);
    }

    fn most(&mut self) {
        let id = self.queue(0, 7);
        self.sends(0, id, 1, b"");
        for _ in 1..MSGMNB {
            self.sends(0, id, i64::MAX, b"");
        }
        self.waits(0, id, MSGMNB);
        self.cuts(0, 0);
        self.takes(0, id, 0, i64::MAX, 0);
        self.removes(0, id);
        self.cuts(0, 0);
    }

    fn used(&mut self, last_seq: u32) {
        for seq in 0..last_seq {
            let id = self.queue(0, 7);
            let next = id.slot() == 0 && id.seq() == seq;
            self.is(Step::NextId, next);
            self.sets(0, id, 9);
            self.removes(0, id);
        }
        let last = self.queue(0, 7);
        self.sends(0, last, 1, b"last");
        self.removes(0, last);
        let refused = matches!(self.calls.queue(0, 7), Err(Errno::ENOSPC));
        self.is(Step::UsedUp, refused);
    }
}

/// Makes the calls of a list, and answers what was wrong.
pub(crate) fn plays<C: Calls + Drop>(
    list: List,
    calls: C,
    config: Config,
    bytes: &[u8],
) -> Option<Wrong> {
    let mut player = Player { calls, wrong: None };
    match list {
        List::Lengths => player.lengths(bytes),
        List::Slots => player.slots(),
        List::Full => player.full(bytes),
        List::Many => player.many(),
        List::Most => player.most(),
        List::Used => player.used(config.last_seq),
    }
    player.wrong
}
