//! The same calls by a caller of one thread and by a caller of a system, which answer the same.

use mq::{
    BoardRow, Caller, Clock, Config, Delivered, Errno, Figures, GetFlags, Id, Ledger, LocalCaller,
    LocalQueues, MSGMNB, Message, Moments, Names, NoPledge, QueueProgram, ReceiveOptions,
    Selection, SendRefused, SystemProgram, Usage, Wait, with_queues, with_system,
};
use std::alloc::Global;

/// Pages for four texts of the greatest length, of which two fill a queue.
pub(crate) const ROOMY: Config = Config {
    height: 8,
    slots: 4,
    seats: 3,
    last_seq: 9,
};

const NEW: GetFlags = GetFlags {
    create: true,
    exclusive: true,
};

const THERE: GetFlags = GetFlags {
    create: false,
    exclusive: false,
};

const NO_QUEUE: BoardRow = BoardRow {
    made: 0,
    live: false,
    key: 0,
    figures: NO_FIGURES,
};

const NO_FIGURES: Figures = Figures {
    qnum: 0,
    cbytes: 0,
    qbytes: 0,
    stime: 0,
    rtime: 0,
    ctime: 0,
    lspid: 0,
    lrpid: 0,
};

/// A number that a call answers, or its refusal.
type Answer = Result<u64, Errno>;

type Receipt = Result<Delivered<Vec<u8>>, Errno>;

/// What all calls answered, in their order, and what is shown at the end.
#[derive(Debug, PartialEq, Drop)]
struct Played {
    answers: Vec<Answer>,
    figures: Result<Figures, Errno>,
    usage: Usage,
    first: BoardRow,
}

/// The calls that both callers have, by the names that they have there.
trait Calls {
    fn number(&self) -> u16;

    fn slots(&self) -> u8;

    fn queue(&mut self, key: i32) -> Result<Id, Errno>;

    fn get(&mut self, key: i32, flags: GetFlags) -> Answer;

    fn set(&mut self, id: Id, qbytes: u64) -> Answer;

    /// The entry of the removal, and how many events the queue's log has.
    fn remove(&mut self, id: Id) -> Answer;

    /// How many entries the drain returns.
    fn cut_log(&mut self, slot: u8) -> Answer;

    fn stat(&mut self, id: Id) -> Result<Figures, Errno>;

    fn first_row(&mut self, alloc: Global) -> Result<BoardRow, Errno>;

    fn info(&mut self) -> Usage;

    fn send(&mut self, id: Id, message: Message<'_>) -> Answer;

    fn try_send(&mut self, id: Id, message: Message<'_>) -> Answer;

    fn receive(&mut self, id: Id, selection: Selection) -> Receipt;

    fn try_receive(&mut self, id: Id, selection: Selection) -> Receipt;

    fn receive_with(&mut self, id: Id, selection: Selection, options: ReceiveOptions) -> Receipt;

    fn receive_into(&mut self, id: Id, selection: Selection, bytes: &mut Vec<u8>) -> Answer;

    /// A text of so many bytes is drafted, with a first byte of its own, and sent or spent.
    fn sends_text(&mut self, id: Id, mtype: i64, len: u64) -> Answer;

    /// The first byte of a text that is received, and then spent, and its length.
    fn takes_text(&mut self, id: Id, selection: Selection) -> Answer;
}

impl<'a, N: Names, R: Wait + Clock> Calls for Caller<'a, NoPledge, N, R> {
    fn number(&self) -> u16 {
        self.number()
    }

    fn slots(&self) -> u8 {
        self.slots()
    }

    fn queue(&mut self, key: i32) -> Result<Id, Errno> {
        self.queue(key)
    }

    fn get(&mut self, key: i32, flags: GetFlags) -> Answer {
        Ok(u64::from(self.get(key, flags)?.id.number()))
    }

    fn set(&mut self, id: Id, qbytes: u64) -> Answer {
        self.set(id, qbytes)
    }

    fn remove(&mut self, id: Id) -> Answer {
        let removal = self.remove(id)?;
        Ok(100 * removal.entry.min(99) + removal.log.len() as u64 % 100)
    }

    fn cut_log(&mut self, slot: u8) -> Answer {
        if slot >= self.slots() {
            return Err(Errno::EINVAL);
        }
        Ok(self.cut_log(slot)?.last.len() as u64)
    }

    fn stat(&mut self, id: Id) -> Result<Figures, Errno> {
        self.stat(id)
    }

    fn first_row(&mut self, alloc: Global) -> Result<BoardRow, Errno> {
        let Ok(mut rows) = vec![in alloc; NO_QUEUE; self.slots() as usize] else {
            return Err(Errno::ENOMEM);
        };
        self.report(&mut rows);
        match rows.first() {
            Some(row) => Ok(*row),
            None => Err(Errno::EINVAL),
        }
    }

    fn info(&mut self) -> Usage {
        self.info()
    }

    fn send(&mut self, id: Id, message: Message<'_>) -> Answer {
        self.send(id, message)
    }

    fn try_send(&mut self, id: Id, message: Message<'_>) -> Answer {
        self.try_send(id, message)
    }

    fn receive(&mut self, id: Id, selection: Selection) -> Receipt {
        self.receive(id, selection)
    }

    fn try_receive(&mut self, id: Id, selection: Selection) -> Receipt {
        self.try_receive(id, selection)
    }

    fn receive_with(&mut self, id: Id, selection: Selection, options: ReceiveOptions) -> Receipt {
        self.receive_with(id, selection, options)
    }

    fn receive_into(&mut self, id: Id, selection: Selection, bytes: &mut Vec<u8>) -> Answer {
        Ok(self.receive_into(id, selection, bytes)?.length)
    }

    fn sends_text(&mut self, id: Id, mtype: i64, len: u64) -> Answer {
        let mut text = self.draft(len)?;
        if text.count() > 0 {
            text.part_mut(0)[0] = b'!';
        }
        match self.send_text(id, mtype, 0, text) {
            Ok(entry) => Ok(entry),
            Err(refusal) => {
                let SendRefused { refused, text } = refusal;
                self.spend(text);
                Err(refused.errno)
            }
        }
    }

    fn takes_text(&mut self, id: Id, selection: Selection) -> Answer {
        let Delivered { length, text, .. } = self.receive_text(id, selection)?;
        let mut first = 0;
        if text.count() > 0
            && let Some(byte) = text.part(0).first()
        {
            first = u64::from(*byte);
        }
        self.spend(text);
        Ok(1000 * first + length % 1000)
    }
}

impl<'a, L: Ledger> Calls for LocalCaller<'a, L> {
    fn number(&self) -> u16 {
        self.number()
    }

    fn slots(&self) -> u8 {
        self.slots()
    }

    fn queue(&mut self, key: i32) -> Result<Id, Errno> {
        self.queue(key)
    }

    fn get(&mut self, key: i32, flags: GetFlags) -> Answer {
        Ok(u64::from(self.get(key, flags)?.id.number()))
    }

    fn set(&mut self, id: Id, qbytes: u64) -> Answer {
        self.set(id, qbytes)
    }

    fn remove(&mut self, id: Id) -> Answer {
        let removal = self.remove(id)?;
        Ok(100 * removal.entry.min(99) + removal.log.len() as u64 % 100)
    }

    fn cut_log(&mut self, slot: u8) -> Answer {
        if slot >= self.slots() {
            return Err(Errno::EINVAL);
        }
        Ok(self.cut_log(slot)?.last.len() as u64)
    }

    fn stat(&mut self, id: Id) -> Result<Figures, Errno> {
        LocalCaller::stat(self, id)
    }

    fn first_row(&mut self, alloc: Global) -> Result<BoardRow, Errno> {
        let Ok(mut rows) = vec![in alloc; NO_QUEUE; self.slots() as usize] else {
            return Err(Errno::ENOMEM);
        };
        self.report(&mut rows);
        match rows.first() {
            Some(row) => Ok(*row),
            None => Err(Errno::EINVAL),
        }
    }

    fn info(&mut self) -> Usage {
        LocalCaller::info(self)
    }

    fn send(&mut self, id: Id, message: Message<'_>) -> Answer {
        self.send(id, message)
    }

    fn try_send(&mut self, id: Id, message: Message<'_>) -> Answer {
        self.try_send(id, message)
    }

    fn receive(&mut self, id: Id, selection: Selection) -> Receipt {
        self.receive(id, selection)
    }

    fn try_receive(&mut self, id: Id, selection: Selection) -> Receipt {
        self.try_receive(id, selection)
    }

    fn receive_with(&mut self, id: Id, selection: Selection, options: ReceiveOptions) -> Receipt {
        self.receive_with(id, selection, options)
    }

    fn receive_into(&mut self, id: Id, selection: Selection, bytes: &mut Vec<u8>) -> Answer {
        Ok(self.receive_into(id, selection, bytes)?.length)
    }

    fn sends_text(&mut self, id: Id, mtype: i64, len: u64) -> Answer {
        let mut text = self.draft(len)?;
        if text.count() > 0 {
            text.part_mut(0)[0] = b'!';
        }
        match self.send_text(id, mtype, 0, text) {
            Ok(entry) => Ok(entry),
            Err(refusal) => {
                let SendRefused { refused, text } = refusal;
                self.spend(text);
                Err(refused.errno)
            }
        }
    }

    fn takes_text(&mut self, id: Id, selection: Selection) -> Answer {
        let Delivered { length, text, .. } = self.receive_text(id, selection)?;
        let mut first = 0;
        if text.count() > 0
            && let Some(byte) = text.part(0).first()
        {
            first = u64::from(*byte);
        }
        self.spend(text);
        Ok(1000 * first + length % 1000)
    }
}

/// What was received, as a number; of a refusal its name.
fn told(receipt: Receipt) -> Answer {
    let Delivered {
        entry,
        mtype,
        sender,
        tag,
        length,
        text,
    } = receipt?;
    let parts = [
        entry,
        mtype.unsigned_abs(),
        u64::from(sender),
        tag,
        length,
        text.len() as u64,
    ];
    let mut all = 0u64;
    for part in parts {
        all = all.wrapping_mul(1000).wrapping_add(part);
    }
    for byte in &text {
        all = all.wrapping_mul(3).wrapping_add(u64::from(*byte));
    }
    Ok(all)
}

/// Keeps an answer. Where there is no memory, the calls are to be made again.
fn keep(answers: &mut Vec<Answer>, answer: Answer) -> Result<(), Errno> {
    if answer == Err(Errno::ENOMEM) || answers.push(answer).is_err() {
        return Err(Errno::ENOMEM);
    }
    Ok(())
}

/// Queues that are made, found, set and sent to.
fn fills<C: Calls>(caller: &mut C, answers: &mut Vec<Answer>) -> Result<Id, Errno> {
    let id = caller.queue(5)?;
    let all = [
        Ok(u64::from(caller.number())),
        Ok(u64::from(caller.slots())),
        Ok(u64::from(id.number())),
        caller.get(5, NEW),
        caller.get(6, THERE),
        caller.get(6, NEW),
        caller.set(id, MSGMNB + 1),
        caller.set(Id::of(3, 0), 1),
        caller.send(id, Message::new(0, b"")),
        caller.send(Id::of(63, 0), Message::new(1, b"")),
        caller.send(Id::of(0, 1), Message::new(1, b"")),
        caller.send(id, Message::new(7, b"first").tagged(9)),
        caller.try_send(id, Message::new(8, b"second")),
        caller.sends_text(id, 9, 1_025),
        caller.sends_text(id, 0, 2),
        caller.sends_text(id, 1, 65_537),
        caller.set(id, 3),
        caller.try_send(id, Message::new(8, b"full")),
    ];
    for answer in all {
        keep(answers, answer)?;
    }
    Ok(id)
}

/// Messages that are received, or not.
fn drains<C: Calls>(
    caller: &mut C,
    alloc: Global,
    id: Id,
    answers: &mut Vec<Answer>,
) -> Result<(), Errno> {
    let two = ReceiveOptions::new().up_to(2);
    let Ok(mut bytes) = Vec::from_slice(alloc, b"<") else {
        return Err(Errno::ENOMEM);
    };
    let all = [
        told(caller.receive(id, Selection::Exact(0))),
        told(caller.receive(id, Selection::Except(-1))),
        told(caller.try_receive(id, Selection::UpTo(0))),
        told(caller.try_receive(id, Selection::Exact(1))),
        told(caller.receive_with(id, Selection::UpTo(7), two)),
        told(caller.receive_with(id, Selection::UpTo(7), two.cut())),
        caller.receive_into(id, Selection::Except(9), &mut bytes),
        Ok(bytes.len() as u64),
        caller.takes_text(id, Selection::Exact(-9)),
        caller.takes_text(id, Selection::Exact(9)),
    ];
    for answer in all {
        keep(answers, answer)?;
    }
    // Each of these waits for what the one before it did not do.
    let set = caller.set(id, MSGMNB);
    keep(answers, set)?;
    let sent = caller.send(id, Message::new(3, &[4; 3_000]));
    keep(answers, sent)?;
    let received = told(caller.receive(id, Selection::Any));
    keep(answers, received)?;
    let sent = caller.send(id, Message::new(3, b""));
    keep(answers, sent)?;
    let cut = caller.cut_log(0);
    keep(answers, cut)
}

/// All calls, and what is shown at the end.
fn make_calls<C: Calls>(caller: &mut C, alloc: Global) -> Result<Played, Errno> {
    let mut answers = Vec::new(alloc);
    let id = fills(caller, &mut answers)?;
    drains(caller, alloc, id, &mut answers)?;
    let figures = caller.stat(id);
    let usage = caller.info();
    let first = caller.first_row(alloc)?;
    let removed = caller.remove(id);
    keep(&mut answers, removed)?;
    let again = caller.remove(id);
    keep(&mut answers, again)?;
    let sent = caller.send(id, Message::new(1, b"late"));
    keep(&mut answers, sent)?;
    Ok(Played {
        answers,
        figures,
        usage,
        first,
    })
}

/// Plays the calls at the first seat.
#[derive(Clone, Copy, Drop)]
struct Plays;

impl SystemProgram<NoPledge> for Plays {
    type Answer = Result<Played, Errno>;

    fn run<N: Names, R: Wait + Clock>(
        self,
        _config: Config,
        callers: &mut [Caller<'_, NoPledge, N, R>],
    ) -> Result<Played, Errno> {
        match callers.first_mut() {
            Some(caller) => {
                caller.moments = Moments::at(77);
                let alloc = caller.alloc();
                make_calls(caller, alloc)
            }
            None => Err(Errno::EINVAL),
        }
    }
}

impl QueueProgram for Plays {
    type Answer = Result<Played, Errno>;

    fn run<L: Ledger>(self, _config: Config, queues: &mut LocalQueues<L>) -> Result<Played, Errno> {
        queues.moment = 77;
        let alloc = queues.alloc();
        make_calls(&mut queues.caller(1), alloc)
    }
}

/// How many calls are compared.
const CALLS: usize = 36;

#[test]
fn the_calls_of_one_thread_answer_as_those_of_a_system(rt: HostRuntime) {
    let alloc = rt.alloc();
    let (Ok(system), Ok(local)) = (
        with_system(&rt, alloc, ROOMY, Plays),
        with_queues(alloc, ROOMY, Plays),
    ) else {
        panic!(rt; "ENOMEM");
    };
    let (system, local) = match (system.answer, local.answer) {
        (Ok(system), Ok(local)) => (system, local),
        (Err(errno), _) | (_, Err(errno)) => panic!(rt; "{errno}"),
    };
    for (place, (one, other)) in system.answers.iter().zip(local.answers.iter()).enumerate() {
        if one != other {
            panic!(rt; "call {place}: {one:?}, {other:?}");
        }
    }
    holds!(rt; system.answers.len() == CALLS);
    holds!(rt; system == local);
    holds!(rt; matches!(local.figures, Ok(figures) if figures.stime == 77 && figures.qnum == 1));
}
