//! Several texts by one call of a caller of one thread and of a caller of a system, which answer
//! the same.

ghost use Rattle.std.specs.Prelude.{◌≡◌};
ghost use Rattle.std.specs.VecDeque.{deque_len};

use crate::locals::ROOMY;
use mq::{
    BatchReceived, BatchSent, Caller, Clock, Config, Delivered, Errno, Id, Ledger, Letter,
    LocalCaller, LocalQueues, MAX_BATCH, Names, NoPledge, QueueProgram, Refused, Selection,
    SystemProgram, Text, TextOf, Wait, with_queues, with_system,
};
use std::alloc::Global;
use std::collections::VecDeque;

/// The calls of several texts that both callers have, by the names that they have there.
trait Batches {
    type Text;

    fn alloc(&mut self) -> Global;

    fn queue(&mut self, key: i32) -> Result<Id, Errno>;

    fn set(&mut self, id: Id, qbytes: u64) -> Result<u64, Errno>;

    fn remove(&mut self, id: Id) -> Result<u64, Errno>;

    fn draft(&mut self, len: u64) -> Result<Self::Text, Errno>;

    fn spend(&mut self, text: Self::Text);

    fn spend_texts(&mut self, texts: &mut VecDeque<Delivered<Self::Text>>)
        ensures { deque_len texts.new ≡ 0 };

    fn send_texts(&mut self, id: Id, letters: &mut VecDeque<Letter<Self::Text>>) -> BatchSent;

    fn receive_texts(
        &mut self,
        id: Id,
        selection: Selection,
        most: usize,
    ) -> BatchReceived<Self::Text>;
}

impl<'a, N: Names, R: Wait + Clock> Batches for Caller<'a, NoPledge, N, R> {
    type Text = TextOf<N>;

    fn alloc(&mut self) -> Global {
        Caller::alloc(self)
    }

    fn queue(&mut self, key: i32) -> Result<Id, Errno> {
        Caller::queue(self, key)
    }

    fn set(&mut self, id: Id, qbytes: u64) -> Result<u64, Errno> {
        Caller::set(self, id, qbytes)
    }

    fn remove(&mut self, id: Id) -> Result<u64, Errno> {
        Ok(Caller::remove(self, id)?.entry)
    }

    fn draft(&mut self, len: u64) -> Result<TextOf<N>, Errno> {
        Caller::draft(self, len)
    }

    fn spend(&mut self, text: TextOf<N>) {
        Caller::spend(self, text);
    }

    fn spend_texts(&mut self, texts: &mut VecDeque<Delivered<TextOf<N>>>)
        ensures { deque_len texts.new ≡ 0 }
    {
        Caller::spend_texts(self, texts);
    }

    fn send_texts(&mut self, id: Id, letters: &mut VecDeque<Letter<TextOf<N>>>) -> BatchSent {
        self.try_send_texts(id, letters)
    }

    fn receive_texts(
        &mut self,
        id: Id,
        selection: Selection,
        most: usize,
    ) -> BatchReceived<TextOf<N>> {
        self.try_receive_texts(id, selection, most)
    }
}

impl<'a, L: Ledger> Batches for LocalCaller<'a, L> {
    type Text = Text<L>;

    fn alloc(&mut self) -> Global {
        self.of.alloc()
    }

    fn queue(&mut self, key: i32) -> Result<Id, Errno> {
        LocalCaller::queue(self, key)
    }

    fn set(&mut self, id: Id, qbytes: u64) -> Result<u64, Errno> {
        LocalCaller::set(self, id, qbytes)
    }

    fn remove(&mut self, id: Id) -> Result<u64, Errno> {
        Ok(LocalCaller::remove(self, id)?.entry)
    }

    fn draft(&mut self, len: u64) -> Result<Text<L>, Errno> {
        LocalCaller::draft(self, len)
    }

    fn spend(&mut self, text: Text<L>) {
        LocalCaller::spend(self, text);
    }

    fn spend_texts(&mut self, texts: &mut VecDeque<Delivered<Text<L>>>)
        ensures { deque_len texts.new ≡ 0 }
    {
        LocalCaller::spend_texts(self, texts);
    }

    fn send_texts(&mut self, id: Id, letters: &mut VecDeque<Letter<Text<L>>>) -> BatchSent {
        LocalCaller::send_texts(self, id, letters)
    }

    fn receive_texts(
        &mut self,
        id: Id,
        selection: Selection,
        most: usize,
    ) -> BatchReceived<Text<L>> {
        LocalCaller::receive_texts(self, id, selection, most)
    }
}

/// What a call of several did: a number of its texts, and how it ended.
#[derive(Debug, PartialEq, Drop)]
struct Told {
    texts: u64,
    ended: Option<Refused>,
}

/// How a call ended; a call that found no memory is to be made again.
fn refusal_of(ended: Result<(), Refused>) -> Result<Option<Refused>, Errno> {
    match ended {
        Ok(()) => Ok(None),
        Err(refused) if refused.errno == Errno::ENOMEM => Err(Errno::ENOMEM),
        Err(refused) => Ok(Some(refused)),
    }
}

/// Adds letters of these types, each of as many bytes as its place.
fn add<C: Batches>(
    caller: &mut C,
    letters: &mut VecDeque<Letter<C::Text>>,
    types: &[i64],
) -> Result<(), Errno> {
    let mut tag = 0u64;
    for mtype in types {
        let mtype = *mtype;
        let text = caller.draft(tag)?;
        match letters.push_back(Letter { mtype, tag, text }) {
            Ok(()) => (),
            Err(unsent) => {
                caller.spend(unsent.value.text);
                return Err(Errno::ENOMEM);
            }
        }
        tag = tag.saturating_add(1);
    }
    Ok(())
}

/// Spends the letters that are left, and answers how many there were.
fn spend_all<C: Batches>(caller: &mut C, letters: &mut VecDeque<Letter<C::Text>>) -> usize
    ensures none { deque_len letters.new ≡ 0 }
{
    let left = letters.len();
    while let Some(letter) = letters.pop_front() {
        caller.spend(letter.text);
    }
    left
}

/// Sends letters of these types. Returns the entry of the first, and how many were not sent.
fn sends<C: Batches>(caller: &mut C, id: Id, types: &[i64]) -> Result<Told, Errno> {
    let mut letters = VecDeque::new(caller.alloc());
    let drafted = add(caller, &mut letters, types);
    let sent = caller.send_texts(id, &mut letters);
    let left = spend_all(caller, &mut letters) as u64;
    letters.destroy_empty();
    drafted?;
    Ok(Told {
        texts: left.min(99) + 100 * sent.first.unwrap_or(99).min(99),
        ended: refusal_of(sent.ended)?,
    })
}

/// Receives texts. Returns their entries, senders, tags and lengths.
fn takes<C: Batches>(
    caller: &mut C,
    id: Id,
    selection: Selection,
    most: usize,
) -> Result<Told, Errno> {
    let BatchReceived { texts, ended } = caller.receive_texts(id, selection, most);
    let mut texts = texts;
    let mut all = 1u64;
    for delivered in texts.iter() {
        let parts = [
            delivered.entry,
            delivered.mtype.unsigned_abs(),
            u64::from(delivered.sender),
            delivered.tag,
            delivered.length,
        ];
        for part in parts {
            all = all.wrapping_mul(1000).wrapping_add(part);
        }
    }
    caller.spend_texts(&mut texts);
    texts.destroy_empty();
    Ok(Told {
        texts: all,
        ended: refusal_of(ended)?,
    })
}

/// Calls of several texts, with each of their refusals.
fn make_calls<C: Batches>(caller: &mut C) -> Result<Vec<Told>, Errno> {
    let id = caller.queue(5)?;
    let elsewhere = Id::of(9, 0);
    let mut all = Vec::new(caller.alloc());
    let of_types = [
        sends(caller, id, &[])?,
        sends(caller, elsewhere, &[])?,
        sends(caller, elsewhere, &[1])?,
        sends(caller, id, &[1, 2, 1, 2, 0, 1])?,
        takes(caller, id, Selection::Any, 0)?,
        takes(caller, id, Selection::Exact(1), 9)?,
        takes(caller, id, Selection::Exact(0), 9)?,
        takes(caller, elsewhere, Selection::Any, 9)?,
        takes(caller, id, Selection::Any, 1)?,
        takes(caller, id, Selection::UpTo(2), 2)?,
        takes(caller, id, Selection::Any, 9)?,
    ];
    for told in of_types {
        if all.push(told).is_err() {
            return Err(Errno::ENOMEM);
        }
    }
    caller.set(id, 2)?;
    let full = sends(caller, id, &[1, 1, 1, 1])?;
    let again = sends(caller, id, &[1])?;
    caller.set(id, 1_000)?;
    let batch = sends(caller, id, &[3; MAX_BATCH + 1])?;
    let some = takes(caller, id, Selection::Exact(3), 1_000)?;
    caller.remove(id)?;
    let late = sends(caller, id, &[1, 1])?;
    let none = takes(caller, id, Selection::Any, 9)?;
    for told in [full, again, batch, some, late, none] {
        if all.push(told).is_err() {
            return Err(Errno::ENOMEM);
        }
    }
    Ok(all)
}

/// Plays the calls at the first seat.
#[derive(Clone, Copy, Drop)]
struct Plays;

impl SystemProgram<NoPledge> for Plays {
    type Answer = Result<Vec<Told>, Errno>;

    fn run<N: Names, R: Wait + Clock>(
        self,
        _config: Config,
        callers: &mut [Caller<'_, NoPledge, N, R>],
    ) -> Result<Vec<Told>, Errno> {
        match callers.first_mut() {
            Some(caller) => make_calls(caller),
            None => Err(Errno::EINVAL),
        }
    }
}

impl QueueProgram for Plays {
    type Answer = Result<Vec<Told>, Errno>;

    fn run<L: Ledger>(
        self,
        _config: Config,
        queues: &mut LocalQueues<L>,
    ) -> Result<Vec<Told>, Errno> {
        make_calls(&mut queues.caller(1))
    }
}

#[test]
fn several_texts_of_one_thread_go_as_those_of_a_system(rt: HostRuntime) {
    let alloc = rt.alloc();
    let (Ok(system), Ok(local)) = (
        with_system(&rt, alloc, ROOMY, Plays),
        with_queues(alloc, ROOMY, Plays),
    ) else {
        panic!(rt; "ENOMEM");
    };
    holds!(rt; system.free_pages == local.free_pages);
    let (system, local) = match (system.answer, local.answer) {
        (Ok(system), Ok(local)) => (system, local),
        (Err(errno), _) | (_, Err(errno)) => panic!(rt; "{errno}"),
    };
    for (place, (one, other)) in system.iter().zip(local.iter()).enumerate() {
        if one != other {
            panic!(rt; "call {place}: {one:?}, {other:?}");
        }
    }
    holds!(rt; system.len() == local.len() && local.len() == 17);
}
