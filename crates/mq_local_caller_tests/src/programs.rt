//! Programs over the queues of one thread: each runs once, and its answer and all that it left are
//! returned. Each call must leave the right number of free pages.

ghost use Rattle.std.specs.Prelude.{◌≡◌, ◌^◌, IfOk};

use mq::{
    ClosedSlot, Config, DEFAULTS, Delivered, Ended, Errno, GetFlags, Id, Ledger, LocalQueues,
    Message, QueueProgram, ReceiveOptions, Selection, SendRefused, SysError, with_queues,
};
use std::alloc::Global;
use std::cell::Cell;
use std::process::Abort;

const NEW: GetFlags = GetFlags {
    create: true,
    exclusive: true,
};

const SMALL: Config = Config {
    height: 3,
    slots: 4,
    seats: 2,
    last_seq: 9,
};

/// Leaves a text of so many zero bytes in a queue.
fn left<L: Ledger>(queues: &mut LocalQueues<L>, key: i32, len: u64) -> Result<(), Errno> {
    let id = queues.caller(1).get(key, NEW)?.id;
    let mut sender = queues.caller(2);
    let text = sender.draft(len)?;
    match sender.send_text(id, 1, 0, text) {
        Ok(_) => Ok(()),
        Err(refusal) => {
            let SendRefused { refused, text } = refusal;
            sender.spend(text);
            Err(refused.errno)
        }
    }
}

/// Counts its runs, and leaves two pending texts.
#[derive(Drop)]
struct TwoLeft<'a> {
    runs: &'a Cell<u32>,
}

impl<'a> QueueProgram for TwoLeft<'a> {
    type Answer = Result<(u8, u32), Errno>;

    fn run<L: Ledger>(
        self,
        config: Config,
        queues: &mut LocalQueues<L>,
    ) -> Result<(u8, u32), Errno> {
        self.runs.set(self.runs.get().saturating_add(1));
        left(queues, 5, 1)?;
        left(queues, 6, 4096)?;
        Ok((config.slots, queues.queues.free_pages()))
    }
}

type Answered = Result<Ended<Result<(u8, u32), Errno>>, SysError>;

fn answered(alloc: Global, config: Config, runs: &Cell<u32>) -> Answered {
    with_queues(alloc, config, TwoLeft { runs })
}

/// Runs it, and once more where it had not begun for lack of memory, or met it.
fn ended(alloc: Global, config: Config, runs: &Cell<u32>) -> Answered {
    let first = answered(alloc, config, runs);
    let again = match &first {
        Err(SysError::Memory) => runs.get() == 0,
        Ok(ended) => matches!(ended.answer, Err(Errno::ENOMEM)),
        Err(SysError::Config) => false,
    };
    if again {
        runs.set(0);
        return answered(alloc, config, runs);
    }
    first
}

/// Whether the first two of four slots were left a queue with one text, and the others nothing.
fn are_left(slots: &[ClosedSlot]) -> bool {
    let mut full = 0u64;
    for slot in slots {
        let left = u64::from(full < 2);
        if !slot.past.is_empty() || slot.last.len() as u64 != 2 * left || slot.left != left {
            return false;
        }
        full = full.saturating_add(left);
    }
    slots.len() == 4
}

#[test]
fn a_program_runs_once_and_all_that_it_left_is_returned(rt: HostRuntime) {
    let runs = Cell::new(0);
    let Ok(ended) = ended(rt.alloc(), SMALL, &runs) else {
        panic!(rt; "no answer");
    };
    holds!(rt; runs.get() == 1);
    holds!(rt; ended.answer == Ok((4, 3)));
    holds!(rt; ended.free_pages == 8);
    holds!(rt; are_left(ended.slots.as_slice()));
}

#[test]
fn a_size_out_of_its_limits_is_refused_before_the_program_runs(rt: HostRuntime) {
    for (height, slots, seats, last_seq) in [
        (11, 4, 2, 9),
        (3, 0, 2, 9),
        (3, 65, 2, 9),
        (3, 4, 0, 9),
        (3, 4, 17, 9),
        (3, 4, 2, 32768),
    ] {
        let config = Config {
            height,
            slots,
            seats,
            last_seq,
        };
        let runs = Cell::new(0);
        let refused = matches!(answered(rt.alloc(), config, &runs), Err(SysError::Config));
        if !refused || runs.get() != 0 {
            panic!(rt; "{config:?}");
        }
    }
}

/// Answers how many pages there are, which is proved.
#[derive(Drop)]
struct Pages;

impl QueueProgram for Pages {
    type Answer = u32;

    ghost after = { λ _ config _ pages. pages ≡ 2 ^ config.height };

    fn run<L: Ledger>(self, _config: Config, queues: &mut LocalQueues<L>) -> u32 {
        queues.queues.pages()
    }
}

fn pages_of(alloc: Global, config: Config) -> Result<u32, SysError>
    ensures { IfOk result (λ pages. pages ≡ 2 ^ config.height) }
{
    Ok(with_queues(alloc, config, Pages)?.answer)
}

#[test]
fn what_a_program_proves_of_its_answer_reaches_the_caller(rt: HostRuntime) {
    for (config, pages) in [(DEFAULTS, 1024), (SMALL, 8)] {
        match pages_of(rt.alloc(), config) {
            Ok(found) => holds!(rt; found == pages),
            Err(refusal) => holds!(rt; refusal == SysError::Memory),
        }
    }
}

/// An id, a type and a length of a text that is sent, the entry or the refusal, and how many pages
/// are free afterwards.
type Sending = (u32, i64, usize, Result<u64, Errno>, u32);

/// A size, whether MSG_NOERROR truncates, the type, the whole length and how many bytes are
/// received, or the refusal, and how many pages are free afterwards.
type Receipt = (u64, bool, Result<(i64, u64, usize), Errno>, u32);

fn same(answer: Result<u64, Errno>, wanted: Result<u64, Errno>) -> bool {
    answer == wanted
}

/// Whether the text is sent or refused so.
fn sends<L: Ledger>(queues: &mut LocalQueues<L>, sending: &Sending) -> bool {
    let (id, mtype, len, wanted, free_pages) = *sending;
    let id = Id::from_number(id);
    let answer = match vec![in queues.alloc(); 7; len] {
        Ok(bytes) => queues.caller(1).send(id, Message::new(mtype, &bytes)),
        Err(_) => Err(Errno::ENOMEM),
    };
    same(answer, wanted) && queues.queues.free_pages() == free_pages
}

/// Whether it is this text, all of sevens.
fn is(delivered: &Delivered<Vec<u8>>, wanted: Result<(i64, u64, usize), Errno>) -> bool {
    let Ok((mtype, length, count)) = wanted else {
        return false;
    };
    delivered.mtype == mtype
        && delivered.length == length
        && delivered.text.len() == count
        && delivered.text.iter().all(|byte| *byte == 7)
}

/// Whether a text is received or refused so.
fn receives<L: Ledger>(queues: &mut LocalQueues<L>, receipt: &Receipt) -> bool {
    let (size, noerror, wanted, free_pages) = *receipt;
    let id = Id::from_number(0);
    let options = ReceiveOptions { size, noerror };
    let answer = queues.caller(2).receive_with(id, Selection::Any, options);
    let right = match answer {
        Ok(delivered) => is(&delivered, wanted),
        Err(errno) => matches!(wanted, Err(refusal) if refusal == errno),
    };
    right && queues.queues.free_pages() == free_pages
}

/// Sends to a queue, then receives, and answers whether each call is answered as it says.
#[derive(Drop)]
struct Exchange<'a> {
    sendings: &'a [Sending],
    receipts: &'a [Receipt],
}

impl<'a> QueueProgram for Exchange<'a> {
    type Answer = bool;

    fn run<L: Ledger>(self, _config: Config, queues: &mut LocalQueues<L>) -> bool {
        let _made = queues.caller(1).get(5, NEW);
        for sending in self.sendings {
            if !sends(queues, sending) {
                return false;
            }
        }
        for receipt in self.receipts {
            if !receives(queues, receipt) {
                return false;
            }
        }
        true
    }
}

/// All is answered so, at the second try when out of memory.
fn exchanges(
    rt: &impl Abort,
    alloc: Global,
    config: Config,
    sendings: &[Sending],
    receipts: &[Receipt],
) {
    for _ in 0..2 {
        match with_queues(alloc, config, Exchange { sendings, receipts }) {
            Ok(ended) if ended.answer => return,
            Ok(_) | Err(SysError::Memory) => (),
            Err(refusal) => panic!(rt; "{refusal}"),
        }
    }
    panic!(rt; "not as wanted");
}

#[test]
fn bytes_come_whole_or_cut_and_a_refusal_leaves_no_page_out(rt: HostRuntime) {
    let sendings: [Sending; 7] = [
        (0, 1, 2050, Ok(1), 4),
        (0, 0, 1, Err(Errno::EINVAL), 4),
        (1, 1, 1, Err(Errno::EINVAL), 4),
        (0, 1, 65_537, Err(Errno::EINVAL), 4),
        (0, 1, 65_536, Err(Errno::ENOMEM), 4),
        (0, 1, 8192, Err(Errno::ENOMEM), 4),
        (0, 2, 0, Ok(2), 4),
    ];
    let receipts: [Receipt; 5] = [
        (2049, false, Err(Errno::E2BIG), 4),
        (3, true, Ok((1, 2050, 3)), 8),
        (u64::MAX, false, Ok((2, 0, 0)), 8),
        (0, false, Err(Errno::ENOMSG), 8),
        (9, false, Err(Errno::ENOMSG), 8),
    ];
    exchanges(&rt, rt.alloc(), SMALL, &sendings, &receipts);
}

/// A text of the greatest length is sent to no queue and to one, and then received; behind it there
/// is nothing to be received, whatever there is room for.
#[test]
fn the_greatest_text_takes_64_pages_and_comes_whole(rt: HostRuntime) {
    let sendings: [Sending; 2] = [
        (1, 1, 65_536, Err(Errno::EINVAL), 64),
        (0, 1, 65_536, Ok(1), 0),
    ];
    let receipts: [Receipt; 2] = [
        (65_536, false, Ok((1, 65_536, 65_536)), 64),
        (1_000_000, false, Err(Errno::ENOMSG), 64),
    ];
    let config = Config { height: 6, ..SMALL };
    exchanges(&rt, rt.alloc(), config, &sendings, &receipts);
}
