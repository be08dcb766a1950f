//! The server's loop: it reads a call, runs it on the queues, and writes the answer.

use mq_arena::Text;
use mq_face::{
    ANSWER_NUMBERS, Call, CallKind, ControlShown, Done, EIGHT_BYTES, ReceivedMessage, Refusal,
    control, cut_where_due, draft, from_bytes, get, receive, send, spend_received, to_bytes,
    unknown,
};
use mq_local::OneThread;
use std::sync::ledger::Ledger;

/// Answers calls until they end, or an answer can't be written.
pub(crate) fn answer_all<L: Ledger>(queues: &mut OneThread<L>, calls: i32) {
    for _ in 0..u64::MAX {
        let mut bytes = [0; EIGHT_BYTES];
        if io::read_full(calls, &mut bytes) < EIGHT_BYTES {
            return;
        }
        if !answer(queues, calls, Call::read(from_bytes(&bytes))) {
            return;
        }
    }
}

/// Runs a call. The result is whether its answer was written.
fn answer<L: Ledger>(queues: &mut OneThread<L>, calls: i32, call: Call) -> bool {
    match call.kind {
        CallKind::Get => {
            let outcome = get(queues, call);
            tell(queues, calls, outcome)
        }
        CallKind::Send => {
            let outcome = send_read(queues, calls, call);
            tell(queues, calls, outcome)
        }
        CallKind::Receive => match receive(queues, call) {
            Ok(message) => hand_out(queues, calls, message),
            Err(refusal) => write_numbers(calls, refusal.numbers()),
        },
        CallKind::Control => {
            let outcome = control(queues, call);
            tell(queues, calls, outcome)
        }
        CallKind::Unknown => write_numbers(calls, unknown().numbers()),
    }
}

fn tell<L: Ledger>(queues: &mut OneThread<L>, calls: i32, outcome: Result<Done, Refusal>) -> bool {
    match outcome {
        Ok(done) => {
            let _ = cut_where_due(queues, done.slot, done.entry);
            write_numbers(calls, done.numbers()) && write_shown(calls, done.shown)
        }
        Err(refusal) => write_numbers(calls, refusal.numbers()),
    }
}

fn write_shown(calls: i32, shown: ControlShown) -> bool {
    match shown {
        ControlShown::Nothing => true,
        _ => write_numbers(calls, shown.numbers()),
    }
}

/// Reads the text into its pages, and sends it.
fn send_read<L: Ledger>(
    queues: &mut OneThread<L>,
    calls: i32,
    call: Call,
) -> Result<Done, Refusal> {
    let mut text = draft(queues, call)?;
    read_text(calls, &mut text);
    send(queues, call, text)
}

fn read_text<L: Ledger>(calls: i32, text: &mut Text<L>) {
    for i in 0..text.count() {
        if i < text.count() {
            io::read_full(calls, text.part_mut(i));
        }
    }
}

/// Writes the message from its pages, which are then freed.
fn hand_out<L: Ledger>(
    queues: &mut OneThread<L>,
    calls: i32,
    message: ReceivedMessage<Text<L>>,
) -> bool {
    let mut whole = write_numbers(calls, message.numbers());
    for part in message.text.parts() {
        whole = whole && io::write_all(calls, part);
    }
    let _ = spend_received(queues, message);
    whole
}

fn write_numbers(calls: i32, numbers: [u64; ANSWER_NUMBERS]) -> bool {
    io::write_all(calls, &to_bytes(numbers))
}
