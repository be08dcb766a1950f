//! A system as the tests of the calls of C see it, and the day of one.
ghost use Rattle.std.specs.Prelude.{◌≡◌, ◌<◌};

use crate::day::{PARTS, made};
use mq_arena::Homecoming;
use mq_calls::{Closed, Config};
use mq_face::{
    ANSWER_NUMBERS, Call, Done, Refusal, control, cut_where_due, draft, get, receive, send,
    spend_received,
};
use mq_local::OneThread;
use mq_message::Body;
use std::alloc::Global;
use std::marker::Brand;
use std::process::Abort;
use std::sync::ledger::{Blank, Ledger};

/// A message that was received and spent.
#[derive(Clone, Copy)]
pub(crate) struct Received {
    pub(crate) numbers: [u64; ANSWER_NUMBERS],
    /// Its first part had the bytes that were expected.
    pub(crate) same: bool,
    pub(crate) home: bool,
}

/// The calls of C, by their names.
pub(crate) trait FaceCalls {
    fn get(&mut self, call: Call) -> Result<Done, Refusal>;

    fn control(&mut self, call: Call) -> Result<Done, Refusal>;

    /// Sends a text of these bytes, or of zeros where they are not as many as the call says.
    fn send(&mut self, call: Call, bytes: &[u8]) -> Result<Done, Refusal>;

    /// Receives and spends a message, whose bytes are checked.
    fn receive(&mut self, call: Call, wanted: &[u8]) -> Result<Received, Refusal>;

    /// The same of a message that is not checked; answers the receipt's entry, and whether the log
    /// was drained then.
    fn receive_and_cut(&mut self, call: Call) -> Result<(u64, bool), Refusal>;

    fn cut_where_due(&mut self, slot: u8, entry: Option<u64>) -> bool;

    /// How many entries of a slot, which must be there, were drained before this drain.
    fn cut_off<R: Abort>(&mut self, rt: &R, slot: u8) -> u64;
}

impl<L: Ledger> FaceCalls for OneThread<L> {
    fn get(&mut self, call: Call) -> Result<Done, Refusal> {
        get(self, call)
    }

    fn control(&mut self, call: Call) -> Result<Done, Refusal> {
        control(self, call)
    }

    fn send(&mut self, call: Call, bytes: &[u8]) -> Result<Done, Refusal> {
        let mut text = draft(self, call)?;
        if text.len() == bytes.len() as u64 {
            text.fill(bytes);
        }
        send(self, call, text)
    }

    fn receive(&mut self, call: Call, wanted: &[u8]) -> Result<Received, Refusal> {
        let message = receive(self, call)?;
        let numbers = message.numbers();
        let text = message.text;
        let same = text.parts().next() == Some(wanted);
        let home = self.spend(text) == Homecoming::Home;
        Ok(Received {
            numbers,
            same,
            home,
        })
    }

    fn receive_and_cut(&mut self, call: Call) -> Result<(u64, bool), Refusal> {
        let message = receive(self, call)?;
        let entry = message.entry;
        Ok((entry, spend_received(self, message).unwrap_or(false)))
    }

    fn cut_where_due(&mut self, slot: u8, entry: Option<u64>) -> bool {
        cut_where_due(self, slot, entry).unwrap_or(false)
    }

    fn cut_off<R: Abort>(&mut self, rt: &R, slot: u8) -> u64 {
        if slot >= self.slots() {
            panic!(rt; "no slot");
        }
        match self.cut_log(slot) {
            Ok(cut) => cut.first,
            Err(_) => panic!(rt; "out of memory"),
        }
    }
}

/// What a test does with a system that was just made.
pub(crate) trait FaceDay {
    fn spend<S: FaceCalls, R: Abort>(&self, rt: &R, queues: &mut S);
}

fn lived<L: Ledger, D: FaceDay, R: Abort>(
    rt: &R,
    alloc: Global,
    config: Config,
    ledger: Blank,
    day: &D,
)
    requires name { ledger.name ≡ L.name }
    requires parts { ledger.parts ≡ L.parts }
    requires enough { 1024 < ledger.parts }
{
    let mut queues = made::<L>(rt, alloc, config, ledger);
    day.spend(rt, &mut queues);
    let Closed { slots: _, arena: _ } = queues.close();
}

/// The calls that a test makes, of a system of one seat that is then closed.
pub(crate) fn lives<D: FaceDay, R: Abort>(rt: &R, alloc: Global, height: u8, slots: u8, day: &D) {
    let config = Config {
        height,
        slots,
        seats: 1,
        last_seq: 5,
    };
    lived::<Brand, D, R>(rt, alloc, config, Blank::new(PARTS), day);
}
