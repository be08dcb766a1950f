//! The drain of a slot's log, by which a long run's memory stays bounded.

ghost use Rattle.std.specs.Prelude.{◌<◌, length};
ghost use Rattle.mq_local.specs.Outcome.{AnswersCut};

use crate::OneThread;
use mq_calls::{Errno, Refused};
use mq_table::Cut;
use std::sync::ledger::Ledger;

impl<L: Ledger> OneThread<L> {
    /// Drains a slot's log: returns all that is retained of it, for its owner to store or to drop.
    /// The pending messages, the ids, the keys and the figures stay, entries are counted on, and
    /// the drain is no event. Only ENOMEM.
    pub fn cut_log(&mut self, slot: u8) -> Result<Cut, Refused>
        requires { slot < length self.old.slots }
        ensures answer { AnswersCut self.old slot self.new result }
    {
        let k = slot as usize;
        match self.slots[k].cut() {
            Ok(cut) => Ok(cut),
            Err(_) => Err(self.refused(k, Errno::ENOMEM)),
        }
    }
}
