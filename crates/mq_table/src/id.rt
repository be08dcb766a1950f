//! Queue ids: a slot and its generation in one u32, so that the id of a removed queue is never
//! that of a later one.

ghost use Rattle.std.specs.Prelude.{◌≡◌, ◌<◌, ◌≤◌, ◌/◌, Some};
ghost use Rattle.std.specs.Fmt.{decimal};
ghost use Rattle.mq_table.specs.Ids.{id_of, slot_of, seq_of};

use crate::MAX_SLOTS;
use std::fmt;
use std::marker::Model;

/// What msgget(2) answers: the number of a slot, and how many queues were made in it before. It
/// is seen as one number, and each number within u32 is an id.
#[derive(Clone, Copy, Debug, PartialEq, Eq, Hash)]
pub struct Id {
    number: u32,
}

impl Model for Id {
    ghost use Rattle.std.specs.Prelude.{ℕ};
    ghost use Rattle.std.specs.Coded.{coded_ℕ};

    ghost Value = { ℕ };

    ghost coded = { coded_ℕ };

    ghost view = { λ id. id.number };

    ghost inverse = { λ number. record { number = number } };
}

impl Id {
    /// The id of the queue in this slot before which `seq` queues were made there.
    pub fn of(slot: u8, seq: u32) -> Id
        requires slot { slot < MAX_SLOTS }
        requires seq { seq ≤ u32.MAX / MAX_SLOTS }
        ensures { result ≡ id_of slot seq }
    {
        Id {
            number: seq * u32::from(MAX_SLOTS) + u32::from(slot),
        }
    }

    pub fn slot(self) -> u8
        ensures value { result ≡ slot_of self }
        ensures within { result < MAX_SLOTS }
    {
        (self.number % u32::from(MAX_SLOTS)) as u8
    }

    pub fn seq(self) -> u32
        ensures value { result ≡ seq_of self }
        ensures within { result ≤ u32.MAX / MAX_SLOTS }
    {
        self.number / u32::from(MAX_SLOTS)
    }

    pub fn from_number(number: u32) -> Id
        ensures { result ≡ number }
    {
        Id { number }
    }

    pub fn number(self) -> u32
        ensures { result ≡ self }
    {
        self.number
    }
}

/// Its number, in decimal.
impl fmt::Display for Id {
    ghost output = { λ id. Some (decimal id) };

    fn fmt<W: fmt::Write>(&self, f: &mut fmt::Formatter<W>) -> fmt::Result {
        let number = self.number;
        write!(f, "{number}")
    }
}

impl From<u32> for Id {
    ghost from_gives = { λ number id. id ≡ number };

    fn from(number: u32) -> Id {
        Id::from_number(number)
    }
}

impl From<Id> for u32 {
    ghost from_gives = { λ id number. number ≡ id };

    fn from(id: Id) -> u32 {
        id.number()
    }
}
