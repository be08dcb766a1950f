//! The selection rule of msgrcv (msgop(2)): `msgtyp` with MSG_EXCEPT, and how it is printed.

ghost use Rattle.std.specs.Prelude.{◌≡◌, Some};
ghost use Rattle.mq_message.specs.Shown.{selection_text};

use std::fmt;

/// Which of the pending messages a receiver asks for, by their types (msgop(2), msgrcv).
#[derive(Clone, Copy, Debug, PartialEq, Eq)]
pub enum Selection {
    /// The first message.
    Any,
    /// The first message of this type.
    Exact(i64),
    /// The first message of any other type.
    Except(i64),
    /// The first message of the lowest type that is at most this.
    UpTo(u64),
}

impl Selection {
    ghost use Rattle.mq_message.specs.Selection.{selection_of};

    /// What `msgtyp` selects, where `except` is the flag `MSG_EXCEPT` (msgop(2), msgrcv). The flag
    /// changes nothing where `msgtyp` is 0 or below.
    pub fn read(msgtyp: i64, except: bool) -> Selection
        ensures { result ≡ selection_of msgtyp except }
    {
        if msgtyp == 0 {
            Selection::Any
        } else if msgtyp < 0 {
            Selection::UpTo(msgtyp.unsigned_abs())
        } else if except {
            Selection::Except(msgtyp)
        } else {
            Selection::Exact(msgtyp)
        }
    }
}

/// In words: `any`, `type 5`, `not type 5` or `up to 5`.
impl fmt::Display for Selection {
    ghost output = { λ selection. Some (selection_text selection) };

    fn fmt<W: fmt::Write>(&self, f: &mut fmt::Formatter<W>) -> fmt::Result {
        match *self {
            Selection::Any => f.write_str("any"),
            Selection::Exact(mtype) => write!(f, "type {mtype}"),
            Selection::Except(mtype) => write!(f, "not type {mtype}"),
            Selection::UpTo(bound) => write!(f, "up to {bound}"),
        }
    }
}
