//! The commands of msgctl(2), by the numbers that Linux has for them.

ghost use Rattle.std.specs.Prelude.{◌≡◌};
ghost use Rattle.mq_face.specs.Commands.{command_of};

use crate::manual::{IPC_INFO, IPC_RMID, IPC_SET, IPC_STAT, MSG_INFO, MSG_STAT, MSG_STAT_ANY};

/// What msgctl(2) is asked for.
#[derive(Clone, Copy, Debug, PartialEq, Eq)]
pub enum ControlCommand {
    /// IPC_RMID.
    Remove,
    /// IPC_SET.
    Set,
    /// IPC_STAT.
    Stat,
    /// MSG_STAT and MSG_STAT_ANY, by the number of a slot.
    StatSlot,
    /// IPC_INFO and MSG_INFO.
    Info,
}

impl ControlCommand {
    /// The command that has this number.
    pub fn of(number: u32) -> Option<ControlCommand>
        ensures { result ≡ command_of number }
    {
        match number {
            IPC_RMID => Some(ControlCommand::Remove),
            IPC_SET => Some(ControlCommand::Set),
            IPC_STAT => Some(ControlCommand::Stat),
            IPC_INFO | MSG_INFO => Some(ControlCommand::Info),
            MSG_STAT | MSG_STAT_ANY => Some(ControlCommand::StatSlot),
            _ => None,
        }
    }
}
