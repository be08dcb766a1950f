//! A call that failed, as a trace shows it.

ghost use Rattle.std.specs.Prelude.{◌≡◌};
ghost use Rattle.mq_trace.specs.Calls.{call_name};

use mq_calls::Errno;

/// A call of a queue (msgop(2), msgctl(2)).
#[derive(Clone, Copy, Debug, PartialEq, Eq)]
pub enum CallName {
    Get,
    Send,
    Receive,
    Set,
    Remove,
    Stat,
    Cut,
}

impl CallName {
    /// Its letters: the manual's name of the function, or of the command of msgctl(2). A cut is no
    /// call of the manual.
    pub fn name(self) -> &'static str
        ensures { result.now ≡ call_name self }
    {
        match self {
            CallName::Get => "msgget",
            CallName::Send => "msgsnd",
            CallName::Receive => "msgrcv",
            CallName::Set => "IPC_SET",
            CallName::Remove => "IPC_RMID",
            CallName::Stat => "IPC_STAT",
            CallName::Cut => "cut",
        }
    }
}

/// A call that was refused. No log has these: who makes the calls notes them.
#[derive(Clone, Copy, Debug, PartialEq, Eq)]
pub struct Refusal {
    /// The moment that the caller named.
    pub moment: u64,
    /// The number of the caller's seat.
    pub seat: u16,
    pub call: CallName,
    /// The id that the caller named, if the call takes one.
    pub id: Option<u32>,
    pub errno: Errno,
}
