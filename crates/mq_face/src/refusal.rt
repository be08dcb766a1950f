//! Failed calls: the errno that C gets, and what the call waits for before it is made again.

ghost use Rattle.std.specs.Prelude.{◌≡◌, Err};
ghost use Rattle.mq_table.specs.Ids.{slot_of};
ghost use Rattle.mq_face.specs.Flags.{has};
ghost use Rattle.mq_face.specs.Refusals.{blocked, fault, gone, id_named, named, refusal};
ghost use Rattle.mq_face.specs.declared.manual.TheConstants.{ENOSYS, IPC_NOWAIT};

use crate::Call;
use crate::manual::{ENOSYS, IPC_NOWAIT};
use mq_calls::Errno;
use mq_table::Id;

/// For what a call that is refused waits, before it is made again.
#[derive(Clone, Copy, Debug, PartialEq, Eq)]
pub enum Wait {
    No,
    /// For a change in this slot.
    Change(u8),
    /// For pages.
    Pages,
}

/// Why a call is not done: the number of its errno, and whether it waits.
#[derive(Clone, Copy, Debug, PartialEq, Eq)]
pub struct Refusal {
    pub errno: i32,
    pub wait: Wait,
}

impl Refusal {
    /// The refusal by this number.
    pub(crate) fn fault(errno: i32) -> Refusal
        ensures { result ≡ fault errno }
    {
        Refusal {
            errno,
            wait: Wait::No,
        }
    }

    pub(crate) fn of(errno: Errno) -> Refusal
        ensures { result ≡ refusal errno }
    {
        Refusal::fault(errno.number())
    }
}

/// A call of an unknown kind.
pub fn unknown() -> Refusal
    ensures { result ≡ fault ENOSYS }
{
    Refusal::fault(ENOSYS)
}

/// The errno that C gets: EINVAL for a queue that was removed before the call, EIDRM for one that
/// was removed while the call waited.
fn named(waited: bool, errno: Errno) -> Errno
    ensures { result ≡ named waited errno }
{
    match errno {
        Errno::EIDRM if !waited => Errno::EINVAL,
        _ => errno,
    }
}

/// The refusal of a call that does not wait.
pub(crate) fn gone(call: Call, errno: Errno) -> Refusal
    ensures { result ≡ gone call errno }
{
    Refusal::of(named(call.waited, errno))
}

/// The refusal of a call that waits where the queue is full or has no message, unless it has
/// IPC_NOWAIT.
pub(crate) fn blocked(call: Call, id: Id, errno: Errno) -> Refusal
    ensures { result ≡ blocked call id errno }
{
    match errno {
        Errno::EAGAIN | Errno::ENOMSG if !call.has(IPC_NOWAIT) => Refusal {
            errno: errno.number(),
            wait: Wait::Change(id.slot()),
        },
        _ => gone(call, errno),
    }
}

/// The id of this number: a negative one is none.
pub(crate) fn id_of(number: i32) -> Result<Id, Refusal>
    ensures { result ≡ id_named number }
{
    match u32::try_from(number) {
        Ok(number) => Ok(Id::from_number(number)),
        Err(_) => Err(Refusal::of(Errno::EINVAL)),
    }
}
