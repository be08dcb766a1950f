//! The numbers of Linux, and when a log is drained: proved of the constants alone.

ghost use Rattle.std.specs.Prelude.{◌≡◌, ◌-◌, ◌^◌, pos};

use crate::log::LOG_BOUND;
use crate::manual::{
    EFAULT, ENOSYS, IPC_CREAT, IPC_EXCL, IPC_INFO, IPC_NOWAIT, IPC_RMID, IPC_SET, IPC_STAT,
    MSG_COPY, MSG_EXCEPT, MSG_INFO, MSG_NOERROR, MSG_STAT, MSG_STAT_ANY, SSIZE_MAX,
};

/// The flags, in the order of their bits.
pub fn the_flags()
    ensures creat { IPC_CREAT ≡ 0x200 }
    ensures excl { IPC_EXCL ≡ 0x400 }
    ensures nowait { IPC_NOWAIT ≡ 0x800 }
    ensures noerror { MSG_NOERROR ≡ 0x1000 }
    ensures except { MSG_EXCEPT ≡ 0x2000 }
    ensures copy { MSG_COPY ≡ 0x4000 }
{}

/// The commands.
pub fn the_commands()
    ensures rmid { IPC_RMID ≡ 0 }
    ensures set { IPC_SET ≡ 1 }
    ensures stat { IPC_STAT ≡ 2 }
    ensures info { IPC_INFO ≡ 3 }
    ensures stat_slot { MSG_STAT ≡ 11 }
    ensures usage { MSG_INFO ≡ 12 }
    ensures stat_any { MSG_STAT_ANY ≡ 13 }
{}

/// The numbers of errno(3) that no queue answers.
pub fn the_faults()
    ensures no_buffer { EFAULT ≡ pos 14 }
    ensures no_call { ENOSYS ≡ pos 38 }
{}

/// The greatest room for a text, and after how many entries a log is drained.
pub fn the_bounds()
    ensures room { SSIZE_MAX ≡ 2 ^ 63 - 1 }
    ensures log { LOG_BOUND ≡ 1024 }
{}
