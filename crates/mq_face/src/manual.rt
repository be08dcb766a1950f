//! The numbers that Linux has for the names of the manual.

/// msgget(2): a queue is made where the key has none.
pub const IPC_CREAT: u32 = 0o1000;

/// msgget(2): with IPC_CREAT, a key that has a queue is refused.
pub const IPC_EXCL: u32 = 0o2000;

/// msgop(2): the call is refused where it would wait.
pub const IPC_NOWAIT: u32 = 0o4000;

/// msgop(2): a text that is longer than the room for it is truncated.
pub const MSG_NOERROR: u32 = 0o10000;

/// msgop(2): with a type above 0, the first message of another type is received.
pub const MSG_EXCEPT: u32 = 0o20000;

/// msgop(2): a message is copied and stays. A kernel may be built without it.
pub const MSG_COPY: u32 = 0o40000;

/// msgctl(2): the commands.
pub const IPC_RMID: u32 = 0;

pub const IPC_SET: u32 = 1;

pub const IPC_STAT: u32 = 2;

pub const IPC_INFO: u32 = 3;

pub const MSG_STAT: u32 = 11;

pub const MSG_INFO: u32 = 12;

pub const MSG_STAT_ANY: u32 = 13;

/// errno(3): a null buffer.
pub const EFAULT: i32 = 14;

/// errno(3): an unknown call.
pub const ENOSYS: i32 = 38;

/// The greatest room for a text.
pub const SSIZE_MAX: u64 = (1 << 63) - 1;

/// The seat of all calls: the C side keeps which process made them.
pub const SEAT: u16 = 1;
