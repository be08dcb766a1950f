//! The flags of msgop(2), of each call those that it reads.

/// The flags of msgsnd.
#[derive(Clone, Copy, Debug, PartialEq, Eq)]
pub struct SendFlags {
    /// IPC_NOWAIT: a full queue returns EAGAIN at once.
    pub nowait: bool,
}

/// The flags of msgrcv.
#[derive(Clone, Copy, Debug, PartialEq, Eq)]
pub struct RecvFlags {
    /// IPC_NOWAIT: where no message fits the selection, ENOMSG is answered at once.
    pub nowait: bool,
    /// MSG_NOERROR: a longer text is truncated to the receiver's size.
    pub noerror: bool,
    /// MSG_EXCEPT: a type above 0 selects the first message of any other type.
    pub except: bool,
}
