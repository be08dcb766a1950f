//! Worked scripts, each with all that it writes.

use mq_cli::RunFault;

/// Each worker takes what it has sent, and waits for no other.
pub const OWN: &str = "\
get 0 c
worker
put 0 1 5 1000
take 0 1 5
worker
put 0 2 5 1000
take 0 2 5
";

pub const OWN_TOLD: &str = "\
id 0
worker 2 sent 5 received 5 order yes end done
worker 3 sent 5 received 5 order yes end done
slot 0 events 21 sent 10 received 10 left 0
pages 64 free 64
";

/// Two workers send to two others, each pair by a type of its own. The quota is 16 pages' bytes, so
/// that there is always a page for one more text.
pub const TWO_PAIRS: &str = "\
get 9 c
set 0 16384
worker
put 0 1 100 1000
worker
put 0 2 100 1000
worker
take 0 1 100
worker
take 0 2 100
";

pub const TWO_PAIRS_TOLD: &str = "\
id 0
at 1
worker 2 sent 100 received 0 order yes end done
worker 3 sent 100 received 0 order yes end done
worker 4 sent 0 received 100 order yes end done
worker 5 sent 0 received 100 order yes end done
slot 0 events 402 sent 200 received 200 left 0
pages 64 free 64
";

/// Whether a run, a thread or a worker of it lacked memory.
pub fn lacks_memory(ended: Result<(), RunFault>, written: &[u8]) -> bool {
    matches!(ended, Err(RunFault::Memory | RunFault::Thread)) || tells_enomem(written)
}

/// Whether a text has ENOMEM in it.
pub fn tells_enomem(text: &[u8]) -> bool {
    text.windows(6).any(|part| part == b"ENOMEM".as_slice())
}
