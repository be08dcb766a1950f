//! The queues of several threads, each at a seat of its own: keys, ids, slots and texts by the
//! calls of the manual, which wait where the manual says so.
//!
//! Each slot has a board, on which all that happens in it is published under its lock. Each seat
//! has a reader of each board, and so for each slot a front: the prefix of the slot's list that it
//! has observed, which only grows. A call reads the whole list before it acts on a slot, and
//! observes its own change as well. So a seat's results are consistent with one history, that of
//! its front.
//!
//! **Locks.** The key table has one, each slot has one, each seat's magazine has one, and the arena
//! has one. The keys' is taken before a slot's; a magazine's is taken with neither held, and before
//! the arena's; none is taken twice at a time.
//! - The keys' lock is held throughout a `msgget` and the change of an `rmid`, so that a key is
//!   entered with its queue and forgotten with it. Slots are locked one by one under it.
//! - A slot's lock protects its slot list and the pending messages of its queue. A call holds it
//!   for one check and one change, or up to `MAX_BATCH` changes, which the slot's board shows
//!   before the lock is released. A call that waits releases it, and then checks the id and the
//!   queue again. A change may wait, with the lock held, for a reader that is reading a copy of the
//!   slot's board: as long as a row takes to read, or as that reader's thread is preempted.
//! - The arena's lock protects which pages are allocated; it is held while blocks are allocated or
//!   freed. Texts are drafted before a slot is locked, their pages are cleared and written with no
//!   lock, and the texts of a removed queue are freed after its slot's lock is released.
//! - A magazine's lock protects its seat's cache of free blocks, so that seats that allocate and
//!   free in turn seldom contend for the arena. A draft for which the arena has no free block locks
//!   all magazines, in the order of the seats, and frees all their blocks before it fails.
//!
//! **Counts** need no lock. All entries that the seats can ever make are allotted to them at the
//! start, as amounts of a ghost ledger; a change moves one from its seat to its slot. So at the end
//! the slots have as many entries as the seats have counted.
//!
//! **Who is woken**, each after the lock is released: a send wakes the receivers of its queue; a
//! receipt and a new quota wake its senders; a removal wakes both, which then fail with EIDRM. A
//! new queue wakes none, for no call waits for an id that was never issued. A freed text wakes the
//! drafts that wait for pages, whether its block goes back to the arena or into a magazine. All
//! waiters are woken: the first may need another message, or more room, than the change gives. No
//! wake is lost between a check and a wait, by the types: a call registers as a waiter of a slot
//! while it holds the lock, and proves that it has to wait; a draft registers before it tries to
//! allocate; and the token of returned pages can't be dropped before their waiters are woken.
//!
//! No contract says that a thread runs, wakes, or goes before another.

#![tactic(auto)]

mod blanks;
mod close;
mod control;
mod cut;
mod drafts;
mod figures;
mod flags;
mod fronts;
mod get;
mod keys;
mod many;
mod messages;
mod names;
mod pages;
mod parts;
mod patience;
mod pledge;
mod seat;
mod slots;
mod system;
mod tally;

pub use blanks::Blanks;
pub use flags::{RecvFlags, SendFlags};
pub use fronts::Fronts;
pub use keys::Keys;
pub use many::{BatchSent, Letter, MAX_BATCH};
pub use mq_calls::{
    Closed, ClosedSlot, Config, DEFAULTS, Delivered, DraftError, Errno, GetFlags, Got, MAX_HEIGHT,
    MAX_SEATS, MAX_SEQ, MAX_SLOTS, Refused, Removal, SendRefused, SysError, Usage,
};
pub use mq_table::Cut;
pub use names::{Entries, Names, Pages, SlotOf, TextOf, WaitingOf};
pub use patience::{Forever, NoWait, Patience, Until};
pub use pledge::Pledge;
pub use seat::Seat;
pub(crate) use slots::SlotMonitor;
pub use slots::{ReceiveRequest, SharedSlot, SlotParts, Waiters};
pub use system::System;
pub use tally::Tally;
