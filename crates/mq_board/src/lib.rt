//! Boards: each slot's row (its figures, key and number of queues) in the two copies of a
//! left-right structure, which one writer publishes and readers read without a lock; and the
//! history of the published events, by which a reader knows that what it read only grows.

#![tactic(auto)]

mod copies;
mod history;
mod history_law;
mod making;
mod naming;
mod opened;
mod posting;
mod reader;
mod roll;
mod row;
mod snapshot;
mod told;
mod writer;

pub use making::{MAX_PLACES, board, next_board, open_boards};
pub use naming::Naming;
pub use opened::OpenedBoard;
pub use posting::Posting;
pub use reader::{BoardReader, BoardReading};
pub use roll::OpenedRoll;
pub use told::ToldList;
pub use writer::{BoardWriter, Rest};
