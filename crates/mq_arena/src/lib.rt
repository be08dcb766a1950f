//! Pages, blocks of `2 ^ order` pages, their two halves written on two threads, and texts in
//! blocks.

#![tactic(auto)]

mod account;
mod block;
mod halves;
mod homecoming;
mod homes;
mod limits;
mod locked;
mod magazine;
mod order;
mod page;
mod parts;
mod shell;
mod state;
mod take_error;
mod text;
mod text_writes;
mod unopened;
mod unwritten;
mod writes;

pub use block::Block;
pub use homecoming::Homecoming;
pub use limits::{INLINE_ORDER, INLINE_PAGES, LEDGER_PARTS, MAX_ORDER, MAX_PAGES};
pub use locked::{Arena, OfHeight};
pub use magazine::{MAGAZINE_PAGES, Magazine};
pub use order::{INLINE_LEN, TEXT_LEN, order_for};
pub use page::{PAGE_LEN, Page};
pub use parts::Parts;
pub use state::ArenaState;
pub use take_error::TakeError;
pub use text::Text;
pub use unopened::Unopened;
pub use unwritten::Unwritten;
pub use writes::fill;
