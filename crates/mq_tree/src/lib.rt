//! A buddy system over the pages of an arena: which blocks are lent, and the least start at which
//! the next one fits.
#![tactic(auto)]

mod close;
mod error;
mod free;
mod give;
pub mod laws;
mod lend;
mod limits;
mod node;
mod tree;

pub use error::TreeError;
pub use limits::MAX_HEIGHT;
pub use tree::OrderTree;
