//! Messages: a type, a sender, a tag and a body, which contracts see as a list of bytes; which of
//! the pending messages a selection picks; and the trait of a list of them.

#![tactic(auto)]

mod body;
mod header;
pub mod laws;
mod message;
mod selection;
mod vec_body;
mod waiting;
pub mod worked;

pub use body::Body;
pub use header::Header;
pub use message::Message;
pub use selection::Selection;
pub use vec_body::VecBody;
pub use waiting::{Waiting, discard};
