//! What calls take and return: sizes, results, errors by the manual's names, and how a slot ends;
//! and the definitions of what each call returns and leaves.

#![tactic(auto)]

mod close;
mod config;
mod config_error;
mod draft_error;
mod errno;
pub mod home;
mod limits;
mod results;
mod shown;
mod usage;
pub mod worked;

pub use close::{Closed, ClosedSlot, end_slot};
pub use config::{Config, DEFAULTS, SysError};
pub use config_error::ConfigError;
pub use draft_error::DraftError;
pub use errno::Errno;
pub use limits::MAX_SEATS;
pub use mq_table::{Cut, MAX_SEQ, MAX_SLOTS};
pub use mq_tree::MAX_HEIGHT;
pub use results::{Delivered, GetFlags, Got, Refused, Removal, SendRefused};
pub use usage::Usage;
