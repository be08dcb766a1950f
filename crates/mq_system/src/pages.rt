//! The pages that several threads share: each seat's magazine, and drafts that wait for pages.

mod magazines;
mod waiters;

pub(crate) use magazines::Magazines;
