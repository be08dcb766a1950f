//! Tests of the calls of C.

mod calls;
mod layout;
mod life;
mod logs;
mod refusals;
mod system;
