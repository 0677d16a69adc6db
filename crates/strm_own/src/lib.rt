//! Modules of a user's own, which are pushed on a stream beside those that are there (STREAMS Programming Guide, "Modules"): what a user writes of
//! one, and what becomes of it on a stream, with the queues that the stream gives it.
#![tactic(auto)]

mod asking;
mod looking;
mod own;
mod owned;
mod putting;
mod serving;

pub use looking::{has_byte, has_ioctl};
pub use own::{NoModule, Own, OwnModule, is_known, pass_on, reply};
