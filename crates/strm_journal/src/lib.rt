//! What a journal keeps of each entry: the kind of the call or turn, its numbers and those of its answer, in 24 bytes. Contracts see the
//! entry that it tells, `Entry<u32>` of strm_types; the bytes of calls and answers stand apart.
#![tactic(auto)]

mod calls;
mod digits;
mod entries;
mod kinds;
mod numbers;
mod packed;
mod replies;
mod turns;

pub use entries::{copied, forget_all};
pub use packed::Packed;
