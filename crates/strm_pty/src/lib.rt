//! The drivers at the bottom of both streams of a pseudoterminal, on a queue each and over any store of blocks: what a
//! put at one does (ptm(7D), pts(7D); put(9E)).
#![tactic(auto)]

mod answering;
mod drivers;
mod flushing;
mod making;
mod module;
pub mod pckt;
pub mod ptem;
mod replies;
mod sharing;
mod taking;

pub use drivers::put;
pub use making::make;
pub use pckt::Pckt;
pub use ptem::Ptem;
pub use sharing::send_behind;
