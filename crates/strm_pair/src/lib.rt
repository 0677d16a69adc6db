//! A pair: the master's and the slave's stream, joined at their drivers. Calls and turns are made on it one at a
//! time, each is refused by name or carried out whole, and the journal tells all that were carried out.
#![tactic(auto)]

mod answers;
mod base;
mod closes;
mod counts;
mod deliveries;
mod driver_turns;
mod earlier;
mod ends;
mod images;
mod ioctls;
mod journal;
mod ledgers;
mod messages;
mod module_turns;
mod modules;
mod named_queues;
mod own_settings;
mod pair;
mod past;
mod pushes;
mod readiness;
mod refusals;
pub mod restore_laws;
mod room;
mod scheduler;
mod service_calls;
mod shelves;
mod stacks;
mod stations;
mod streams;
mod writes;
mod zeros;

pub use pair::{Pair, Recorded};
pub use readiness::Ready;
pub use scheduler::Ran;
pub use strm_own::{NoModule, Own, OwnModule, has_byte, has_ioctl, pass_on, reply};
