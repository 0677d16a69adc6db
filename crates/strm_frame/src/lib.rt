//! Delivery of messages among what stands on the streams of a pair, over any store of blocks and any stations.
#![tactic(auto)]

mod carrying;
mod enabled;
pub mod flushes;
pub mod ioctls;
mod modules;
mod notes;
mod parcels;
mod places;
mod popping;
mod queue_pair;
mod queues;
mod room;
mod service;
mod serving;
mod stack;
mod standing;

pub use carrying::{deliver, deliver_all};
pub use enabled::Enabled;
pub use modules::{Acts, LetGo, Module, Procedures};
pub use notes::{note_if, rooms};
pub use parcels::{Outbox, Sent};
pub use places::Stations;
pub use queue_pair::{QueuePair, Tables, direction_at};
pub use queues::{Emptied, clear_queue, end_queue_turn, flush_queue};
pub use service::{Served, TurnEnd};
pub use stack::Stack;
pub use standing::Standing;
