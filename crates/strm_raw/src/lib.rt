//! Message blocks and data blocks as nodes in raw memory.
#![tactic(auto)]

mod allocating;
mod chains;
mod changes;
mod data_nodes;
mod flushing;
mod ledger;
mod lists;
mod making;
mod memory;
mod msg_nodes;
mod neighbours;
mod nodes;
mod ranks;
mod raw;
mod sending;
mod store;
mod tails;
mod visiting;

pub use raw::RawStore;
pub use sending::sent;
