//! Message queues with priorities and flow control, over any store of message blocks: putq(9F), putbq(9F), getq(9F),
//! flushq(9F), flushband(9F), canput(9F). A queue is a list of a store with its counts, marks and flags beside it.
#![tactic(auto)]

mod banded;
mod bandset;
mod common;
pub mod emptying;
mod flow;
mod flows;
mod flush;
pub mod lengths;
mod limits;
mod order;
mod queue;
mod share;
pub mod standing;
mod table;
pub mod taking;

pub use flow::Flow;
pub use flows::Flows;
pub use flush::Flush;
pub use limits::{HEAD_HIGH, HEAD_LOW, OTHER_HIGH, OTHER_LOW, are_marks, is_list};
pub use order::serves_in_order;
pub use queue::Queue;
pub use table::Table;
