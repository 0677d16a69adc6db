//! Message blocks and data blocks: the trait [`Blocks`] of stores of them, [`Reserve`] of those that are made of two numbers, and the
//! plain store [`TableStore`].
#![tactic(auto)]

mod asked;
mod blocks;
mod data;
mod in_hand;
mod kinds;
mod message;
mod parts;
mod release;
mod reserve;
mod table;
mod visiting;
mod visitor;

pub use asked::{FlushWhat, NoBlocks, Peek, Summary};
pub use blocks::Blocks;
pub use in_hand::InHand;
pub use kinds::is_flushed;
pub use reserve::Reserve;
pub use table::TableStore;
pub use visitor::Visitor;
