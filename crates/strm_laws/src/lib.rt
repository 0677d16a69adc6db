//! What follows from the definitions that contracts cite, in the words of the manual pages: each law is the contract of a function
//! that does nothing. `specs/` holds the state of a pair, its calls, steps and journal, and the ledger of a direction.
#![tactic(auto)]

pub mod behaviours;
pub mod flush_laws;
pub mod head_laws;
pub mod laws;
pub mod ledger_laws;
pub mod line_laws;
pub mod output_laws;
pub mod own_laws;
pub mod pckt_laws;
pub mod ptem_laws;
pub mod put_laws;
pub mod rest_laws;
pub mod restore_laws;

pub use behaviours::Behaves;
