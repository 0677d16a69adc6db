//! The minor numbers of pseudoterminals, which several threads claim and release without a lock: ptm(7D), pts(4).
//! One atomic word has a bit for each pair; an opener steps on it, and holds the minors that it claimed.
#![tactic(auto)]

mod minor;
mod minors;
mod opener;
mod rule;
mod view;

pub use minor::{Minor, NoMinor};
pub use minors::Minors;
pub use opener::Opener;
