//! Pairs under locks: a pair of streams as a lock may hold it, systems of such pairs, and hosts, which are systems behind one claim.
#![tactic(auto)]

mod fresh;
mod hosts;
mod laws;
mod locked;
mod making;
mod opener;

pub use fresh::Fresh;
pub use hosts::{Host, MOST_PAIRS, MOST_SYSTEMS, PAIRS};
pub use laws::entries_are_tallied;
pub use locked::{Locked, Store};
pub use making::{host, system};
pub use opener::{HostMinor, HostOpener};
