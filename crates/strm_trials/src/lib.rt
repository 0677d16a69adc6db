//! Calls on pairs: tables of runs, and what no table can show. The library takes all memory, for tests where none is left.
#![tactic(auto)]

pub mod memory;
#[cfg(test)]
mod tests;
