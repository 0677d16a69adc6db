//! Scripts run from memory to memory: tables of titled scenes, and what no table can show. The library is empty.
#![tactic(auto)]

#[cfg(test)]
mod tests;
