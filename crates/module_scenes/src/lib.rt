//! Scenes of pairs whose slave pushes a module of a user's own. The library is empty.
#![tactic(auto)]

#[cfg(test)]
mod tests;
