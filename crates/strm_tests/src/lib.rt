//! Tests of the crates below `strm_pair`, by what they export, with answers worked out by hand. The library is
//! empty.
#![tactic(auto)]

#[cfg(test)]
mod blocks;
#[cfg(test)]
mod frame;
#[cfg(test)]
mod head;
#[cfg(test)]
mod image;
#[cfg(test)]
mod ldterm;
#[cfg(test)]
mod moves;
#[cfg(test)]
mod msg;
#[cfg(test)]
mod pty;
#[cfg(test)]
mod queue;
#[cfg(test)]
mod raw;
