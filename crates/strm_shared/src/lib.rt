//! Tests of `strm_minors`, `strm_locks` and `strm_system`, by what they export: pairs that threads share. What one does is said for any system, by
//! steps of which it has to know little; of real pairs one function owns a system. The library is empty.
#![tactic(auto)]

#[cfg(test)]
mod cases;
#[cfg(test)]
mod journals;
#[cfg(test)]
mod memory;
#[cfg(test)]
mod minors;
#[cfg(test)]
mod rows;
#[cfg(test)]
mod server;
#[cfg(test)]
mod steps;
#[cfg(test)]
mod systems;
#[cfg(test)]
mod threads;
#[cfg(test)]
mod workers;
