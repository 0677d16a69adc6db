//! The library for C programs with threads: each export is one call of strm_ends, whose clauses it states again. `include/strm_mt.h` is its manual.
#![tactic(auto)]

mod calling;
mod claiming;
mod making;
mod opening;
mod settling;
mod sharing;
mod tracing;
mod visiting;
