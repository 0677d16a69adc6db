//! The library for C: each export is one call of strm_handle, whose clauses it states again. `include/strm.h` is its manual.
#![tactic(auto)]

mod calling;
mod imaging;
mod looking;
mod making;
mod recording;
mod tracing;
mod turning;
