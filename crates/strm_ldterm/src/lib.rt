//! The line discipline of a terminal, the module `ldterm` (ldterm(7M), termio(7I)): keys, the unfinished line, echo, and what it does
//! with the two queues that its stream gives it.
#![tactic(auto)]

mod answers;
mod asks;
mod behind;
mod call_ends;
mod echoes;
mod first_steps;
mod flushes;
mod graphic;
mod grown_messages;
mod ldterm;
mod line_keys;
mod lines;
mod module;
mod output;
mod output_runs;
mod plain_runs;
mod posts;
mod puts;
mod sending_keys;
mod service_calls;
mod signal_keys;
mod standing_echo;
mod strokes;
mod treated_bytes;
mod turn_starts;
mod wholes;
mod write_turns;

pub use echoes::{ECHO_MAX, Echo, RUN_MAX, echo_of};
pub use ldterm::{Ldterm, Stage, name};
pub use lines::Line;
pub use posts::post;
pub use puts::put;
pub use sending_keys::{end_file, end_line, stop};
pub use service_calls::serve;
pub use strokes::{restarts, stroke_of};
