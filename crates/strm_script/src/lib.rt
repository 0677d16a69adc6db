//! Scripts of calls on a pair: commands, one a line, and an answer line for each. `run_script` reads and writes them;
//! its contract says what is written, by the definitions of script text in `specs`.
#![tactic(auto)]

mod answers;
mod calls;
mod commands;
mod engine;
mod ioctls;
mod ledgers;
mod lines;
mod looks;
mod named;
mod numbers;
mod obeying;
mod outcomes;
mod script;
mod session;
mod sink;
mod source;
mod texts;
mod turns;
mod verbs;
mod words;

pub use engine::Stop;
pub use script::{Cause, ScriptEnd, ScriptStatus, run_script};
pub use session::Session;
pub use sink::Sink;
pub use source::Source;
