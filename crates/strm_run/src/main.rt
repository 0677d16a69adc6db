//! Scripts of calls on a pair: reads commands from standard input, one a line, and writes an answer line for each to
//! standard output. `strm_script` does the work; its contract says what is written.
#![tactic(auto)]

use std::io;
use std::io::{Eprint, Error};
use std::process::ExitCode;
use strm_raw::RawStore;
use strm_script::{Cause, ScriptStatus, Sink, Source, run_script};

/// The store of the program's pair.
type Store = RawStore;

/// Says on standard error why a script ended with status 2. Where that fails too nobody is told: the status is the same.
fn tell(rt: &impl Eprint, what: &str, error: Option<Error>) {
    let _ = match error {
        Some(error) => eprintln!(rt; "strm_run: {what}: {error}"),
        None => eprintln!(rt; "strm_run: {what}"),
    };
}

/// Runs the script on standard input, and ends with its status. Arguments are ignored.
fn main(rt: HostRuntime) -> ExitCode {
    let mut source = Source::new(rt.reader());
    let mut sink = Sink::new(io::writer(&rt));
    let end = run_script::<Store, _, _>(rt.alloc(), &mut source, &mut sink);
    match end.status {
        ScriptStatus::Whole | ScriptStatus::Malformed => {}
        ScriptStatus::Broken(Cause::Input) => tell(&rt, "input failed", source.error),
        ScriptStatus::Broken(Cause::Output) => tell(&rt, "output failed", sink.error),
        ScriptStatus::Broken(Cause::Memory) => tell(&rt, "memory was refused", None),
        ScriptStatus::Broken(Cause::Length) => tell(&rt, "2^32 - 1 reads were made", None),
    }
    ExitCode::from(end.status.number())
}
