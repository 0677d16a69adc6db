//! A script from its first byte to its last answer.

ghost use Rattle.std.specs.Prelude.{◌≡◌, ◌+◌, ◌<◌, ◌≤◌, ◌^◌, ◌||◌, not, false, []};
ghost use Rattle.strm_script.specs.Faults.{source_failed, sink_failed};
ghost use Rattle.strm_script.specs.Runs.{IsRun, AnswersRead, exit_number, is_input, is_output};
ghost use Rattle.strm_script.specs.Output.{Writes};
ghost use Rattle.strm_script.specs.Serving.{Serves, Ended, status_of};
ghost use Rattle.strm_script.specs.Sessions.{fresh_session};
ghost use Rattle.strm_script.specs.Steps.{point_of, value_of};

use crate::engine::{Engine, Stop};
use crate::sink::Sink;
use crate::source::Source;
use std::alloc::Global;
use std::io::{Read, Write};
use strm_blocks::Reserve;

/// Why a script ended before its input did, though each of its lines so far spells a command.
#[derive(Clone, Copy, Debug, PartialEq)]
pub enum Cause {
    /// A read failed. The answers to all lines that were read are written.
    Input,
    /// A write or a flush failed.
    Output,
    /// Memory was refused.
    Memory,
    /// 2^32 - 1 reads were made.
    Length,
}

/// How a run of a script ended.
#[derive(Clone, Copy, Debug, PartialEq)]
pub enum ScriptStatus {
    /// The input ended, and all was written.
    Whole,
    /// A line spells no command, or is longer than 4096 bytes; the last answer, `err line N`, says which. Nothing behind it was carried out.
    Malformed,
    /// It was broken off.
    Broken(Cause),
}

impl ScriptStatus {
    /// The exit status by which a program tells it: 0, 1 or 2, in the order of the variants.
    pub fn number(self) -> u8
        ensures { result ≡ exit_number self }
    {
        match self {
            ScriptStatus::Whole => 0,
            ScriptStatus::Malformed => 1,
            ScriptStatus::Broken(_) => 2,
        }
    }
}

/// What a run of a script came to.
#[derive(Clone, Copy, Debug, PartialEq)]
pub struct ScriptEnd {
    /// Why it ended.
    pub status: ScriptStatus,
    /// The first line, counted from 1, in which a call or a turn got ENOSR, or a turn of a module's queue moved fewer bytes than its first message
    /// had: it stopped within it for want of blocks.
    pub short: Option<u64>,
}

/// How many bytes of input are asked for at once.
const CHUNK: usize = 4096;

/// Writes the answers that aren't written yet; whether that went well.
fn send_answers<B: Reserve, W: Write>(engine: &mut Engine<B>, sink: &mut Sink<W>) -> bool
    ensures sent { Writes (W.contents sink.old.writer) (W.contents sink.new.writer) engine.old.answers.items result }
    ensures failed { sink_failed sink.new ≡ (sink_failed sink.old || not result) }
    ensures point { point_of engine.new ≡ point_of engine.old }
    ensures none_left { engine.new.answers.items ≡ [] }
{
    let well = sink.send(engine.answers.as_slice());
    engine.answers.clear();
    well
}

/// The status of a script that came to its end or stopped, once its answers are written.
fn closed<B: Reserve, W: Write>(
    ended: Result<(), Stop>,
    engine: &mut Engine<B>,
    sink: &mut Sink<W>,
) -> ScriptStatus
    ensures ended { Ended (W.contents sink.old.writer) (W.contents sink.new.writer) engine.old.answers.items
        result (status_of ended) }
    ensures failed { sink_failed sink.new ≡ (sink_failed sink.old || is_output result) }
    ensures input { is_input result ≡ false }
    ensures short { engine.new.short ≡ engine.old.short }
{
    if !send_answers(engine, sink) {
        return ScriptStatus::Broken(Cause::Output);
    }
    match ended {
        Ok(()) => ScriptStatus::Whole,
        Err(Stop::Malformed) => ScriptStatus::Malformed,
        Err(Stop::NoMemory) => ScriptStatus::Broken(Cause::Memory),
        Err(Stop::TooLong) => ScriptStatus::Broken(Cause::Length),
    }
}

/// Takes all input, and writes the answers to each piece of it before the next one is read; the status of the script.
fn serve<B: Reserve, R: Read, W: Write>(
    alloc: Global,
    engine: &mut Engine<B>,
    source: &mut Source<R>,
    sink: &mut Sink<W>,
) -> ScriptStatus
    requires { value_of engine.old ≡ fresh_session }
    ensures run { IsRun (R.remaining source.old.reader) (W.contents sink.old.writer) (W.contents sink.new.writer)
        result engine.new.short }
    ensures input { source_failed source.new ≡ (source_failed source.old || is_input result) }
    ensures output { sink_failed sink.new ≡ (sink_failed sink.old || is_output result) }
    ensures answers { AnswersRead result (R.remaining source.old.reader) (R.remaining source.new.reader)
        (W.contents sink.old.writer) (W.contents sink.new.writer) }
{
    let mut chunk = [0u8; CHUNK];
    for turn in 0..u32::MAX {
        if !send_answers(engine, sink) {
            return ScriptStatus::Broken(Cause::Output);
        }
        match source.read(&mut chunk) {
            None => return ScriptStatus::Broken(Cause::Input),
            Some(0) => return closed(engine.finish(alloc), engine, sink),
            Some(n) => {
                if let Err(stop) = engine.take(alloc, &chunk[..n]) {
                    return closed(Err(stop), engine, sink);
                }
            }
        }
    }
    ScriptStatus::Broken(Cause::Length)
}

/// What a run came to, by its status and by where its engine stands.
fn end_of<B: Reserve>(status: ScriptStatus, engine: &Engine<B>) -> ScriptEnd
    ensures { result ≡ record { status = status; short = engine.now.short } }
{
    ScriptEnd {
        status,
        short: engine.short,
    }
}

/// Runs a script: reads commands, one a line of at most 4096 bytes, and writes an answer line for each. What it writes, up to a fault, is the
/// text that the script's bytes say, for some account of which calls and turns the pool had enough blocks for and of how far turns of
/// modules' queues went; before the line `short`, and where there is none in all of it, the pool had enough, and each turn went to the
/// end of its message.
///
/// It reads at most 4096 bytes at a time, 2^32 - 1 times at most, and writes and flushes the answers to them before it reads again; a read or a
/// write that was interrupted is made again. Memory is taken for the pair where a line opens it, for a line, and for the answers to a read.
///
/// `status` says how it ended: none of its faults is an `Err`, as what was written stands. It is `Broken(Cause::Input)` exactly where a read of
/// `source` failed, and `Broken(Cause::Output)` exactly where a write or a flush of `sink` did; their errors stand there. A line costs what its
/// command costs, and a step a byte.
pub fn run_script<B: Reserve, R: Read, W: Write>(
    alloc: Global,
    source: &mut Source<R>,
    sink: &mut Sink<W>,
) -> ScriptEnd
    ensures run { IsRun (R.remaining source.old.reader) (W.contents sink.old.writer) (W.contents sink.new.writer)
        result.status result.short }
    ensures input { source_failed source.new ≡ (source_failed source.old || is_input result.status) }
    ensures output { sink_failed sink.new ≡ (sink_failed sink.old || is_output result.status) }
    ensures answers { AnswersRead result.status (R.remaining source.old.reader) (R.remaining source.new.reader)
        (W.contents sink.old.writer) (W.contents sink.new.writer) }
{
    let mut engine = Engine::<B>::new(alloc);
    let status = serve(alloc, &mut engine, source, sink);
    end_of(status, &engine)
}
