//! A script that its user hands over piece by piece, line by line say.

ghost use Rattle.std.specs.Prelude.{◌≡◌, ◌≤◌, ◌^◌, ◌↔◌, max, Err, [], length, option_map};
ghost use Rattle.std.specs.Option.{option_copied};
ghost use Rattle.strm_script.specs.Plain.{plain};
ghost use Rattle.strm_script.specs.Sessions.{Takes, TakesEnd, fresh_session};
ghost use Rattle.strm_script.specs.declared.engine.Stop.TheVariants.{TooLong};

use crate::engine::{Engine, Stop};
use std::alloc::Global;
use std::marker::Model;
use strm_blocks::Reserve;
use strm_pair::Pair;

/// How many lines of a script are answered, and how many bytes of it are taken at once, at most: 2^59.
const LINES_MAX: u64 = 576_460_752_303_423_488;

/// A script on its way, over a store of its user's choice: it takes the script's bytes, and keeps the answers until its user has them.
/// Contracts see it as how far its script has come and the answers that it keeps. Memory is taken for the pair where a line opens it, for a
/// line of at most 4096 bytes, and for the answers.
#[derive(Drop)]
pub struct Session<B: Reserve> {
    engine: Engine<B>,
}

impl<B: Reserve> Model for Session<B> {
    ghost use Rattle.strm_script.specs.Sessions.{SessionValue};
    ghost use Rattle.strm_script.specs.Steps.{value_of};

    ghost Value = { SessionValue };

    ghost view = { λ s. value_of s.engine };
}

impl<B: Reserve> Session<B> {
    /// A script that begins: no line was taken, no pair is there, and no answers are kept.
    pub fn new(alloc: Global) -> Session<B>
        ensures { result ≡ fresh_session }
    {
        Session {
            engine: Engine::new(alloc),
        }
    }

    /// Takes the next bytes of the script: a line, several, or a part of one. A line is answered where its LF is taken. What the answers say is
    /// the text that the definitions give for all bytes so far, for some account of which calls and turns the pool had enough blocks for.
    ///
    /// It stops with `Malformed` at a line that spells no command, or is longer than 4096 bytes, once its answer `err line N` is kept; with
    /// `NoMemory` where memory is refused, with whole answers; and with `TooLong` exactly where 2^59 lines have ended or so many bytes are handed
    /// over, with all as it was. The script is over then: what a later call does isn't said. A line costs what its command costs, and a step a
    /// byte.
    pub fn take(&mut self, alloc: Global, bytes: &[u8]) -> Result<(), Stop>
        ensures steps { Takes self.old self.new bytes.now result }
        ensures limit { (result ≡ Err TooLong) ↔ (2 ^ 59 ≤ max self.old.point.lines (length bytes.now)) }
    {
        if self.engine.lines.max(bytes.len() as u64) >= LINES_MAX {
            return Err(Stop::TooLong);
        }
        self.engine.take(alloc, bytes)
    }

    /// Ends the input: the last line is answered, where it lacks its LF. It stops as `take` does. Nothing is to be taken behind it.
    pub fn finish(&mut self, alloc: Global) -> Result<(), Stop>
        ensures ends { TakesEnd self.old self.new result }
        ensures limit { (result ≡ Err TooLong) ↔ (2 ^ 59 ≤ self.old.point.lines) }
    {
        if self.engine.lines >= LINES_MAX {
            return Err(Stop::TooLong);
        }
        self.engine.finish(alloc)
    }

    /// The answers that are kept: a line for each line of the script that asked for something, in their order, each with its LF.
    pub fn answers(&self) -> &[u8]
        ensures { result.now ≡ self.now.answers }
    {
        self.engine.answers.as_slice()
    }

    /// Forgets the answers that are kept, once its user has them. Their memory is kept for later ones.
    pub fn clear_answers(&mut self)
        ensures { self.new ≡ record self.old { answers = [] } }
    {
        self.engine.answers.clear();
    }

    /// The first line, counted from 1, in which a call or a turn got ENOSR, or a turn of a module's queue stopped within its message for want of
    /// blocks.
    pub fn short(&self) -> Option<u64>
        ensures { result ≡ self.now.point.short }
    {
        self.engine.short
    }

    /// The pair, once a line has opened it.
    pub fn pair(&self) -> Option<&Pair<B>>
        ensures { option_map plain (option_copied result) ≡ self.now.point.session.pair }
    {
        self.engine.pair.as_ref()
    }
}
