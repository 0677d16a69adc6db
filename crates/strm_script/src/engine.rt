//! A script on its way, byte by byte.

ghost use Rattle.std.specs.Prelude.{◌≡◌, ◌+◌, ◌<◌, ◌≤◌, ◌^◌, length, [], ◌∷◌, ◌++◌, None, OnOk, OnErr};
ghost use Rattle.strm_script.specs.ScriptAnswers.{printed_line};
ghost use Rattle.strm_script.specs.ScriptRun.{first_of, line_if};
ghost use Rattle.strm_script.specs.Commands.{command_of};
ghost use Rattle.strm_script.specs.Lines.{line_of};

use crate::answers::{Line, Shown};
use crate::commands::{Command, Reading};
use crate::lines::{LINE_MAX, reading};
use crate::obeying::{answer, callers_behind};
use std::alloc::{AllocError, Global};
use strm_blocks::Reserve;
use strm_pair::Pair;
use strm_types::{Both, Caller, Content, Side};

/// Why a script ends before its input does.
#[derive(Clone, Copy, Debug, PartialEq)]
pub enum Stop {
    /// A line spells no command, or is longer than 4096 bytes; the last answer, `err line N`, says which.
    Malformed,
    /// Memory was refused. Each answer is whole.
    NoMemory,
    /// 2^59 lines have ended, or so many bytes are handed over at once. All is as it was.
    TooLong,
}

/// A script on its way: its pair and who makes the calls on it, the line that is read, and the answers that aren't written yet.
pub struct Engine<B: Reserve> {
    /// The pair, once there was an `open`.
    pub pair: Option<Pair<B>>,
    /// Who makes the calls on each side.
    pub callers: Both<Caller>,
    /// How many lines have ended.
    pub lines: u64,
    /// The bytes so far of the next line, at most 4096.
    pub line: Vec<u8>,
    /// The first line in which the pool was short of blocks for an event.
    pub short: Option<u64>,
    /// The answers that aren't written yet.
    pub answers: Vec<u8>,
    /// The bytes that the last call gave.
    pub out: Content,
}

// Of its own, so that who owns one doesn't take it apart at each way out.
impl<B: Reserve> Drop for Engine<B> {
    fn drop(self) {
        let Engine {
            pair: _,
            callers: _,
            lines: _,
            line: _,
            short: _,
            answers: _,
            out: _,
        } = self;
    }
}

/// Puts an answer line behind the others. Want of memory changes nothing.
fn say(alloc: Global, line: &Line, bytes: &[u8], answers: &mut Vec<u8>) -> Result<(), AllocError>
    ensures ok { OnOk result (answers.new.items ≡ answers.old.items ++ printed_line (line_of bytes.now line.now)) }
    ensures err { OnErr result (answers.new.items ≡ answers.old.items) }
{
    let shown = Shown { line, bytes };
    let text = format!(in alloc; "{shown}\n")?;
    answers.extend_from_slice(text.as_bytes())?;
    Ok(())
}

impl<B: Reserve> Engine<B> {
    ghost use Rattle.strm_script.specs.Sessions.{Steps, EndsInput, fresh_session};
    ghost use Rattle.strm_script.specs.Steps.{Refused, Obeyed, AnswersLine, value_of};

    /// A script that begins.
    pub fn new(alloc: Global) -> Engine<B>
        ensures { value_of result ≡ fresh_session }
    {
        Engine {
            pair: None,
            callers: Both {
                master: Caller::of(Side::Master),
                slave: Caller::of(Side::Slave),
            },
            lines: 0,
            line: Vec::new(alloc),
            short: None,
            answers: Vec::new(alloc),
            out: Content::new(),
        }
    }

    /// Notes that the pool was short of blocks for an event of the next line to end, where that line is the first.
    fn note(&mut self, short: bool)
        requires { self.old.lines < 2 ^ 60 }
        ensures { self.new ≡ record self.old { short = first_of self.old.short (line_if short (self.old.lines + 1)) } }
    {
        if short && self.short.is_none() {
            self.short = Some(self.lines + 1);
        }
    }

    /// Says that the next line to end is malformed.
    fn refuse(&mut self, alloc: Global) -> Stop
        requires { self.old.lines < 2 ^ 60 }
        ensures refused { Refused self.old self.new result }
        ensures lines { self.new.lines ≡ self.old.lines }
    {
        let line = Line::Wrong(self.lines + 1);
        if say(alloc, &line, &[], &mut self.answers).is_ok() {
            Stop::Malformed
        } else {
            Stop::NoMemory
        }
    }

    /// Carries out the command of the next line to end, and says its answer.
    fn obey(&mut self, alloc: Global, command: &Command) -> Result<(), Stop>
        requires { self.old.lines < 2 ^ 60 }
        ensures obeyed { Obeyed (command_of command.now) self.old self.new result }
        ensures lines { self.new.lines ≡ self.old.lines }
    {
        let callers = self.callers;
        let Ok(answered) = answer(alloc, &mut self.pair, &callers, command, &mut self.out) else {
            return Err(Stop::NoMemory);
        };
        self.callers = callers_behind(callers, command);
        self.note(answered.short);
        if say(
            alloc,
            &answered.line,
            self.out.as_slice(),
            &mut self.answers,
        )
        .is_ok()
        {
            Ok(())
        } else {
            Err(Stop::NoMemory)
        }
    }

    /// Answers the line that ends.
    fn answer_line(&mut self, alloc: Global) -> Result<(), Stop>
        requires { self.old.lines < 2 ^ 60 }
        ensures answers { AnswersLine self.old self.new result }
        ensures lines { self.new.lines ≡ self.old.lines }
    {
        let Ok(found) = reading(alloc, self.line.as_slice()) else {
            return Err(Stop::NoMemory);
        };
        match found {
            Reading::Silent => Ok(()),
            Reading::Malformed => Err(self.refuse(alloc)),
            Reading::Spoken(command) => self.obey(alloc, &command),
        }
    }

    /// Answers the line that ends, and begins the next.
    fn end_line(&mut self, alloc: Global) -> Result<(), Stop>
        requires { self.old.lines < 2 ^ 60 }
        ensures steps { Steps (value_of self.old) (value_of self.new) (10 ∷ []) result }
        ensures fresh { OnOk result (self.new.line.items ≡ []) }
        ensures count { self.new.lines ≤ self.old.lines + 1 }
    {
        if let Err(stop) = self.answer_line(alloc) {
            return Err(stop);
        }
        self.lines += 1;
        self.line.clear();
        Ok(())
    }

    /// Takes the next byte.
    fn take_byte(&mut self, alloc: Global, byte: u8) -> Result<(), Stop>
        requires { self.old.lines < 2 ^ 60 }
        ensures steps { Steps (value_of self.old) (value_of self.new) (byte ∷ []) result }
        ensures count { self.new.lines ≤ self.old.lines + 1 }
    {
        if byte == b'\n' {
            return self.end_line(alloc);
        }
        if self.line.len() >= LINE_MAX {
            return Err(self.refuse(alloc));
        }
        if self.line.push(byte).is_ok() {
            Ok(())
        } else {
            Err(Stop::NoMemory)
        }
    }

    /// Takes the next bytes of the script.
    pub fn take(&mut self, alloc: Global, bytes: &[u8]) -> Result<(), Stop>
        requires { self.old.lines + length bytes.now < 2 ^ 60 }
        ensures steps { Steps (value_of self.old) (value_of self.new) bytes.now result }
        ensures count { self.new.lines ≤ self.old.lines + length bytes.now }
    {
        for byte in bytes {
            if let Err(stop) = self.take_byte(alloc, *byte) {
                return Err(stop);
            }
        }
        Ok(())
    }

    /// Answers the last line, where it lacks its LF.
    pub fn finish(&mut self, alloc: Global) -> Result<(), Stop>
        requires { self.old.lines < 2 ^ 60 }
        ensures { EndsInput (value_of self.old) (value_of self.new) result }
    {
        if self.line.is_empty() {
            return Ok(());
        }
        self.end_line(alloc)
    }
}
