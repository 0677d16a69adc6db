//! What a line of a script says. A command is a row of `VERBS` in verbs.rt and an arm of [`of_verb`].

ghost use Rattle.std.specs.Prelude.{◌≡◌, ◌≤◌, IfOk, length};
ghost use Rattle.strm_script.specs.Script as script;
ghost use Rattle.strm_script.specs.declared.verbs.Verb.TheVariants as verbs;
ghost use Rattle.strm_script.specs.Table.{ASide, Ends, Last, get_form, form_of, IsSpelled};
ghost use Rattle.strm_script.specs.ScriptReading.{form_in, command_in, reading, Spoken};
ghost use Rattle.strm_script.specs.Commands.{command_of, commands_of, request_of, reading_of};

use crate::commands::{Command, NamedWanted, Reading};
use crate::ioctls::{ioctl, ioctl_name};
use crate::numbers::number;
use crate::texts::{part, text};
use crate::verbs::{Verb, of_word};
use crate::words::{
    direction, flags, flush_queues, last, mode, name, next, next_number, next_side, prio, queue,
    side, split, wanted,
};
use std::alloc::{AllocError, Global};
use strm_types::{Caller, Event, Side};

/// The most bytes of a line, without its LF.
pub const LINE_MAX: usize = 4096;

/// The most bytes of each part that a `get` takes where a script names no sizes.
const USUAL_SIZE: u32 = 1024;

/// A call on a side's stream.
fn call(side: Side, event: Event<Vec<u8>>) -> Command
    ensures { command_of result ≡ script.Call side (request_of event) }
{
    Command::Call { side, event }
}

/// A command behind whose word nothing stands.
fn alone(command: Command, rest: &[u8]) -> Option<Command>
    ensures { commands_of result ≡ form_in (Ends (command_of command)) rest.now }
{
    if rest.is_empty() { Some(command) } else { None }
}

/// A call behind whose word a side stands.
fn on_side(event: Event<Vec<u8>>, rest: &[u8]) -> Option<Command>
    ensures { commands_of result ≡ form_in (Last ASide (λ side. script.Call side (request_of event))) rest.now }
{
    let side = side(last(rest)?)?;
    Some(Command::Call { side, event })
}

/// `open`, or `open N`: what stands behind its word, as in each of these.
fn open(rest: &[u8]) -> Option<Command>
    ensures { commands_of result ≡ form_in (form_of verbs.Open) rest.now }
{
    if rest.is_empty() {
        return Some(Command::Open { blocks: None });
    }
    let blocks = number(last(rest)?)?;
    Some(Command::Open {
        blocks: Some(blocks),
    })
}

/// `push X NAME`.
fn push(rest: &[u8]) -> Option<Command>
    ensures { commands_of result ≡ form_in (form_of verbs.Push) rest.now }
{
    let (side, rest) = next_side(rest)?;
    let name = name(last(rest)?)?;
    let event = Event::Push { name };
    Some(Command::Call { side, event })
}

/// `write X TEXT`.
fn write(alloc: Global, rest: &[u8]) -> Result<Option<Command>, AllocError>
    ensures { IfOk result (λ found. commands_of found ≡ form_in (form_of verbs.Write) rest.now) }
{
    let Some((side, rest)) = next_side(rest) else {
        return Ok(None);
    };
    let Some(word) = last(rest) else {
        return Ok(None);
    };
    let Some(bytes) = text(alloc, word)? else {
        return Ok(None);
    };
    let event = Event::Write { bytes };
    Ok(Some(Command::Call { side, event }))
}

/// `read X N`.
fn read(rest: &[u8]) -> Option<Command>
    ensures { commands_of result ≡ form_in (form_of verbs.Read) rest.now }
{
    let (side, rest) = next_side(rest)?;
    let n = number(last(rest)?)?;
    let event = Event::Read { n };
    Some(Command::Call { side, event })
}

/// `put X PRIO CTL DATA`.
fn put(alloc: Global, rest: &[u8]) -> Result<Option<Command>, AllocError>
    ensures { IfOk result (λ found. commands_of found ≡ form_in (form_of verbs.Put) rest.now) }
{
    let Some((side, rest)) = next_side(rest) else {
        return Ok(None);
    };
    let Some((word, rest)) = next(rest) else {
        return Ok(None);
    };
    let Some(prio) = prio(word) else {
        return Ok(None);
    };
    let Some((word, rest)) = next(rest) else {
        return Ok(None);
    };
    let Some(control) = part(alloc, word)? else {
        return Ok(None);
    };
    let Some(word) = last(rest) else {
        return Ok(None);
    };
    let Some(body) = part(alloc, word)? else {
        return Ok(None);
    };
    Ok(Some(Command::Put {
        side,
        prio,
        control,
        body,
    }))
}

/// `WANTED CMAX DMAX` of a get.
fn sized_get(side: Side, rest: &[u8]) -> Option<Command>
    ensures { commands_of result ≡ form_in (get_form side) rest.now }
{
    let (word, rest) = next(rest)?;
    let wanted = wanted(word)?;
    let (cmax, rest) = next_number(rest)?;
    let dmax = number(last(rest)?)?;
    Some(Command::Get {
        side,
        wanted,
        cmax,
        dmax,
    })
}

/// `get X`, or `get X WANTED CMAX DMAX`.
fn get(rest: &[u8]) -> Option<Command>
    ensures { commands_of result ≡ form_in (form_of verbs.Get) rest.now }
{
    let (side, rest) = next_side(rest)?;
    if rest.is_empty() {
        return Some(Command::Get {
            side,
            wanted: NamedWanted::Any,
            cmax: USUAL_SIZE,
            dmax: USUAL_SIZE,
        });
    }
    sized_get(side, rest)
}

/// `mode X MODE`.
fn set_mode(rest: &[u8]) -> Option<Command>
    ensures { commands_of result ≡ form_in (form_of verbs.Mode) rest.now }
{
    let (side, rest) = next_side(rest)?;
    let mode = mode(last(rest)?)?;
    let event = Event::Mode { mode };
    Some(Command::Call { side, event })
}

/// `flush X QUEUES`, or `flush X QUEUES BAND`.
fn flush(rest: &[u8]) -> Option<Command>
    ensures { commands_of result ≡ form_in (form_of verbs.Flush) rest.now }
{
    let (side, rest) = next_side(rest)?;
    let (word, rest) = next(rest)?;
    let what = flush_queues(word)?;
    if rest.is_empty() {
        let band = None;
        return Some(Command::Flush { side, what, band });
    }
    let band = Some(number(last(rest)?)?);
    Some(Command::Flush { side, what, band })
}

/// `ioctl X NAME ARGS`.
fn on_ioctl(alloc: Global, rest: &[u8]) -> Result<Option<Command>, AllocError>
    ensures { IfOk result (λ found. commands_of found ≡ form_in (form_of verbs.Ioctl) rest.now) }
{
    let Some((side, rest)) = next_side(rest) else {
        return Ok(None);
    };
    let Some((word, rest)) = next(rest) else {
        return Ok(None);
    };
    match ioctl_name(word) {
        Some(name) => ioctl(alloc, side, name, rest),
        None => Ok(None),
    }
}

/// `poll X N`.
fn poll(rest: &[u8]) -> Option<Command>
    ensures { commands_of result ≡ form_in (form_of verbs.Poll) rest.now }
{
    let (side, rest) = next_side(rest)?;
    let number = number(last(rest)?)?;
    let event = Event::IoctlResult { number };
    Some(Command::Call { side, event })
}

/// `group X N FLAGS`.
fn group(rest: &[u8]) -> Option<Command>
    ensures { commands_of result ≡ form_in (form_of verbs.Group) rest.now }
{
    let (side, rest) = next_side(rest)?;
    let (group, rest) = next_number(rest)?;
    let (ignores, orphaned) = flags(last(rest)?)?;
    let caller = Caller {
        side,
        group,
        ignores,
        orphaned,
    };
    Some(Command::Group { caller })
}

/// `turn QUEUE`.
fn turn(rest: &[u8]) -> Option<Command>
    ensures { commands_of result ≡ form_in (form_of verbs.Turn) rest.now }
{
    let name = queue(last(rest)?)?;
    Some(Command::Turn { name })
}

/// `run N`.
fn run(rest: &[u8]) -> Option<Command>
    ensures { commands_of result ≡ form_in (form_of verbs.Run) rest.now }
{
    let turns = number(last(rest)?)?;
    Some(Command::Run { turns })
}

/// `show X`.
fn show(rest: &[u8]) -> Option<Command>
    ensures { commands_of result ≡ form_in (form_of verbs.Show) rest.now }
{
    let side = side(last(rest)?)?;
    Some(Command::Show { side })
}

/// `ledger D`.
fn ledger(rest: &[u8]) -> Option<Command>
    ensures { commands_of result ≡ form_in (form_of verbs.Ledger) rest.now }
{
    let direction = direction(last(rest)?)?;
    Some(Command::Ledger { direction })
}

/// The command of a verb, of which its word is read.
fn of_verb(alloc: Global, verb: Verb, rest: &[u8]) -> Result<Option<Command>, AllocError>
    ensures { IfOk result (λ found. commands_of found ≡ form_in (form_of verb) rest.now) }
{
    match verb {
        Verb::Open => Ok(open(rest)),
        Verb::Unlock => Ok(alone(call(Side::Master, Event::Unlock), rest)),
        Verb::Slave => Ok(alone(call(Side::Slave, Event::OpenSlave), rest)),
        Verb::Close => Ok(on_side(Event::Shut, rest)),
        Verb::Push => Ok(push(rest)),
        Verb::Pop => Ok(on_side(Event::Pop, rest)),
        Verb::Look => Ok(on_side(Event::Look, rest)),
        Verb::Write => write(alloc, rest),
        Verb::Read => Ok(read(rest)),
        Verb::Put => put(alloc, rest),
        Verb::Get => Ok(get(rest)),
        Verb::Mode => Ok(set_mode(rest)),
        Verb::Flush => Ok(flush(rest)),
        Verb::Ioctl => on_ioctl(alloc, rest),
        Verb::Poll => Ok(poll(rest)),
        Verb::Signals => Ok(on_side(Event::Signals, rest)),
        Verb::Group => Ok(group(rest)),
        Verb::Turn => Ok(turn(rest)),
        Verb::Run => Ok(run(rest)),
        Verb::Show => Ok(show(rest)),
        Verb::Ledger => Ok(ledger(rest)),
        Verb::Cut => Ok(alone(Command::Cut, rest)),
    }
}

/// The command that a line spells.
#[tactic(auto, unfolding(crate::specs::ScriptReading::command_in))]
fn command(alloc: Global, line: &[u8]) -> Result<Option<Command>, AllocError>
    ensures { IfOk result (λ found. commands_of found ≡ command_in line.now) }
{
    let (word, rest) = split(line);
    match of_word(word) {
        Some(verb) => of_verb(alloc, verb, rest),
        None => Ok(None),
    }
}

/// What a line says, by its length, its first byte and its command.
#[tactic(auto, unfolding(crate::specs::ScriptReading::reading))]
fn said(alloc: Global, line: &[u8]) -> Result<Reading, AllocError>
    ensures { IfOk result (λ found. reading_of found ≡ reading line.now) }
{
    if line.len() > LINE_MAX {
        return Ok(Reading::Malformed);
    }
    if line.is_empty() || line[0] == b'#' {
        return Ok(Reading::Silent);
    }
    match command(alloc, line)? {
        Some(command) => Ok(Reading::Spoken(command)),
        None => Ok(Reading::Malformed),
    }
}

/// What a line says, without its LF. Only want of memory is an `Err`.
pub fn reading(alloc: Global, line: &[u8]) -> Result<Reading, AllocError>
    ensures same { IfOk result (λ found. reading_of found ≡ reading line.now) }
    // What is read is spelled so.
    ensures found { IfOk result (λ found. (command : script.Command) → reading_of found ≡ Spoken command
        → IsSpelled command line.now) }
    // What is spelled so is read.
    ensures only { IfOk result (λ found. (command : script.Command) → IsSpelled command line.now
        → length line.now ≤ 4096 → reading_of found ≡ Spoken command) }
{
    said(alloc, line)
}
