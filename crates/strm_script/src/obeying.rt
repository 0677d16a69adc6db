//! What commands lead to on the pair of a script.

ghost use Rattle.std.specs.Prelude.{◌≡◌, Some, None, IfOk, OnErr, option_map};
ghost use Rattle.strm_script.specs.ScriptRun.{answered, by_open, callers_behind, script_limits};
ghost use Rattle.strm_script.specs.Commands.{command_of};
ghost use Rattle.strm_script.specs.Plain.{plain};
ghost use Rattle.strm_script.specs.Outcomes.{LeadsTo};

use crate::calls::{call, flush, get, lend, put};
use crate::commands::Command;
use crate::looks::{cut, ledger, show};
use crate::outcomes::{Answered, done, refused};
use crate::turns::{run, turn};
use std::alloc::{AllocError, Global};
use strm_blocks::{Blocks, Reserve};
use strm_pair::Pair;
use strm_types::{Both, Caller, Config, Content, Event, Refusal, Side};

/// How many blocks of each kind a pair gets where a script names no number.
const USUAL_BLOCKS: u32 = 256;

/// The most blocks of each kind that a script can ask for.
const BLOCKS_MAX: u32 = 4096;

/// How many entries the journal of a script's pair holds.
const JOURNAL_EVENTS: usize = 8192;

/// How many bytes the journal of a script's pair holds.
const JOURNAL_BYTES: usize = 262144;

/// A command where the pair is there, and these make the calls on each side.
fn on_pair<B: Blocks + Drop>(
    pair: &mut Pair<B>,
    callers: &Both<Caller>,
    command: &Command,
    out: &mut Content,
) -> Answered
    ensures { LeadsTo (λ account. answered callers.now (command_of command.now) account (Some (plain pair.old)))
        result out.new.items (Some (plain pair.new)) }
{
    match command {
        Command::Open { blocks: _ } => refused(Refusal::Einval),
        Command::Call { side, event } => call(pair, *callers.get(*side), &event.lend(), out),
        Command::Flush { side, what, band } => flush(pair, *callers.get(*side), *what, *band, out),
        Command::Put {
            side,
            prio,
            control,
            body,
        } => put(
            pair,
            *callers.get(*side),
            *prio,
            lend(control),
            lend(body),
            out,
        ),
        Command::Get {
            side,
            wanted,
            cmax,
            dmax,
        } => get(pair, *callers.get(*side), *wanted, *cmax, *dmax, out),
        Command::Turn { name } => turn(pair, *name),
        Command::Run { turns } => run(pair, *turns),
        Command::Show { side } => show(pair, *side),
        Command::Ledger { direction } => ledger(pair, *direction),
        Command::Cut => cut(pair),
        Command::Group { caller: _ } => done(),
    }
}

/// The sizes of a script's pair.
fn limits(blocks: u32) -> Config
    ensures { result ≡ script_limits blocks }
{
    Config {
        mblks: blocks as usize,
        dblks: blocks as usize,
        journal_events: JOURNAL_EVENTS,
        journal_bytes: JOURNAL_BYTES,
    }
}

/// Makes a pair over a new store and has its master opened by this caller, where the number of blocks is from 1 to 4096. Want of
/// memory, for the store or for the pair, changes nothing.
fn open<B: Reserve>(
    alloc: Global,
    pair: &mut Option<Pair<B>>,
    caller: Caller,
    blocks: u32,
    out: &mut Content,
) -> Result<Answered, AllocError>
    requires { pair.old ≡ None }
    ensures ok { IfOk result (λ found. LeadsTo (by_open caller blocks) found out.new.items (option_map plain pair.new)) }
    ensures err { OnErr result (pair.new ≡ pair.old) }
{
    if blocks == 0 || blocks > BLOCKS_MAX {
        return Ok(refused(Refusal::Einval));
    }
    let sizes = limits(blocks);
    let store = B::reserve(alloc, sizes.mblks, sizes.dblks)?;
    let Ok(mut fresh) = Pair::new(alloc, sizes, store) else {
        return Err(AllocError);
    };
    let answered = call(&mut fresh, caller, &Event::OpenMaster, out);
    *pair = Some(fresh);
    Ok(answered)
}

/// Who makes the calls on each side behind a command.
pub fn callers_behind(callers: Both<Caller>, command: &Command) -> Both<Caller>
    ensures { result ≡ callers_behind (command_of command.now) callers }
{
    let Command::Group { caller } = command else {
        return callers;
    };
    match caller.side {
        Side::Master => Both {
            master: *caller,
            ..callers
        },
        Side::Slave => Both {
            slave: *caller,
            ..callers
        },
    }
}

/// What a command leads to where these make the calls on each side, with the bytes that it gives in `out`. Want of memory changes nothing of
/// the pair.
pub fn answer<B: Reserve>(
    alloc: Global,
    pair: &mut Option<Pair<B>>,
    callers: &Both<Caller>,
    command: &Command,
    out: &mut Content,
) -> Result<Answered, AllocError>
    ensures ok { IfOk result (λ found. LeadsTo
        (λ account. answered callers.now (command_of command.now) account (option_map plain pair.old))
        found out.new.items (option_map plain pair.new)) }
    ensures err { OnErr result (pair.new ≡ pair.old) }
{
    if let Some(pair) = pair {
        return Ok(on_pair(pair, callers, command, out));
    }
    match command {
        Command::Open { blocks } => {
            let blocks = blocks.unwrap_or(USUAL_BLOCKS);
            open(alloc, pair, callers.master, blocks, out)
        }
        Command::Group { caller: _ } => Ok(done()),
        _ => Ok(refused(Refusal::Enxio)),
    }
}
