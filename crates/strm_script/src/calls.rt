//! Commands that make a call on the pair of a script.

ghost use Rattle.std.specs.Prelude.{◌≡◌, Some, option_map};
ghost use Rattle.strm_types.specs.Events.{request};
ghost use Rattle.strm_script.specs.ScriptRun.{by_call, by_flush, by_put, by_get, band_of, prio_of, wanted_of};
ghost use Rattle.strm_script.specs.Plain.{plain};
ghost use Rattle.strm_script.specs.Outcomes.{LeadsTo};

use crate::answers::Line;
use crate::commands::{NamedPrio, NamedWanted};
use crate::outcomes::{Answered, is_short, refused};
use strm_blocks::Blocks;
use strm_pair::Pair;
use strm_types::{Band, Caller, Content, Event, FlushQueues, Prio, Refusal, Wanted};

/// The largest number of a band that a call can name.
const BAND_MAX: u32 = 255;

/// A call by a command.
pub fn call<B: Blocks + Drop>(
    pair: &mut Pair<B>,
    caller: Caller,
    event: &Event<&[u8]>,
    out: &mut Content,
) -> Answered
    ensures { LeadsTo (λ account. by_call caller (request event.now) account (plain pair.old))
        result out.new.items (Some (plain pair.new)) }
{
    match pair.call(caller, event, out) {
        Ok(answer) => Answered {
            line: Line::Done(answer),
            short: false,
        },
        Err(refusal) => Answered {
            line: Line::Refused(refusal),
            short: is_short(refusal),
        },
    }
}

/// A flush by a command. A band above 255 is refused before any call.
pub fn flush<B: Blocks + Drop>(
    pair: &mut Pair<B>,
    caller: Caller,
    what: FlushQueues,
    band: Option<u32>,
    out: &mut Content,
) -> Answered
    ensures { LeadsTo (λ account. by_flush caller what band account (plain pair.old))
        result out.new.items (Some (plain pair.new)) }
{
    let band = match band {
        None => None,
        Some(number) => {
            if number > BAND_MAX {
                return refused(Refusal::Einval);
            }
            Some(Band(number as u8))
        }
    };
    call(pair, caller, &Event::Flush { what, band }, out)
}

/// The band of a number that a call can name: none above 255.
#[tactic(auto, unfolding(crate::specs::ScriptRun::band_of))]
fn band(number: u32) -> Option<Band>
    ensures { result ≡ band_of number }
{
    if number <= BAND_MAX {
        Some(Band(number as u8))
    } else {
        None
    }
}

/// The priority of a put, where a call can name it.
fn prio(named: NamedPrio) -> Option<Prio>
    ensures { result ≡ prio_of named }
{
    match named {
        NamedPrio::High => Some(Prio::High),
        NamedPrio::Band(number) => {
            let band = band(number)?;
            Some(Prio::Band(band))
        }
    }
}

/// The message that a get wants, where a call can name it.
fn wanted(named: NamedWanted) -> Option<Wanted>
    ensures { result ≡ wanted_of named }
{
    match named {
        NamedWanted::Any => Some(Wanted::Any),
        NamedWanted::High => Some(Wanted::High),
        NamedWanted::Band(number) => {
            let band = band(number)?;
            Some(Wanted::Band(band))
        }
    }
}

/// A part over its bytes where they stand.
pub fn lend(part: &Option<Vec<u8>>) -> Option<&[u8]>
    ensures { option_map (λ bytes. bytes.now) result ≡ option_map (λ bytes. bytes.items) part.now }
{
    match part {
        Some(bytes) => Some(bytes.as_slice()),
        None => None,
    }
}

/// A put by a command. A band above 255 is refused before any call.
pub fn put<B: Blocks + Drop>(
    pair: &mut Pair<B>,
    caller: Caller,
    named: NamedPrio,
    control: Option<&[u8]>,
    body: Option<&[u8]>,
    out: &mut Content,
) -> Answered
    ensures { LeadsTo (λ account. by_put caller named (option_map (λ bytes. bytes.now) control.entry)
        (option_map (λ bytes. bytes.now) body.entry) account (plain pair.old))
        result out.new.items (Some (plain pair.new)) }
{
    let Some(prio) = prio(named) else {
        return refused(Refusal::Einval);
    };
    let event = Event::Put {
        prio,
        control,
        body,
    };
    call(pair, caller, &event, out)
}

/// A get by a command. A band above 255 is refused before any call.
pub fn get<B: Blocks + Drop>(
    pair: &mut Pair<B>,
    caller: Caller,
    named: NamedWanted,
    cmax: u32,
    dmax: u32,
    out: &mut Content,
) -> Answered
    ensures { LeadsTo (λ account. by_get caller named cmax dmax account (plain pair.old))
        result out.new.items (Some (plain pair.new)) }
{
    let Some(wanted) = wanted(named) else {
        return refused(Refusal::Einval);
    };
    call(pair, caller, &Event::Get { wanted, cmax, dmax }, out)
}
