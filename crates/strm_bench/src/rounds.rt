//! Rounds on a pair. Each tells how many bytes were read, or nothing where a call or a turn was refused.

ghost use Rattle.std.specs.Prelude.{◌≤◌, length, IfSome};
ghost use Rattle.std.specs.Bool.{OnTrue};

use crate::making::{MASTER, SLAVE, calls, turns};
use crate::plans::{Act, Round};
use std::alloc::Global;
use strm_blocks::{Blocks, Reserve};
use strm_pair::Pair;
use strm_types::{Answer, Band, Caller, Config, Content, Event, Prio, Refusal, TIOCGWINSZ, Wanted};

// How often a round writes, and reads behind each write, at most.
const OFTEN: u32 = 4096;

// Who writes in a round, who reads, and whether the writer also reads what is echoed.
#[derive(Clone, Copy)]
struct Ends {
    writer: Caller,
    reader: Caller,
    echoed: bool,
}

fn ends_of(act: Act) -> Ends {
    let (writer, reader) = match act {
        Act::Keys => (MASTER, MASTER),
        Act::Shows => (SLAVE, MASTER),
        _ => (MASTER, SLAVE),
    };
    Ends {
        writer,
        reader,
        echoed: matches!(act, Act::TypesEchoed),
    }
}

/// A write, and the turns that carry it to the head across; how many bytes it took.
pub fn sends<B: Blocks + Drop>(
    pair: &mut Pair<B>,
    writer: Caller,
    bytes: &[u8],
    out: &mut Content,
) -> Option<usize> {
    let Ok(Answer::Count(taken)) = pair.write(writer, bytes, out) else {
        return None;
    };
    if !turns(pair) {
        return None;
    }
    Some(taken as usize)
}

// A read of up to so many bytes; whether it was granted.
fn reads<B: Blocks + Drop>(pair: &mut Pair<B>, reader: Caller, n: u32, out: &mut Content) -> bool
    ensures { OnTrue result (length out.new.items ≤ n) }
{
    pair.read(reader, n, out).is_ok()
}

// Reads till nothing more stands, or so many bytes were read; how many of them are left.
fn drains<B: Blocks + Drop>(pair: &mut Pair<B>, reader: Caller, n: u32, out: &mut Content) -> u32
    ensures { result ≤ n }
{
    let mut left = n;
    for _ in 0..OFTEN {
        if left == 0 || !reads(pair, reader, left, out) {
            break;
        }
        left -= out.len() as u32;
    }
    left
}

// Writes a text to its end, as much at a time as is taken, and reads what comes.
fn moves<B: Blocks + Drop>(
    pair: &mut Pair<B>,
    round: &Round,
    text: &[u8],
    out: &mut Content,
) -> Option<u32>
    ensures { IfSome result (λ bytes. bytes ≤ round.now.asked) }
{
    let ends = ends_of(round.act);
    let mut rest = text;
    let mut left = round.asked;
    for _ in 0..OFTEN {
        let taken = sends(pair, ends.writer, rest, out)?;
        rest = &rest[taken.min(rest.len())..];
        left = drains(pair, ends.reader, left, out);
        if ends.echoed && !calls(pair, ends.writer, &Event::Read { n: 4096 }, out) {
            return None;
        }
        if !turns(pair) {
            return None;
        }
        if rest.is_empty() {
            break;
        }
    }
    Some(round.asked - left)
}

// How many bytes were given, where they are no more than was asked for.
fn given(round: &Round, out: &Content) -> Option<u32>
    ensures { IfSome result (λ bytes. bytes ≤ round.now.asked) }
{
    let bytes = out.len() as u32;
    if bytes > round.asked {
        return None;
    }
    Some(bytes)
}

// Sends a message of a band with a control part, whose data part is the text, and takes it on the slave.
fn messages<B: Blocks + Drop>(
    pair: &mut Pair<B>,
    round: &Round,
    band: Band,
    text: &[u8],
    out: &mut Content,
) -> Option<u32>
    ensures { IfSome result (λ bytes. bytes ≤ round.now.asked) }
{
    let put = Event::Put {
        prio: Prio::Band(band),
        control: Some(&b"head"[..]),
        body: Some(text),
    };
    let get = Event::Get {
        wanted: Wanted::Any,
        cmax: 64,
        dmax: 256,
    };
    if !calls(pair, MASTER, &put, out) || !turns(pair) || !calls(pair, SLAVE, &get, out) {
        return None;
    }
    given(round, out)
}

// Asks for the size of the slave's window.
fn winsizes<B: Blocks + Drop>(pair: &mut Pair<B>, round: &Round, out: &mut Content) -> Option<u32>
    ensures { IfSome result (λ bytes. bytes ≤ round.now.asked) }
{
    let ask = Event::Ioctl {
        command: TIOCGWINSZ,
        body: &b""[..],
    };
    if !calls(pair, SLAVE, &ask, out) {
        return None;
    }
    given(round, out)
}

// So many bytes, where they are no more than was asked for.
fn counted(round: &Round, bytes: usize) -> Option<u32>
    ensures { IfSome result (λ bytes. bytes ≤ round.now.asked) }
{
    if bytes > round.asked as usize {
        return None;
    }
    Some(bytes as u32)
}

// Writes the image of the pair: how many bytes it has.
fn images<B: Blocks + Drop>(alloc: Global, pair: &Pair<B>, round: &Round) -> Option<u32>
    ensures { IfSome result (λ bytes. bytes ≤ round.now.asked) }
{
    let Ok(text) = pair.image(alloc) else {
        return None;
    };
    counted(round, text.len())
}

// Writes the image of the pair, and makes a pair of it with as many blocks, and a journal of one entry: how many bytes it has.
fn restores<B: Reserve>(alloc: Global, pair: &Pair<B>, round: &Round) -> Option<u32>
    ensures { IfSome result (λ bytes. bytes ≤ round.now.asked) }
{
    let Ok(text) = pair.image(alloc) else {
        return None;
    };
    let sizes = Config {
        mblks: 64,
        dblks: 64,
        journal_events: 1,
        journal_bytes: 1,
    };
    let Ok(store) = B::reserve(alloc, sizes.mblks, sizes.dblks) else {
        return None;
    };
    let made: Result<Pair<B>, (Refusal, B)> = Pair::restore(alloc, sizes, text.as_slice(), store);
    if made.is_err() {
        return None;
    }
    counted(round, text.len())
}

// A round of bytes, and a cut.
fn cuts<B: Blocks + Drop>(
    alloc: Global,
    pair: &mut Pair<B>,
    round: &Round,
    text: &[u8],
    out: &mut Content,
) -> Option<u32>
    ensures { IfSome result (λ bytes. bytes ≤ round.now.asked) }
{
    let bytes = moves(pair, round, text, out)?;
    if pair.cut(alloc).is_err() {
        return None;
    }
    Some(bytes)
}

/// A round, whose text is this one.
pub fn makes_round<B: Reserve>(
    alloc: Global,
    pair: &mut Pair<B>,
    round: &Round,
    text: &[u8],
    out: &mut Content,
) -> Option<u32>
    ensures { IfSome result (λ bytes. bytes ≤ round.now.asked) }
{
    match round.act {
        Act::Messages => messages(pair, round, Band(0), text, out),
        Act::BandedMessages => messages(pair, round, Band(200), text, out),
        Act::Winsizes => winsizes(pair, round, out),
        Act::Images => images(alloc, pair, round),
        Act::Restores => restores(alloc, pair, round),
        Act::Cuts => cuts(alloc, pair, round, text, out),
        _ => moves(pair, round, text, out),
    }
}
