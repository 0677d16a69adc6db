//! The journal that is handed out with its base, and begins anew.

use super::steps::{
    MASTER, MASTER_DRIVER, SIZES, SLAVE, SLAVE_HEAD, Step, follow, has_entered, new_pair, opens,
    reset, restart,
};
use super::texts::image_of;
use std::alloc::{AllocError, Global};
use std::process::Abort;
use std::test::Fail;
use strm_blocks::{Blocks, Reserve, TableStore};
use strm_image::Trace;
use strm_pair::Pair;
use strm_raw::RawStore;
use strm_types::{Answer, Content, Entry, Event, Turn};

// What is made between two cuts: three bytes cross, and two of them are read.
const BETWEEN: [Step<'static>; 4] = [
    Step::Call(MASTER, Event::Write { bytes: b"abc" }, Ok(Answer::Count(3))),
    Step::Turn(MASTER_DRIVER, Ok(Turn::Moved(3))),
    Step::Read(SLAVE, 2, b"ab"),
    Step::Call(MASTER, Event::Write { bytes: b"de" }, Ok(Answer::Count(2))),
];

const GOES_ON: [Step<'static>; 4] = [
    Step::Entered(0, b""),
    Step::Sizes(SLAVE_HEAD, 1, 1),
    Step::Turn(MASTER_DRIVER, Ok(Turn::Moved(2))),
    Step::Read(SLAVE, 9, b"cde"),
];

fn cut<B: Blocks + Drop>(alloc: Global, pair: &mut Pair<B>) -> Result<Trace, AllocError> {
    let Ok(trace) = pair.cut(alloc) else {
        return Err(AllocError);
    };
    Ok(trace)
}

// Makes the entries of a trace on a pair, and says whether each answers as it did. None is a put.
fn makes_again<B: Blocks + Drop>(pair: &mut Pair<B>, trace: &Trace) -> bool {
    let mut rest = trace.bytes.as_slice();
    let mut out = Content::new();
    for packed in trace.entries.as_slice() {
        let is_same = match packed.entry() {
            Entry::Turned { queue, turn } => pair.turn(queue) == Ok(turn),
            Entry::Called {
                caller,
                event,
                answer,
            } => {
                let asked = event.map(|n| rest.get(..*n as usize).unwrap_or(&[]));
                let came = pair.call(caller, &asked, &mut out);
                let (first, second) = asked.payload();
                let taken = first
                    .len()
                    .saturating_add(second.len())
                    .saturating_add(out.len());
                rest = rest.get(taken..).unwrap_or(&[]);
                came == Ok(answer)
            }
        };
        if !is_same {
            return false;
        }
    }
    rest.is_empty()
}

// Whether the journal begins at this image.
fn begins_at<B: Blocks + Drop>(pair: &Pair<B>, image: &[u8]) -> bool {
    pair.journal().base == image
}

// Whether a trace has this base, and so many entries with these bytes.
fn has(trace: &Trace, base: &[u8], entries: usize, bytes: &[u8]) -> bool {
    trace.base.as_slice() == base
        && trace.entries.len() == entries
        && trace.bytes.as_slice() == bytes
}

// Whether the journal is empty, and begins at the pair's image.
fn is_begun<B: Blocks + Drop>(alloc: Global, pair: &Pair<B>) -> Result<bool, AllocError> {
    let image = image_of(alloc, pair)?;
    Ok(has_entered(pair, 0, b"") && begins_at(pair, image.as_slice()))
}

// Cuts a pair, and says whether the cut has this base, and so many entries with these bytes. The journal is empty then, and begins at the
// pair's image.
fn cuts<B: Blocks + Drop>(
    alloc: Global,
    pair: &mut Pair<B>,
    base: &[u8],
    entries: usize,
    bytes: &[u8],
) -> Result<bool, AllocError> {
    let trace = cut(alloc, pair)?;
    let begun = is_begun(alloc, pair)?;
    Ok(has(&trace, base, entries, bytes) && begun)
}

// Cuts a pair behind its opening, behind what crosses then, and once more.
fn is_cut_thrice<B: Blocks + Drop>(
    rt: &impl Abort,
    alloc: Global,
    pair: &mut Pair<B>,
) -> Result<(), AllocError> {
    let unopened = image_of(alloc, pair)?;
    opens(rt, pair);
    let opened = image_of(alloc, pair)?;
    assert!(rt; cuts(alloc, pair, unopened.as_slice(), 3, b"")?);
    follow(rt, pair, "between two cuts", &BETWEEN);
    let crossed = image_of(alloc, pair)?;
    assert!(rt; cuts(alloc, pair, opened.as_slice(), 4, b"abcabde")?);
    assert!(rt; cuts(alloc, pair, crossed.as_slice(), 0, b"")?);
    follow(rt, pair, "behind the cuts", &GOES_ON);
    Ok(())
}

// Whether this is the image of a pair.
fn is_imaged<B: Blocks + Drop>(
    alloc: Global,
    pair: &Pair<B>,
    image: &[u8],
) -> Result<bool, AllocError> {
    let own = image_of(alloc, pair)?;
    Ok(own.as_slice() == image)
}

// Cuts a pair and makes the entries of the cut on another one, whose image is its base, and says whether the images of both are one then.
fn leads<B: Blocks + Drop>(
    alloc: Global,
    pair: &mut Pair<B>,
    twin: &mut Pair<B>,
) -> Result<bool, AllocError> {
    let trace = cut(alloc, pair)?;
    let is_base = is_imaged(alloc, twin, trace.base.as_slice())?;
    let is_same = makes_again(twin, &trace);
    let image = image_of(alloc, pair)?;
    Ok(is_base && is_same && is_imaged(alloc, twin, image.as_slice())?)
}

// The entries of each cut lead from its base to the next one.
fn is_led_by_cuts<B: Blocks + Drop>(
    rt: &impl Abort,
    alloc: Global,
    pair: &mut Pair<B>,
    twin: &mut Pair<B>,
) -> Result<(), AllocError> {
    opens(rt, pair);
    assert!(rt; leads(alloc, pair, twin)?);
    follow(rt, pair, "between two cuts", &BETWEEN);
    assert!(rt; leads(alloc, pair, twin)?);
    assert!(rt; leads(alloc, pair, twin)?);
    Ok(())
}

// The base is that of the last restart or reset.
fn begins_anew<B: Blocks + Drop>(
    rt: &impl Abort,
    alloc: Global,
    pair: &mut Pair<B>,
) -> Result<(), AllocError> {
    let unopened = image_of(alloc, pair)?;
    assert!(rt; begins_at(pair, unopened.as_slice()));
    opens(rt, pair);
    follow(rt, pair, "between two cuts", &BETWEEN);
    let crossed = image_of(alloc, pair)?;
    restart(pair);
    assert!(rt; begins_at(pair, crossed.as_slice()));
    reset(pair);
    assert!(rt; begins_at(pair, unopened.as_slice()));
    Ok(())
}

// All three on pairs as new.
fn are_cut_beside<B: Blocks + Drop>(
    rt: &impl Abort,
    alloc: Global,
    pair: &mut Pair<B>,
    twin: &mut Pair<B>,
) -> Result<(), AllocError> {
    begins_anew(rt, alloc, pair)?;
    is_led_by_cuts(rt, alloc, pair, twin)?;
    reset(pair);
    is_cut_thrice(rt, alloc, pair)
}

fn is_cut_beside_another<B: Reserve>(
    rt: &impl Abort,
    alloc: Global,
    pair: &mut Pair<B>,
) -> Result<(), AllocError> {
    let mut twin: Pair<B> = new_pair(alloc, SIZES)?;
    let came = are_cut_beside(rt, alloc, pair, &mut twin);
    drop(twin);
    came
}

fn are_cut<B: Reserve>(rt: &impl Abort, alloc: Global) -> Result<(), AllocError> {
    let mut pair: Pair<B> = new_pair(alloc, SIZES)?;
    let came = is_cut_beside_another(rt, alloc, &mut pair);
    drop(pair);
    came
}

#[test]
fn a_cut_hands_out_what_leads_from_its_base_to_the_next_one(rt: HostRuntime) -> Result<(), Fail> {
    are_cut::<TableStore>(&rt, rt.alloc())?;
    Ok(are_cut::<RawStore>(&rt, rt.alloc())?)
}
