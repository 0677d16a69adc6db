//! How a plan is carried out.

ghost use Rattle.std.specs.Prelude.{◌≤◌, ◌*◌, if◌then◌else◌, IfSome};
ghost use Rattle.strm_bench.specs.Plans.{bytes_asked};

use crate::making::{MASTER, new_pair, sets_up};
use crate::plans::{Act, Plan, Store, Told};
use crate::rounds::{makes_round, sends};
use crate::texts::text_of;
use std::alloc::Global;
use strm_blocks::{Reserve, TableStore};
use strm_pair::Pair;
use strm_raw::RawStore;
use strm_types::Content;

// The rounds on a pair, whose text is this one: how many bytes were read.
fn rounds<B: Reserve>(
    alloc: Global,
    pair: &mut Pair<B>,
    plan: &Plan,
    text: &[u8; 4096],
) -> Option<u64>
    ensures { IfSome result (λ bytes. bytes ≤ plan.now.rounds * plan.now.round.asked) }
{
    let mut out = Content::new();
    if !sets_up(pair, plan.round.stack, &mut out) {
        return None;
    }
    let text = &text[..plan.round.size as usize];
    let standing = match plan.round.act {
        Act::Images | Act::Restores => text,
        _ => b"z",
    };
    for _ in 0..plan.standing {
        sends(pair, MASTER, standing, &mut out)?;
    }
    let mut read = 0u64;
    for _ in 0..plan.rounds {
        let bytes = makes_round(alloc, pair, &plan.round, text, &mut out)?;
        read = read.saturating_add(bytes as u64);
    }
    Some(read)
}

// The rounds of a pair of its own, and where the plan is warm once more on the same pair, made as new.
fn one_pair<B: Reserve>(alloc: Global, plan: &Plan, text: &[u8; 4096]) -> Option<Told>
    ensures { IfSome result (λ told. told.read ≤ (if plan.now.warm then 2 else 1) * (plan.now.rounds * plan.now.round.asked)) }
{
    let mut pair = new_pair::<B>(alloc, plan)?;
    let mut read = rounds(alloc, &mut pair, plan, text)?;
    if plan.warm {
        pair.reset();
        read = read.saturating_add(rounds(alloc, &mut pair, plan, text)?);
    }
    let journal = pair.journal();
    Some(Told {
        read,
        entries: journal.entries.len() as u64,
        bytes: journal.bytes.len() as u64,
    })
}

// The rounds of a pair over the plan's store.
fn on_its_store(alloc: Global, plan: &Plan, text: &[u8; 4096]) -> Option<Told>
    ensures { IfSome result (λ told. told.read ≤ (if plan.now.warm then 2 else 1) * (plan.now.rounds * plan.now.round.asked)) }
{
    match plan.store {
        Store::Linked => one_pair::<RawStore>(alloc, plan, text),
        Store::Tables => one_pair::<TableStore>(alloc, plan, text),
    }
}

/// Carries out a plan, and tells how many bytes were read: no more than its rounds ask for. It tells nothing where memory, a
/// call or a turn was refused.
pub fn run(alloc: Global, plan: &Plan) -> Option<Told>
    ensures { IfSome result (λ told. told.read ≤ bytes_asked plan.now) }
{
    let text = text_of(&plan.round);
    let mut told = Told {
        read: 0,
        entries: 0,
        bytes: 0,
    };
    for _ in 0..plan.pairs {
        let one = on_its_store(alloc, plan, &text)?;
        told = Told {
            read: told.read.saturating_add(one.read),
            ..one
        };
    }
    Some(told)
}
