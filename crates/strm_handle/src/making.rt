//! Making and freeing pairs.

ghost use Rattle.std.specs.Prelude.{◌≡◌, true, None, IfSome};
ghost use Rattle.strm_laws.specs.Pair.{new_pair};
ghost use Rattle.strm_handle.specs.Kept.{are_fit, kept_by, sizes_of};
ghost use Rattle.strm_handle.specs.Outcomes.{Makes};

use crate::choices::Choices;
use crate::handle::Handle;
use crate::kept::{Kept, give_back, refused};
use std::alloc::Global;
use strm_pair::Pair;
use strm_raw::RawStore;
use strm_types::{Content, Refusal};

// A pair that nobody opened; None where memory is refused.
fn made(alloc: Global, choices: &Choices) -> Option<Box<Kept, Global>>
    requires { are_fit choices.now ≡ true }
    ensures { IfSome result (λ kept. kept.value ≡ kept_by choices.now (new_pair (sizes_of choices.now))) }
{
    let sizes = choices.sizes();
    let Ok(store) = RawStore::new(alloc, sizes.mblks, sizes.dblks) else {
        return None;
    };
    let Ok(pair) = Pair::new(alloc, sizes, store) else {
        return None;
    };
    let kept = Kept {
        pair,
        answer: Content::new(),
        anew: choices.anew,
        reserve: choices.reserve,
    };
    Box::new(alloc, kept).ok()
}

/// Makes a pair that nobody opened, of what is chosen. All memory is taken here.
pub fn make(alloc: Global, handle: &mut Handle, choices: &Choices) -> u32
    ensures { Makes choices.now handle.old.held.kept handle.new.held.kept result }
{
    if handle.is_open() || !choices.are_fit() {
        return refused(Refusal::Einval);
    }
    match made(alloc, choices) {
        Some(kept) => {
            handle.put(kept);
            0
        }
        None => refused(Refusal::NoMemory),
    }
}

/// Frees a pair, in whose memory no byte of a message, a line or the journal is left, and closes its handle. A closed one stays so.
pub fn free(alloc: Global, handle: &mut Handle)
    ensures { handle.new.held.kept ≡ None }
{
    let Some(mut kept) = handle.take(alloc) else {
        return;
    };
    kept.as_mut().wipe();
    give_back(kept);
}
