//! Packed entries in one piece of memory: copies of them, and what is left where they go.

ghost use Rattle.std.specs.Prelude.{◌≡◌, [], All, IfOk, vec_capacity};
ghost use Rattle.strm_journal.specs.Packed.{nothing};

use crate::packed::Packed;
use std::alloc::Global;
use strm_types::NoMemory;

// Writes nothing over entries.
fn blank(entries: &mut [Packed])
    ensures { All (λ e. e ≡ nothing) entries.new }
{
    for entry in entries {
        *entry = Packed::nothing();
    }
}

// Takes all entries off, which tell nothing.
fn forget(entries: &mut Vec<Packed>)
    requires { All (λ e. e ≡ nothing) entries.old.items }
    ensures items { entries.new.items ≡ [] }
    ensures capacity { vec_capacity entries.new ≡ vec_capacity entries.old }
{
    entries.clear();
}

/// Takes all entries off, and keeps their memory, where zeros stand then. The cost is that of 24 bytes for each.
pub fn forget_all(entries: &mut Vec<Packed>)
    ensures items { entries.new.items ≡ [] }
    ensures capacity { vec_capacity entries.new ≡ vec_capacity entries.old }
{
    blank(entries.as_mut_slice());
    forget(entries);
}

/// A copy of entries, in memory that is asked for once: 24 bytes for each.
pub fn copied(alloc: Global, entries: &[Packed]) -> Result<Vec<Packed>, NoMemory>
    ensures { IfOk result (λ v. v.items ≡ entries.now) }
{
    let Ok(mut copy) = Vec::with_capacity(alloc, entries.len()) else {
        return Err(NoMemory);
    };
    for entry in entries {
        copy.push_reserved(entry.again());
    }
    Ok(copy)
}
