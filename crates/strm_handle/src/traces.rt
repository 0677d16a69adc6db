//! The memory of a trace: copies of a journal, over which zeros are written before it is given back.

ghost use Rattle.std.specs.Prelude.{◌≡◌, IfOk, length, replicate};
ghost use Rattle.strm_handle.specs.Traces.{Copies};

use std::alloc::Global;
use strm_image::Trace;
use strm_pair::Recorded;
use strm_types::NoMemory;

// A copy of bytes.
fn copy_of(alloc: Global, bytes: &[u8]) -> Result<Vec<u8>, NoMemory>
    ensures { IfOk result (λ v. v.items ≡ bytes.now) }
{
    let Ok(copy) = Vec::from_slice(alloc, bytes) else {
        return Err(NoMemory);
    };
    Ok(copy)
}

/// Copies what a pair's journal holds.
pub(crate) fn copied(alloc: Global, recorded: Recorded<'_>) -> Result<Trace, NoMemory>
    ensures { IfOk result (λ t. Copies recorded.entry t) }
{
    let entries = strm_journal::copied(alloc, recorded.entries)?;
    let base = copy_of(alloc, recorded.base)?;
    let Ok(bytes) = copy_of(alloc, recorded.bytes) else {
        give_back(base);
        return Err(NoMemory);
    };
    Ok(Trace {
        base,
        entries,
        bytes,
    })
}

// Gives the memory of a buffer back, in which zeros stand.
fn free(buffer: Vec<u8>)
    requires { buffer.items ≡ replicate (length buffer.items) 0 }
{
    drop(buffer);
}

// Gives the memory of a buffer back. Zeros stand where its bytes were.
fn give_back(buffer: Vec<u8>) {
    let mut buffer = buffer;
    buffer.as_mut_slice().fill(0);
    free(buffer);
}

/// Gives the memory of a trace back. Zeros stand where its bytes were, and those of its base.
pub(crate) fn forget(trace: Trace) {
    let Trace {
        base,
        entries: _,
        bytes,
    } = trace;
    give_back(base);
    give_back(bytes);
}
