//! Making and freeing pairs, also of an image.

ghost use Rattle.std.specs.Prelude.{◌≡◌, None};
ghost use Rattle.strm_handle.specs.Kept.{plain_choices};
ghost use Rattle.strm_handle.specs.Outcomes.{Makes};
ghost use Rattle.strm_handle.specs.Restored.{Restores};

use std::alloc::Global;
use strm_handle::{Choices, Handle};

/// The version of this interface: 65536 times the major number and the minor number.
const VERSION: u32 = 65540;

/// The version of this interface.
#[unsafe(no_mangle)]
pub extern "C" fn strm_version() -> u32
    ensures { result ≡ 65540 }
{
    VERSION
}

/// Makes a pair that nobody opened, with so many blocks of each kind and so large a journal. All memory is taken here.
#[unsafe(no_mangle)]
pub extern "C" fn strm_new(
    alloc: Global,
    handle: &mut Handle,
    blocks: usize,
    entries: usize,
    bytes: usize,
) -> u32
    ensures { Makes (plain_choices blocks entries bytes) handle.old.held.kept handle.new.held.kept result }
{
    strm_handle::make(alloc, handle, &Choices::plain(blocks, entries, bytes))
}

/// Makes a pair that nobody opened, of what is chosen. All memory is taken here.
#[unsafe(no_mangle)]
pub extern "C" fn strm_new_with(alloc: Global, handle: &mut Handle, choices: &Choices) -> u32
    ensures { Makes choices.now handle.old.held.kept handle.new.held.kept result }
{
    strm_handle::make(alloc, handle, choices)
}

/// Makes a pair of an image, with so many blocks of each kind and so large a journal. All memory is taken here.
#[unsafe(no_mangle)]
pub extern "C" fn strm_restore(
    alloc: Global,
    handle: &mut Handle,
    blocks: usize,
    entries: usize,
    bytes: usize,
    text: &[u8],
) -> u32
    ensures { Restores (plain_choices blocks entries bytes) text.now handle.old.held.kept handle.new.held.kept result }
{
    strm_handle::restore(alloc, handle, &Choices::plain(blocks, entries, bytes), text)
}

/// Makes a pair of an image, of what is chosen. All memory is taken here.
#[unsafe(no_mangle)]
pub extern "C" fn strm_restore_with(
    alloc: Global,
    handle: &mut Handle,
    choices: &Choices,
    text: &[u8],
) -> u32
    ensures { Restores choices.now text.now handle.old.held.kept handle.new.held.kept result }
{
    strm_handle::restore(alloc, handle, choices, text)
}

/// Frees a pair, in whose memory no byte of a message, a line or the journal is left, and closes its handle. A closed one stays so.
#[unsafe(no_mangle)]
pub extern "C" fn strm_free(alloc: Global, handle: &mut Handle)
    ensures { handle.new.held.kept ≡ None }
{
    strm_handle::free(alloc, handle);
}
