//! Stores that are made of two numbers.
ghost use Rattle.std.specs.Prelude.{◌≡◌, ◌<◌, ◌≤◌, IfOk};
ghost use Rattle.strm_blocks.specs.Blocks.{empty_store};

use crate::blocks::Blocks;
use crate::table::TableStore;
use std::alloc::{AllocError, Global};

/// A store whose memory is reserved when it is made, so that code over any store can make one.
pub trait Reserve: Blocks + Drop {
    /// A store of so many message blocks and data blocks, from 1 to 65536 of each, with nothing in it. All memory is
    /// taken here, and `AllocError` says that it was refused.
    fn reserve(alloc: Global, mblks: usize, dblks: usize) -> Result<Self, AllocError>
        requires some_mblks { 0 < mblks }
        requires few_mblks { mblks ≤ 65536 }
        requires some_dblks { 0 < dblks }
        requires few_dblks { dblks ≤ 65536 }
        ensures { IfOk result (λ s. Self.value s ≡ empty_store mblks dblks) };
}

impl Reserve for TableStore {
    fn reserve(alloc: Global, mblks: usize, dblks: usize) -> Result<TableStore, AllocError> {
        TableStore::new(alloc, mblks, dblks)
    }
}
