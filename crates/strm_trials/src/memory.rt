//! All memory that the process can have: whatever asks for more behind that is refused.

use std::alloc::{AllocError, Global};

/// More blocks than a heap has that gives them as large as the machine's memory.
pub const MOST_TAKEN: usize = 131072;

// Takes blocks of a size until one is refused.
fn take_all(alloc: Global, size: usize, taken: &mut Vec<Vec<u8>>) -> Result<(), AllocError> {
    for _ in taken.len()..MOST_TAKEN {
        let Ok(block) = Vec::with_capacity(alloc, size) else {
            break;
        };
        taken.push(block)?;
    }
    Ok(())
}

/// Takes all memory that the process can have, the largest blocks first: those above a page by halves, and the others by
/// each size, since the heap keeps blocks of a small size apart. It stops at `MOST_TAKEN` blocks, which only a heap reaches
/// that keeps the blocks of each size apart, as that of the sanitizer does, under which `rt try` runs.
pub fn all_memory(alloc: Global) -> Result<Vec<Vec<u8>>, AllocError> {
    let mut taken = Vec::with_capacity(alloc, MOST_TAKEN)?;
    for halved in 0..35u32 {
        take_all(alloc, (1usize << 47) >> halved, &mut taken)?;
    }
    for less in 0..4096usize {
        take_all(alloc, 4096 - less, &mut taken)?;
    }
    Ok(taken)
}
