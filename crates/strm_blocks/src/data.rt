//! The data blocks of a store, with their reference counts.
ghost use Rattle.std.specs.Prelude.{ℕ, ◌≡◌, ◌<◌, ◌≤◌, ◌+◌, ◌-◌, ◌==◌, [], length, replicate, count_by, slice_index_or, slice_range, MatchOption, IfOk};
ghost use Rattle.strm_blocks.specs.Pool.{IsNoneLeft, TakesNumber, WritesBytes, with_references};

use std::alloc::{AllocError, Global};
use std::marker::Model;

/// The data blocks of a store, numbered from 0: their bytes, and for each how many message blocks name it, up to 255.
#[derive(Drop)]
pub(crate) struct DataBlocks {
    bytes: Vec<[u8; 256]>,
    references: Vec<u8>,
    free: Vec<usize>,
}

impl Model for DataBlocks {
    ghost use Rattle.strm_blocks.specs.Pool.{Pool};

    ghost Value = { Pool };

    ghost use Rattle.strm_blocks.specs.DataBlocks.{pool_of, IsPool};

    ghost view = { pool_of };

    ghost invariant = { IsPool };
}

impl DataBlocks {
    /// So many data blocks, all of them free.
    pub(crate) fn new(alloc: Global, count: usize) -> Result<DataBlocks, AllocError>
        requires { count ≤ 65536 }
        ensures { IfOk result (λ p. p.references ≡ replicate count 0) }
    {
        let references = vec![in alloc; 0; count]?;
        let mut bytes = Vec::with_capacity(alloc, count)?;
        let mut free = Vec::with_capacity(alloc, count)?;
        for number in 0..count {
            bytes.push_reserved([0; 256]);
            free.push_reserved(number);
        }
        Ok(DataBlocks {
            bytes,
            references,
            free,
        })
    }

    /// How many data blocks there are.
    pub(crate) fn count(&self) -> usize
        ensures { result ≡ length self.now.references }
    {
        self.references.len()
    }

    /// How many data blocks have no reference.
    pub(crate) fn free_count(&self) -> usize
        ensures { result ≡ count_by (λ r. r == 0) self.now.references }
    {
        self.free.len()
    }

    /// How many references a data block has.
    pub(crate) fn references(&self, number: usize) -> u8
        requires { number < length self.now.references }
        ensures { result ≡ slice_index_or self.now.references number 0 }
    {
        self.references[number]
    }

    /// Takes a data block that has no reference, and gives it one.
    pub(crate) fn take(&mut self) -> Option<usize>
        ensures { MatchOption result (IsNoneLeft self.old self.new) (λ d. TakesNumber self.old self.new d) }
    {
        let number = self.free.pop()?;
        self.references[number] = 1;
        Some(number)
    }

    /// Gives a data block one more reference.
    pub(crate) fn share(&mut self, number: usize)
        requires named { 0 < slice_index_or self.old.references number 0 }
        requires few { slice_index_or self.old.references number 0 < 255 }
        ensures { self.new ≡ with_references self.old number (slice_index_or self.old.references number 0 + 1) }
    {
        self.references[number] += 1;
    }

    /// Takes a reference from a data block, which is free where it has no other one.
    pub(crate) fn release(&mut self, number: usize)
        requires { 0 < slice_index_or self.old.references number 0 }
        ensures { self.new ≡ with_references self.old number (slice_index_or self.old.references number 0 - 1) }
    {
        self.references[number] -= 1;
        if self.references[number] == 0 {
            self.free.push_reserved(number);
        }
    }

    /// Does nothing. Its contract is what holds of all data blocks.
    pub(crate) fn audit(&self)
        ensures few { length self.now.references ≤ 65536 }
        ensures same_count { length self.now.bytes ≡ length self.now.references }
        ensures bounded { (n : ℕ) → slice_index_or self.now.references n 0 ≤ 255 }
        ensures sized { (n : ℕ) → n < length self.now.references → length (slice_index_or self.now.bytes n []) ≡ 256 }
    {
        let _ = &self.free;
    }

    /// The bytes of a data block from one place to another.
    pub(crate) fn shown(&self, number: usize, start: usize, end: usize) -> &[u8]
        requires there { number < length self.now.references }
        requires ordered { start ≤ end }
        requires within { end ≤ 256 }
        ensures bytes { result.now ≡ slice_range (slice_index_or self.now.bytes number []) start end }
        ensures len { length result.now ≡ end - start }
    {
        let block = &self.bytes[number];
        &block[start..end]
    }

    /// Writes bytes into a data block, from a place on.
    pub(crate) fn write(&mut self, number: usize, at: usize, bytes: &[u8])
        requires there { number < length self.old.references }
        requires room { at + length bytes.now ≤ 256 }
        ensures { WritesBytes self.old self.new number at bytes.now }
    {
        let block = &mut self.bytes[number];
        block[at..at + bytes.len()].copy_from_slice(bytes);
    }

    /// Copies the bytes of a data block from one place to another to the front of another data block.
    pub(crate) fn copy(&mut self, from: usize, start: usize, end: usize, to: usize)
        requires from_there { from < length self.old.references }
        requires to_there { to < length self.old.references }
        requires ordered { start ≤ end }
        requires within { end ≤ 256 }
        ensures { WritesBytes self.old self.new to 0 (slice_range (slice_index_or self.old.bytes from []) start end) }
    {
        let block = self.bytes[from];
        self.write(to, 0, &block[start..end]);
    }

    /// Takes all references away, so that all data blocks are free.
    pub(crate) fn reset(&mut self)
        ensures { self.new ≡ record self.old { references = replicate (length self.old.references) 0 } }
    {
        let count = self.references.len();
        self.free.clear();
        self.references.fill(0);
        for number in 0..count {
            self.free.push_reserved(number);
        }
    }
}
