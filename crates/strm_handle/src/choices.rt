//! What is chosen for a pair that is made.

ghost use Rattle.std.specs.Prelude.{◌≡◌};
ghost use Rattle.strm_handle.specs.Kept.{are_fit, plain_choices, sizes_of, takes_any};

use strm_types::Config;

/// The most blocks of a kind that a pair has.
const BLOCKS_MAX: usize = 65536;

/// The most bytes that a call enters in a journal: those of both parts of a get.
const ENTRY_MOST: usize = 8192;

/// How many blocks of each kind a pair has, and of them in reserve; how large its journal is, and whether it begins anew where it is full.
#[repr(C)]
#[derive(Drop)]
pub struct Choices {
    pub blocks: usize,
    pub entries: usize,
    pub bytes: usize,
    pub reserve: usize,
    pub anew: bool,
}

impl Choices {
    /// A full journal stays, and no block is in reserve.
    pub const fn plain(blocks: usize, entries: usize, bytes: usize) -> Choices
        ensures { result ≡ plain_choices blocks entries bytes }
    {
        Choices {
            blocks,
            entries,
            bytes,
            reserve: 0,
            anew: false,
        }
    }

    // Whether an empty journal takes any call.
    fn takes_any(&self) -> bool
        ensures { result ≡ takes_any self.now }
    {
        self.entries > 0 && self.bytes >= ENTRY_MOST
    }

    /// Whether a pair can be made of them.
    pub(crate) fn are_fit(&self) -> bool
        ensures { result ≡ are_fit self.now }
    {
        let has_blocks = self.blocks > 0 && self.blocks <= BLOCKS_MAX;
        has_blocks && (self.reserve <= self.blocks && (!self.anew || self.takes_any()))
    }

    /// The sizes of the pair.
    pub(crate) fn sizes(&self) -> Config
        ensures { result ≡ sizes_of self.now }
    {
        Config {
            mblks: self.blocks,
            dblks: self.blocks,
            journal_events: self.entries,
            journal_bytes: self.bytes,
        }
    }
}
