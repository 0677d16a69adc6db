//! What a cut hands out.

use strm_journal::Packed;

/// What a cut of a pair hands out: the base at which its journal began, as an image of version 2, and all entries since, with their bytes in
/// the order of the entries (of each first those of its call, then those of its answer). Restoring the base and making the entries
/// again gives the state of the pair as it was cut.
#[derive(Drop)]
pub struct Trace {
    pub base: Vec<u8>,
    pub entries: Vec<Packed>,
    pub bytes: Vec<u8>,
}
