//! A set of bands.

ghost use Rattle.std.specs.Prelude.{◌≡◌, ◌≢◌, ◌<◌, ◌≤◌, ◌+◌, ℕ, true, false, MatchOption};
ghost use Rattle.std.specs.Bool.{OnTrue};
ghost use Rattle.strm_types.specs.declared.limits.TheConstants.{BANDS};
ghost use Rattle.strm_queue.specs.Sets.{has, has_bit, IsLowest, IsNext};

use strm_types::BANDS;

const WORD_BITS: usize = 64;

const WORDS: usize = (BANDS + 62) / WORD_BITS;

// Whether a bit of a word is set.
fn has_bit(word: u64, at: u32) -> bool
    requires { at < 64 }
    ensures { result ≡ has_bit word at }
{
    (word >> at) & 1 == 1
}

// The word with a bit set, or cleared.
fn with_bit(word: u64, at: u32, set: bool) -> u64
    requires { at < 64 }
    ensures here { has_bit result at ≡ set }
    ensures others { (i : ℕ) → i < 64 → i ≢ at → has_bit result i ≡ has_bit word i }
{
    if set {
        word | (1 << at)
    } else {
        word & !(1 << at)
    }
}

// The lowest bit of a word that is set, from one up.
fn lowest(word: u64, from: u32) -> Option<u32>
    requires { from < 64 }
    ensures { MatchOption result ((i : ℕ) → from ≤ i → i < 64 → has_bit word i ≡ false) (λ at. IsLowest word from at) }
{
    let left = word & (u64::MAX << from);
    if left == 0 {
        return None;
    }
    Some(left.trailing_zeros())
}

/// A set of the bands above 0, a bit each: place 0 is that of band 1.
#[derive(Clone, Copy)]
pub(crate) struct BandSet {
    pub words: [u64; WORDS],
}

impl BandSet {
    /// No band.
    pub fn new() -> BandSet
        ensures { (at : ℕ) → has result at ≡ false }
    {
        BandSet { words: [0; WORDS] }
    }

    /// Whether a band is in the set.
    pub fn has(&self, at: usize) -> bool
        requires { at + 1 < BANDS }
        ensures { result ≡ has self.now at }
    {
        has_bit(self.words[at / WORD_BITS], (at % WORD_BITS) as u32)
    }

    /// Puts a band in the set, or takes it out.
    pub fn put(&mut self, at: usize, within: bool)
        requires { at + 1 < BANDS }
        ensures here { has self.new at ≡ within }
        ensures others { (other : ℕ) → other ≢ at → has self.new other ≡ has self.old other }
    {
        let word = self.words[at / WORD_BITS];
        self.words[at / WORD_BITS] = with_bit(word, (at % WORD_BITS) as u32, within);
    }

    /// The first band of the set, from one up.
    pub fn next(&self, from: usize) -> Option<usize>
        requires { from < BANDS }
        ensures { MatchOption result ((at : ℕ) → from ≤ at → at + 1 < BANDS → has self.now at ≡ false)
            (λ at. IsNext self.now from at) }
    {
        let mut low = from % WORD_BITS;
        for word in from / WORD_BITS..WORDS {
            if let Some(bit) = lowest(self.words[word], low as u32) {
                let at = word * WORD_BITS + bit as usize;
                return if at + 1 < BANDS { Some(at) } else { None };
            }
            low = 0;
        }
        None
    }

    /// Whether no band is in the set.
    pub fn is_empty(&self) -> bool
        ensures { OnTrue result ((at : ℕ) → at + 1 < BANDS → has self.now at ≡ false) }
    {
        self.next(0).is_none()
    }
}
