//! Where the text of an image is written to.

ghost use Rattle.std.specs.Prelude.{◌≡◌, ◌-◌, length, min};
ghost use Rattle.strm_image.specs.Sinks.{count_in, nothing_given, patch, place_in, put, replaced, sink_name};

/// Bytes that are written one behind the other, into a buffer that is lent. What there is no room for is counted and
/// not kept, so that nothing is refused on the way: a sink without room tells how much is wanted.
#[derive(Drop)]
pub struct Sink<'a> {
    bytes: &'a mut [u8],
    filled: usize,
    count: usize,
}

// Writes over what stands at a place, as far as there is any, and answers over how many bytes.
fn replace(lent: &mut [u8], at: usize, bytes: &[u8]) -> usize
    ensures bytes { lent.new ≡ replaced at bytes.now lent.old }
    ensures length { length lent.new ≡ length lent.old }
    ensures taken { result ≡ min (length bytes.now) (length lent.old - at) }
{
    if at >= lent.len() {
        return 0;
    }
    let taken = (lent.len() - at).min(bytes.len());
    lent[at..at + taken].copy_from_slice(&bytes[..taken]);
    taken
}

impl<'a> Sink<'a> {
    /// Nothing, with room for what a buffer takes; what stands in it stays until something is put there.
    pub fn new(bytes: &'a mut [u8]) -> Sink<'a>
        ensures same_reference { sink_name result ≡ bytes.entry.ghost_name }
        ensures nothing { result ≡ nothing_given bytes.entry }
    {
        Sink {
            bytes,
            filled: 0,
            count: 0,
        }
    }

    /// Bytes behind the others.
    pub fn put(&mut self, bytes: &[u8])
        ensures { self.new ≡ put bytes.now self.old }
    {
        self.filled += replace(self.bytes, self.filled, bytes);
        self.count = self.count.saturating_add(bytes.len());
    }

    /// How many bytes are kept: the place of what comes next, for [`Sink::patch`].
    pub fn place(&self) -> usize
        ensures { result ≡ place_in self.now }
    {
        self.filled
    }

    /// Other bytes in place of as many that were put at a place.
    #[tactic(auto, unfolding(crate::specs::Sinks::patch))]
    pub fn patch(&mut self, at: usize, bytes: &[u8])
        ensures { self.new ≡ patch at bytes.now self.old }
    {
        replace(self.bytes, at, bytes);
    }

    /// How many bytes it was given, as far as 64 bits hold that.
    pub fn count(&self) -> usize
        ensures { result ≡ count_in self.now }
    {
        self.count
    }
}
