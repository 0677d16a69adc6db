//! What a flush of a queue takes.

ghost use Rattle.std.specs.Prelude.{◌≡◌};
ghost use Rattle.strm_queue.specs.Flushes.{takes_all};

/// Which messages a flush of a queue takes: `flushq(9F)`.
#[derive(Clone, Copy)]
pub enum Flush {
    /// Those of data alone, M_DATA, M_PROTO and M_PCPROTO: FLUSHDATA.
    Data,
    /// All messages: FLUSHALL.
    All,
}

impl Flush {
    /// Whether messages of other kinds than those of data go too.
    pub(crate) fn takes_all(self) -> bool
        ensures { result ≡ takes_all self }
    {
        match self {
            Flush::Data => false,
            Flush::All => true,
        }
    }
}
