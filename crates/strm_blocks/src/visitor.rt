//! Who is told of the blocks of messages.
ghost use Rattle.std.specs.Prelude.{◌≡◌, Bool};
ghost use Rattle.strm_blocks.specs.Outcomes.{SeenBlock};

use strm_types::{Band, MsgKind};

/// Is told of the blocks of messages in their order, with the bytes that they show, until it wants no more. A visitor that
/// adds up sizes may use `saturating_add`: what holds of every store bounds the sum.
pub trait Visitor {
    /// What a visitor is after it was told of a block.
    ghost after: { Self → SeenBlock → Self };

    /// Whether a visitor wants to be told of the next block.
    ghost goes_on: { Self → Bool };

    /// Is told of a block: whether it is the first of its message, its kind and band, and the bytes that it shows, at most
    /// 256. The first block's kind and band are the message's. Returns whether it wants to be told of the next one.
    fn see(&mut self, first: bool, kind: MsgKind, band: Band, bytes: &[u8]) -> bool
        ensures seen { self.new ≡ after self.old
            (record { first = first; kind = kind; band = band.0; bytes = bytes.now }) }
        ensures more { result ≡ goes_on self.new };
}
