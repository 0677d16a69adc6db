//! What the kind of a message says about it.
ghost use Rattle.std.specs.Prelude.{◌≡◌, option_map};
ghost use Rattle.strm_types.specs.Flush as flush;

use crate::asked::FlushWhat;
use strm_types::MsgKind;

/// Whether a flush takes a message of this kind and band.
pub fn is_flushed(what: FlushWhat, kind: MsgKind, band: u8) -> bool
    ensures { result ≡ flush.is_flushed what.all (option_map (λ b. b.0) what.band) kind band }
{
    let counted = if kind.is_high_priority() { 0 } else { band };
    match what.band {
        None => what.all || kind.is_data_kind(),
        Some(named) => kind.is_data_kind() && counted == named.0,
    }
}
