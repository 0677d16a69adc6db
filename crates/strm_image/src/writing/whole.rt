//! What stands at the front of an image, and what follows there.

ghost use Rattle.std.specs.Prelude.{◌≡◌};
ghost use Rattle.strm_image.specs.Sinks.{put};
ghost use Rattle.strm_image.specs.Written.{front_text};

use crate::sink::Sink;
use crate::writing::codes::{put_flag, put_openness};
use crate::writing::fields::put_u32;
use strm_types::Openness;

/// The mark, version 2, whether each side is open, whether the slave's side waits to be unlocked, and the number of the next
/// ioctl. The streams of the master and of the slave follow, the enabled queues, and both ledgers (`laws::second_in_parts`).
#[tactic(auto, using(crate::proofs::SinkRows::put_both))]
pub fn put_front(out: &mut Sink, master: Openness, slave: Openness, locked: bool, next_ioctl: u32)
    ensures { out.new ≡ put (front_text master slave locked next_ioctl) out.old }
{
    out.put(b"STPI\x02");
    put_openness(out, master);
    put_openness(out, slave);
    put_flag(out, locked);
    put_u32(out, next_ioctl);
}
