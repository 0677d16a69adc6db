//! Numbers in a text, their most significant byte first.

ghost use Rattle.std.specs.Prelude.{◌≡◌};
ghost use Rattle.strm_image.specs.Format.{byte, u16, u32, u64};
ghost use Rattle.strm_image.specs.Sinks.{put};

use crate::sink::Sink;

/// A number of 8 bits.
pub fn put_u8(out: &mut Sink, n: u8)
    ensures { out.new ≡ put (byte.text n) out.old }
{
    out.put(&[n]);
}

/// A number of 16 bits.
pub fn put_u16(out: &mut Sink, n: u16)
    ensures { out.new ≡ put (u16.text n) out.old }
{
    out.put(&n.to_be_bytes());
}

/// A number of 32 bits.
pub fn put_u32(out: &mut Sink, n: u32)
    ensures { out.new ≡ put (u32.text n) out.old }
{
    out.put(&n.to_be_bytes());
}

/// A number of 64 bits.
pub fn put_u64(out: &mut Sink, n: u64)
    ensures { out.new ≡ put (u64.text n) out.old }
{
    out.put(&n.to_be_bytes());
}
