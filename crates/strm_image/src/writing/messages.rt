//! Messages and their parts.

ghost use Rattle.std.specs.Prelude.{◌≡◌, ◌<◌, ℕ, length, option_map};
ghost use Rattle.strm_types.specs.Message.{Message};
ghost use Rattle.strm_image.specs.Messages.{bytes_in, message, message_parts, part};
ghost use Rattle.strm_image.specs.Sinks.{put};
ghost use Rattle.strm_image.specs.declared.versions.Version.TheVariants.{Second};

use crate::sink::Sink;
use crate::writing::codes::{put_flag, put_kind};
use crate::writing::fields::{put_u8, put_u32};
use strm_types::{Band, MsgKind};

/// A part of a message: whether it is there, its length and its bytes.
#[tactic(auto, unfolding(crate::specs::Messages::part, crate::specs::Codes::flag), using(crate::proofs::SinkRows::put_both))]
pub fn put_part(out: &mut Sink, bytes: Option<&[u8]>)
    requires { length (bytes_in (option_map (λ b. b.now) bytes)) < 4294967296 }
    ensures { out.new ≡ put (part.text (option_map (λ b. b.now) bytes.entry)) out.old }
{
    match bytes {
        None => out.put(&[0; 5]),
        Some(bytes) => {
            put_flag(out, true);
            put_u32(out, bytes.len() as u32);
            out.put(bytes);
        }
    }
}

/// A message by its parts.
#[tactic(auto, unfolding(crate::specs::Messages::message), using(crate::proofs::SinkRows::put_both))]
pub fn put_message(
    out: &mut Sink,
    kind: MsgKind,
    band: Band,
    control: Option<&[u8]>,
    body: Option<&[u8]>,
)
    requires control { length (bytes_in (option_map (λ b. b.now) control)) < 4294967296 }
    requires body { length (bytes_in (option_map (λ b. b.now) body)) < 4294967296 }
    ensures { (m : Message ℕ) → message_parts m ≡ (kind, (band.0, (option_map (λ b. b.now) control.entry, option_map (λ b. b.now) body.entry)))
        → out.new ≡ put ((message Second).text m) out.old }
{
    put_kind(out, kind);
    put_u8(out, band.0);
    put_part(out, control);
    put_part(out, body);
}
