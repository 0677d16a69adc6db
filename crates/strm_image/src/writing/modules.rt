//! What a text has of modules beside their names and queues.

ghost use Rattle.std.specs.Prelude.{◌≡◌, ◌<◌, ◌≤◌, length};
ghost use Rattle.strm_types.specs.declared.limits.TheConstants.{SETTINGS_MAX};
ghost use Rattle.strm_image.specs.Format.{byte, bytes_of, counted};
ghost use Rattle.strm_image.specs.Modules.{ptem, settings, termios, winsize};
ghost use Rattle.strm_image.specs.Sinks.{put};

use crate::sink::Sink;
use crate::writing::fields::{put_u16, put_u32};
use strm_types::{Termios, Winsize};

/// What a terminal is set to.
pub fn put_termios(out: &mut Sink, set: &Termios)
    ensures { out.new ≡ put (termios.text set.now) out.old }
{
    put_u32(out, set.iflag.0);
    put_u32(out, set.oflag.0);
    put_u32(out, set.cflag);
    put_u32(out, set.lflag.0);
    out.put(&set.control);
}

/// The size of a window.
#[tactic(auto, unfolding(crate::specs::Modules::winsize), using(crate::proofs::SinkRows::put_both))]
pub fn put_winsize(out: &mut Sink, window: Winsize)
    ensures { out.new ≡ put (winsize.text window) out.old }
{
    put_u16(out, window.rows);
    put_u16(out, window.columns);
    put_u16(out, window.x_pixels);
    put_u16(out, window.y_pixels);
}

/// What a `ptem` keeps.
#[tactic(auto, unfolding(crate::specs::Modules::ptem), using(crate::proofs::SinkRows::put_both))]
pub fn put_ptem(out: &mut Sink, set: &Termios, window: Winsize)
    ensures { out.new ≡ put (ptem.text (record { termios = set.now; window = window })) out.old }
{
    put_termios(out, set);
    put_winsize(out, window);
}

/// The unfinished line of an `ldterm`.
#[tactic(auto, using(crate::proofs::SinkRows::put_both))]
pub fn put_line(out: &mut Sink, line: &[u8])
    requires { length line.now < 256 }
    ensures { out.new ≡ put ((counted byte bytes_of).text line.now) out.old }
{
    out.put(&[line.len() as u8]);
    out.put(line);
}

/// What a module of a user's own is set to.
#[tactic(auto, unfolding(crate::specs::Modules::settings), using(crate::proofs::SinkRows::put_both))]
pub fn put_settings(out: &mut Sink, bytes: &[u8])
    requires { length bytes.now ≤ SETTINGS_MAX }
    ensures { out.new ≡ put (settings.text bytes.now) out.old }
{
    put_u16(out, bytes.len() as u16);
    out.put(bytes);
}
