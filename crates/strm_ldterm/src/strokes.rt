//! Which key a byte that is typed is (termio(7I): c_iflag, c_lflag, "Special Characters").

ghost use Rattle.std.specs.Prelude.{◌≡◌, ◌==◌, ◌&&◌, ◌||◌};
ghost use Rattle.std.specs.List.{list_any};
ghost use Rattle.strm_types.specs.Keys.{byte_as, carriage_return, ended, key_of, line_key, lowered, newline, restarts, stripped, stroke_of};
ghost use Rattle.strm_types.specs.Termios.{igncr, is_char, ixany, ixon};
ghost use Rattle.strm_types.specs.declared.termios.ControlChar.TheVariants.{Eol, Eol2};

use bitflags::Flags;
use strm_types::{ControlChar, InputModes, Key, LocalModes, Stroke, Termios};

// Line feed, which ends a line, and carriage return.
const NEWLINE: u8 = b'\n';

const CARRIAGE_RETURN: u8 = b'\r';

// The byte without its top bit, where ISTRIP says so.
fn stripped(termios: &Termios, byte: u8) -> u8
    ensures { result ≡ stripped termios.now byte }
{
    if termios.iflag.contains(InputModes::ISTRIP) {
        byte % 128
    } else {
        byte
    }
}

// An upper-case letter as the lower-case one, where IUCLC says so.
fn lowered(termios: &Termios, byte: u8) -> u8
    ensures { result ≡ lowered termios.now byte }
{
    if termios.iflag.contains(InputModes::IUCLC) && b'A' <= byte && byte <= b'Z' {
        byte + 32
    } else {
        byte
    }
}

// A carriage return as a newline under ICRNL, a newline as a carriage return under INLCR.
fn ended(termios: &Termios, byte: u8) -> u8
    ensures { result ≡ ended termios.now byte }
{
    if byte == CARRIAGE_RETURN {
        if termios.iflag.contains(InputModes::ICRNL) {
            NEWLINE
        } else {
            byte
        }
    } else if byte == NEWLINE && termios.iflag.contains(InputModes::INLCR) {
        CARRIAGE_RETURN
    } else {
        byte
    }
}

// Whether a byte may be a key; else it is an ordinary byte, and is taken as itself. One pass over the control bytes.
fn may_be_key(termios: &Termios, byte: u8) -> bool
    ensures { result ≡ (byte == newline || (byte == carriage_return || list_any (λ c. c == byte) termios.now.control)) }
{
    byte == NEWLINE || byte == CARRIAGE_RETURN || termios.control.contains(&byte)
}

// Whether a byte is this control byte, in a mode that makes it a key.
fn is_key(mode: bool, termios: &Termios, key: ControlChar, byte: u8) -> bool
    ensures { result ≡ (mode && is_char termios.now key byte) }
{
    mode && termios.is_char(key, byte)
}

// The key of a line that a byte is, once line ends are mapped.
fn line_key(termios: &Termios, byte: u8) -> Key
    ensures { result ≡ line_key termios.now byte }
{
    let extended = termios.lflag.contains(LocalModes::IEXTEN);
    if termios.is_char(ControlChar::Eof, byte) {
        Key::Eof
    } else if termios.is_char(ControlChar::Erase, byte) {
        Key::Erase
    } else if termios.is_char(ControlChar::Kill, byte) {
        Key::Kill
    } else if is_key(extended, termios, ControlChar::Werase, byte) {
        Key::Werase
    } else if is_key(extended, termios, ControlChar::Reprint, byte) {
        Key::Reprint
    } else if is_key(extended, termios, ControlChar::Lnext, byte) {
        Key::Lnext
    } else if ends_line(termios, byte) {
        Key::Delimiter
    } else {
        Key::Ordinary
    }
}

// Whether a byte ends a line and goes up with it.
fn ends_line(termios: &Termios, byte: u8) -> bool
    ensures { result ≡ (byte == newline || (is_char termios.now Eol byte || is_char termios.now Eol2 byte)) }
{
    byte == NEWLINE
        || termios.is_char(ControlChar::Eol, byte)
        || termios.is_char(ControlChar::Eol2, byte)
}

// The key that a byte is, behind ISTRIP and IUCLC.
fn key_of(termios: &Termios, byte: u8) -> Key
    ensures { result ≡ key_of termios.now byte }
{
    let flow = termios.iflag.contains(InputModes::IXON);
    let signals = termios.lflag.contains(LocalModes::ISIG);
    if is_key(flow, termios, ControlChar::Stop, byte) {
        Key::Stop
    } else if is_key(flow, termios, ControlChar::Start, byte) {
        Key::Start
    } else if is_key(signals, termios, ControlChar::Intr, byte) {
        Key::Intr
    } else if is_key(signals, termios, ControlChar::Quit, byte) {
        Key::Quit
    } else if is_key(signals, termios, ControlChar::Susp, byte) {
        Key::Susp
    } else if is_ignored(termios, byte) {
        Key::Ignored
    } else if termios.lflag.contains(LocalModes::ICANON) {
        line_key(termios, ended(termios, byte))
    } else {
        Key::Ordinary
    }
}

// Whether a byte is a carriage return that is ignored.
fn is_ignored(termios: &Termios, byte: u8) -> bool
    ensures { result ≡ (byte == carriage_return && igncr termios.now) }
{
    byte == CARRIAGE_RETURN && termios.iflag.contains(InputModes::IGNCR)
}

// The byte as which a key is taken: the keys of flow control and of signals as they came.
fn byte_as(key: Key, termios: &Termios, byte: u8) -> u8
    ensures { result ≡ byte_as key termios.now byte }
{
    match key {
        Key::Stop | Key::Start | Key::Intr | Key::Quit | Key::Susp | Key::Ignored => byte,
        Key::Eof
        | Key::Erase
        | Key::Kill
        | Key::Werase
        | Key::Reprint
        | Key::Lnext
        | Key::Delimiter
        | Key::Ordinary => ended(termios, byte),
    }
}

/// Which key a byte is that is typed, and as which byte it is taken; behind LNEXT it is no key. A byte that is none of the
/// 19 control bytes, no newline and no carriage return costs one pass over the control bytes, and another one up to 13 tests more.
pub fn stroke_of(termios: &Termios, after_lnext: bool, byte: u8) -> Stroke
    ensures { result ≡ stroke_of termios.now after_lnext byte }
{
    let plain = lowered(termios, stripped(termios, byte));
    if after_lnext {
        return Stroke {
            key: Key::Ordinary,
            byte: plain,
            literal: true,
        };
    }
    if !may_be_key(termios, plain) {
        return Stroke {
            key: Key::Ordinary,
            byte: plain,
            literal: false,
        };
    }
    let key = key_of(termios, plain);
    Stroke {
        key,
        byte: byte_as(key, termios, plain),
        literal: false,
    }
}

/// Whether a byte that is typed while output is stopped starts it.
pub fn restarts(termios: &Termios, stroke: Stroke) -> bool
    ensures { result ≡ restarts termios.now stroke }
{
    if stroke.literal {
        return false;
    }
    match stroke.key {
        Key::Start => true,
        Key::Stop => false,
        Key::Intr
        | Key::Quit
        | Key::Susp
        | Key::Ignored
        | Key::Eof
        | Key::Erase
        | Key::Kill
        | Key::Werase
        | Key::Reprint
        | Key::Lnext
        | Key::Delimiter
        | Key::Ordinary => any_key_restarts(termios),
    }
}

// Whether any key but STOP starts output.
fn any_key_restarts(termios: &Termios) -> bool
    ensures { result ≡ (ixon termios.now && ixany termios.now) }
{
    termios.iflag.contains(InputModes::IXON) && termios.iflag.contains(InputModes::IXANY)
}
