//! Texts of a line, with their escapes.

ghost use Rattle.std.specs.Prelude.{◌≡◌, ◌≤◌, IfOk, IfSome, false, length};
ghost use Rattle.std.specs.Option.{option_map};
ghost use Rattle.strm_script.specs.Script.{hex_of, escaped};
ghost use Rattle.std.specs.List.{position_from, position_or_len};
ghost use Rattle.strm_script.specs.ScriptReading.{moved_by, text_in, text_from, is_closed, is_marked, own_len};
ghost use Rattle.strm_script.specs.ScriptReading.{quoted_len, part_in};
ghost use Rattle.strm_script.specs.ScriptReading as readings;
ghost use Rattle.strm_script.specs.Modes.{mode_of, move_of, IsMode, IsMove};

use crate::named::after;
use std::alloc::{AllocError, Global};

/// How far the spelling of a text has come.
#[derive(Clone, Copy)]
enum Mode {
    /// Between two pieces.
    Inside,
    /// Behind a backslash.
    Escaped,
    /// Behind `\x`.
    Coded,
    /// Behind `\x` and a digit of this value.
    HalfCoded(u8),
    /// Behind the quote at the end.
    Closed,
}

/// What a byte does to a spelling.
#[derive(Clone, Copy)]
enum Move {
    /// No text is spelled so.
    Breaks,
    Goes(Mode),
    /// A piece ends, which spells this byte.
    Gives(u8),
}

/// The value of a hexadecimal digit, in either case.
#[tactic(auto, unfolding(crate::specs::Script::hex_of))]
fn hex(byte: u8) -> Option<u8>
    ensures same { result ≡ hex_of byte }
    ensures small { IfSome result (λ d. d ≤ 15) }
{
    match byte {
        b'0'..=b'9' => Some(byte - b'0'),
        b'a'..=b'f' => Some(byte - b'a' + 10),
        b'A'..=b'F' => Some(byte - b'A' + 10),
        _ => None,
    }
}

/// The byte that an escape of one letter stands for.
#[tactic(auto, unfolding(crate::specs::Script::escaped))]
fn escape(byte: u8) -> Option<u8>
    ensures { result ≡ escaped byte }
{
    match byte {
        b'n' => Some(b'\n'),
        b'r' => Some(b'\r'),
        b't' => Some(b'\t'),
        b'"' => Some(b'"'),
        b'\\' => Some(b'\\'),
        _ => None,
    }
}

/// What a byte does between two pieces.
fn moved_inside(byte: u8) -> Move
    ensures same { move_of result ≡ moved_by readings.Inside byte }
    ensures small { IsMove result }
{
    match byte {
        b'"' => Move::Goes(Mode::Closed),
        b'\\' => Move::Goes(Mode::Escaped),
        b'\n' => Move::Breaks,
        _ => Move::Gives(byte),
    }
}

/// What a byte does to a spelling.
fn moved(mode: Mode, byte: u8) -> Move
    requires { IsMode mode }
    ensures same { move_of result ≡ moved_by (mode_of mode) byte }
    ensures small { IsMove result }
{
    match mode {
        Mode::Inside => moved_inside(byte),
        Mode::Escaped => {
            if byte == b'x' {
                return Move::Goes(Mode::Coded);
            }
            match escape(byte) {
                Some(byte) => Move::Gives(byte),
                None => Move::Breaks,
            }
        }
        Mode::Coded => match hex(byte) {
            Some(high) => Move::Goes(Mode::HalfCoded(high)),
            None => Move::Breaks,
        },
        Mode::HalfCoded(high) => match hex(byte) {
            Some(low) => Move::Gives(16 * high + low),
            None => Move::Breaks,
        },
        Mode::Closed => Move::Breaks,
    }
}

/// Whether the quote at the end has come.
fn is_closed(mode: Mode) -> bool
    ensures { result ≡ is_closed (mode_of mode) }
{
    match mode {
        Mode::Closed => true,
        _ => false,
    }
}

/// Whether a byte between two pieces doesn't spell itself.
fn is_marked(byte: u8) -> bool
    ensures { result ≡ is_marked byte }
{
    match byte {
        b'"' | b'\\' | b'\n' => true,
        _ => false,
    }
}

/// The place of the first byte that doesn't spell itself.
fn first_marked(bytes: &[u8]) -> Option<usize>
    ensures { result ≡ position_from is_marked 0 bytes.now }
{
    bytes.iter().position(|byte| is_marked(*byte))
}

/// How many bytes spell themselves, up to the first that doesn't.
fn unmarked_len(bytes: &[u8]) -> usize
    ensures { result ≡ position_or_len is_marked bytes.now }
{
    first_marked(bytes).unwrap_or(bytes.len())
}

/// How many bytes spell themselves where a spelling stands in this mode: none within an escape.
fn own_len(mode: Mode, bytes: &[u8]) -> usize
    ensures { result ≡ own_len (mode_of mode) bytes.now }
{
    match mode {
        Mode::Inside => unmarked_len(bytes),
        _ => 0,
    }
}

/// The text that bytes spell, up to the quote at their end. A run of bytes that spell themselves is taken at once.
fn spelled(alloc: Global, bytes: &[u8]) -> Result<Option<Vec<u8>>, AllocError>
    ensures { IfOk result (λ found. option_map (λ text. text.items) found ≡ text_from readings.Inside bytes.now) }
{
    let mut text = Vec::new(alloc);
    let mut mode = Mode::Inside;
    let mut done = 0usize;
    while done < bytes.len() {
        let rest = &bytes[done..];
        let own = own_len(mode, rest);
        if own > 0 {
            text.extend_from_slice(&rest[..own])?;
            done += own;
            continue;
        }
        match moved(mode, bytes[done]) {
            Move::Breaks => return Ok(None),
            Move::Goes(next) => mode = next,
            Move::Gives(byte) => {
                text.push(byte)?;
                mode = Mode::Inside;
            }
        }
        done += 1;
    }
    if is_closed(mode) {
        Ok(Some(text))
    } else {
        Ok(None)
    }
}

/// The text in quotes that is spelled, where no more than it stands there.
#[tactic(auto, unfolding(crate::specs::ScriptReading::text_in))]
pub fn text(alloc: Global, bytes: &[u8]) -> Result<Option<Vec<u8>>, AllocError>
    ensures { IfOk result (λ found. option_map (λ text. text.items) found ≡ text_in bytes.now) }
{
    match after(bytes, b"\"") {
        Some(inside) => spelled(alloc, inside),
        None => Ok(None),
    }
}

/// How many bytes are left of a text in quotes, up to and with the quote at its end, or all where there is none.
pub fn quoted_len(bytes: &[u8]) -> usize
    ensures same { result ≡ quoted_len false bytes.now }
    ensures within { result ≤ length bytes.now }
{
    let mut escaped = false;
    let mut len = 0usize;
    for byte in bytes {
        len += 1;
        if escaped {
            escaped = false;
        } else if *byte == b'"' {
            return len;
        } else {
            escaped = *byte == b'\\';
        }
    }
    len
}

/// A part of a message: a text in quotes, or `-` for none.
#[tactic(auto, unfolding(crate::specs::ScriptReading::part_in))]
pub fn part(alloc: Global, word: &[u8]) -> Result<Option<Option<Vec<u8>>>, AllocError>
    ensures { IfOk result (λ found. option_map (λ part. option_map (λ text. text.items) part) found ≡ part_in word.now) }
{
    if let b"-" = word {
        return Ok(Some(None));
    }
    match text(alloc, word)? {
        Some(text) => Ok(Some(Some(text))),
        None => Ok(None),
    }
}
