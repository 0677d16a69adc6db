//! The texts that rounds write.

ghost use Rattle.std.specs.Prelude.{◌<◌, length};

use crate::plans::{Round, Text};

// What a text says over and over.
fn unit(text: Text) -> &'static [u8]
    ensures { 0 < length result.now }
{
    match text {
        Text::Letters => b"z",
        Text::Escapes => b"\x1b",
        Text::Colours => b"\x1b[01;34msrc\x1b[0m  ",
    }
}

/// The text that a round writes from its first byte on, with a newline at the end of each of its lines.
pub fn text_of(round: &Round) -> [u8; 4096] {
    let unit = unit(round.text);
    let line = round.line as usize;
    let mut text = [b'\n'; 4096];
    for i in 0..4096 {
        if line == 0 || i % line != line - 1 {
            text[i] = unit[i % unit.len()];
        }
    }
    text
}
