//! Numbers of a line.

ghost use Rattle.std.specs.Prelude.{◌≡◌, ◌≤◌, IfSome};
ghost use Rattle.std.specs.List.{position_from, position_or_len};
ghost use Rattle.strm_script.specs.Script.{digit_of};
ghost use Rattle.strm_script.specs.Script.{byte_max, short_max};
ghost use Rattle.strm_script.specs.ScriptReading.{within, number_from, number_in, number_to, is_space};

/// The value of a decimal digit.
#[tactic(auto, unfolding(crate::specs::Script::digit_of))]
fn digit(byte: u8) -> Option<u64>
    ensures same { result ≡ digit_of byte }
    ensures small { IfSome result (λ d. d ≤ 9) }
{
    if byte >= b'0' && byte <= b'9' {
        Some((byte - b'0') as u64)
    } else {
        None
    }
}

/// The number that decimal digits spell, if it is at most 4294967295.
fn value(digits: &[u8]) -> Option<u32>
    ensures { result ≡ number_from 0 digits.now }
{
    let mut value = 0u64;
    for byte in digits {
        let Some(digit) = digit(*byte) else {
            return None;
        };
        value = 10 * value + digit;
        if value > u32::MAX as u64 {
            return None;
        }
    }
    Some(value as u32)
}

/// The number that 1 to 10 decimal digits spell, if it is at most 4294967295.
#[tactic(auto, unfolding(crate::specs::ScriptReading::number_in))]
pub fn number(digits: &[u8]) -> Option<u32>
    ensures { result ≡ number_in digits.now }
{
    if digits.is_empty() || digits.len() > 10 {
        return None;
    }
    value(digits)
}

/// Whether a byte is a space, at which a word ends.
fn is_space(byte: u8) -> bool
    ensures { result ≡ is_space byte }
{
    byte == b' '
}

/// The place of the first space.
fn first_space(text: &[u8]) -> Option<usize>
    ensures { result ≡ position_from is_space 0 text.now }
{
    text.iter().position(|byte| is_space(*byte))
}

/// How many bytes stand before the first space, or before the end.
pub fn word_len(text: &[u8]) -> usize
    ensures { result ≡ position_or_len is_space text.now }
{
    first_space(text).unwrap_or(text.len())
}

/// A number as one of two bytes, if it is at most 65535.
fn short_of(number: u32) -> Option<u16>
    ensures { result ≡ within short_max number }
{
    if number <= u16::MAX as u32 {
        Some(number as u16)
    } else {
        None
    }
}

/// The number up to 65535 that a text spells.
#[tactic(auto, unfolding(crate::specs::ScriptReading::number_to))]
pub fn short(digits: &[u8]) -> Option<u16>
    ensures { result ≡ number_to short_max digits.now }
{
    short_of(number(digits)?)
}

/// A number as a byte, if it is at most 255.
fn byte_of(number: u32) -> Option<u8>
    ensures { result ≡ within byte_max number }
{
    if number <= u8::MAX as u32 {
        Some(number as u8)
    } else {
        None
    }
}

/// The number up to 255 that a text spells.
#[tactic(auto, unfolding(crate::specs::ScriptReading::number_to))]
pub fn byte(digits: &[u8]) -> Option<u8>
    ensures { result ≡ number_to byte_max digits.now }
{
    byte_of(number(digits)?)
}
