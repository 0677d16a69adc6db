//! Numbers and bytes at the front of a text. Each reader answers the value and the bytes behind it, and none where the text is too
//! short.

ghost use Rattle.std.specs.Prelude.{◌≡◌, IfSome, length};
ghost use Rattle.strm_image.specs.Format.{Reads, byte, bytes_of, u16, u32, u64};

/// One byte.
pub fn byte_at(text: &[u8]) -> Option<(u8, &[u8])>
    ensures { Reads (λ x. (x.0, x.1.now)) result (byte.read text.now) }
{
    match text {
        [] => None,
        [first, rest @ ..] => Some((*first, rest)),
    }
}

/// So many bytes.
pub fn bytes_at(text: &[u8], count: usize) -> Option<(&[u8], &[u8])>
    ensures read { Reads (λ x. (x.0.now, x.1.now)) result ((bytes_of count).read text.now) }
    ensures length { IfSome result (λ x. length x.0.now ≡ count) }
{
    if text.len() < count {
        return None;
    }
    Some(text.split_at(count))
}

/// A number of 16 bits, its most significant byte first, as all numbers of an image.
pub fn u16_at(text: &[u8]) -> Option<(u16, &[u8])>
    ensures { Reads (λ x. (x.0, x.1.now)) result (u16.read text.now) }
{
    if text.len() < 2 {
        return None;
    }
    let (front, rest) = text.split_at(2);
    let number = u16::from_be_bytes([front[0], front[1]]);
    Some((number, rest))
}

pub fn u32_at(text: &[u8]) -> Option<(u32, &[u8])>
    ensures { Reads (λ x. (x.0, x.1.now)) result (u32.read text.now) }
{
    if text.len() < 4 {
        return None;
    }
    let (front, rest) = text.split_at(4);
    let number = u32::from_be_bytes([front[0], front[1], front[2], front[3]]);
    Some((number, rest))
}

pub fn u64_at(text: &[u8]) -> Option<(u64, &[u8])>
    ensures { Reads (λ x. (x.0, x.1.now)) result (u64.read text.now) }
{
    if text.len() < 8 {
        return None;
    }
    let (front, rest) = text.split_at(8);
    let number = u64::from_be_bytes([
        front[0], front[1], front[2], front[3], front[4], front[5], front[6], front[7],
    ]);
    Some((number, rest))
}
