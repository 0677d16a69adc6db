//! Bytes that are no control bytes, looked for sixteen at a time (ascii(5); termio(7I): "Output Modes").

ghost use Rattle.std.specs.Prelude.{◌≡◌, ◌≤◌, false, length, map, not, take};
ghost use Rattle.std.specs.List.{AllByRecursion};
ghost use Rattle.std.specs.Simd.Lanes.{mask_l};
ghost use Rattle.strm_types.specs.Echo.{is_control};

use std::simd::prelude::*;

// How many bytes are looked at together.
const BLOCK: usize = 16;

const DELETE: u8 = 127;

/// Whether a byte is no control byte.
pub(crate) fn is_graphic(byte: u8) -> bool
    ensures { result ≡ not (is_control byte) }
{
    b' ' <= byte && byte != DELETE
}

// A bit for each byte of a block, the first byte's the lowest: whether it is a control byte.
#[inline(always)]
fn controls(block: u8x16) -> u64
    ensures { result ≡ mask_l (map is_control block) }
{
    (block.simd_lt(u8x16::splat(b' ')) | block.simd_eq(u8x16::splat(DELETE))).to_bitmask()
}

// How many bytes at the front are no control bytes, where so many were found.
fn graphic_end(bytes: &[u8], from: usize) -> usize
    requires within { from ≤ length bytes.now }
    requires graphic { AllByRecursion (λ b. is_control b ≡ false) (take from bytes.now) }
    ensures within { result ≤ length bytes.now }
    ensures graphic { AllByRecursion (λ b. is_control b ≡ false) (take result bytes.now) }
{
    for at in from..bytes.len() {
        if !is_graphic(bytes[at]) {
            return at;
        }
    }
    bytes.len()
}

/// How many bytes at the front are no control bytes.
pub(crate) fn graphic_len(bytes: &[u8]) -> usize
    ensures within { result ≤ length bytes.now }
    ensures graphic { AllByRecursion (λ b. is_control b ≡ false) (take result bytes.now) }
{
    let mut at = 0;
    while bytes.len() - at >= BLOCK {
        let found = controls(u8x16::from_slice(&bytes[at..]));
        if found != 0 {
            return at + found.trailing_zeros() as usize;
        }
        at += BLOCK;
    }
    graphic_end(bytes, at)
}
