//! The unfinished line of input, and what is typed into it (termio(7I): "Canonical Mode Input Processing", ERASE, WERASE, KILL).

ghost use Rattle.std.specs.Prelude.{◌≡◌, ◌+◌, ◌-◌, ◌≤◌, ◌++◌, [], true, length, not, drop, replicate, take, if◌then◌else◌};
ghost use Rattle.strm_types.specs.Lines.{edited, has_room, is_blank, without_end, without_word, Types, ErasesByte, ErasesWord, ErasesAll};

use arrayvec::ArrayVec;
use std::marker::Model;
use strm_types::LINE_MAX;

/// The unfinished line: at most 255 bytes, in the order in which they were typed. Zeros are written over those that go. Contracts see it as a
/// list.
#[derive(Drop)]
pub struct Line {
    bytes: ArrayVec<u8, LINE_MAX>,
}

impl Model for Line {
    ghost use Rattle.std.specs.Prelude.{ℕ, List};

    ghost Value = { List ℕ };

    ghost view = { λ s. s.bytes.items };
}

// Whether a byte parts words: space and TAB do.
fn is_blank(byte: u8) -> bool
    ensures { result ≡ is_blank byte }
{
    byte == b' ' || byte == b'\t'
}

// Whether a byte is a blank, or isn't one.
fn is_sought(blanks: bool, byte: u8) -> bool
    ensures { result ≡ (if blanks then is_blank byte else not (is_blank byte)) }
{
    if blanks {
        is_blank(byte)
    } else {
        !is_blank(byte)
    }
}

// How many bytes are left of a line without the blanks at its end, or without the bytes there that aren't blanks.
fn left_without(line: &[u8], blanks: bool) -> usize
    ensures within { result ≤ length line.now }
    ensures left { take result line.now ≡ without_end (λ c. if blanks then is_blank c else not (is_blank c)) line.now }
{
    let mut left = line.len();
    while left > 0 && is_sought(blanks, line[left - 1]) {
        left -= 1;
    }
    left
}

/// How many bytes are left of a line without the blanks at its end and the word before them. The work is in proportion to what
/// goes.
pub(crate) fn left_without_word(line: &[u8]) -> usize
    ensures within { result ≤ length line.now }
    ensures left { take result line.now ≡ without_word is_blank line.now }
{
    let left = left_without(line, true);
    left_without(&line[..left], false)
}

// Takes bytes off the end, where zeros stand alone.
fn take_off(bytes: &mut ArrayVec<u8, LINE_MAX>, left: usize)
    requires { drop left bytes.old.items ≡ replicate (length bytes.old.items - left) 0 }
    ensures { bytes.new.items ≡ take left bytes.old.items }
{
    bytes.truncate(left);
}

// Shortens a line. Zeros stand where the bytes were that go.
fn shorten(bytes: &mut ArrayVec<u8, LINE_MAX>, left: usize)
    requires { left ≤ length bytes.old.items }
    ensures { bytes.new.items ≡ take left bytes.old.items }
{
    bytes.as_mut_slice()[left..].fill(0);
    take_off(bytes, left);
}

impl Line {
    /// The line before any byte is typed.
    pub fn new() -> Line
        ensures { result ≡ [] }
    {
        Line {
            bytes: ArrayVec::new(),
        }
    }

    /// How many bytes the line has.
    pub fn len(&self) -> usize
        ensures value { result ≡ length self.now }
        ensures few { result ≤ LINE_MAX }
    {
        self.bytes.len()
    }

    /// The bytes of the line.
    pub fn bytes(&self) -> &[u8]
        ensures value { result.now ≡ self.now }
        ensures few { length result.now ≤ LINE_MAX }
    {
        self.bytes.as_slice()
    }

    /// Whether there is room for a byte.
    pub fn has_room(&self) -> bool
        ensures { result ≡ has_room self.now }
    {
        self.bytes.len() < LINE_MAX
    }

    /// Adds a byte, where there is room.
    pub fn push(&mut self, byte: u8)
        requires { has_room self.old ≡ true }
        ensures { self.new ≡ edited is_blank (Types byte) self.old }
    {
        self.bytes.push(byte);
    }

    /// Adds bytes, where there is room for all of them.
    pub(crate) fn extend(&mut self, bytes: &[u8])
        requires { length self.old + length bytes.now ≤ LINE_MAX }
        ensures { self.new ≡ self.old ++ bytes.now }
    {
        let Ok(()) = self.bytes.try_extend_from_slice(bytes) else {
            unreachable!()
        };
    }

    /// ERASE: takes the last byte. Tells how many bytes went.
    pub fn erase_byte(&mut self) -> usize
        ensures line { self.new ≡ edited is_blank ErasesByte self.old }
        ensures gone { result ≡ length self.old - length self.new }
    {
        let len = self.bytes.len();
        if len == 0 {
            return 0;
        }
        shorten(&mut self.bytes, len - 1);
        1
    }

    /// WERASE: takes the blanks at the end and the word before them. Tells how many bytes went, and takes so much work.
    pub fn erase_word(&mut self) -> usize
        ensures line { self.new ≡ edited is_blank ErasesWord self.old }
        ensures gone { result ≡ length self.old - length self.new }
    {
        let left = left_without_word(self.bytes.as_slice());
        let gone = self.bytes.len() - left;
        shorten(&mut self.bytes, left);
        gone
    }

    /// KILL, and a line that went: takes all bytes. Tells how many went.
    pub fn clear(&mut self) -> usize
        ensures line { self.new ≡ edited is_blank ErasesAll self.old }
        ensures gone { result ≡ length self.old - length self.new }
    {
        let gone = self.bytes.len();
        shorten(&mut self.bytes, 0);
        gone
    }
}
