//! What becomes of bytes that go out to a terminal.

/// The greatest column of a terminal's carriage that is told. One that would pass it is lowered by 65,528, a multiple of 8, so that tabs
/// stop where they did.
pub const COLUMN_MAX: u16 = 65_535;

/// What a byte gives that goes out under OPOST (termio(7I): "Output Modes").
#[derive(Clone, Copy)]
pub enum Given {
    /// This byte, which stands for it: the same one, or another one.
    Byte(u8),
    /// A newline behind a carriage return that is made for it, under ONLCR.
    Ended,
    /// So many spaces, which are made in place of a TAB, under XTABS.
    Spaces(u8),
    /// Nothing: it is a carriage return at column 0, under ONOCR.
    Nothing,
}

/// What a byte gives that goes out, and the column of the terminal's carriage behind it, from 0.
#[derive(Clone, Copy)]
pub struct Posted {
    pub given: Given,
    pub column: u16,
}
