//! What the bytes that are typed at a terminal are to its line discipline.

/// How many bytes an unfinished line has at most. The delimiter that ends it comes on top (termio(7I): `MAX_CANON`).
pub const LINE_MAX: usize = 255;

/// What a byte is to the line discipline, by what the terminal is set to (termio(7I): "Special Characters").
#[derive(Clone, Copy, Debug)]
pub enum Key {
    /// Output stops.
    Stop,
    /// Output goes on.
    Start,
    /// Sends SIGINT.
    Intr,
    /// Sends SIGQUIT.
    Quit,
    /// Sends SIGTSTP.
    Susp,
    /// A carriage return under IGNCR.
    Ignored,
    /// The line goes up without this byte.
    Eof,
    /// Takes the last byte of the line.
    Erase,
    /// Takes the whole line.
    Kill,
    /// Takes the last word of the line.
    Werase,
    /// Echoes the line once more.
    Reprint,
    /// The next byte is no key.
    Lnext,
    /// NL, EOL or EOL2: ends the line.
    Delimiter,
    /// Any other byte.
    Ordinary,
}

/// A byte that was typed: which key it is, and as which byte it is taken, once case and line ends are mapped. It is literal
/// where it stands behind LNEXT.
#[derive(Clone, Copy)]
pub struct Stroke {
    pub key: Key,
    pub byte: u8,
    pub literal: bool,
}
