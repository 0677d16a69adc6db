//! What bytes give that go out to a terminal, and where they leave its carriage (termio(7I): "Output Modes").

ghost use Rattle.std.specs.Prelude.{◌≡◌, ◌≤◌, ◌+◌};
ghost use Rattle.strm_types.specs.Echo.{tab};
ghost use Rattle.strm_types.specs.Keys.{carriage_return, newline};
ghost use Rattle.strm_types.specs.declared.output.Given.TheVariants.{Byte};
ghost use Rattle.strm_types.specs.declared.output.TheConstants.{COLUMN_MAX};
ghost use Rattle.strm_types.specs.Output.{newline_column, post, posted_as, raised, to_tab_stop, wrapped};
ghost use Rattle.strm_types.specs.Output.{Newline, Return, Tab};

use bitflags::Flags;
use strm_types::{COLUMN_MAX, Given, OutputModes, Posted, Termios};

// The bytes that have a line of their own in the table of output.
const NEWLINE: u8 = b'\n';

const CARRIAGE_RETURN: u8 = b'\r';

const TAB: u8 = b'\t';

const BACKSPACE: u8 = 8;

// By how much a column is lowered that would pass the greatest one: a multiple of 8.
const LOWERED: usize = 65_528;

/// A lower-case letter as the upper-case one, where OLCUC says so.
pub(crate) fn raised(termios: &Termios, byte: u8) -> u8
    ensures { result ≡ raised termios.now byte }
{
    if termios.oflag.contains(OutputModes::OLCUC) && b'a' <= byte && byte <= b'z' {
        byte - 32
    } else {
        byte
    }
}

/// The column so many columns on, at most 256: one that would pass `COLUMN_MAX` is lowered. No column passes it before.
pub(crate) fn moved_on(column: u16, columns: usize) -> u16
    requires few { columns ≤ 256 }
    ensures moved { result ≡ wrapped (column + columns) }
    ensures low { column ≤ COLUMN_MAX }
{
    let moved = usize::from(column) + columns;
    if moved <= usize::from(COLUMN_MAX) {
        moved as u16
    } else {
        (moved - LOWERED) as u16
    }
}

// How many columns are left to the next tab stop.
fn to_tab_stop(column: u16) -> u8
    ensures is { result ≡ to_tab_stop column }
    ensures few { result ≤ 8 }
{
    8 - (column % 8) as u8
}

// The column behind a newline that goes out as it is.
fn newline_column(termios: &Termios, column: u16) -> u16
    ensures { result ≡ newline_column termios.now column }
{
    if termios.oflag.contains(OutputModes::ONLRET) {
        0
    } else {
        column
    }
}

// What a byte gives that goes out as another one, or as itself.
fn as_byte(byte: u8, column: u16) -> Posted
    ensures { result ≡ record { given = Byte byte; column = column } }
{
    Posted {
        given: Given::Byte(byte),
        column,
    }
}

// A newline.
fn post_newline(termios: &Termios, column: u16) -> Posted
    ensures { result ≡ posted_as Newline termios.now column newline }
{
    if termios.oflag.contains(OutputModes::ONLCR) {
        return Posted {
            given: Given::Ended,
            column: 0,
        };
    }
    as_byte(NEWLINE, newline_column(termios, column))
}

// A carriage return.
fn post_return(termios: &Termios, column: u16) -> Posted
    ensures { result ≡ posted_as Return termios.now column carriage_return }
{
    if termios.oflag.contains(OutputModes::OCRNL) {
        return as_byte(NEWLINE, newline_column(termios, column));
    }
    if termios.oflag.contains(OutputModes::ONOCR) && column == 0 {
        return Posted {
            given: Given::Nothing,
            column: 0,
        };
    }
    as_byte(CARRIAGE_RETURN, 0)
}

// A TAB.
fn post_tab(termios: &Termios, column: u16) -> Posted
    ensures { result ≡ posted_as Tab termios.now column tab }
{
    let columns = to_tab_stop(column);
    let column = moved_on(column, usize::from(columns));
    if termios.oflag.contains(OutputModes::XTABS) {
        return Posted {
            given: Given::Spaces(columns),
            column,
        };
    }
    as_byte(TAB, column)
}

/// What a byte gives at a column under OPOST, and the column behind it (termio(7I)). It costs the same for each byte.
pub fn post(termios: &Termios, column: u16, byte: u8) -> Posted
    ensures { result ≡ post termios.now column byte }
{
    let byte = raised(termios, byte);
    if byte == NEWLINE {
        post_newline(termios, column)
    } else if byte == CARRIAGE_RETURN {
        post_return(termios, column)
    } else if byte == TAB {
        post_tab(termios, column)
    } else if byte == BACKSPACE {
        as_byte(byte, column.saturating_sub(1))
    } else if byte < 32 || byte == 127 {
        as_byte(byte, column)
    } else {
        as_byte(byte, moved_on(column, 1))
    }
}
