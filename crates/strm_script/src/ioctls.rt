//! The ioctls of a script (streamio(7I): I_STR; termio(7I)): each is a row of [`IOCTLS`] and an arm of [`ioctl`].

ghost use Rattle.std.specs.Prelude.{◌≡◌, [], IfOk, option_map};
ghost use Rattle.strm_script.specs.Script.{window_bytes};
ghost use Rattle.strm_script.specs.declared.ioctls.IoctlName.TheVariants as ioctls;
ghost use Rattle.strm_script.specs.Named.{named};
ghost use Rattle.strm_script.specs.Table.{AShort, AText, Ends, Last, ioctl_names, ioctl_form, sends};
ghost use Rattle.strm_script.specs.ScriptReading.{form_in, word_at};
ghost use Rattle.strm_script.specs.Commands.{command_of, commands_of};
ghost use Rattle.strm_script.specs.Views.{front_of};

use crate::commands::{Command, WindowSize};
use crate::named::named;
use crate::numbers::{byte, number, short};
use crate::texts::text;
use crate::words::{last, next, next_number};
use std::alloc::{AllocError, Global};
use strm_types::{
    Event, Side, TCGETS, TCSETS, TCSETSF, TCSETSW, TIOCGPGRP, TIOCGWINSZ, TIOCSIGNAL, TIOCSPGRP,
    TIOCSWINSZ,
};

/// An ioctl, by its word.
#[derive(Clone, Copy)]
pub enum IoctlName {
    Tcgets,
    Tiocgwinsz,
    Tiocgpgrp,
    Tiocspgrp,
    Tiocsignal,
    Tiocswinsz,
    Tcsets,
    Tcsetsw,
    Tcsetsf,
    Raw,
}

/// The word of each ioctl.
const IOCTLS: [(&[u8], IoctlName); 10] = [
    (b"TCGETS", IoctlName::Tcgets),
    (b"TIOCGWINSZ", IoctlName::Tiocgwinsz),
    (b"TIOCGPGRP", IoctlName::Tiocgpgrp),
    (b"TIOCSPGRP", IoctlName::Tiocspgrp),
    (b"TIOCSIGNAL", IoctlName::Tiocsignal),
    (b"TIOCSWINSZ", IoctlName::Tiocswinsz),
    (b"TCSETS", IoctlName::Tcsets),
    (b"TCSETSW", IoctlName::Tcsetsw),
    (b"TCSETSF", IoctlName::Tcsetsf),
    (b"raw", IoctlName::Raw),
];

/// An ioctl of this command, which sends these bytes.
fn sends(alloc: Global, side: Side, command: u32, bytes: &[u8]) -> Result<Command, AllocError>
    ensures { IfOk result (λ made. command_of made ≡ sends side command bytes.now) }
{
    let mut body = Vec::new(alloc);
    body.extend_from_slice(bytes)?;
    let event = Event::Ioctl { command, body };
    Ok(Command::Call { side, event })
}

/// An ioctl that sends nothing.
fn bare(alloc: Global, side: Side, command: u32, rest: &[u8]) -> Result<Option<Command>, AllocError>
    ensures { IfOk result (λ found. commands_of found ≡ form_in (Ends (sends side command [])) rest.now) }
{
    if !rest.is_empty() {
        return Ok(None);
    }
    Ok(Some(sends(alloc, side, command, &[])?))
}

/// An ioctl that sends a text.
fn texted(
    alloc: Global,
    side: Side,
    command: u32,
    rest: &[u8],
) -> Result<Option<Command>, AllocError>
    ensures { IfOk result (λ found. commands_of found ≡ form_in (Last AText (sends side command)) rest.now) }
{
    let Some(word) = last(rest) else {
        return Ok(None);
    };
    let Some(body) = text(alloc, word)? else {
        return Ok(None);
    };
    let event = Event::Ioctl { command, body };
    Ok(Some(Command::Call { side, event }))
}

/// The number up to 65535 behind a space, and what follows it.
fn next_short(rest: &[u8]) -> Option<(u16, &[u8])>
    ensures { option_map front_of result ≡ word_at AShort rest.now }
{
    let (word, rest) = next(rest)?;
    let number = short(word)?;
    Some((number, rest))
}

/// The bytes of a size, two for each number.
fn window_bytes(size: WindowSize) -> [u8; 8]
    ensures { result ≡ window_bytes size }
{
    let rows = size.rows.to_be_bytes();
    let columns = size.columns.to_be_bytes();
    let width = size.width.to_be_bytes();
    let height = size.height.to_be_bytes();
    [
        rows[0], rows[1], columns[0], columns[1], width[0], width[1], height[0], height[1],
    ]
}

/// `TIOCSWINSZ ROWS COLUMNS WIDTH HEIGHT`, behind its word.
fn window(alloc: Global, side: Side, rest: &[u8]) -> Result<Option<Command>, AllocError>
    ensures { IfOk result (λ found. commands_of found ≡ form_in (ioctl_form side ioctls.Tiocswinsz) rest.now) }
{
    let Some((rows, rest)) = next_short(rest) else {
        return Ok(None);
    };
    let Some((columns, rest)) = next_short(rest) else {
        return Ok(None);
    };
    let Some((width, rest)) = next_short(rest) else {
        return Ok(None);
    };
    let Some(word) = last(rest) else {
        return Ok(None);
    };
    let Some(height) = short(word) else {
        return Ok(None);
    };
    let size = WindowSize {
        rows,
        columns,
        width,
        height,
    };
    let bytes = window_bytes(size);
    Ok(Some(sends(alloc, side, TIOCSWINSZ, &bytes)?))
}

/// `TIOCSIGNAL N`, behind its word.
fn signal(alloc: Global, side: Side, rest: &[u8]) -> Result<Option<Command>, AllocError>
    ensures { IfOk result (λ found. commands_of found ≡ form_in (ioctl_form side ioctls.Tiocsignal) rest.now) }
{
    let Some(word) = last(rest) else {
        return Ok(None);
    };
    let Some(number) = byte(word) else {
        return Ok(None);
    };
    Ok(Some(sends(alloc, side, TIOCSIGNAL, &[number])?))
}

/// `TIOCSPGRP N`, behind its word.
fn foreground(alloc: Global, side: Side, rest: &[u8]) -> Result<Option<Command>, AllocError>
    ensures { IfOk result (λ found. commands_of found ≡ form_in (ioctl_form side ioctls.Tiocspgrp) rest.now) }
{
    let Some(word) = last(rest) else {
        return Ok(None);
    };
    let Some(group) = number(word) else {
        return Ok(None);
    };
    Ok(Some(sends(alloc, side, TIOCSPGRP, &group.to_be_bytes())?))
}

/// `raw N "TEXT"`, behind its word.
fn raw(alloc: Global, side: Side, rest: &[u8]) -> Result<Option<Command>, AllocError>
    ensures { IfOk result (λ found. commands_of found ≡ form_in (ioctl_form side ioctls.Raw) rest.now) }
{
    match next_number(rest) {
        Some((command, rest)) => texted(alloc, side, command, rest),
        None => Ok(None),
    }
}

/// The ioctl whose word it is.
pub fn ioctl_name(word: &[u8]) -> Option<IoctlName>
    ensures { result ≡ named ioctl_names word.now }
{
    named(&IOCTLS, word)
}

/// An ioctl of a side, of which its word is read. Only want of memory is an `Err`.
pub fn ioctl(
    alloc: Global,
    side: Side,
    name: IoctlName,
    rest: &[u8],
) -> Result<Option<Command>, AllocError>
    ensures { IfOk result (λ found. commands_of found ≡ form_in (ioctl_form side name) rest.now) }
{
    match name {
        IoctlName::Tcgets => bare(alloc, side, TCGETS, rest),
        IoctlName::Tiocgwinsz => bare(alloc, side, TIOCGWINSZ, rest),
        IoctlName::Tiocgpgrp => bare(alloc, side, TIOCGPGRP, rest),
        IoctlName::Tiocspgrp => foreground(alloc, side, rest),
        IoctlName::Tiocsignal => signal(alloc, side, rest),
        IoctlName::Tiocswinsz => window(alloc, side, rest),
        IoctlName::Tcsets => texted(alloc, side, TCSETS, rest),
        IoctlName::Tcsetsw => texted(alloc, side, TCSETSW, rest),
        IoctlName::Tcsetsf => texted(alloc, side, TCSETSF, rest),
        IoctlName::Raw => raw(alloc, side, rest),
    }
}
