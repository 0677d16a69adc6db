//! What is echoed of a key (termio(7I): ECHO, ECHOE, ECHOK, ECHOKE, ECHONL, ECHOCTL; ldterm(7M)). An echo may have thousands of bytes, as
//! that of KILL on a line of TABs has, so it isn't made at once: its length is known first, and its bytes come in runs.

ghost use Rattle.std.specs.Prelude.{◌≡◌, ℕ, ◌+◌, ◌*◌, ◌≤◌, false, true, List, [], ◌∷◌, ◌++◌, length, take, drop, flat_map, IfNone};
ghost use Rattle.std.specs.Option.{option_to_list};
ghost use Rattle.arrayvec.specs.ArrayVec.{array_vec_len};
ghost use Rattle.strm_types.specs.Echo.{column_from, echo_byte, echo_of, erase_echo, is_control, kill_echo, ordinary_echo, reprint_echo, rub_out, shown_control, typed_echo, under_echo, width_at};
ghost use Rattle.strm_types.specs.Termios.{echo};
ghost use Rattle.strm_ldterm.specs.Echoes.{echo_bytes, shown, MayLeave};
ghost use Rattle.strm_ldterm.specs.Quiet.{is_quiet};

use crate::lines::{Line, left_without_word};
use arrayvec::ArrayVec;
use bitflags::Flags;
use strm_types::{InputModes, Key, LINE_MAX, LocalModes, Stroke, Termios};

/// How many bytes of an echo come at a time.
pub const RUN_MAX: usize = 256;

/// How many bytes an echo has at most: KILL rubs out 255 TABs of 8 columns, by three bytes a column.
pub const ECHO_MAX: usize = 6120;

// Bytes with a meaning of their own.
const BELL: u8 = 7;

const BACKSPACE: u8 = 8;

const TAB: u8 = b'\t';

const NEWLINE: u8 = b'\n';

const SPACE: u8 = b' ';

const DELETE: u8 = 127;

/// What is left of an echo: bytes, then columns to rub out, then so many bytes at the end of the line that are shown once more, where
/// control bytes are shown as `^` and a letter or as they are.
#[derive(Drop)]
pub struct Echo {
    first: ArrayVec<u8, 3>,
    columns: u16,
    shown: usize,
    controls: bool,
}

// Whether a byte is a control byte: below the space, or DEL.
fn is_control(byte: u8) -> bool
    ensures { result ≡ is_control byte }
{
    byte < SPACE || byte == DELETE
}

// The byte behind `^` that stands for a control byte.
fn shown_control(byte: u8) -> u8
    requires { is_control byte ≡ true }
    ensures { result ≡ shown_control byte }
{
    if byte == DELETE { b'?' } else { byte + 64 }
}

// A byte as an ordinary one is echoed, under ECHOCTL or without it.
fn shown(controls: bool, byte: u8) -> ArrayVec<u8, 3>
    ensures bytes { result.items ≡ shown controls byte }
    ensures few { array_vec_len result ≤ 2 }
{
    let mut bytes = ArrayVec::new();
    if controls && byte != TAB && is_control(byte) {
        bytes.push(b'^');
        bytes.push(shown_control(byte));
    } else {
        bytes.push(byte);
    }
    bytes
}

// How many columns a byte takes at a column.
fn width_at(termios: &Termios, column: usize, byte: u8) -> usize
    ensures value { result ≡ width_at termios.now column byte }
    ensures few { result ≤ 8 }
{
    if byte == TAB {
        8 - column % 8
    } else if !is_control(byte) {
        1
    } else if termios.lflag.contains(LocalModes::ECHOCTL) {
        2
    } else {
        0
    }
}

// The column behind these bytes, which begin at one.
fn column_from(termios: &Termios, from: usize, line: &[u8]) -> usize
    requires near { from ≤ 8 * LINE_MAX }
    requires few { length line.now ≤ LINE_MAX }
    ensures value { result ≡ column_from termios.now from line.now }
    ensures few { result ≤ from + 8 * length line.now }
{
    let mut column = from;
    for byte in line {
        column += width_at(termios, column, *byte);
    }
    column
}

// Whether what is typed is echoed.
fn echoes(termios: &Termios) -> bool
    ensures { result ≡ echo termios.now }
{
    termios.lflag.contains(LocalModes::ECHO)
}

// An echo of these bytes alone.
fn of_bytes(bytes: ArrayVec<u8, 3>) -> Echo
    ensures { (line : List ℕ) → echo_bytes result line ≡ bytes.items }
{
    Echo {
        first: bytes,
        columns: 0,
        shown: 0,
        controls: false,
    }
}

/// An echo of at most 3 bytes.
pub(crate) fn of_slice(bytes: &[u8]) -> Echo
    requires { length bytes.now ≤ 3 }
    ensures { (line : List ℕ) → echo_bytes result line ≡ bytes.now }
{
    let mut first = ArrayVec::new();
    let Ok(()) = first.try_extend_from_slice(bytes) else {
        unreachable!()
    };
    of_bytes(first)
}

// No echo.
fn nothing() -> Echo
    ensures { (line : List ℕ) → echo_bytes result line ≡ [] }
{
    of_bytes(ArrayVec::new())
}

// An echo of one byte.
fn of_byte(byte: u8) -> Echo
    ensures { (line : List ℕ) → echo_bytes result line ≡ byte ∷ [] }
{
    let mut bytes = ArrayVec::new();
    bytes.push(byte);
    of_bytes(bytes)
}

// An echo that rubs out columns.
fn of_columns(columns: usize) -> Echo
    requires { columns ≤ 16 * LINE_MAX }
    ensures { (line : List ℕ) → echo_bytes result line ≡ rub_out columns }
{
    Echo {
        first: ArrayVec::new(),
        columns: columns as u16,
        shown: 0,
        controls: false,
    }
}

// What ERASE and WERASE echo, which leave so many bytes of the line.
fn erase_echo(termios: &Termios, line: &[u8], left: usize, byte: u8) -> Echo
    requires within { left ≤ length line.now }
    requires few { length line.now ≤ LINE_MAX }
    ensures { (after : List ℕ) → echo_bytes result after ≡ under_echo termios.now (erase_echo termios.now line.now (take left line.now) byte) }
{
    if !echoes(termios) {
        nothing()
    } else if termios.lflag.contains(LocalModes::ECHOE) {
        let kept = column_from(termios, 0, &line[..left]);
        of_columns(column_from(termios, kept, &line[left..]) - kept)
    } else if left == line.len() {
        nothing()
    } else {
        of_bytes(shown(termios.lflag.contains(LocalModes::ECHOCTL), byte))
    }
}

// What KILL echoes.
fn kill_echo(termios: &Termios, line: &[u8], byte: u8) -> Echo
    requires { length line.now ≤ LINE_MAX }
    ensures { (after : List ℕ) → echo_bytes result after ≡ under_echo termios.now (kill_echo termios.now line.now byte) }
{
    if !echoes(termios) {
        return nothing();
    }
    if termios.lflag.contains(LocalModes::ECHOKE) {
        return of_columns(column_from(termios, 0, line));
    }
    let mut bytes = shown(termios.lflag.contains(LocalModes::ECHOCTL), byte);
    if termios.lflag.contains(LocalModes::ECHOK) {
        bytes.push(NEWLINE);
    }
    of_bytes(bytes)
}

// What REPRINT echoes: the key, a newline and the line.
fn reprint_echo(termios: &Termios, line: &[u8], byte: u8) -> Echo
    ensures { echo_bytes result line.now ≡ under_echo termios.now (reprint_echo termios.now line.now byte) }
{
    if !echoes(termios) {
        return nothing();
    }
    let controls = termios.lflag.contains(LocalModes::ECHOCTL);
    let mut bytes = shown(controls, byte);
    bytes.push(NEWLINE);
    Echo {
        first: bytes,
        columns: 0,
        shown: line.len(),
        controls,
    }
}

// What is echoed of a byte as an ordinary one, under ECHO.
fn shown_echo(termios: &Termios, byte: u8) -> ArrayVec<u8, 3>
    ensures { result.items ≡ under_echo termios.now (echo_byte termios.now byte) }
{
    if !echoes(termios) {
        return ArrayVec::new();
    }
    shown(termios.lflag.contains(LocalModes::ECHOCTL), byte)
}

// What is echoed of a byte that ends a line or is added to it.
fn typed_echo(termios: &Termios, stroke: Stroke) -> ArrayVec<u8, 3>
    ensures { result.items ≡ typed_echo termios.now stroke }
{
    if stroke.byte != NEWLINE || stroke.literal {
        return shown_echo(termios, stroke.byte);
    }
    let local = termios.lflag;
    let mut bytes = ArrayVec::new();
    if echoes(termios)
        || (local.contains(LocalModes::ECHONL) && local.contains(LocalModes::ICANON))
    {
        bytes.push(NEWLINE);
    }
    bytes
}

/// What is echoed of a key that may send something, at most 3 bytes whatever the line is: of STOP and EOF nothing, of a signal's key and of
/// a delimiter the key.
pub(crate) fn short_echo(termios: &Termios, stroke: Stroke) -> ArrayVec<u8, 3>
    requires { is_quiet stroke.key ≡ false }
    ensures { (before after : List ℕ) → result.items ≡ echo_of termios.now before after stroke }
{
    match stroke.key {
        Key::Intr | Key::Quit | Key::Susp => shown_echo(termios, stroke.byte),
        Key::Delimiter => typed_echo(termios, stroke),
        _ => ArrayVec::new(),
    }
}

// What is echoed of an ordinary byte: the bell, where a line has no room for it.
fn ordinary_echo(termios: &Termios, line: &[u8], stroke: Stroke) -> Echo
    ensures { (after : List ℕ) → echo_bytes result after ≡ ordinary_echo termios.now line.now stroke }
{
    if !termios.lflag.contains(LocalModes::ICANON) || line.len() < LINE_MAX {
        of_bytes(typed_echo(termios, stroke))
    } else if termios.iflag.contains(InputModes::IMAXBEL) {
        of_byte(BELL)
    } else {
        nothing()
    }
}

// What is echoed of a key, by the line before it.
fn echo_by(termios: &Termios, line: &[u8], stroke: Stroke) -> Echo
    requires { length line.now ≤ LINE_MAX }
    ensures { (after : List ℕ) → MayLeave stroke.key line.now after → echo_bytes result after ≡ echo_of termios.now line.now after stroke }
{
    match stroke.key {
        Key::Stop | Key::Start | Key::Ignored | Key::Eof | Key::Lnext => nothing(),
        Key::Intr | Key::Quit | Key::Susp => of_bytes(shown_echo(termios, stroke.byte)),
        Key::Erase => erase_echo(termios, line, line.len().saturating_sub(1), stroke.byte),
        Key::Werase => erase_echo(termios, line, left_without_word(line), stroke.byte),
        Key::Kill => kill_echo(termios, line, stroke.byte),
        Key::Reprint => reprint_echo(termios, line, stroke.byte),
        Key::Delimiter => of_bytes(typed_echo(termios, stroke)),
        Key::Ordinary => ordinary_echo(termios, line, stroke),
    }
}

/// What is echoed of a key that is typed, by the line before it. Its bytes are asked for once the key has done its work, by the line
/// behind it.
pub fn echo_of(termios: &Termios, line: &Line, stroke: Stroke) -> Echo
    ensures bytes { (after : List ℕ) → MayLeave stroke.key line.now after → echo_bytes result after ≡ echo_of termios.now line.now after stroke }
    ensures few { (after : List ℕ) → MayLeave stroke.key line.now after → length (echo_bytes result after) ≤ ECHO_MAX }
{
    echo_by(termios, line.bytes(), stroke)
}

impl Echo {
    // Where none is left, those that follow stand ready: of one column, or of one byte of the line.
    fn refill(&mut self, line: &[u8])
        requires { self.old.first.items ≡ [] }
        ensures same { echo_bytes self.new line.now ≡ echo_bytes self.old line.now }
        ensures end { self.new.first.items ≡ [] → echo_bytes self.new line.now ≡ [] }
    {
        if self.columns > 0 {
            self.columns -= 1;
            self.first.push(BACKSPACE);
            self.first.push(SPACE);
            self.first.push(BACKSPACE);
            return;
        }
        let at = line.len().saturating_sub(self.shown);
        if at < line.len() {
            self.shown = line.len() - at - 1;
            self.first = shown(self.controls, line[at]);
        }
    }

    // Takes the next byte.
    fn next(&mut self, line: &[u8]) -> Option<u8>
        ensures bytes { echo_bytes self.old line.now ≡ option_to_list result ++ echo_bytes self.new line.now }
        ensures end { IfNone result (echo_bytes self.new line.now ≡ []) }
    {
        if self.first.is_empty() {
            self.refill(line);
        }
        self.first.pop_at(0)
    }

    /// Takes the next bytes of an echo, 256 or as many as are left.
    pub fn take_run(&mut self, line: &Line, run: &mut ArrayVec<u8, RUN_MAX>)
        ensures run { run.new.items ≡ take RUN_MAX (echo_bytes self.old line.now) }
        ensures rest { echo_bytes self.new line.now ≡ drop RUN_MAX (echo_bytes self.old line.now) }
    {
        run.clear();
        let bytes = line.bytes();
        while !run.is_full() {
            match self.next(bytes) {
                Some(byte) => run.push(byte),
                None => break,
            }
        }
    }

    /// How many bytes an echo has.
    pub fn len(&self, line: &Line) -> usize
        ensures { result ≡ length (echo_bytes self.now line.now) }
    {
        let bytes = line.bytes();
        let at = bytes.len().saturating_sub(self.shown);
        self.first.len() + 3 * usize::from(self.columns) + shown_len(self.controls, &bytes[at..])
    }
}

// How many bytes are echoed of an ordinary byte.
fn shown_size(controls: bool, byte: u8) -> usize
    ensures value { result ≡ length (shown controls byte) }
    ensures few { result ≤ 2 }
{
    if controls && byte != TAB && is_control(byte) {
        2
    } else {
        1
    }
}

// How many bytes are echoed of a line that is shown once more.
fn shown_len(controls: bool, line: &[u8]) -> usize
    requires { length line.now ≤ LINE_MAX }
    ensures value { result ≡ length (flat_map (shown controls) line.now) }
    ensures few { result ≤ 2 * LINE_MAX }
{
    let mut len = 0;
    for byte in line {
        len += shown_size(controls, *byte);
    }
    len
}
