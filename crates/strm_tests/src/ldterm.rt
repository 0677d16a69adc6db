//! What is typed at a terminal, with lines and echoes worked out by hand from termio(7I).

mod clearing;
mod sending;

use arrayvec::ArrayVec;
use std::process::Abort;
use std::test::Fail;
use strm_ldterm::{Line, RUN_MAX, echo_of, restarts, stroke_of};
use strm_types::{InputModes, Key, Stroke, Termios};

// A key is typed: its echo is added to what was echoed, and the line is edited.
fn strike(
    rt: &impl Abort,
    termios: &Termios,
    line: &mut Line,
    stroke: Stroke,
    echoed: &mut ArrayVec<u8, 64>,
) -> Result<(), Fail> {
    let mut echo = echo_of(termios, line, stroke);
    let was = line.len();
    let gone = match stroke.key {
        Key::Erase => line.erase_byte(),
        Key::Werase => line.erase_word(),
        Key::Kill => line.clear(),
        _ => 0,
    };
    assert_eq!(rt; line.len() + gone, was);
    if stroke.key == Key::Ordinary && line.has_room() {
        line.push(stroke.byte);
    }
    let mut run = ArrayVec::<u8, RUN_MAX>::new();
    let len = echo.len(line);
    echo.take_run(line, &mut run);
    assert_eq!(rt; run.len(), len);
    assert!(rt; echoed.try_extend_from_slice(run.as_slice()).is_ok());
    Ok(())
}

// Types bytes, and looks at the line and at all that was echoed.
fn types(rt: &impl Abort, typed: &[u8], line: &[u8], echo: &[u8]) -> Result<(), Fail> {
    let termios = Termios::new();
    let mut unfinished = Line::new();
    let mut echoed = ArrayVec::<u8, 64>::new();
    let mut after_lnext = false;
    for byte in typed {
        let stroke = stroke_of(&termios, after_lnext, *byte);
        after_lnext = stroke.key == Key::Lnext;
        strike(rt, &termios, &mut unfinished, stroke, &mut echoed)?;
    }
    assert_eq!(rt; unfinished.bytes(), line);
    assert_eq!(rt; echoed.as_slice(), echo);
    Ok(())
}

#[test]
fn lines_are_edited_and_echoed(rt: HostRuntime) -> Result<(), Fail> {
    types(&rt, b"ls\x7f", b"l", b"ls\x08 \x08")?;
    types(&rt, b"\x7f", b"", b"")?;
    types(
        &rt,
        b"ab cd \x17",
        b"ab ",
        b"ab cd \x08 \x08\x08 \x08\x08 \x08",
    )?;
    types(&rt, b"a\x01\x15", b"", b"a^A\x08 \x08\x08 \x08\x08 \x08")?;
    types(
        &rt,
        b"abcdef\t\x7f",
        b"abcdef",
        b"abcdef\t\x08 \x08\x08 \x08",
    )?;
    types(&rt, b"a\x16\x15\x12", b"a\x15", b"a^U^R\na^U")?;
    types(&rt, b"a\x03\r", b"a", b"a^C\n")
}

#[test]
fn a_stopped_terminal_is_started(rt: HostRuntime) -> Result<(), Fail> {
    let mut termios = Termios::new();
    let start = stroke_of(&termios, false, 0x11);
    let letter = stroke_of(&termios, false, b'a');
    assert_eq!(rt; start.key, Key::Start);
    assert!(rt; restarts(&termios, start));
    assert!(rt; !restarts(&termios, letter));
    termios.iflag = InputModes(termios.iflag.0 | InputModes::IXANY.0);
    assert!(rt; restarts(&termios, letter));
    Ok(())
}
