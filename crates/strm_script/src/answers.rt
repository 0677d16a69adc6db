//! The answer lines of a script, as they are printed.

ghost use Rattle.std.specs.Prelude.{◌≡◌, ◌<◌, Some, Ok, take, drop, option_map, unwrap_or};
ghost use Rattle.std.specs.List.{position_from, position_or_len};
ghost use Rattle.strm_script.specs.Script.{side_name, place_name, way_name, module_name};
ghost use Rattle.strm_types.specs.Journal.{part_in, reply_in};
ghost use Rattle.strm_script.specs.ScriptAnswers.{hex_digit, is_escaped, printed, quoted, size_text, line_text, refusal_name};
ghost use Rattle.strm_script.specs.ScriptAnswers.{prio_text, part_text, more_text, signal_text, signals_text, reply_line, Text};
ghost use Rattle.strm_script.specs.Lines.{line_of};

use crate::ledgers::LedgerOf;
use std::fmt;
use strm_types::{Answer, ModuleName, Place, Prio, QueueName, Refusal, Side, Turn, Way};

/// How much stands on a queue: how many messages, and how many bytes they have.
#[derive(Clone, Copy)]
pub struct QueueSize {
    pub name: QueueName,
    pub messages: usize,
    pub bytes: usize,
}

/// How much stands on the queues of a module.
#[derive(Clone, Copy)]
pub struct ModuleSizes {
    pub up: QueueSize,
    pub down: QueueSize,
}

/// An answer line, without its LF. The bytes that a call gave stand apart.
#[derive(Clone, Copy)]
pub enum Line {
    /// A call was answered.
    Done(Answer<u32>),
    /// A turn was taken.
    Turned(Turn),
    /// So many turns were taken.
    Ran(u32),
    /// The journal held so many entries, and begins anew.
    Entries(usize),
    /// So much stands on the queues of a side's stream: of its head, of its module that has queues, if there is one, and of its driver.
    Sizes {
        side: Side,
        head: QueueSize,
        stacked: Option<ModuleSizes>,
        driver: QueueSize,
    },
    /// So many bytes of a direction were written and made, and so many are in each place.
    Booked(LedgerOf),
    /// The command was refused.
    Refused(Refusal),
    /// The line of this number is malformed.
    Wrong(u64),
}

/// An answer line with the bytes that a call gave, as it is printed. A length beyond them is that of all.
#[derive(Clone, Copy)]
pub struct Shown<'a> {
    pub line: &'a Line,
    pub bytes: &'a [u8],
}

/// A hexadecimal digit, in lower case.
fn hex_digit(digit: u8) -> char
    requires { digit < 16 }
    ensures same { result ≡ hex_digit digit }
    ensures ascii { result < 128 }
{
    if digit < 10 {
        (b'0' + digit) as char
    } else {
        (b'a' + (digit - 10)) as char
    }
}

/// A byte of a text, as it is printed.
#[derive(Drop)]
struct Printed(u8);

impl fmt::Display for Printed {
    ghost output = { λ p. Some (printed p.0) };

    fn fmt<W: fmt::Write>(&self, f: &mut fmt::Formatter<W>) -> fmt::Result {
        let byte = self.0;
        match byte {
            b'\n' => write!(f, "\\n"),
            b'\r' => write!(f, "\\r"),
            b'\t' => write!(f, "\\t"),
            b'"' => write!(f, "\\\""),
            b'\\' => write!(f, "\\\\"),
            0x20..=0x7e => write!(f, "{}", byte as char),
            _ => {
                let high = hex_digit(byte / 16);
                let low = hex_digit(byte % 16);
                write!(f, "\\x{high}{low}")
            }
        }
    }
}

/// Whether a byte of a text is printed by an escape.
fn is_escaped(byte: u8) -> bool
    ensures { result ≡ is_escaped byte }
{
    match byte {
        b'"' | b'\\' => true,
        0x20..=0x7e => false,
        _ => true,
    }
}

/// The place of the first byte that is printed by an escape.
fn first_escaped(text: &[u8]) -> Option<usize>
    ensures { result ≡ position_from is_escaped 0 text.now }
{
    text.iter().position(|byte| is_escaped(*byte))
}

/// How many bytes are printed as they are, up to the first that isn't.
fn plain_len(text: &[u8]) -> usize
    ensures { result ≡ position_or_len is_escaped text.now }
{
    first_escaped(text).unwrap_or(text.len())
}

/// The front of a text that is printed as it is, up to the first byte that isn't.
fn plain_front(text: &[u8]) -> &str
    ensures { result.now ≡ take (position_or_len is_escaped text.now) text.now }
{
    let len = plain_len(text);
    match str::from_utf8(&text[..len]) {
        Ok(front) => front,
        Err(_) => "",
    }
}

/// A text in quotes.
#[derive(Drop)]
struct Quoted<'a>(&'a [u8]);

impl fmt::Display for Quoted<'_> {
    ghost output = { λ q. Some (quoted q.0.now) };

    fn fmt<W: fmt::Write>(&self, f: &mut fmt::Formatter<W>) -> fmt::Result {
        write!(f, "\"")?;
        let text = self.0;
        let mut done = 0usize;
        while done < text.len() {
            let plain = plain_front(&text[done..]);
            let len = plain.len();
            if len > 0 {
                f.write_str(plain)?;
                done += len;
                continue;
            }
            let piece = Printed(text[done]);
            write!(f, "{piece}")?;
            done += 1;
        }
        write!(f, "\"")
    }
}

/// The name by which a refusal is printed.
fn name(refusal: Refusal) -> &'static str
    ensures { result.now ≡ refusal_name refusal }
{
    match refusal {
        Refusal::Einval => "EINVAL",
        Refusal::Eagain => "EAGAIN",
        Refusal::Enxio => "ENXIO",
        Refusal::Ebadmsg => "EBADMSG",
        Refusal::Enosr => "ENOSR",
        Refusal::Erange => "ERANGE",
        Refusal::JournalFull => "JournalFull",
        Refusal::NoMinor => "NoMinor",
        Refusal::NoMemory => "NoMemory",
        Refusal::StillShared => "StillShared",
        Refusal::Eio => "EIO",
    }
}

/// The name of a module, as it is printed: one of a user's own has its number.
#[derive(Drop)]
struct ShownModule(ModuleName);

impl fmt::Display for ShownModule {
    ghost output = { λ m. Some (module_name m.0) };

    fn fmt<W: fmt::Write>(&self, f: &mut fmt::Formatter<W>) -> fmt::Result {
        match self.0 {
            ModuleName::Ldterm => write!(f, "ldterm"),
            ModuleName::Ptem => write!(f, "ptem"),
            ModuleName::Pckt => write!(f, "pckt"),
            ModuleName::Own(number) => {
                let number = 16 + u32::from(number);
                write!(f, "{number}")
            }
        }
    }
}

/// The name of a side.
fn side_name(side: Side) -> &'static str
    ensures { result.now ≡ side_name side }
{
    match side {
        Side::Master => "m",
        Side::Slave => "s",
    }
}

/// The name of what a queue belongs to, as it is printed.
#[derive(Drop)]
struct ShownPlace(Place);

impl fmt::Display for ShownPlace {
    ghost output = { λ p. Some (place_name p.0) };

    fn fmt<W: fmt::Write>(&self, f: &mut fmt::Formatter<W>) -> fmt::Result {
        match self.0 {
            Place::Head => write!(f, "head"),
            Place::Module(name) => {
                let module = ShownModule(name);
                write!(f, "{module}")
            }
            Place::Driver => write!(f, "drv"),
        }
    }
}

/// The name of a way.
fn way_name(way: Way) -> &'static str
    ensures { result.now ≡ way_name way }
{
    match way {
        Way::Up => "r",
        Way::Down => "w",
    }
}

impl fmt::Display for QueueSize {
    ghost output = { λ size. Some (size_text size) };

    fn fmt<W: fmt::Write>(&self, f: &mut fmt::Formatter<W>) -> fmt::Result {
        let place = ShownPlace(self.name.place);
        let way = way_name(self.name.way);
        let messages = self.messages;
        let bytes = self.bytes;
        write!(f, "{place}.{way} {messages} {bytes}")
    }
}

/// So many bytes in front, or all where there are fewer.
fn front(bytes: &[u8], len: u32) -> &[u8]
    ensures { result.now ≡ take len bytes.now }
{
    &bytes[..(len as usize).min(bytes.len())]
}

/// What follows so many bytes.
fn behind(bytes: &[u8], len: u32) -> &[u8]
    ensures { result.now ≡ drop len bytes.now }
{
    &bytes[(len as usize).min(bytes.len())..]
}

/// A part over its bytes, which stand in front.
fn part(stored: Option<u32>, bytes: &[u8]) -> Option<&[u8]>
    ensures { option_map (λ bytes. bytes.now) result ≡ part_in stored bytes.now }
{
    match stored {
        Some(len) => Some(front(bytes, len)),
        None => None,
    }
}

/// The priority of a message, as it is printed.
#[derive(Drop)]
struct ShownPrio(Prio);

impl fmt::Display for ShownPrio {
    ghost output = { λ p. Some (prio_text p.0) };

    fn fmt<W: fmt::Write>(&self, f: &mut fmt::Formatter<W>) -> fmt::Result {
        match self.0 {
            Prio::High => write!(f, "hi"),
            Prio::Band(band) => {
                let number = band.0;
                write!(f, "{number}")
            }
        }
    }
}

/// A part of a message, as it is printed.
#[derive(Drop)]
struct ShownPart<'a>(Option<&'a [u8]>);

impl fmt::Display for ShownPart<'_> {
    ghost output = { λ p. Some (part_text (option_map (λ bytes. bytes.now) p.0)) };

    fn fmt<W: fmt::Write>(&self, f: &mut fmt::Formatter<W>) -> fmt::Result {
        match self.0 {
            Some(bytes) => {
                let text = Quoted(bytes);
                write!(f, "{text}")
            }
            None => write!(f, "-"),
        }
    }
}

/// Whether there is more of a message's control part, and of its data part, as it is printed.
#[derive(Drop)]
struct More(bool, bool);

impl fmt::Display for More {
    ghost output = { λ more. Some (more_text more.0 more.1) };

    fn fmt<W: fmt::Write>(&self, f: &mut fmt::Formatter<W>) -> fmt::Result {
        match (self.0, self.1) {
            (false, false) => write!(f, "-"),
            (true, false) => write!(f, "c"),
            (false, true) => write!(f, "d"),
            (true, true) => write!(f, "cd"),
        }
    }
}

/// A signal, as it is printed.
#[derive(Drop)]
struct ShownSignal(u8);

impl fmt::Display for ShownSignal {
    ghost output = { λ s. Some (signal_text s.0) };

    fn fmt<W: fmt::Write>(&self, f: &mut fmt::Formatter<W>) -> fmt::Result {
        match self.0 {
            2 => write!(f, "INT"),
            3 => write!(f, "QUIT"),
            20 => write!(f, "WINCH"),
            24 => write!(f, "TSTP"),
            26 => write!(f, "TTIN"),
            27 => write!(f, "TTOU"),
            number => write!(f, "{number}"),
        }
    }
}

/// Signals, as they are printed: each behind a space.
#[derive(Drop)]
struct ShownSignals<'a>(&'a [u8]);

impl fmt::Display for ShownSignals<'_> {
    ghost output = { λ s. Some (signals_text s.0.now) };

    fn fmt<W: fmt::Write>(&self, f: &mut fmt::Formatter<W>) -> fmt::Result {
        let signals = self.0;
        if signals.is_empty() {
            return write!(f, " -");
        }
        for signal in signals {
            let signal = ShownSignal(*signal);
            write!(f, " {signal}")?;
        }
        Ok(())
    }
}

/// The parts of a message, as they are printed, over its bytes: those of its control part come first.
fn shown_parts<'a>(
    control: Option<u32>,
    body: Option<u32>,
    bytes: &'a [u8],
) -> (ShownPart<'a>, ShownPart<'a>)
    ensures control { option_map (λ part. part.now) result.0.0 ≡ part_in control bytes.now }
    ensures body { option_map (λ part. part.now) result.1.0 ≡ part_in body (drop (unwrap_or control 0) bytes.now) }
{
    let data = behind(bytes, control.unwrap_or(0));
    (ShownPart(part(control, bytes)), ShownPart(part(body, data)))
}

/// The bytes of a read, as they are printed.
#[derive(Drop)]
struct ShownData<'a>(&'a [u8]);

impl fmt::Display for ShownData<'_> {
    ghost output = { λ shown. Some (line_text (Text shown.0.now)) };

    #[tactic(auto, unfolding(crate::specs::ScriptAnswers::line_text))]
    fn fmt<W: fmt::Write>(&self, f: &mut fmt::Formatter<W>) -> fmt::Result {
        let count = self.0.len();
        let text = Quoted(self.0);
        write!(f, "data {count} {text}")
    }
}

/// What a call was answered, with the bytes that it gave, as it is printed.
#[derive(Drop)]
struct ShownAnswer<'a> {
    answer: &'a Answer<u32>,
    bytes: &'a [u8],
}

impl fmt::Display for ShownAnswer<'_> {
    ghost output = { λ shown. Some (line_text (reply_line (Ok (reply_in shown.answer.now shown.bytes.now)))) };

    #[tactic(auto, unfolding(crate::specs::ScriptAnswers::line_text))]
    fn fmt<W: fmt::Write>(&self, f: &mut fmt::Formatter<W>) -> fmt::Result {
        match self.answer {
            Answer::Done => write!(f, "ok"),
            Answer::Name(module) => {
                let module = ShownModule(*module);
                write!(f, "name {module}")
            }
            Answer::Count(n) => write!(f, "ok {n}"),
            Answer::Bytes(len) => {
                let data = ShownData(front(self.bytes, *len));
                write!(f, "{data}")
            }
            Answer::Msg {
                prio,
                control,
                body,
                more_control,
                more_data,
            } => {
                let prio = ShownPrio(*prio);
                let (control, body) = shown_parts(*control, *body, self.bytes);
                let more = More(*more_control, *more_data);
                write!(f, "msg {prio} {control} {body} {more}")
            }
            Answer::Sizes { first, messages } => write!(f, "ok {first} {messages}"),
            Answer::Pending(number) => write!(f, "pending {number}"),
            Answer::Nak(refusal) => {
                let name = name(*refusal);
                write!(f, "nak {name}")
            }
            Answer::Signals(len) => {
                let signals = ShownSignals(front(self.bytes, *len));
                write!(f, "signals{signals}")
            }
            Answer::Stop(signal) => {
                let signal = ShownSignal(signal.number());
                write!(f, "stop {signal}")
            }
        }
    }
}

impl fmt::Display for Shown<'_> {
    ghost output = { λ shown. Some (line_text (line_of shown.bytes.now shown.line.now)) };

    #[tactic(auto, unfolding(crate::specs::ScriptAnswers::line_text))]
    fn fmt<W: fmt::Write>(&self, f: &mut fmt::Formatter<W>) -> fmt::Result {
        match self.line {
            Line::Done(answer) => {
                let bytes = self.bytes;
                let shown = ShownAnswer { answer, bytes };
                write!(f, "{shown}")
            }
            Line::Turned(Turn::Moved(n)) => write!(f, "ok {n}"),
            Line::Turned(Turn::Blocked) => write!(f, "blocked"),
            Line::Turned(Turn::Idle) => write!(f, "idle"),
            Line::Ran(turns) => write!(f, "ran {turns}"),
            Line::Entries(entries) => write!(f, "ok {entries}"),
            Line::Sizes {
                side,
                head,
                stacked,
                driver,
            } => {
                let side = side_name(*side);
                match stacked {
                    None => write!(f, "show {side} {head} {driver}"),
                    Some(ModuleSizes { up, down }) => {
                        write!(f, "show {side} {head} {up} {down} {driver}")
                    }
                }
            }
            Line::Booked(booked) => write!(f, "{booked}"),
            Line::Refused(refusal) => {
                let name = name(*refusal);
                write!(f, "err {name}")
            }
            Line::Wrong(n) => write!(f, "err line {n}"),
        }
    }
}
