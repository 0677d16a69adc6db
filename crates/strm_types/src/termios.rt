//! What a terminal's line discipline and driver are set to (termio(7I), ldterm(7M)).

ghost use Rattle.std.specs.Prelude.{⊤, ◌≡◌, [], ◌∷◌, Some, codes};
ghost use Rattle.strm_types.specs.Termios.{first_termios, is_char, place_of, read_termios, termios_bytes};

use crate::ioctls::word_at;
use bitflags::{Flag, Flags, bitflag_items};

/// What is done to the bytes that come in. Bits without a name are kept.
#[derive(Clone, Copy)]
pub struct InputModes(pub u32);

/// What is done to the bytes that go out. Bits without a name are kept.
#[derive(Clone, Copy)]
pub struct OutputModes(pub u32);

/// How lines are edited, echoed and handed up, and which bytes are signals. Bits without a name are kept.
#[derive(Clone, Copy)]
pub struct LocalModes(pub u32);

bitflag_items! {
    impl InputModes: u32 {
        const ISTRIP = 0x20;
        const INLCR = 0x40;
        const IGNCR = 0x80;
        const ICRNL = 0x100;
        const IUCLC = 0x200;
        const IXON = 0x400;
        const IXANY = 0x800;
        const IMAXBEL = 0x2000;
    }
    impl OutputModes: u32 {
        const OPOST = 0x1;
        const OLCUC = 0x2;
        const ONLCR = 0x4;
        const OCRNL = 0x8;
        const ONOCR = 0x10;
        const ONLRET = 0x20;
        const XTABS = 0x1800;
    }
    impl LocalModes: u32 {
        const ISIG = 0x1;
        const ICANON = 0x2;
        const ECHO = 0x8;
        const ECHOE = 0x10;
        const ECHOK = 0x20;
        const ECHONL = 0x40;
        const NOFLSH = 0x80;
        const TOSTOP = 0x100;
        const ECHOCTL = 0x200;
        const ECHOKE = 0x800;
        const IEXTEN = 0x8000;
    }
}

impl Flags for InputModes {
    type Bits = u32;

    ghost exact = { ⊤ };

    ghost table = { (codes "ISTRIP", 0x20) ∷ (codes "INLCR", 0x40) ∷ (codes "IGNCR", 0x80) ∷ (codes "ICRNL", 0x100) ∷ (codes "IUCLC", 0x200) ∷ (codes "IXON", 0x400) ∷ (codes "IXANY", 0x800) ∷ (codes "IMAXBEL", 0x2000) ∷ [] };

    ghost set_of = { λ modes. modes.0 };

    fn flags<'a>() -> &'a [Flag<InputModes>] {
        InputModes::FLAGS
    }

    fn bits(&self) -> u32 {
        self.0
    }

    fn from_bits_retain(bits: u32) -> InputModes {
        InputModes(bits)
    }
}

impl Flags for OutputModes {
    type Bits = u32;

    ghost exact = { ⊤ };

    ghost table = { (codes "OPOST", 0x1) ∷ (codes "OLCUC", 0x2) ∷ (codes "ONLCR", 0x4) ∷ (codes "OCRNL", 0x8) ∷ (codes "ONOCR", 0x10) ∷ (codes "ONLRET", 0x20) ∷ (codes "XTABS", 0x1800) ∷ [] };

    ghost set_of = { λ modes. modes.0 };

    fn flags<'a>() -> &'a [Flag<OutputModes>] {
        OutputModes::FLAGS
    }

    fn bits(&self) -> u32 {
        self.0
    }

    fn from_bits_retain(bits: u32) -> OutputModes {
        OutputModes(bits)
    }
}

impl Flags for LocalModes {
    type Bits = u32;

    ghost exact = { ⊤ };

    ghost table = { (codes "ISIG", 0x1) ∷ (codes "ICANON", 0x2) ∷ (codes "ECHO", 0x8) ∷ (codes "ECHOE", 0x10) ∷ (codes "ECHOK", 0x20) ∷ (codes "ECHONL", 0x40) ∷ (codes "NOFLSH", 0x80) ∷ (codes "TOSTOP", 0x100) ∷ (codes "ECHOCTL", 0x200) ∷ (codes "ECHOKE", 0x800) ∷ (codes "IEXTEN", 0x8000) ∷ [] };

    ghost set_of = { λ modes. modes.0 };

    fn flags<'a>() -> &'a [Flag<LocalModes>] {
        LocalModes::FLAGS
    }

    fn bits(&self) -> u32 {
        self.0
    }

    fn from_bits_retain(bits: u32) -> LocalModes {
        LocalModes(bits)
    }
}

/// The control bytes that have a name, each at a place of its own.
#[derive(Clone, Copy)]
pub enum ControlChar {
    Intr = 0,
    Quit = 1,
    Erase = 2,
    Kill = 3,
    Eof = 4,
    Eol = 5,
    Eol2 = 6,
    Start = 8,
    Stop = 9,
    Susp = 10,
    Reprint = 12,
    Werase = 14,
    Lnext = 15,
}

impl ControlChar {
    /// The place of a control byte among the 19.
    pub fn place(self) -> usize
        ensures { result ≡ place_of self }
    {
        self as usize
    }
}

/// What a terminal is set to: the modes of its input, of its output, of its hardware (which nothing here reads) and of its lines, and
/// its control bytes.
#[derive(Clone, Copy)]
pub struct Termios {
    pub iflag: InputModes,
    pub oflag: OutputModes,
    pub cflag: u32,
    pub lflag: LocalModes,
    pub control: [u8; 19],
}

// What the modes are at first.
const FIRST_INPUT: InputModes = InputModes(
    InputModes::ICRNL.0 | InputModes::IXON.0 | InputModes::IMAXBEL.0,
);

const FIRST_OUTPUT: OutputModes = OutputModes(OutputModes::OPOST.0 | OutputModes::ONLCR.0);

const FIRST_LOCAL: LocalModes = LocalModes(
    LocalModes::ISIG.0
        | LocalModes::ICANON.0
        | LocalModes::ECHO.0
        | LocalModes::ECHOE.0
        | LocalModes::ECHOK.0
        | LocalModes::ECHOCTL.0
        | LocalModes::ECHOKE.0
        | LocalModes::IEXTEN.0,
);

const FIRST_CONTROL: [u8; 19] = [
    0x03, 0x1c, 0x7f, 0x15, 0x04, 0, 0, 0, 0x11, 0x13, 0x1a, 0, 0x12, 0, 0x17, 0x16, 0, 0, 0,
];

impl Termios {
    /// What a terminal is set to at first.
    pub fn new() -> Termios
        ensures { result ≡ first_termios }
    {
        Termios {
            iflag: FIRST_INPUT,
            oflag: FIRST_OUTPUT,
            cflag: 0,
            lflag: FIRST_LOCAL,
            control: FIRST_CONTROL,
        }
    }

    /// Reads the 35 bytes that a terminal is set to; `None` exactly where they are fewer or more.
    pub fn read(bytes: &[u8]) -> Option<Termios>
        ensures { result ≡ read_termios bytes.now }
    {
        if bytes.len() != 35 {
            return None;
        }
        let control = <[u8; 19]>::try_from(&bytes[16..]).ok()?;
        Some(Termios {
            iflag: InputModes(word_at(bytes, 0)),
            oflag: OutputModes(word_at(bytes, 4)),
            cflag: word_at(bytes, 8),
            lflag: LocalModes(word_at(bytes, 12)),
            control,
        })
    }

    /// The 35 bytes, which [`Termios::read`] reads back.
    pub fn bytes(&self) -> [u8; 35]
        ensures bytes { result ≡ termios_bytes self.now }
        ensures back { read_termios result ≡ Some self.now }
    {
        let input = self.iflag.0;
        let output = self.oflag.0;
        let hardware = self.cflag;
        let local = self.lflag.0;
        let mut bytes = [0; 35];
        bytes[..4].copy_from_slice(&input.to_be_bytes());
        bytes[4..8].copy_from_slice(&output.to_be_bytes());
        bytes[8..12].copy_from_slice(&hardware.to_be_bytes());
        bytes[12..16].copy_from_slice(&local.to_be_bytes());
        bytes[16..].copy_from_slice(&self.control);
        bytes
    }

    /// Whether a byte is this control byte. One of value 0 is off: no byte is it.
    pub fn is_char(&self, key: ControlChar, byte: u8) -> bool
        ensures { result ≡ is_char self.now key byte }
    {
        byte != 0 && self.control[key.place()] == byte
    }
}
