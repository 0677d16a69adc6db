//! The words of commands.

ghost use Rattle.std.specs.Prelude.{◌≡◌};
ghost use Rattle.strm_script.specs.Named.{named};
ghost use Rattle.strm_script.specs.Table.{verbs};

use crate::named::named;

/// A command, by its word.
#[derive(Clone, Copy)]
pub enum Verb {
    Open,
    Unlock,
    Slave,
    Close,
    Push,
    Pop,
    Look,
    Write,
    Read,
    Put,
    Get,
    Mode,
    Flush,
    Ioctl,
    Poll,
    Signals,
    Group,
    Turn,
    Run,
    Show,
    Ledger,
    Cut,
}

/// The word of each command.
const VERBS: [(&[u8], Verb); 22] = [
    (b"open", Verb::Open),
    (b"unlock", Verb::Unlock),
    (b"slave", Verb::Slave),
    (b"close", Verb::Close),
    (b"push", Verb::Push),
    (b"pop", Verb::Pop),
    (b"look", Verb::Look),
    (b"write", Verb::Write),
    (b"read", Verb::Read),
    (b"put", Verb::Put),
    (b"get", Verb::Get),
    (b"mode", Verb::Mode),
    (b"flush", Verb::Flush),
    (b"ioctl", Verb::Ioctl),
    (b"poll", Verb::Poll),
    (b"signals", Verb::Signals),
    (b"group", Verb::Group),
    (b"turn", Verb::Turn),
    (b"run", Verb::Run),
    (b"show", Verb::Show),
    (b"ledger", Verb::Ledger),
    (b"cut", Verb::Cut),
];

/// The command whose word it is.
pub fn of_word(word: &[u8]) -> Option<Verb>
    ensures { result ≡ named verbs word.now }
{
    named(&VERBS, word)
}
