//! What is to be measured.

ghost use Rattle.std.specs.Prelude.{◌≤◌, ◌<◌};

/// What a round does.
#[derive(Clone, Copy)]
pub enum Act {
    /// The master writes, and the slave reads.
    Types,
    /// The master writes, and the slave reads; the master reads what was echoed.
    TypesEchoed,
    /// The master writes, and reads what was echoed: keys that end no line.
    Keys,
    /// The slave writes, and the master reads.
    Shows,
    /// The master sends a message with a control part of four bytes by putmsg(2), and the slave takes it by getmsg(2).
    Messages,
    /// The same in band 200.
    BandedMessages,
    /// The slave asks for the size of its window (termio(7I): TIOCGWINSZ).
    Winsizes,
    /// The image of the pair is written.
    Images,
    /// It is written, and a pair is made of it.
    Restores,
    /// The master writes, the slave reads, and the journal is cut.
    Cuts,
}

/// What stands on the slave's stream: nothing, or a ptem and above it a line discipline in its first modes or in raw mode.
#[derive(Clone, Copy)]
pub enum Stack {
    Nothing,
    Lines,
    Raw,
}

/// What a round writes: a letter over and over, the byte ESC, or words that are coloured by escape sequences.
#[derive(Clone, Copy)]
pub enum Text {
    Letters,
    Escapes,
    Colours,
}

/// A round: it writes `size` bytes of a text, as much at a time as is taken, makes the turns of enabled queues behind each write,
/// and reads what comes, at most `asked` bytes in all. Where `line` isn't 0 each so many bytes of the text end with a newline.
#[derive(Clone, Copy)]
pub struct Round {
    pub act: Act,
    pub stack: Stack,
    pub text: Text,
    pub line: u32,
    pub size: u32,
    pub asked: u32,
    pub ghost small: { size ≤ 4096 },
}

/// The store of a plan's pairs: linked raw blocks, or tables.
#[derive(Clone, Copy)]
pub enum Store {
    Linked,
    Tables,
}

/// A plan: so many pairs one after the other, and on each so many rounds, while `standing` messages of one byte, or where images are
/// written of a round's text, stand on the slave's head. A warm plan makes each pair as new after its rounds, and makes them again, on memory that was written before.
#[derive(Clone, Copy)]
pub struct Plan {
    pub pairs: u32,
    pub rounds: u32,
    pub standing: u32,
    pub blocks: u32,
    pub entries: u32,
    pub warm: bool,
    pub store: Store,
    pub round: Round,
    pub ghost some_blocks: { 0 < blocks },
    pub ghost few_blocks: { blocks ≤ 65536 },
}

/// What a plan tells: how many bytes were read, and how many entries and bytes the journal of its last pair has.
#[derive(Clone, Copy)]
pub struct Told {
    pub read: u64,
    pub entries: u64,
    pub bytes: u64,
}
