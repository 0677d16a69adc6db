//! A session on a pair whose slave has a code page: a program there writes and reads ISO 8859-1, and the terminal at the master has code page 437.
#![tactic(auto)]

use code_page::{CODE_PAGE, CodePage, PAGE_SIZE, SETPAGE};
use strm_blocks::Blocks;
use strm_pair::{OwnModule, Pair};
use strm_raw::RawStore;
use strm_types::{Caller, Config, Content, Event, ModuleName, Refusal, Side};

// A module that writes blocks anew wants as many data blocks as message blocks.
const SIZES: Config = Config {
    mblks: 256,
    dblks: 256,
    journal_events: 8192,
    journal_bytes: 262_144,
};

// German letters, as ISO 8859-1 and code page 437 have them.
const LETTERS: [(u8, u8); 7] = [
    (0xe4, 0x84),
    (0xf6, 0x94),
    (0xfc, 0x81),
    (0xc4, 0x8e),
    (0xd6, 0x99),
    (0xdc, 0x9a),
    (0xdf, 0xe1),
];

// A page that puts each letter in place of the other, so that it serves both ways, and leaves all else.
fn page() -> [u8; PAGE_SIZE] {
    let mut page = [0; PAGE_SIZE];
    for at in 0..PAGE_SIZE {
        page[at] = at as u8;
    }
    for (latin, other) in &LETTERS {
        page[usize::from(*latin)] = *other;
        page[usize::from(*other)] = *latin;
    }
    page
}

// Both sides are opened, and the module is pushed on the slave's stream.
const OPENING: [(Side, Event<&[u8]>); 4] = [
    (Side::Master, Event::OpenMaster),
    (Side::Master, Event::Unlock),
    (Side::Slave, Event::OpenSlave),
    (
        Side::Slave,
        Event::Push {
            name: Some(ModuleName::Own(CODE_PAGE)),
        },
    ),
];

// What the program writes, and what is typed.
const SAID: [(Side, Side, &[u8]); 4] = [
    (Side::Slave, Side::Master, b"Gr\xfc\xdfe aus K\xf6ln"),
    (Side::Slave, Side::Master, b"\xc4pfel, \xd6l, \xdcbung"),
    (Side::Master, Side::Slave, b"sch\x94n"),
    (Side::Master, Side::Slave, b"M\x84rz"),
];

// Makes a call. Its bytes stand in `out`.
fn calls<B: Blocks + Drop, M: OwnModule>(
    pair: &mut Pair<B, M>,
    side: Side,
    event: &Event<&[u8]>,
    out: &mut Content,
) -> Result<(), Refusal> {
    pair.call(Caller::of(side), event, out)?;
    Ok(())
}

// Makes all turns.
fn turns<B: Blocks + Drop, M: OwnModule>(pair: &mut Pair<B, M>) -> Result<(), Refusal> {
    match pair.runqueues().stopped {
        Some(refusal) => Err(refusal),
        None => Ok(()),
    }
}

// Opens both sides with the module on the slave's, and sets its page.
fn opens<B: Blocks + Drop, M: OwnModule>(
    pair: &mut Pair<B, M>,
    out: &mut Content,
) -> Result<(), Refusal> {
    for (side, event) in &OPENING {
        calls(pair, *side, event, out)?;
    }
    let (command, body) = (SETPAGE, page());
    let set = Event::Ioctl {
        command,
        body: &body[..],
    };
    calls(pair, Side::Slave, &set, out) // Answer::Bytes(0): the module answers at once, and without bytes
}

// Writes on one side, makes the turns, and reads on the other side.
fn carries<B: Blocks + Drop, M: OwnModule>(
    pair: &mut Pair<B, M>,
    from: Side,
    to: Side,
    bytes: &[u8],
    out: &mut Content,
) -> Result<(), Refusal> {
    calls(pair, from, &Event::Write { bytes }, out)?;
    turns(pair)?;
    calls(pair, to, &Event::Read { n: 80 }, out)
}

// Goes through all that is said, and prints it as it is written and as it is read.
fn prints<B: Blocks + Drop, M: OwnModule>(
    rt: &impl Print,
    pair: &mut Pair<B, M>,
    out: &mut Content,
) -> anyhow::Result<()> {
    for (from, to, bytes) in &SAID {
        carries(pair, *from, *to, bytes, out)?;
        let (written, read) = (bytes.escape_ascii(), out.as_slice().escape_ascii());
        println!(rt; "written \"{written}\", read \"{read}\"")?;
    }
    Ok(())
}

fn main(rt: HostRuntime) -> anyhow::Result<()> {
    let store = RawStore::new(rt.alloc(), SIZES.mblks, SIZES.dblks)?;
    let mut pair: Pair<RawStore, CodePage> = Pair::new(rt.alloc(), SIZES, store).map_err(|(
        why,
        _store,
    )| why)?;
    let mut out = Content::new();
    opens(&mut pair, &mut out)?;
    prints(&rt, &mut pair, &mut out)
}
