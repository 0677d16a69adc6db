//! Puts at pckt over a store of tables, with answers worked out by hand.

use std::process::Abort;
use std::test::Fail;
use strm_blocks::{Blocks, NoBlocks, TableStore};
use strm_msg::{data_len, first_bytes, from_bytes};
use strm_pty::pckt;
use strm_types::{Band, Fates, MsgKind, Side, Spot, Way};

// A message of band 0 that is put at pckt on the master's side, and what comes of it.
struct Row<'a> {
    way: Way,
    kind: MsgKind,
    bytes: &'a [u8],
    // The kind of the first message that is sent, its bytes, control part first, and how many of them are its data part.
    sent: MsgKind,
    all: &'a [u8],
    data: Option<usize>,
    // How many bytes were made, and whether another message follows.
    made: u64,
    more: bool,
}

// Puts a row's message, which is of data or of a kind without parts.
fn packs<B: Blocks>(rt: &impl Abort, store: &mut B, row: &Row<'_>) -> Result<(), Fail> {
    if row.kind.is_control_kind() {
        return Err(NoBlocks.into());
    }
    let mut told = Fates::none();
    let here = Spot {
        side: Side::Master,
        at: 2,
        way: row.way,
    };
    let message = from_bytes(store, row.kind, Band(0), row.bytes)?;
    let (mblks, dblks) = store.free_blocks();
    assert!(rt; mblks >= 2);
    assert!(rt; dblks >= 2);
    let mut acts = pckt::put(store, here, message, &mut told);
    store.audit();
    let Some(first) = acts.sent.take_first() else {
        return Err(NoBlocks.into());
    };
    let mut bytes = [0; 24];
    let count = first_bytes(store, &first.message, &mut bytes);
    assert_eq!(rt; &bytes[..count], row.all);
    assert_eq!(rt; store.kind(&first.message, 0), row.sent);
    assert_eq!(rt; data_len(store, &first.message), row.data);
    assert_eq!(rt; told.made_from_slave, row.made);
    assert_eq!(rt; acts.sent.take_first().is_some(), row.more);
    Ok(())
}

const ASKS: &[u8] = b"\0\0\0\x05\0\0\0\x07\0\0\0\0\0\0\0\0abc";

const ROWS: [Row<'static>; 9] = [
    Row {
        way: Way::Up,
        kind: MsgKind::Data,
        bytes: b"hi",
        sent: MsgKind::Proto,
        all: b"\0hi",
        data: Some(2),
        made: 1,
        more: false,
    },
    Row {
        way: Way::Up,
        kind: MsgKind::Data,
        bytes: b"",
        sent: MsgKind::Proto,
        all: b"\0",
        data: Some(0),
        made: 1,
        more: false,
    },
    Row {
        way: Way::Up,
        kind: MsgKind::Ioctl,
        bytes: ASKS,
        sent: MsgKind::Proto,
        all: b"\x0e\0\0\0\x05\0\0\0\x07\0\0\0\0\0\0\0\0abc",
        data: Some(19),
        made: 20,
        more: false,
    },
    Row {
        way: Way::Up,
        kind: MsgKind::Stop,
        bytes: b"",
        sent: MsgKind::Proto,
        all: b"\x87",
        data: None,
        made: 1,
        more: false,
    },
    Row {
        way: Way::Up,
        kind: MsgKind::Read,
        bytes: b"",
        sent: MsgKind::Proto,
        all: b"\x85",
        data: Some(0),
        made: 1,
        more: false,
    },
    Row {
        way: Way::Up,
        kind: MsgKind::Flush,
        bytes: &[1],
        sent: MsgKind::Proto,
        all: &[0x86, 1],
        data: Some(1),
        made: 2,
        more: false,
    },
    Row {
        way: Way::Up,
        kind: MsgKind::Flush,
        bytes: &[7, 2],
        sent: MsgKind::Proto,
        all: &[0x86, 7, 2],
        data: Some(2),
        made: 3,
        more: true,
    },
    Row {
        way: Way::Up,
        kind: MsgKind::Iocack,
        bytes: ASKS,
        sent: MsgKind::Iocack,
        all: ASKS,
        data: None,
        made: 0,
        more: false,
    },
    Row {
        way: Way::Down,
        kind: MsgKind::Flush,
        bytes: &[3],
        sent: MsgKind::Flush,
        all: &[3],
        data: None,
        made: 0,
        more: false,
    },
];

#[test]
fn pckt_packs_what_comes_up(rt: HostRuntime) -> Result<(), Fail> {
    for row in &ROWS {
        let mut store = TableStore::new(rt.alloc(), 10, 10)?;
        packs(&rt, &mut store, row)?;
    }
    Ok(())
}
