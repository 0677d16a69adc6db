//! Puts at drivers over a store of tables, with answers worked out by hand.

ghost use Rattle.std.specs.Prelude.{◌≡◌, []};
ghost use Rattle.strm_blocks.specs.Blocks.{list_at};
ghost use Rattle.strm_queue.specs.Stored.{IsReady};

mod packets;
mod sharing;

use std::process::Abort;
use std::test::Fail;
use strm_blocks::{Blocks, NoBlocks, TableStore};
use strm_frame::Acts;
use strm_msg::from_bytes;
use strm_pty::put;
use strm_queue::{OTHER_HIGH, OTHER_LOW, Queue, Table};
use strm_types::{Across, Band, Fates, MODULES, MsgKind, Note, Side, Spot, Way};

// A message of one block that is put at a driver's place, and what comes of it.
struct Row<'a> {
    here: Spot,
    across: Across,
    kind: MsgKind,
    bytes: &'a [u8],
    // Whose places on the enabled list change.
    notes: &'a [Note],
    // Where messages are sent.
    sent: &'a [Spot],
    // How many bytes stand on the queue, and how many have gone at the master's close.
    left: (usize, u64),
}

// A new queue on an empty list.
fn fresh<B: Blocks>(store: &B, table: Table) -> Queue
    requires { list_at (B.value store.now) 3 ≡ [] }
    ensures { IsReady (B.value store.now) result }
{
    let _ = store;
    Queue::new(3, OTHER_HIGH, OTHER_LOW, table)
}

// Whether messages are sent to these spots, in order, and to no other ones.
fn goes_to(mut acts: Acts, spots: &[Spot]) -> bool {
    for spot in spots {
        match acts.sent.take_first() {
            Some(sent) if sent.to == *spot => {}
            _ => return false,
        }
    }
    acts.sent.take_first().is_none()
}

// Puts a row's message, which is of data or of a kind without parts.
fn puts<B: Blocks>(rt: &impl Abort, store: &mut B, table: Table, row: &Row<'_>) -> Result<(), Fail>
    requires { list_at (B.value store.old) 3 ≡ [] }
{
    if row.kind.is_control_kind() {
        return Err(NoBlocks.into());
    }
    let mut queue = fresh(store, table);
    let mut told = Fates::none();
    let message = from_bytes(store, row.kind, Band(0), row.bytes)?;
    let (mblks, dblks) = store.free_blocks();
    assert!(rt; mblks >= 2);
    assert!(rt; dblks >= 2);
    assert!(rt; row.here.at > 0);
    assert!(rt; row.here.at as usize <= MODULES + 1);
    let acts = put(store, &mut queue, row.across, row.here, message, &mut told);
    assert_eq!(rt; acts.notes.as_slice(), row.notes);
    assert!(rt; goes_to(acts, row.sent));
    assert_eq!(rt; queue.total(), row.left.0);
    assert_eq!(rt; told.from_master[17], row.left.1);
    Ok(())
}

const OPEN: Across = Across {
    is_open: true,
    bottom: 2,
    ended: false,
};

const ENDED: Across = Across {
    is_open: false,
    bottom: 0,
    ended: true,
};

const MASTER: Spot = Spot {
    side: Side::Master,
    at: 1,
    way: Way::Down,
};

const SLAVE: Spot = Spot {
    side: Side::Slave,
    at: 3,
    way: Way::Down,
};

const FROM_SLAVE: Spot = Spot {
    side: Side::Master,
    at: 4,
    way: Way::Up,
};

const SLAVE_BOTTOM: Spot = Spot {
    side: Side::Slave,
    at: 2,
    way: Way::Up,
};

const SLAVE_DRIVER: Spot = Spot {
    side: Side::Slave,
    at: 4,
    way: Way::Up,
};

const ASKS: &[u8] = b"\0\0\0\x05\0\0\0\x07\0\0\0\0\0\0\0\0payload";

const TELLS: &[u8] = b"\0\0\0\x06\0\0\0\0\0\0\0\0\0\0\0\0";

const ROWS: [Row<'static>; 8] = [
    Row {
        here: MASTER,
        across: OPEN,
        kind: MsgKind::Data,
        bytes: b"abc",
        notes: &[Note::Enable(Way::Down)],
        sent: &[],
        left: (3, 0),
    },
    Row {
        here: MASTER,
        across: ENDED,
        kind: MsgKind::Data,
        bytes: b"abc",
        notes: &[],
        sent: &[],
        left: (0, 3),
    },
    Row {
        here: MASTER,
        across: OPEN,
        kind: MsgKind::Flush,
        bytes: &[3],
        notes: &[],
        sent: &[SLAVE_BOTTOM, SLAVE_DRIVER],
        left: (0, 0),
    },
    Row {
        here: FROM_SLAVE,
        across: OPEN,
        kind: MsgKind::Flush,
        bytes: &[5, 2],
        notes: &[],
        sent: &[SLAVE_BOTTOM],
        left: (0, 0),
    },
    Row {
        here: SLAVE,
        across: OPEN,
        kind: MsgKind::Ioctl,
        bytes: ASKS,
        notes: &[],
        sent: &[SLAVE_BOTTOM],
        left: (0, 0),
    },
    Row {
        here: MASTER,
        across: OPEN,
        kind: MsgKind::Ioctl,
        bytes: ASKS,
        notes: &[Note::Enable(Way::Down)],
        sent: &[],
        left: (23, 0),
    },
    Row {
        here: SLAVE,
        across: OPEN,
        kind: MsgKind::Ioctl,
        bytes: TELLS,
        notes: &[Note::Enable(Way::Down)],
        sent: &[],
        left: (16, 0),
    },
    Row {
        here: SLAVE,
        across: OPEN,
        kind: MsgKind::Sig,
        bytes: &[2],
        notes: &[],
        sent: &[],
        left: (0, 0),
    },
];

#[test]
fn drivers_keep_answer_and_send_on(rt: HostRuntime) -> Result<(), Fail> {
    for row in &ROWS {
        let mut store = TableStore::new(rt.alloc(), 10, 10)?;
        puts(&rt, &mut store, Table::new(rt.alloc())?, row)?;
    }
    Ok(())
}
