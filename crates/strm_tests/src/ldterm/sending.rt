//! Keys that send, over a store of tables, with what goes worked out by hand from termio(7I).

ghost use Rattle.std.specs.Prelude.{ℕ, ◌≡◌, ◌≤◌, []};
ghost use Rattle.strm_blocks.specs.Blocks.{list_at, times_in};
ghost use Rattle.strm_frame.specs.Outboxes.{sent_of, times_sent};

use std::process::Abort;
use std::test::Fail;
use strm_blocks::{Blocks, NoBlocks, TableStore};
use strm_frame::{Outbox, QueuePair, Tables};
use strm_ldterm::{Ldterm, end_file, end_line, stop};
use strm_msg::first_bytes;
use strm_types::{Fates, MsgKind, Side, Spot, Way};

const HERE: Spot = Spot {
    side: Side::Slave,
    at: 1,
    way: Way::Up,
};

// Whether one message goes up or down from here, of this kind and with these bytes.
fn goes<B: Blocks>(
    store: &B,
    mut outbox: Outbox,
    to: (Way, u8),
    kind: MsgKind,
    bytes: &[u8],
) -> bool
    requires { (i : ℕ) → times_sent i (sent_of outbox) ≤ times_in i (B.value store.now).hand }
{
    store.audit();
    let Some(sent) = outbox.take_first() else {
        return false;
    };
    let mut buffer = [0; 8];
    let count = first_bytes(store, &sent.message, &mut buffer);
    let place = (sent.to.way, sent.to.at);
    place == to
        && store.summary(&sent.message).kind == kind
        && &buffer[..count] == bytes
        && outbox.is_empty()
}

// A line ends twice, the second time as an empty one, and then output is stopped twice.
fn sends<B: Blocks>(rt: &impl Abort, store: &mut B, tables: Tables) -> Result<(), Fail>
    requires read { list_at (B.value store.old) 3 ≡ [] }
    requires write { list_at (B.value store.old) 4 ≡ [] }
{
    let (mblks, dblks) = store.free_blocks();
    if mblks < 4 || dblks < 4 {
        return Err(NoBlocks.into());
    }
    let mut told = Fates::none();
    let mut ldterm = Ldterm::new();
    // What a key does is said of the module with the queues that its stream gave it.
    let queues = QueuePair::new(3, 4, tables);
    let _ = queues;
    assert!(rt; ldterm.line.has_room());
    ldterm.line.push(b'l');
    let sent = end_line(&mut ldterm, store, HERE, b'\n');
    assert!(rt; goes(store, sent, (Way::Up, 0), MsgKind::Data, b"l\n"));
    let sent = end_file(&mut ldterm, store, HERE, 4, &mut told);
    assert!(rt; goes(store, sent, (Way::Up, 0), MsgKind::Data, b""));
    let sent = stop(&mut ldterm, store, HERE, 19, &mut told);
    assert!(rt; goes(store, sent, (Way::Down, 2), MsgKind::Stop, b""));
    let sent = stop(&mut ldterm, store, HERE, 19, &mut told);
    assert!(rt; sent.is_empty());
    assert!(rt; ldterm.stopped);
    assert_eq!(rt; ldterm.line.len(), 0);
    assert_eq!(rt; told.from_master[5], 1);
    assert_eq!(rt; told.from_master[7], 2);
    Ok(())
}

#[test]
fn keys_send(rt: HostRuntime) -> Result<(), Fail> {
    let mut store = TableStore::new(rt.alloc(), 8, 8)?;
    sends(&rt, &mut store, Tables::new(rt.alloc())?)
}
