//! An ioctl that sets the window at ptem, over a store of tables: which blocks its answer takes, and what tells of it.

use std::process::Abort;
use std::test::Fail;
use strm_blocks::{Blocks, TableStore};
use strm_msg::from_bytes;
use strm_pty::{Ptem, ptem, send_behind};
use strm_types::{Band, Ioc, MsgKind, Side, Spot, TIOCSWINSZ, Way};

// Puts an M_IOCTL of two blocks, as heads send them, and tells how many blocks of each kind are free while all that is sent is in hand.
fn left<B: Blocks>(rt: &impl Abort, store: &mut B, window: &[u8]) -> Result<(usize, usize), Fail> {
    let here = Spot {
        side: Side::Slave,
        at: 2,
        way: Way::Down,
    };
    let payload = from_bytes(store, MsgKind::Data, Band(0), window)?;
    let (mblks, dblks) = store.free_blocks();
    assert!(rt; mblks >= 26);
    assert!(rt; dblks >= 26);
    let header = Ioc::asking(TIOCSWINSZ, 7).bytes();
    let asked = send_behind(store, here, Way::Down, MsgKind::Ioctl, &header, payload);
    store.audit();
    let acts = ptem::put(&mut Ptem::new(), store, here, asked.message);
    assert!(rt; acts.sent.third.is_some());
    Ok(store.free_blocks())
}

#[test]
fn answer_and_what_tells_of_it_share_their_payload(rt: HostRuntime) -> Result<(), Fail> {
    let mut store = TableStore::new(rt.alloc(), 32, 32)?;
    let free = left(&rt, &mut store, &[0, 24, 0, 80, 0, 0, 0, 0])?;
    // Two messages of a header and a payload, and SIGWINCH: five message blocks. Both payloads have one data block.
    assert_eq!(rt; free, (27, 28));
    Ok(())
}
