//! Messages that stay on a queue until its turn, on a stream of two modules over a store of tables, with answers worked out by
//! hand.

ghost use Rattle.std.specs.Prelude.{◌≡◌, ◌≤◌, []};
ghost use Rattle.strm_tests.specs.Rigs.{AtRest};

use super::rig::Rig;
use std::process::Abort;
use std::test::Fail;
use strm_blocks::{Blocks, TableStore};
use strm_frame::Tables;
use strm_msg::from_bytes;
use strm_types::{Band, ModuleName, MsgKind, Place, QueueName, Side, Spot, Turn, Way};

// What is done to the stream.
enum Step {
    // An M_DATA message with the row's bytes is put at a place.
    Data(u8, Way),
    // An M_FLUSH comes up to a place.
    Flush(u8),
    // The queue at a place has a turn, and this is what it answers.
    Turn(usize, Turn),
}

// A step, and how things stand behind it.
struct Row<'a> {
    step: Step,
    bytes: &'a [u8],
    // How many messages and bytes stand on the queues, from the top.
    queues: [(usize, usize); 2],
    // Which queues are enabled.
    enabled: &'a [QueueName],
    // How many messages have left at the top, and at the bottom.
    left: (usize, usize),
}

fn spot(at: u8, way: Way) -> Spot
    ensures { result.at ≡ at }
{
    Spot {
        side: Side::Slave,
        at,
        way,
    }
}

// Puts an M_DATA message, where a block is free.
fn put_data<B: Blocks>(store: &mut B, rig: &mut Rig, to: Spot, bytes: &[u8]) -> bool
    requires rest { AtRest (B.value store.old) rig.old.modules.modules.items }
    requires near { to.at ≤ 3 }
    ensures { AtRest (B.value store.new) rig.new.modules.modules.items }
{
    let Ok(message) = from_bytes(store, MsgKind::Data, Band(0), bytes) else {
        return false;
    };
    rig.put(store, to, message);
    true
}

// Puts an M_FLUSH for both queues, FLUSHRW, where a block is free.
fn put_flush<B: Blocks>(store: &mut B, rig: &mut Rig, to: Spot) -> bool
    requires rest { AtRest (B.value store.old) rig.old.modules.modules.items }
    requires near { to.at ≤ 3 }
    ensures { AtRest (B.value store.new) rig.new.modules.modules.items }
{
    let Ok(message) = from_bytes(store, MsgKind::Flush, Band(0), b"\x03") else {
        return false;
    };
    rig.put(store, to, message);
    true
}

// Does a row's step, and says whether it can be done, and a turn's answer is as wanted.
fn goes<B: Blocks>(store: &mut B, rig: &mut Rig, row: &Row<'_>) -> bool
    requires { AtRest (B.value store.old) rig.old.modules.modules.items }
    ensures { AtRest (B.value store.new) rig.new.modules.modules.items }
{
    match &row.step {
        Step::Data(at, way) => *at <= 3 && put_data(store, rig, spot(*at, *way), row.bytes),
        Step::Flush(at) => *at <= 3 && put_flush(store, rig, spot(*at, Way::Up)),
        Step::Turn(at, answer) => 0 < *at && *at <= 2 && rig.turn(store, *at) == *answer,
    }
}

// Whether all stands as a row says.
fn stands<B: Blocks>(store: &B, rig: &Rig, row: &Row<'_>) -> bool
    requires { AtRest (B.value store.now) rig.now.modules.modules.items }
{
    rig.sizes(store) == row.queues
        && rig.enabled.as_slice() == row.enabled
        && (rig.above, rig.below) == row.left
}

// Does the steps of rows, one after the other, and compares.
fn play_all<B: Blocks>(rt: &impl Abort, store: &mut B, rig: &mut Rig, rows: &[Row<'_>])
    requires { AtRest (B.value store.old) rig.old.modules.modules.items }
{
    for at in 0..rows.len() {
        assert!(rt; goes(store, rig, &rows[at]), "row {at}");
        assert!(rt; stands(store, rig, &rows[at]), "behind row {at}");
    }
}

const UPPER: &[QueueName] = &[QueueName {
    side: Side::Slave,
    place: Place::Module(ModuleName::Ldterm),
    way: Way::Down,
}];

const ROWS: [Row<'static>; 13] = [
    // What goes down stays on the upper queue, which is enabled once.
    Row {
        step: Step::Data(1, Way::Down),
        bytes: b"abc",
        queues: [(1, 3), (0, 0)],
        enabled: UPPER,
        left: (0, 0),
    },
    Row {
        step: Step::Data(1, Way::Down),
        bytes: b"de",
        queues: [(2, 5), (0, 0)],
        enabled: UPPER,
        left: (0, 0),
    },
    // A turn moves the first message to the lower queue, and more stands there.
    Row {
        step: Step::Turn(1, Turn::Moved(3)),
        bytes: b"",
        queues: [(1, 2), (1, 3)],
        enabled: UPPER,
        left: (0, 0),
    },
    Row {
        step: Step::Turn(1, Turn::Moved(2)),
        bytes: b"",
        queues: [(0, 0), (2, 5)],
        enabled: &[],
        left: (0, 0),
    },
    Row {
        step: Step::Turn(1, Turn::Idle),
        bytes: b"",
        queues: [(0, 0), (2, 5)],
        enabled: &[],
        left: (0, 0),
    },
    // The lower queue is full, so that the next message stays.
    Row {
        step: Step::Data(1, Way::Down),
        bytes: b"f",
        queues: [(1, 1), (2, 5)],
        enabled: UPPER,
        left: (0, 0),
    },
    Row {
        step: Step::Turn(1, Turn::Blocked),
        bytes: b"",
        queues: [(1, 1), (2, 5)],
        enabled: &[],
        left: (0, 0),
    },
    // Each module turns an M_FLUSH that comes up, and none stays on a queue.
    Row {
        step: Step::Flush(1),
        bytes: b"",
        queues: [(1, 1), (2, 5)],
        enabled: &[],
        left: (0, 1),
    },
    Row {
        step: Step::Flush(2),
        bytes: b"",
        queues: [(1, 1), (2, 5)],
        enabled: &[],
        left: (0, 2),
    },
    // What comes up passes both queues.
    Row {
        step: Step::Data(2, Way::Up),
        bytes: b"ghij",
        queues: [(1, 1), (2, 5)],
        enabled: &[],
        left: (1, 2),
    },
    // The lower queue comes down to its low-water mark, which lets the upper one go.
    Row {
        step: Step::Turn(2, Turn::Moved(3)),
        bytes: b"",
        queues: [(1, 1), (1, 2)],
        enabled: UPPER,
        left: (1, 3),
    },
    Row {
        step: Step::Turn(1, Turn::Moved(1)),
        bytes: b"",
        queues: [(0, 0), (2, 3)],
        enabled: &[],
        left: (1, 3),
    },
    Row {
        step: Step::Turn(2, Turn::Moved(2)),
        bytes: b"",
        queues: [(0, 0), (1, 1)],
        enabled: &[],
        left: (1, 4),
    },
];

#[test]
fn a_message_stays_on_a_queue_until_its_turn(rt: HostRuntime) -> Result<(), Fail> {
    let mut store = TableStore::new(rt.alloc(), 20, 20)?;
    let mut rig = Rig::new(Tables::new(rt.alloc())?, Tables::new(rt.alloc())?);
    play_all(&rt, &mut store, &mut rig, &ROWS);
    Ok(())
}
