//! A module that is taken off its stream, over a store of tables.

ghost use Rattle.std.specs.Prelude.{◌≡◌, []};
ghost use Rattle.strm_blocks.specs.Blocks.{list_at};

use std::process::Abort;
use std::test::Fail;
use strm_blocks::{Blocks, TableStore};
use strm_frame::{QueuePair, Standing, Tables};
use strm_ldterm::{Ldterm, Line};
use strm_types::{Band, Fates, Rule, Side, Way};

// A line of three bytes.
fn typed(rt: &impl Abort) -> Line {
    let mut line = Line::new();
    for byte in b"abc" {
        assert!(rt; line.has_room());
        line.push(*byte);
    }
    line
}

// A module with a line, and with writers that wait at its empty queues, is taken off a side's stream, twice. Its line came up, and no
// queue is less full.
fn line_goes<B: Blocks>(
    rt: &impl Abort,
    store: &mut B,
    side: Side,
    tables: Tables,
    told: &mut Fates,
)
    requires read { list_at (B.value store.old) 0 ≡ [] }
    requires write { list_at (B.value store.old) 1 ≡ [] }
{
    let mut module = Ldterm::new();
    module.line = typed(rt);
    let queues = Some(QueuePair::new(0, 1, tables));
    let mut standing = Standing { module, queues };
    standing.let_wait(Way::Up, Band(0));
    standing.let_wait(Way::Down, Band(0));
    let popped = standing.clear(store, side, Rule::ModulePopped, Some(1), told);
    assert!(rt; popped.notes.is_empty());
    assert!(rt; !popped.met);
    assert_eq!(rt; standing.module.line.len(), 0);
    let closed = standing.clear(store, side, Rule::EndClosed, None, told);
    assert!(rt; closed.notes.is_empty());
}

#[test]
fn a_line_goes_with_its_module(rt: HostRuntime) -> Result<(), Fail> {
    let mut store = TableStore::new(rt.alloc(), 4, 4)?;
    let mut told = Fates::none();
    line_goes(
        &rt,
        &mut store,
        Side::Slave,
        Tables::new(rt.alloc())?,
        &mut told,
    );
    assert_eq!(rt; told.from_master[16], 3);
    assert_eq!(rt; told.from_master[17], 0);
    assert_eq!(rt; told.from_slave, [0; 21]);
    Ok(())
}
