//! Deliveries and stacks of modules, by toys.

mod counter;
mod rig;
mod stock;
mod turns;

use counter::Counter;
use std::test::Fail;
use stock::Stock;
use strm_blocks::{Blocks, TableStore};
use strm_frame::{Enabled, QueuePair, Stack, Standing, Tables, deliver};
use strm_msg::from_bytes;
use strm_types::{Band, Fates, ModuleName, MsgKind, Place, QueueName, Side, Spot, Way};

#[test]
fn a_message_is_handed_on_until_an_end_takes_it(rt: HostRuntime) -> Result<(), Fail> {
    let mut store = TableStore::new(rt.alloc(), 10, 10)?;
    let mut counter = Counter { seen: 0 };
    let mut told = Fates::none();
    let message = from_bytes(&mut store, MsgKind::Data, Band(0), b"abc")?;
    let to = Spot {
        side: Side::Slave,
        at: 4,
        way: Way::Up,
    };
    deliver(&mut store, &mut counter, 16, to, message, &mut told);
    assert_eq!(rt; counter.seen, 5);
    assert_eq!(rt; store.free_blocks(), (10, 10));
    Ok(())
}

#[test]
fn a_stack_holds_three_modules_each_name_once(rt: HostRuntime) -> Result<(), Fail> {
    let mut stack = Stack::new();
    assert!(rt; look(&stack).is_none());
    assert!(rt; stack.pop().is_none());
    for name in [ModuleName::Ptem, ModuleName::Ldterm, ModuleName::Pckt] {
        assert!(rt; push(&mut stack, name));
        assert!(rt; !push(&mut stack, name));
        assert!(rt; look(&stack) == Some(name));
    }
    for name in [ModuleName::Pckt, ModuleName::Ldterm, ModuleName::Ptem] {
        assert!(rt; stack.pop().map(|standing| standing.module.name) == Some(name));
    }
    assert!(rt; push(&mut stack, ModuleName::Ptem));
    Ok(())
}

fn push(stack: &mut Stack<Stock>, name: ModuleName) -> bool {
    let module = Stock { name };
    stack
        .push(Standing {
            module,
            queues: None,
        })
        .is_ok()
}

fn look(stack: &Stack<Stock>) -> Option<ModuleName> {
    stack.look()
}

#[test]
fn the_nearest_queue_past_a_place_is_found(rt: HostRuntime) -> Result<(), Fail> {
    let mut stack = Stack::new();
    for name in [ModuleName::Ptem, ModuleName::Ldterm, ModuleName::Pckt] {
        let module = Stock { name };
        let queues = Some(QueuePair::new(0, 1, Tables::new(rt.alloc())?));
        assert!(rt; stack.push(Standing { module, queues }).is_ok());
    }
    assert!(rt; stack.place_past(Way::Down, 0) == Some(1));
    assert!(rt; stack.place_past(Way::Down, 2) == Some(3));
    assert!(rt; stack.place_past(Way::Down, 3).is_none());
    assert!(rt; stack.place_past(Way::Up, 4) == Some(3));
    assert!(rt; stack.place_past(Way::Up, 1).is_none());
    assert!(rt; stack.place_before(Way::Down, 4) == Some(3));
    assert!(rt; stack.place_before(Way::Down, 1).is_none());
    Ok(())
}

#[test]
fn a_writer_waits_at_the_nearest_queue(rt: HostRuntime) -> Result<(), Fail> {
    let mut stack = Stack::new();
    for name in [ModuleName::Ptem, ModuleName::Ldterm] {
        let module = Stock { name };
        let queues = Some(QueuePair::new(0, 1, Tables::new(rt.alloc())?));
        assert!(rt; stack.push(Standing { module, queues }).is_ok());
    }
    stack.let_wait_past(Way::Down, Band(2), 1);
    stack.let_wait_past(Way::Up, Band(3), 3);
    for waits in [true, false] {
        let queues = stack.modules.pop().and_then(|standing| standing.queues);
        let waiting = queues.map(|pair| {
            (
                pair.write.flows.at(Band(2)).want_write,
                pair.read.flows.at(Band(3)).want_write,
            )
        });
        assert!(rt; waiting == Some((waits, waits)));
    }
    Ok(())
}

// Enables a queue, where fewer than 14 are.
fn enable(enabled: &mut Enabled, name: QueueName) {
    if enabled.as_slice().len() < 14 {
        enabled.enable(name);
    }
}

#[test]
fn the_queues_of_a_popped_module_leave_the_enabled_list(rt: HostRuntime) -> Result<(), Fail> {
    let mut enabled = Enabled::new();
    for side in [Side::Slave, Side::Master] {
        for way in [Way::Up, Way::Down] {
            let place = Place::Module(ModuleName::Ldterm);
            enable(&mut enabled, QueueName { side, place, way });
        }
        enable(&mut enabled, side.driver());
    }
    enabled.forget(Side::Slave, ModuleName::Ptem);
    assert_eq!(rt; enabled.as_slice().len(), 6);
    enabled.forget(Side::Slave, ModuleName::Ldterm);
    assert_eq!(rt; enabled.as_slice().len(), 4);
    assert!(rt; enabled.contains(Side::Slave.driver()));
    assert!(rt; enabled.contains(Side::Master.driver()));
    Ok(())
}
