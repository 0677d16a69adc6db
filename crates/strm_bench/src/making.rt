//! Pairs as rounds need them.

use crate::plans::{Plan, Stack};
use std::alloc::Global;
use strm_blocks::{Blocks, Reserve};
use strm_pair::Pair;
use strm_types::{
    Caller, Config, Content, Event, InputModes, LocalModes, ModuleName, OutputModes, Side, TCSETS,
    Termios,
};

pub const MASTER: Caller = Caller {
    side: Side::Master,
    group: 0,
    ignores: false,
    orphaned: false,
};

pub const SLAVE: Caller = Caller {
    side: Side::Slave,
    group: 0,
    ignores: false,
    orphaned: false,
};

/// A new pair of a plan's sizes.
pub fn new_pair<B: Reserve>(alloc: Global, plan: &Plan) -> Option<Pair<B>> {
    let blocks = plan.blocks as usize;
    let sizes = Config {
        mblks: blocks,
        dblks: blocks,
        journal_events: plan.entries as usize,
        journal_bytes: (plan.entries as usize) * 4096,
    };
    let Ok(store) = B::reserve(alloc, blocks, blocks) else {
        return None;
    };
    match Pair::new(alloc, sizes, store) {
        Ok(pair) => Some(pair),
        Err(_) => None,
    }
}

/// Makes a call; whether it was granted.
pub fn calls<B: Blocks + Drop>(
    pair: &mut Pair<B>,
    caller: Caller,
    event: &Event<&[u8]>,
    out: &mut Content,
) -> bool {
    pair.call(caller, event, out).is_ok()
}

/// The turns of queues that are enabled; whether none was refused.
pub fn turns<B: Blocks + Drop>(pair: &mut Pair<B>) -> bool {
    pair.runqueues().stopped.is_none()
}

/// Opens both sides of a new pair, and puts a stack on the slave; whether all was granted.
pub fn sets_up<B: Blocks + Drop>(pair: &mut Pair<B>, stack: Stack, out: &mut Content) -> bool {
    opens(pair, out)
        && match stack {
            Stack::Nothing => true,
            Stack::Lines => pushes(pair, out),
            Stack::Raw => pushes(pair, out) && makes_raw(pair, out),
        }
}

// Opens both sides of a new pair; whether that went well.
fn opens<B: Blocks + Drop>(pair: &mut Pair<B>, out: &mut Content) -> bool {
    calls(pair, MASTER, &Event::OpenMaster, out)
        && calls(pair, MASTER, &Event::Unlock, out)
        && calls(pair, SLAVE, &Event::OpenSlave, out)
}

// Pushes a ptem and a line discipline on the slave; whether both were granted.
fn pushes<B: Blocks + Drop>(pair: &mut Pair<B>, out: &mut Content) -> bool {
    let ptem = Event::Push {
        name: Some(ModuleName::Ptem),
    };
    let ldterm = Event::Push {
        name: Some(ModuleName::Ldterm),
    };
    calls(pair, SLAVE, &ptem, out) && calls(pair, SLAVE, &ldterm, out)
}

// Sets raw mode on the slave, and makes the turns that tell the master; whether all went well.
fn makes_raw<B: Blocks + Drop>(pair: &mut Pair<B>, out: &mut Content) -> bool {
    let mut raw = Termios::new();
    raw.iflag = InputModes(0);
    raw.oflag = OutputModes(0);
    raw.lflag = LocalModes(0);
    let body = raw.bytes();
    let event = Event::Ioctl {
        command: TCSETS,
        body: &body[..],
    };
    calls(pair, SLAVE, &event, out) && turns(pair)
}
