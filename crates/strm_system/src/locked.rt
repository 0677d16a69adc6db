//! A pair, as a lock holds it.

ghost use Rattle.std.specs.Prelude.{◌≡◌, ◌<◌, ◌^◌, length, slice_index_or};
ghost use Rattle.strm_types.specs.Names.{direction_of, head_of};
ghost use Rattle.strm_system.specs.Known.{AreCounts, Agrees};

use crate::fresh::{Fresh, are_sizes};
use std::alloc::Global;
use strm_blocks::{Blocks, Reserve};
use strm_image::Trace;
use strm_locks::Object;
use strm_pair::Pair;
use strm_raw::RawStore;
use strm_types::{
    Answer, Caller, Config, Content, Dir, Event, Ledger, NoMemory, QueueName, RULES, Refusal, Rule,
    Side, Turn,
};

/// The store of a system's pairs.
pub type Store = RawStore;

/// A pair over a store. It stands in a type of this crate, as the pair and what a lock asks for are of two others.
pub struct Locked<B: Blocks + Drop> {
    pub pair: Pair<B>,
}

// Of its own, so that who owns one doesn't take it apart at each way out.
impl<B: Blocks + Drop> Drop for Locked<B> {
    fn drop(self) {
        let Locked { pair: _ } = self;
    }
}

// The first of the counts by rule, of which there is one at least. It is of 64 bits.
fn first(counts: &[u64; RULES]) -> u64
    ensures some { 0 < length counts.now }
    ensures small { slice_index_or counts.now 0 0 < 2 ^ 64 }
{
    counts[0]
}

impl<B: Blocks + Drop> Locked<B> {
    // What is known of the pair's counts: the ledger of the direction that a side reads agrees. It does nothing but read two of them.
    fn know(&self, side: Side)
        ensures counts { AreCounts self.now.pair.fates }
        ensures agrees { Agrees (direction_of (head_of side)) self.now.pair }
    {
        let master = self.pair.fates().of(Dir::MasterToSlave);
        let slave = self.pair.fates().of(Dir::SlaveToMaster);
        let _ = first(master);
        let _ = first(slave);
        self.pair.audit();
        let _ = side;
    }
}

impl<B: Blocks + Drop> Object for Locked<B> {
    ghost pair_of = { λ l. l.pair };

    fn call(
        &mut self,
        caller: Caller,
        event: &Event<&[u8]>,
        out: &mut Content,
    ) -> Result<Answer<u32>, Refusal> {
        self.know(caller.side);
        let answer = self.pair.call(caller, event, out);
        self.know(caller.side);
        answer
    }

    fn turn(&mut self, name: QueueName) -> Result<Turn, Refusal> {
        self.know(name.side);
        let turn = self.pair.turn(name);
        self.know(name.side);
        turn
    }

    fn first_enabled(&self) -> Option<QueueName> {
        self.pair.first_enabled()
    }

    fn written(&self, direction: Dir) -> u64 {
        self.pair.written(direction)
    }

    fn read(&self, direction: Dir) -> u64 {
        self.pair.fates().of(direction)[Rule::Read.number()]
    }

    fn ledger(&self, direction: Dir) -> Ledger {
        self.pair.ledger(direction)
    }

    fn audit(&self) {
        self.pair.audit();
    }

    fn restart(&mut self) {
        self.pair.restart();
    }

    fn cut(&mut self, alloc: Global) -> Result<Trace, NoMemory> {
        self.pair.cut(alloc)
    }

    fn reset(&mut self) {
        self.pair.reset();
    }
}

impl<B: Reserve> Fresh for Locked<B> {
    fn unopened(alloc: Global, sizes: Config) -> Result<Locked<B>, Refusal> {
        if !are_sizes(&sizes) {
            return Err(Refusal::Einval);
        }
        let Ok(store) = B::reserve(alloc, sizes.mblks, sizes.dblks) else {
            return Err(Refusal::NoMemory);
        };
        match Pair::new(alloc, sizes, store) {
            Ok(pair) => Ok(Locked { pair }),
            Err(_) => Err(Refusal::NoMemory),
        }
    }
}
