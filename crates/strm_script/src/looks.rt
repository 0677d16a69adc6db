//! Commands that look at the pair of a script or begin its journal anew, and make no call.

ghost use Rattle.std.specs.Prelude.{◌≡◌, false, length};
ghost use Rattle.strm_types.specs.Names.{head_of, driver_of};
ghost use Rattle.strm_laws.specs.Ledgers.{ledger_of};
ghost use Rattle.strm_laws.specs.Pair.{restarted};
ghost use Rattle.strm_script.specs.ScriptRun.{size_at};
ghost use Rattle.strm_script.specs.Lines.{module_sizes};

use crate::answers::{Line, ModuleSizes, QueueSize};
use crate::ledgers::LedgerOf;
use crate::outcomes::Answered;
use strm_blocks::Blocks;
use strm_pair::Pair;
use strm_types::{Dir, ModuleName, Place, QueueName, Side, Way};

/// How much stands on a queue.
fn size<B: Blocks + Drop>(pair: &Pair<B>, name: QueueName) -> QueueSize
    ensures { result ≡ size_at pair.now.state name }
{
    let (messages, bytes) = pair.sizes(name);
    QueueSize {
        name,
        messages,
        bytes,
    }
}

/// How much stands on the queues of the module on a side's stream that has queues.
fn module_sizes<B: Blocks + Drop>(pair: &Pair<B>, side: Side) -> Option<ModuleSizes>
    ensures { result ≡ module_sizes side pair.now.state }
{
    let place = Place::Module(ModuleName::Ldterm);
    if !pair.has_queues(side, place) {
        return None;
    }
    let up = QueueName {
        side,
        place,
        way: Way::Up,
    };
    let down = QueueName {
        side,
        place,
        way: Way::Down,
    };
    let read = size(pair, up);
    let write = size(pair, down);
    Some(ModuleSizes {
        up: read,
        down: write,
    })
}

/// A look at what stands on a side's queues.
pub fn show<B: Blocks + Drop>(pair: &Pair<B>, side: Side) -> Answered
    ensures { result ≡ record {
      line = Line.Sizes side (size_at pair.now.state (head_of side)) (module_sizes side pair.now.state)
          (size_at pair.now.state (driver_of side));
      short = false;
    } }
{
    Answered {
        line: Line::Sizes {
            side,
            head: size(pair, side.head()),
            stacked: module_sizes(pair, side),
            driver: size(pair, side.driver()),
        },
        short: false,
    }
}

/// A look at the ledger of a direction.
pub fn ledger<B: Blocks + Drop>(pair: &Pair<B>, direction: Dir) -> Answered
    ensures { result ≡ record {
      line = Line.Booked (record {
        direction = direction;
        ledger = ledger_of direction pair.now.state pair.now.fates;
      });
      short = false;
    } }
{
    let ledger = pair.ledger(direction);
    Answered {
        line: Line::Booked(LedgerOf { direction, ledger }),
        short: false,
    }
}

/// Begins the journal of a pair anew, and tells how many entries it held.
pub fn cut<B: Blocks + Drop>(pair: &mut Pair<B>) -> Answered
    ensures line { result ≡ record { line = Line.Entries (length pair.old.journal); short = false } }
    ensures pair { pair.new ≡ restarted pair.old }
{
    let held = pair.journal().entries.len();
    pair.restart();
    Answered {
        line: Line::Entries(held),
        short: false,
    }
}
