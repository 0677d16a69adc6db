//! Commands that give queues of the pair of a script their turns.

ghost use Rattle.std.specs.Prelude.{◌≡◌, ◌||◌, is_some};
ghost use Rattle.strm_script.specs.ScriptRun.{by_turn, by_run, reach};
ghost use Rattle.strm_script.specs.Outcomes.{Leads};

use crate::answers::Line;
use crate::outcomes::{Answered, is_short};
use strm_blocks::Blocks;
use strm_pair::Pair;
use strm_types::{Place, QueueName, Turn};

/// Whether a turn that is answered so stopped within its message, which had so many bytes: only one of a module's queue may.
fn has_stopped(place: Place, size: usize, turn: Turn) -> bool
    ensures { result ≡ is_some (reach place size turn) }
{
    match place {
        Place::Head => false,
        Place::Driver => false,
        Place::Module(_) => match turn {
            Turn::Moved(bytes) => (bytes as usize) < size,
            Turn::Blocked => false,
            Turn::Idle => false,
        },
    }
}

/// A turn by a command.
pub fn turn<B: Blocks + Drop>(pair: &mut Pair<B>, name: QueueName) -> Answered
    ensures { Leads (by_turn name) result pair.old pair.new }
{
    let size = pair.first_size(name);
    match pair.turn(name) {
        Ok(turn) => Answered {
            line: Line::Turned(turn),
            short: has_stopped(name.place, size, turn),
        },
        Err(refusal) => Answered {
            line: Line::Refused(refusal),
            short: is_short(refusal),
        },
    }
}

/// Whether the pool was short of blocks for one of the turns so far, or for this one.
fn either_short(before: bool, now: bool) -> bool
    ensures { result ≡ (before || now) }
{
    before || now
}

/// Turns of the first enabled queue, so many at most. They end where none is enabled, and where one is refused.
pub fn run<B: Blocks + Drop>(pair: &mut Pair<B>, turns: u32) -> Answered
    ensures { Leads (by_run turns) result pair.old pair.new }
{
    let mut short = false;
    for taken in 0..turns {
        let Some(name) = pair.first_enabled() else {
            let line = Line::Ran(taken);
            return Answered { line, short };
        };
        let size = pair.first_size(name);
        match pair.turn(name) {
            Ok(turn) => {
                let stopped = has_stopped(name.place, size, turn);
                let so_far = either_short(short, stopped);
                short = so_far;
            }
            Err(refusal) => {
                let refused = is_short(refusal);
                let in_all = either_short(short, refused);
                return Answered {
                    line: Line::Ran(taken),
                    short: in_all,
                };
            }
        }
    }
    let line = Line::Ran(turns);
    Answered { line, short }
}
