//! Places at which messages are put.

ghost use Rattle.std.specs.Prelude.{◌≡◌, ◌<◌, ◌^◌};
ghost use Rattle.strm_types.specs.Deliver.{toward};
ghost use Rattle.strm_types.specs.Names.{direction_at};

use crate::kinds::Band;
use crate::names::{Dir, Side, Way};

/// Where a message is put: on which side's stream, at which place of it, and which way it goes there. Places count from
/// the head, which is 0, over the modules from the top, to the driver, 4 at most.
#[derive(Clone, Copy, PartialEq)]
pub struct Spot {
    pub side: Side,
    pub at: u8,
    pub way: Way,
}

impl Spot {
    /// The next spot that way, on the same stream. No way leads up from the head.
    pub fn toward(self, way: Way) -> Spot
        requires inside { 0 < self.at }
        requires small { self.at < 255 }
        ensures { result ≡ toward way self }
    {
        match way {
            Way::Up => Spot {
                at: self.at - 1,
                way,
                ..self
            },
            Way::Down => Spot {
                at: self.at + 1,
                way,
                ..self
            },
        }
    }

    /// The direction in which a message goes there.
    pub fn direction(self) -> Dir
        ensures { result ≡ direction_at self.way self.side }
    {
        match self.way {
            Way::Down => self.side.direction(),
            Way::Up => self.side.other().direction(),
        }
    }
}

/// What a driver is told of the other side: whether its stream is open, how many modules stand there, so that its lowest place
/// above its driver has that number, and whether the master is closed, so that nothing crosses any more.
#[derive(Clone, Copy)]
pub struct Across {
    pub is_open: bool,
    pub bottom: u8,
    pub ended: bool,
}

/// What a put does to the enabled list beside sending: a queue of the module's own is enabled, or has room again, so that
/// the nearest earlier queue with service is. `Up` is its read queue, `Down` its write queue.
#[derive(Clone, Copy, Debug, PartialEq)]
pub enum Note {
    Enable(Way),
    Room(Way),
}

impl Default for Note {
    fn default() -> Note {
        Note::Enable(Way::Up)
    }
}

/// What the first message of a queue asks before it goes on, where its service procedure looks at it (srv(9E); STREAMS
/// Programming Guide, "Flow Control").
#[derive(Clone, Copy)]
pub enum Asks {
    /// No message stands there.
    Empty,
    /// It may not go on, whatever room there is, as where output is stopped.
    Held,
    /// It goes on, as messages of high priority do.
    Free,
    /// It goes on where a band has room ahead.
    Room(Band),
}
