//! Names of the two ends of a pair, of the directions between them, and of the queues on the way.

ghost use Rattle.std.specs.Prelude.{◌≡◌};
ghost use Rattle.strm_types.specs.Names as names;

use crate::limits::OWN_QUEUED;

/// An end of a pair: the master, which a terminal emulator holds, or the slave, which a shell has as its terminal.
#[derive(Clone, Copy, Debug, Default, PartialEq)]
pub enum Side {
    #[default]
    Master,
    Slave,
}

impl Side {
    /// The other end.
    pub fn other(self) -> Side
        ensures { result ≡ names.other self }
    {
        match self {
            Side::Master => Side::Slave,
            Side::Slave => Side::Master,
        }
    }

    /// Whether it is the master's.
    pub fn is_master(self) -> bool
        ensures { result ≡ names.is_master self }
    {
        matches!(self, Side::Master)
    }

    /// The direction of what this side writes.
    pub fn direction(self) -> Dir
        ensures { result ≡ names.direction_from self }
    {
        match self {
            Side::Master => Dir::MasterToSlave,
            Side::Slave => Dir::SlaveToMaster,
        }
    }

    /// The name of its driver's queue.
    pub fn driver(self) -> QueueName
        ensures { result ≡ names.driver_of self }
    {
        QueueName {
            side: self,
            place: Place::Driver,
            way: Way::Down,
        }
    }

    /// The name of its head's queue.
    pub fn head(self) -> QueueName
        ensures { result ≡ names.head_of self }
    {
        QueueName {
            side: self,
            place: Place::Head,
            way: Way::Up,
        }
    }
}

/// Whether a side of a pair was opened. A closed master is never opened again, a closed slave may be.
#[derive(Clone, Copy, Default)]
pub enum Openness {
    #[default]
    Never,
    Open,
    Closed,
}

impl Openness {
    /// Whether the side is open now.
    pub fn is_open(self) -> bool
        ensures { result ≡ names.is_open self }
    {
        matches!(self, Openness::Open)
    }

    /// Whether the side was closed.
    pub fn is_closed(self) -> bool
        ensures { result ≡ names.is_closed self }
    {
        matches!(self, Openness::Closed)
    }
}

/// A direction of a pair: from the master to the slave, as what is typed goes, or from the slave to the master, as
/// what is printed goes.
#[derive(Clone, Copy)]
pub enum Dir {
    MasterToSlave,
    SlaveToMaster,
}

/// Which way a message travels in one stream: up the read side to the head, or down the write side to the driver.
#[derive(Clone, Copy, Debug, Default, PartialEq)]
pub enum Way {
    #[default]
    Up,
    Down,
}

/// What a queue belongs to: the stream head, a module, by its name, or the driver.
#[derive(Clone, Copy, Debug, Default, PartialEq)]
pub enum Place {
    #[default]
    Head,
    Module(ModuleName),
    Driver,
}

impl Place {
    /// Whether queues stand there: those of a head, of a driver, and of modules of a name that have any.
    pub fn has_queues(self) -> bool
        ensures { result ≡ names.has_queues_at self }
    {
        match self {
            Place::Head | Place::Driver => true,
            Place::Module(name) => name.has_queues(),
        }
    }

    /// Whether two places are one.
    pub fn is_same(self, other: Place) -> bool
        ensures { result ≡ names.same_place self other }
    {
        self == other
    }
}

/// The name of a queue, as `m.drv.w`. A head has a read queue alone and a driver a write queue alone; a module that has queues has
/// both. A name may be of a queue that doesn't exist.
#[derive(Clone, Copy, Debug, Default, PartialEq)]
pub struct QueueName {
    pub side: Side,
    pub place: Place,
    pub way: Way,
}

/// A module that may be pushed on a stream: the line discipline `ldterm(7M)`, the terminal emulation `ptem(7M)`, the
/// packet mode `pckt(7M)`, or one of a user's own, whose number is 16 more than this one.
#[derive(Clone, Copy, Debug, PartialEq)]
pub enum ModuleName {
    Ldterm,
    Ptem,
    Pckt,
    Own(u8),
}

impl ModuleName {
    /// Whether two names are one.
    pub fn is_same(self, other: ModuleName) -> bool
        ensures { result ≡ names.same_module self other }
    {
        self == other
    }

    /// Whether modules of this name have queues: `ldterm`, and those of a user's own of numbers from `OWN_QUEUED` on.
    pub fn has_queues(self) -> bool
        ensures { result ≡ names.have_queues self }
    {
        match self {
            ModuleName::Ldterm => true,
            ModuleName::Ptem | ModuleName::Pckt => false,
            ModuleName::Own(number) => OWN_QUEUED <= number,
        }
    }

    /// The place of the queues of modules of this name; None where they have none.
    pub fn place(self) -> Option<Place>
        ensures { result ≡ names.place_of self }
    {
        if self.has_queues() {
            Some(Place::Module(self))
        } else {
            None
        }
    }
}

impl QueueName {
    /// Whether the queue has a service procedure: every queue but a head's.
    pub fn has_service(self) -> bool
        ensures { result ≡ names.has_service self }
    {
        !matches!(self.place, Place::Head)
    }

    /// Whether two names are of one queue.
    pub fn is_same(self, other: QueueName) -> bool
        ensures { result ≡ names.same_queue self other }
    {
        self == other
    }

    /// The direction in which the queue's messages go.
    pub fn direction(self) -> Dir
        ensures { result ≡ names.direction_of self }
    {
        match self.way {
            Way::Down => self.side.direction(),
            Way::Up => self.side.other().direction(),
        }
    }
}
