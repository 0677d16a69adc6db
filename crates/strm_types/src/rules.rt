//! The rules by which bytes of a pair go, and the counts of what has gone and of what was made.

ghost use Rattle.std.specs.Prelude.{◌≡◌, ◌<◌};
ghost use Rattle.strm_types.specs.Rules.{fates_of, number_of, no_fates, told_more, made_more};

use crate::names::Dir;

/// How many rules there are.
pub const RULES: usize = 21;

/// By which rule bytes go: those of a message of M_DATA, M_PROTO or M_PCPROTO, each of which was written or made once and
/// goes once. They have the order of a ledger (termio(7I), ldterm(7M), streamio(7I)).
#[derive(Clone, Copy)]
pub enum Rule {
    /// A reader has them.
    Read = 0,
    /// A carriage return under IGNCR.
    Igncr = 1,
    /// An ERASE, WERASE or KILL key.
    EraseKey = 2,
    /// Taken from the line by ERASE or WERASE.
    Erased = 3,
    /// Taken from the line by KILL.
    Killed = 4,
    /// An EOF key.
    EofKey = 5,
    /// An INTR, QUIT or SUSP key.
    SignalKey = 6,
    /// A START or STOP key.
    FlowKey = 7,
    /// An LNEXT key.
    LnextKey = 8,
    /// A REPRINT key.
    ReprintKey = 9,
    /// Typed into a full line under IMAXBEL.
    LineFull = 10,
    /// Typed into a full line without IMAXBEL, and that line.
    LineOver = 11,
    /// Taken by M_FLUSH.
    Flushed = 12,
    /// The rest of a message that a message-discard read left.
    RestDiscarded = 13,
    /// A control part that a read under RPROTDIS passed.
    ControlDropped = 14,
    /// An M_PCPROTO that reached a head on which one stood.
    Doubled = 15,
    /// On the queues, or in the line, of a module that was popped.
    ModulePopped = 16,
    /// On the queues of a side that was closed.
    EndClosed = 17,
    /// A TAB for which spaces were made.
    Replaced = 18,
    /// A carriage return at column 0 under ONOCR.
    Onocr = 19,
    /// An echo for which `ldterm` had no room.
    EchoFull = 20,
}

impl Rule {
    /// The place of the rule in a ledger, from 0.
    pub fn number(self) -> usize
        ensures value { result ≡ number_of self }
        ensures within { result < RULES }
    {
        self as usize
    }
}

/// How many bytes have gone by each rule, in each direction, and how many were made on the way, as an echo is. What a
/// write(2) or a putmsg(2) brings isn't made. All are counted modulo 2^64.
#[derive(Clone, Copy)]
pub struct Fates {
    pub from_master: [u64; 21],
    pub from_slave: [u64; 21],
    pub made_from_master: u64,
    pub made_from_slave: u64,
}

impl Fates {
    /// Nothing has gone, and nothing was made.
    pub fn none() -> Fates
        ensures { result ≡ no_fates }
    {
        Fates {
            from_master: [0; 21],
            from_slave: [0; 21],
            made_from_master: 0,
            made_from_slave: 0,
        }
    }

    /// How many bytes of a direction have gone by each rule.
    pub fn of(&self, direction: Dir) -> &[u64; 21]
        ensures { result.now ≡ fates_of direction self.now }
    {
        match direction {
            Dir::MasterToSlave => &self.from_master,
            Dir::SlaveToMaster => &self.from_slave,
        }
    }

    /// So many more bytes of a direction have gone by a rule.
    pub fn tell(&mut self, direction: Dir, rule: Rule, bytes: usize)
        ensures { self.new ≡ told_more direction rule bytes self.old }
    {
        let at = rule.number();
        match direction {
            Dir::MasterToSlave => {
                self.from_master[at] = self.from_master[at].wrapping_add(bytes as u64);
            }
            Dir::SlaveToMaster => {
                self.from_slave[at] = self.from_slave[at].wrapping_add(bytes as u64);
            }
        }
    }

    /// So many more bytes of a direction were made on the way: those of messages of M_DATA, M_PROTO or M_PCPROTO that nobody
    /// wrote, and that go by a rule later, as all others.
    pub fn tell_made(&mut self, direction: Dir, bytes: usize)
        ensures { self.new ≡ made_more direction bytes self.old }
    {
        match direction {
            Dir::MasterToSlave => {
                self.made_from_master = self.made_from_master.wrapping_add(bytes as u64);
            }
            Dir::SlaveToMaster => {
                self.made_from_slave = self.made_from_slave.wrapping_add(bytes as u64);
            }
        }
    }
}
