//! What service procedures tell, and turns of a module's queue (srv(9E); STREAMS Programming Guide, "Service
//! Procedures").

use crate::modules::Acts;

/// What a call of a service procedure did, how many bytes of the message it treated, and whether it is to be called again in
/// the same turn, once what it sent is delivered. Where it stopped for want of blocks, the rest of the message is put back and
/// the turn ends there.
#[derive(Drop)]
pub struct Served {
    pub acts: Acts,
    pub bytes: usize,
    pub stopped: bool,
    pub again: bool,
}

/// What the end of a turn leaves: whether queues before this one have room again, and whether messages stand there still.
#[derive(Clone, Copy)]
pub struct TurnEnd {
    pub room: bool,
    pub more: bool,
}
