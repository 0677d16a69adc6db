//! What a C program is told of an end, of a pair and of a visit.

use strm_handle::{Books, Went};

/// How many bytes, by the side that wrote them.
#[repr(C)]
#[derive(Drop)]
pub struct Sides {
    pub from_master: u64,
    pub from_slave: u64,
}

/// How many calls, and how many bytes they wrote and read.
#[repr(C)]
#[derive(Drop)]
pub struct Sums {
    pub calls: u64,
    pub written: Sides,
    pub read: Sides,
}

/// What an end is: what it was told, its parts, the number of its pair, and whom it calls as.
#[repr(C)]
#[derive(Drop)]
pub struct Share {
    pub told: Sums,
    pub parts: u64,
    pub pair: u32,
    pub side: u32,
    pub group: u32,
    pub ignores: bool,
    pub orphaned: bool,
}

/// What was told of a pair in all, and its ledgers: that of what the master wrote, and that of what the slave wrote.
#[repr(C)]
#[derive(Drop)]
pub struct Account {
    pub told: Sums,
    pub ms: Books,
    pub sm: Books,
}

/// A visit: the queue that had a turn, or none (`NO_QUEUE`); 0 or the number of that turn's refusal; and what the turn did.
#[repr(C)]
#[derive(Drop)]
pub struct Visit {
    pub queue: u32,
    pub refusal: u32,
    pub went: Went,
}

/// What a side of a pair is ready for, as bits, and the queue that is enabled first, or none (`NO_QUEUE`).
#[repr(C)]
#[derive(Drop)]
pub struct Prospect {
    pub bits: u32,
    pub queue: u32,
}
