//! What a C program is told.

/// An answer of a call: which kind, and its numbers. Its bytes stand in the caller's buffer.
#[repr(C)]
#[derive(Drop)]
pub struct Reply {
    /// How many bytes it gives.
    pub bytes: usize,
    pub kind: u32,
    /// A count, a module, how many messages, the number of an ioctl, a refusal, or a signal.
    pub value: u32,
    /// Of a message, its priority: a band, or 256 for high.
    pub prio: u32,
    /// Of a message, which parts it has: 1 a control part, 2 a data part, 3 both.
    pub parts: u32,
    /// How many bytes the control part has, or the first message's data.
    pub size: u32,
    pub more_control: bool,
    pub more_data: bool,
}

/// What a turn did: 0 nothing, on an empty queue, 1 nothing, on a blocked one, 2 moved so many bytes.
#[repr(C)]
#[derive(Drop)]
pub struct Went {
    pub kind: u32,
    pub moved: u32,
}

/// How many messages stand on a queue, and how many bytes they have.
#[repr(C)]
#[derive(Drop)]
pub struct Sizes {
    pub messages: usize,
    pub bytes: usize,
}

/// What is left of a pair: how many blocks are free, of the kind of which fewer are, and how many entries and bytes its journal takes yet.
#[repr(C)]
#[derive(Drop)]
pub struct Left {
    pub blocks: usize,
    pub entries: usize,
    pub bytes: usize,
}

/// Where the bytes of a direction are: written and made are queued, inlined and all that are gone.
#[repr(C)]
#[derive(Drop)]
pub struct Books {
    pub written: u64,
    pub made: u64,
    pub queued: u64,
    pub inlined: u64,
    /// How many have gone by each rule.
    pub gone: [u64; 21],
}
