//! The flow control of a band.

/// The flow control of one band of a queue: from how many bytes on it is full, down to how many writers go on, and whether one waits.
#[derive(Clone, Copy)]
pub struct Flow {
    pub high: u32,
    pub low: u32,
    pub want_write: bool,
}
