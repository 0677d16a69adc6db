//! What is called round each turn of a worker.

/// A gate round turns: a worker calls both while it holds the pair's lock, with its own number and the pair's. One that waits for that pair
/// hangs.
pub trait Gate {
    fn before(&self, worker: u32, pair: u32);

    fn after(&self, worker: u32, pair: u32);
}

// Which worker is at which pair.
#[derive(Clone, Copy)]
pub(crate) struct At {
    pub(crate) worker: u32,
    pub(crate) pair: u32,
}

/// A gate that does nothing.
pub struct NoGate;

impl Gate for NoGate {
    fn before(&self, _worker: u32, _pair: u32) {}

    fn after(&self, _worker: u32, _pair: u32) {}
}
