//! What is to be measured, and what it comes to.

ghost use Rattle.std.specs.Prelude.{◌<◌, ◌≤◌};

/// A system of so many pairs, 64 at most, at each of them so many threads, one at least, and so many rounds of each thread. Each pair has a
/// journal of `entries`. A warm plan opens each pair again behind its rounds and makes them once more, on memory that was written before.
#[derive(Clone, Copy)]
pub struct LoadPlan {
    pub pairs: u32,
    pub threads: u32,
    pub rounds: u32,
    pub entries: u32,
    pub warm: bool,
    pub ghost few_pairs: { pairs ≤ 64 },
    pub ghost some_threads: { 0 < threads },
}

/// What the ends of all pairs were told, each time that they were settled.
#[derive(Clone, Copy)]
pub struct Sums {
    pub calls: u64,
    pub written: u64,
    pub read: u64,
}

impl Sums {
    pub fn none() -> Sums {
        Sums {
            calls: 0,
            written: 0,
            read: 0,
        }
    }

    /// Both together.
    pub fn plus(&self, more: &Sums) -> Sums {
        Sums {
            calls: self.calls.saturating_add(more.calls),
            written: self.written.saturating_add(more.written),
            read: self.read.saturating_add(more.read),
        }
    }
}
