//! What a storm is made of.

ghost use Rattle.std.specs.Prelude.{◌≤◌};

/// What a storm is made of: a system of so many pairs, so many threads, so many calls of each, and the number behind which they are picked. It
/// has 1 to 64 pairs, 2 to 16 threads, and 65,536 calls at most.
#[derive(Clone, Copy)]
pub struct StormPlan {
    pub pairs: u32,
    pub threads: u32,
    pub calls: u32,
    pub seed: u64,
    pub ghost some_pairs: { (1 ≤ pairs) × (pairs ≤ 64) },
    pub ghost some_threads: { (2 ≤ threads) × (threads ≤ 16) },
    pub ghost few_calls: { calls ≤ 65536 },
}
