//! The lock of a pair, for threads that share it: a thread has an end of the pair, calls by it under the lock, and is told what its
//! calls wrote, read and were. What is locked is any `Object`: a pair as contracts see it.
#![tactic(auto)]

mod audits;
mod bell;
mod busy;
mod calls;
mod end;
mod gate;
mod held;
mod lock;
mod looks;
mod object;
mod rule;
mod system;
mod told;
mod tries;
mod view;
mod visit;
mod workers;

pub use audits::Audit;
pub use bell::{Bell, NoBell, Wakes};
pub use busy::Busy;
pub use end::{ALL_PARTS, End, StillShared};
pub use gate::{Gate, NoGate};
pub use held::{Held, Made, Settled};
pub use lock::Lock;
pub use object::Object;
pub use system::{PairEnd, System};
pub use told::{Each, Told};
pub use visit::{Closed, Cut, NotOpened, Visit};
pub use workers::{Crew, Report};
