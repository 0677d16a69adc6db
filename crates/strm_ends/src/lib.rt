//! What a thread of a C program has of a host of pairs, behind a handle, and calls, turns and looks at it by numbers: what strm_mt exports to C.
//! `include/strm_mt.h` is its manual.
#![tactic(auto)]

mod accounts;
mod calling;
mod claiming;
mod cutting;
mod handle;
mod held;
mod hold;
mod making;
mod member;
mod numbers;
mod opening;
mod parts;
mod seats;
mod settling;
mod sharing;
mod visiting;

pub use accounts::{Account, Prospect, Share, Sides, Sums, Visit};
pub use calling::{call, set_group};
pub use claiming::{claim, release};
pub use cutting::cut;
pub use handle::Handle;
pub use held::Held;
pub use making::{free, make, seat, sizes};
pub use opening::{open, open_slave};
pub use settling::{restart, settle};
pub use sharing::{join, split, told};
pub use visiting::{audit, ready, turn};
