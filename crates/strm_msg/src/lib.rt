//! Calls on messages, over any store of message blocks: duplicates, copies, sizes, and the bytes that go in and out. A
//! message has a control part, the bytes of the M_PROTO and M_PCPROTO blocks at its front, and a data part, the
//! bytes of its M_DATA blocks.
#![tactic(auto)]

mod adjust;
mod bytes;
mod control;
mod copies;
mod data;
mod emptied;
mod kinds;
mod pulls;
mod sizes;
mod translated;

pub use adjust::{adjmsg, trim_front};
pub use bytes::{first_bytes, from_bytes};
pub use control::take_control;
pub use copies::{copymsg, dupmsg};
pub use data::take_data;
pub use emptied::free_emptied;
pub use kinds::set_kinds;
pub use pulls::{NotPulled, pullup};
pub use sizes::{booked_size, control_len, data_len, message_size, msgdsize};
pub use translated::translate;
