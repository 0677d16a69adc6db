//! A stream head, on one queue of any store: its modes, what its readers take and by which rule it goes, what a putmsg and an ioctl
//! send, and what comes up to it (read(2), getmsg(2), putmsg(2), ioctl(2), streamio(7I): I_SRDOPT, I_NREAD, I_STR).
#![tactic(auto)]

mod getting;
mod head;
mod ioctls;
mod parts;
mod putting;
mod reading;
mod sending;
mod signals;
mod standing;
mod vectors;

pub use getting::{Gotten, getmsg};
pub use head::{Head, Waiting};
pub use ioctls::{IoctlBytes, make_ioctl};
pub use putting::{Came, Down};
pub use reading::read;
pub use sending::{make_flush, make_message, write};
pub use signals::Signals;
pub use vectors::Vectored;
