//! The text of each part of an image, in version 2. Each writer puts its text behind what a sink was given before.

mod accounts;
mod bands;
mod codes;
mod fields;
mod messages;
mod modules;
mod queues;
mod streams;
mod whole;

pub use accounts::put_account;
pub use bands::{Bands, put_flows};
pub use codes::{
    put_control_mode, put_flag, put_kind, put_module_name, put_openness, put_place, put_read_mode,
    put_side, put_way,
};
pub use fields::{put_u8, put_u16, put_u32, put_u64};
pub use messages::{put_message, put_part};
pub use modules::{put_line, put_ptem, put_settings, put_termios, put_winsize};
pub use queues::{put_enabled, put_queue_flags};
pub use streams::{put_head_bits, put_signals, put_slot};
pub use whole::put_front;
