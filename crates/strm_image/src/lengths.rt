//! How long an image of version 2 is at most.

use strm_types::{BANDS, BLOCK_SIZE, MODULES, SETTINGS_MAX};

/// How many bytes a message has in an image beside its own: its kind, its band, and for each part whether it is there and its length.
pub const MESSAGE_FIXED: usize = 12;

/// How many bytes an image has at most for each block of a pair: a message has at least one, and each block 256 bytes at most.
pub const IMAGE_BLOCK: usize = MESSAGE_FIXED + BLOCK_SIZE;

/// How many bytes a queue has at most beside its messages: its flags, ten for each band that is listed, and both numbers.
pub const QUEUE_FIXED: usize = 7 + 10 * BANDS;

/// How many bytes a module has at most beside the messages of its queues. None is longer than one of a user's own that has queues: its kind, its
/// number, what it is set to behind the length of that, and two queues.
pub const MODULE_FIXED: usize = 4 + SETTINGS_MAX + 2 * QUEUE_FIXED;

/// How many bytes a stream has at most beside the messages of its queues: its head with 31 signals and an answer, its modules, and the queues of
/// its head and of its driver.
pub const STREAM_FIXED: usize = 314 + MODULES * MODULE_FIXED + 2 * QUEUE_FIXED;

/// How many bytes an image has at most beside those of its messages: its streams, fourteen enabled queues, and both ledgers.
pub const IMAGE_FIXED: usize = 437 + 2 * STREAM_FIXED;
