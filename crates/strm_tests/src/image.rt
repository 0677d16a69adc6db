//! Small texts, by hand: one of each kind of part, and one for each reason for which a text is no image.

mod modules;
mod rewriting;
mod writing;

use std::alloc::{AllocError, Global};
use std::test::*;
use strm_image::read;

// An image of version 2 up to its streams: both sides are open, the slave isn't locked, the next ioctl is the first one.
const OPEN: [u8; 12] = [83, 84, 80, 73, 2, 1, 1, 0, 0, 0, 0, 1];

// The same where the slave was closed.
const CLOSED: [u8; 12] = [83, 84, 80, 73, 2, 1, 2, 0, 0, 0, 0, 1];

// Modes and flags of a head, and no signal and no ioctl.
const HEAD: [u8; 5] = [0; 5];

// A queue as it is made, and the flags of one with its bands as they are made.
const QUEUE: [u8; 7] = [1, 0, 0, 0, 0, 0, 0];

const BANDS: [u8; 3] = [1, 0, 0];

// No module, and no enabled queue.
const NONE: [u8; 1] = [0];

// What a terminal is set to, and the flags, the column and the line of an ldterm.
const TERMIOS: [u8; 35] = [0; 35];

const LINE: [u8; 7] = [0; 7];

// Whether an image stands there: its front, the streams and enabled queues, and how many bytes each side wrote. No byte was made or has
// gone.
fn is_image(
    alloc: Global,
    front: &[u8],
    parts: &[&[u8]],
    written: [u8; 2],
) -> Result<bool, AllocError> {
    let mut text = Vec::new(alloc);
    text.extend_from_slice(front)?;
    for part in parts {
        text.extend_from_slice(*part)?;
    }
    for count in written {
        text.extend_from_slice(&[0, 0, 0, 0, 0, 0, 0, count])?;
        text.extend_from_slice(&[0; 176])?;
    }
    Ok(read(text.as_slice()).is_some())
}

// Whether one stands there where the slave has this head, with its modules and without its queues.
fn has_head(alloc: Global, head: &[u8]) -> Result<bool, AllocError> {
    let parts: [&[u8]; 8] = [&HEAD, &NONE, &QUEUE, &QUEUE, head, &QUEUE, &QUEUE, &NONE];
    is_image(alloc, &OPEN, &parts, [0, 0])
}

// The same where the slave's driver has these messages, with their number in front, of so many bytes that it wrote.
fn has_messages(alloc: Global, messages: &[u8], written: u8) -> Result<bool, AllocError> {
    let parts: [&[u8]; 10] = [
        &HEAD, &NONE, &QUEUE, &QUEUE, &HEAD, &NONE, &QUEUE, &BANDS, messages, &NONE,
    ];
    is_image(alloc, &OPEN, &parts, [0, written])
}

// The same where the queue of the slave's head has these flags and bands.
fn has_bands(alloc: Global, bands: &[u8]) -> Result<bool, AllocError> {
    let parts: [&[u8]; 10] = [
        &HEAD,
        &NONE,
        &QUEUE,
        &QUEUE,
        &HEAD,
        &NONE,
        bands,
        &[0, 0, 0, 0],
        &QUEUE,
        &NONE,
    ];
    is_image(alloc, &OPEN, &parts, [0, 0])
}

// The same where these queues are enabled, with their number in front, and the slave has an ldterm.
fn has_enabled(alloc: Global, enabled: &[u8]) -> Result<bool, AllocError> {
    let parts: [&[u8]; 13] = [
        &HEAD,
        &NONE,
        &QUEUE,
        &QUEUE,
        &HEAD,
        &[1, 1],
        &TERMIOS,
        &LINE,
        &QUEUE,
        &QUEUE,
        &QUEUE,
        &QUEUE,
        enabled,
    ];
    is_image(alloc, &OPEN, &parts, [0, 0])
}

// The parts of a pair as it is opened, one more, and one less.
const NEW: [&[u8]; 9] = [
    &HEAD, &NONE, &QUEUE, &QUEUE, &HEAD, &NONE, &QUEUE, &QUEUE, &NONE,
];

const LONGER: [&[u8]; 10] = [
    &HEAD, &NONE, &QUEUE, &QUEUE, &HEAD, &NONE, &QUEUE, &QUEUE, &NONE, &NONE,
];

const SHORTER: [&[u8]; 8] = [&HEAD, &NONE, &QUEUE, &QUEUE, &HEAD, &NONE, &QUEUE, &QUEUE];

// Fronts with the parts of a new pair, and whether an image stands there: another magic, version 3, a side that was opened in no known way, a
// lock that is neither, ioctl 0.
const FRONTS: [([u8; 12], bool); 7] = [
    (OPEN, true),
    (CLOSED, true),
    ([83, 84, 80, 74, 2, 1, 1, 0, 0, 0, 0, 1], false),
    ([83, 84, 80, 73, 3, 1, 1, 0, 0, 0, 0, 1], false),
    ([83, 84, 80, 73, 2, 3, 1, 0, 0, 0, 0, 1], false),
    ([83, 84, 80, 73, 2, 1, 1, 2, 0, 0, 0, 1], false),
    ([83, 84, 80, 73, 2, 1, 1, 0, 0, 0, 0, 0], false),
];

#[test]
fn fronts(rt: HostRuntime) -> Result<(), Fail> {
    for row in &FRONTS {
        assert_eq!(rt; is_image(rt.alloc(), &row.0, &NEW, [0, 0])?, row.1);
    }
    assert!(rt; !is_image(rt.alloc(), &OPEN, &NEW, [1, 0])?);
    assert!(rt; !is_image(rt.alloc(), &OPEN, &LONGER, [0, 0])?);
    assert!(rt; !is_image(rt.alloc(), &OPEN, &SHORTER, [0, 0])?);
    Ok(())
}

// Heads of the slave with their modules, and whether an image stands there.
const HEADS: [(&[u8], bool); 13] = [
    (&[2, 2, 3, 2, 31, 1, 0, 0], true),
    (&[3, 0, 0, 0, 0, 0], false),
    (&[0, 3, 0, 0, 0, 0], false),
    (&[0, 0, 7, 0, 0, 0, 5, 0, 0, 0], true),
    (&[0, 0, 4, 0, 0, 0, 0, 0, 0, 0], false),
    (&[0, 0, 8, 0, 0, 0], false),
    (&[0, 0, 0, 2, 9, 9, 0, 0], false),
    (&[0, 0, 0, 1, 32, 0, 0], false),
    (&[0, 0, 0, 1, 0, 0, 0], false),
    (&[0, 0, 0, 0, 1, 0, 0, 0, 4, 0, 0, 0, 1, 0], true),
    (
        &[
            0, 0, 0, 0, 2, 0, 0, 0, 4, 0, 0, 0, 1, 0, 0, 0, 0, 9, 0, 0, 0, 1, 7, 0,
        ],
        true,
    ),
    (
        &[
            0, 0, 0, 0, 2, 0, 0, 0, 4, 0, 0, 0, 1, 2, 0, 0, 0, 9, 0, 0, 0, 1, 7, 0,
        ],
        false,
    ),
    (&[0, 0, 0, 0, 3, 0], false),
];

// A foreground group on the master's side.
const ON_MASTER: [&[u8]; 9] = [
    &[0, 0, 4, 0, 0, 0, 5, 0, 0],
    &NONE,
    &QUEUE,
    &QUEUE,
    &HEAD,
    &NONE,
    &QUEUE,
    &QUEUE,
    &NONE,
];

// An answer of 257 bytes.
const LONG: [&[u8]; 10] = [
    &HEAD,
    &NONE,
    &QUEUE,
    &QUEUE,
    &[
        0, 0, 0, 0, 2, 0, 0, 0, 4, 0, 0, 0, 1, 1, 0, 0, 0, 0, 0, 0, 1, 1,
    ],
    &[7; 257],
    &NONE,
    &QUEUE,
    &QUEUE,
    &NONE,
];

#[test]
fn heads_and_slots(rt: HostRuntime) -> Result<(), Fail> {
    for row in &HEADS {
        assert_eq!(rt; has_head(rt.alloc(), row.0)?, row.1);
    }
    assert!(rt; !is_image(rt.alloc(), &OPEN, &ON_MASTER, [0, 0])?);
    assert!(rt; !is_image(rt.alloc(), &OPEN, &LONG, [0, 0])?);
    Ok(())
}

// A signal, an ioctl under way, a module and a message on the slave's side.
const OF_AN_OPEN_SIDE: [[&[u8]; 10]; 4] = [
    [
        &HEAD,
        &NONE,
        &QUEUE,
        &QUEUE,
        &[0, 0, 0, 1, 2, 0],
        &NONE,
        &QUEUE,
        &QUEUE,
        &NONE,
        &[],
    ],
    [
        &HEAD,
        &NONE,
        &QUEUE,
        &QUEUE,
        &[0, 0, 0, 0, 1, 0, 0, 0, 1, 0, 0, 0, 1],
        &NONE,
        &QUEUE,
        &QUEUE,
        &NONE,
        &[],
    ],
    [
        &HEAD,
        &NONE,
        &QUEUE,
        &QUEUE,
        &HEAD,
        &[1, 3],
        &QUEUE,
        &QUEUE,
        &NONE,
        &[],
    ],
    [
        &HEAD,
        &NONE,
        &QUEUE,
        &QUEUE,
        &HEAD,
        &NONE,
        &BANDS,
        &[0, 0, 0, 1, 0, 0, 0, 0, 0, 0, 0, 1, 0, 0, 0, 0],
        &QUEUE,
        &NONE,
    ],
];

#[test]
fn closed_sides(rt: HostRuntime) -> Result<(), Fail> {
    for parts in &OF_AN_OPEN_SIDE {
        assert!(rt; is_image(rt.alloc(), &OPEN, parts, [0, 0])?);
        assert!(rt; !is_image(rt.alloc(), &CLOSED, parts, [0, 0])?);
    }
    Ok(())
}

// Enabled queues, and whether an image stands there.
const ENABLED: [(&[u8], bool); 7] = [
    (&[4, 1, 1, 1, 0, 2, 1, 1, 1, 0, 1, 2, 1], true),
    (&[2, 1, 1, 1, 1, 1, 1], false),
    (&[1, 1, 0, 0], false),
    (&[1, 0, 1, 0], false),
    (&[1, 0, 2, 0], false),
    (&[1, 2, 2, 1], false),
    (&[1, 1, 4, 1], false),
];

#[test]
fn enabled(rt: HostRuntime) -> Result<(), Fail> {
    for row in &ENABLED {
        assert_eq!(rt; has_enabled(rt.alloc(), row.0)?, row.1);
    }
    Ok(())
}

// Flags and bands of a queue, and whether an image stands there.
const FLOWS: [(&[u8], bool); 8] = [
    (
        &[
            3, 0, 2, 0, 0, 0, 20, 0, 0, 0, 4, 0, 1, 255, 0, 0, 20, 0, 0, 0, 4, 0, 1,
        ],
        true,
    ),
    (
        &[
            3, 0, 2, 0, 0, 0, 20, 0, 0, 0, 4, 0, 1, 255, 0, 0, 20, 0, 0, 0, 4, 0, 0,
        ],
        false,
    ),
    (&[1, 0, 1, 9, 0, 0, 20, 0, 0, 0, 4, 0, 0], false),
    (
        &[
            1, 0, 2, 9, 0, 0, 0, 2, 0, 0, 0, 1, 0, 9, 0, 0, 0, 2, 0, 0, 0, 1, 0,
        ],
        false,
    ),
    (
        &[
            1, 0, 2, 9, 0, 0, 0, 2, 0, 0, 0, 1, 0, 8, 0, 0, 0, 2, 0, 0, 0, 1, 0,
        ],
        false,
    ),
    (&[1, 0, 1, 9, 0, 0, 0, 0, 0, 0, 0, 0, 0], false),
    (&[1, 0, 1, 9, 0, 0, 0, 1, 0, 0, 0, 2, 0], false),
    (&[4, 0, 0], false),
];

#[test]
fn bands(rt: HostRuntime) -> Result<(), Fail> {
    for row in &FLOWS {
        assert_eq!(rt; has_bands(rt.alloc(), row.0)?, row.1);
    }
    Ok(())
}

// Messages with their number in front, and how many bytes the slave wrote, of which each is an image. The last two fall in rank.
const MESSAGES: [(&[u8], u8); 4] = [
    (&[0, 0, 0, 1, 0, 200, 0, 0, 0, 0, 0, 1, 0, 0, 0, 1, 97], 1),
    (&[0, 0, 0, 1, 1, 0, 1, 0, 0, 0, 1, 97, 0, 0, 0, 0, 0], 1),
    (&[0, 0, 0, 1, 0x87, 0, 0, 0, 0, 0, 0, 1, 0, 0, 0, 0], 0),
    (
        &[
            0, 0, 0, 2, 0, 1, 0, 0, 0, 0, 0, 1, 0, 0, 0, 0, 0, 0, 0, 0, 0, 0, 0, 1, 0, 0, 0, 0,
        ],
        0,
    ),
];

// Those of which none is an image. The last two rise in rank.
const NO_MESSAGES: [(&[u8], u8); 9] = [
    (&[0, 0, 0, 1, 0x86, 0, 0, 0, 0, 0, 0, 1, 0, 0, 0, 0], 0),
    (&[0, 0, 0, 1, 0x87, 1, 0, 0, 0, 0, 0, 1, 0, 0, 0, 0], 0),
    (&[0, 0, 0, 1, 0, 0, 1, 0, 0, 0, 0, 1, 0, 0, 0, 0], 0),
    (&[0, 0, 0, 1, 1, 0, 0, 0, 0, 0, 0, 1, 0, 0, 0, 0], 0),
    (&[0, 0, 0, 1, 0, 0, 0, 0, 0, 0, 0, 0, 0, 0, 0, 0], 0),
    (&[0, 0, 0, 1, 1, 0, 1, 0, 0, 0, 0, 0, 0, 0, 0, 1, 97], 0),
    (&[0, 0, 0, 1, 0, 0, 0, 0, 0, 0, 0, 1, 0, 0, 0, 2, 97], 1),
    (&[255, 255, 255, 255, 0, 0, 0, 0, 0, 0, 0, 1, 0, 0, 0, 0], 0),
    (
        &[
            0, 0, 0, 2, 0, 0, 0, 0, 0, 0, 0, 1, 0, 0, 0, 0, 0, 1, 0, 0, 0, 0, 0, 1, 0, 0, 0, 0,
        ],
        0,
    ),
];

#[test]
fn messages(rt: HostRuntime) -> Result<(), Fail> {
    for row in &MESSAGES {
        assert!(rt; has_messages(rt.alloc(), row.0, row.1)?);
    }
    for row in &NO_MESSAGES {
        assert!(rt; !has_messages(rt.alloc(), row.0, row.1)?);
    }
    Ok(())
}

// An M_IOCTL of 16 bytes, the fewest, and one of 15.
const IOCTLS: [(&[u8], bool); 2] = [
    (
        &[
            0, 0, 0, 1, 0x0e, 0, 0, 0, 0, 0, 0, 1, 0, 0, 0, 16, 0, 0, 0, 1, 0, 0, 0, 0, 0, 0, 0, 0,
            0, 0, 0, 0,
        ],
        true,
    ),
    (
        &[
            0, 0, 0, 1, 0x0e, 0, 0, 0, 0, 0, 0, 1, 0, 0, 0, 15, 0, 0, 0, 1, 0, 0, 0, 0, 0, 0, 0, 0,
            0, 0, 0,
        ],
        false,
    ),
];

// An M_IOCTL of 273 bytes.
const LONG_IOCTL: [&[u8]; 11] = [
    &HEAD,
    &NONE,
    &QUEUE,
    &QUEUE,
    &HEAD,
    &NONE,
    &QUEUE,
    &BANDS,
    &[0, 0, 0, 1, 0x0e, 0, 0, 0, 0, 0, 0, 1, 0, 0, 1, 17],
    &[0; 273],
    &NONE,
];

#[test]
fn ioctls(rt: HostRuntime) -> Result<(), Fail> {
    for row in &IOCTLS {
        assert_eq!(rt; has_messages(rt.alloc(), row.0, 0)?, row.1);
    }
    assert!(rt; !is_image(rt.alloc(), &OPEN, &LONG_IOCTL, [0, 0])?);
    Ok(())
}
