//! Modules in small texts: which may stand on a stream, and what each has of its own.

use super::{HEAD, LINE, NONE, OPEN, QUEUE, TERMIOS, has_head, is_image};
use std::alloc::{AllocError, Global};
use std::test::*;

// Each standard module once.
const ALL_MODULES: [&[u8]; 16] = [
    &HEAD,
    &NONE,
    &QUEUE,
    &QUEUE,
    &HEAD,
    &[3, 3, 1],
    &TERMIOS,
    &LINE,
    &QUEUE,
    &QUEUE,
    &[2],
    &TERMIOS,
    &[0, 24, 0, 80, 0, 0, 0, 0],
    &QUEUE,
    &QUEUE,
    &NONE,
];

// Modules behind a head of the slave, and whether an image stands there.
const MODULES: [(&[u8], bool); 9] = [
    (&[0, 0, 0, 0, 0, 1, 3], true),
    (&[0, 0, 0, 0, 0, 2, 3, 3], false),
    (&[0, 0, 0, 0, 0, 4, 3, 3, 3, 3], false),
    (&[0, 0, 0, 0, 0, 1, 0], false),
    (&[0, 0, 0, 0, 0, 1, 5], false),
    (&[0, 0, 0, 0, 0, 1, 4, 7, 0, 2, 97, 255], true),
    (&[0, 0, 0, 0, 0, 2, 4, 7, 0, 0, 4, 7, 0, 0], false),
    (
        &[0, 0, 0, 0, 0, 3, 4, 0, 0, 0, 4, 7, 0, 0, 4, 127, 0, 0],
        true,
    ),
    (&[0, 0, 0, 0, 0, 3, 4, 0, 0, 0, 3, 4, 0, 0, 0], false),
];

// A module of a user's own that is set to so many bytes, and whether an image stands there.
const SET: [(usize, bool); 2] = [(320, true), (321, false)];

// The front of a head with such a module.
const OWN: [u8; 8] = [0, 0, 0, 0, 0, 1, 4, 7];

fn has_settings(alloc: Global, length: usize) -> Result<bool, AllocError> {
    let mut head = Vec::new(alloc);
    head.extend_from_slice(&OWN)?;
    head.extend_from_slice(&[(length / 256 % 256) as u8, (length % 256) as u8])?;
    for _ in 0..length {
        head.push(97)?;
    }
    has_head(alloc, head.as_slice())
}

// Numbers of a module of a user's own on the slave's stream, its queues, the enabled queues with their number in front, how many bytes the slave
// wrote, and whether an image stands there: those from 128 on have two queues, where the same stands as at an ldterm.
const OWNS: [(u8, [&[u8]; 2], &[u8], u8, bool); 12] = [
    (127, [&[], &[]], &[0], 0, true),
    (127, [&QUEUE, &QUEUE], &[0], 0, false),
    (127, [&[], &[]], &[1, 1, 3, 127, 0], 0, false),
    (128, [&QUEUE, &QUEUE], &[0], 0, true),
    (128, [&[], &[]], &[0], 0, false),
    (
        128,
        [&QUEUE, &QUEUE],
        &[3, 1, 3, 128, 1, 1, 3, 128, 0, 1, 2, 1],
        0,
        true,
    ),
    (128, [&QUEUE, &QUEUE], &[1, 1, 3, 129, 0], 0, false),
    (128, [&QUEUE, &QUEUE], &[1, 0, 3, 128, 0], 0, false),
    (128, [&QUEUE, &QUEUE], &[1, 1, 1, 0], 0, false),
    (255, [&QUEUE, &HOLDING], &[0], 1, true),
    (255, [&QUEUE, &HOLDING], &[0], 0, false),
    (255, [&HOLDING, &QUEUE], &[0], 1, false),
];

// A queue with an M_DATA of one byte and an M_IOCTL without a payload.
const HOLDING: [u8; 48] = [
    1, 0, 0, 0, 0, 0, 2, 0, 0, 0, 0, 0, 0, 0, 1, 0, 0, 0, 1, 97, 14, 0, 0, 0, 0, 0, 0, 1, 0, 0, 0,
    16, 0, 0, 84, 3, 0, 0, 0, 1, 0, 0, 0, 0, 0, 0, 0, 0,
];

fn has_own(
    alloc: Global,
    number: u8,
    queues: &[&[u8]; 2],
    enabled: &[u8],
    written: u8,
) -> Result<bool, AllocError> {
    let parts: [&[u8]; 11] = [
        &HEAD,
        &NONE,
        &QUEUE,
        &QUEUE,
        &HEAD,
        &[1, 4, number, 0, 1, 97],
        queues[0],
        queues[1],
        &QUEUE,
        &QUEUE,
        enabled,
    ];
    is_image(alloc, &OPEN, &parts, [0, written])
}

// Whether an image stands there where the slave's ldterm has this column and line, of so many bytes that the master wrote.
fn has_line(alloc: Global, line: &[u8], written: u8) -> Result<bool, AllocError> {
    let parts: [&[u8]; 14] = [
        &HEAD,
        &NONE,
        &QUEUE,
        &QUEUE,
        &HEAD,
        &[1, 1],
        &TERMIOS,
        &[0, 1],
        line,
        &QUEUE,
        &QUEUE,
        &QUEUE,
        &QUEUE,
        &NONE,
    ];
    is_image(alloc, &OPEN, &parts, [written, 0])
}

// Columns and lines of an ldterm, how many bytes the master wrote, and whether an image stands there.
const LINES: [(&[u8], u8, bool); 3] = [
    (&[0, 0, 255, 255, 2, 97, 98], 2, true),
    (&[0, 0, 255, 255, 2, 97, 98], 1, false),
    (&[0, 1, 0, 0, 0], 0, false),
];

#[test]
fn modules(rt: HostRuntime) -> Result<(), Fail> {
    assert!(rt; is_image(rt.alloc(), &OPEN, &ALL_MODULES, [0, 0])?);
    for row in &MODULES {
        assert_eq!(rt; has_head(rt.alloc(), row.0)?, row.1);
    }
    for row in &SET {
        assert_eq!(rt; has_settings(rt.alloc(), row.0)?, row.1);
    }
    for row in &OWNS {
        assert_eq!(rt; has_own(rt.alloc(), row.0, &row.1, row.2, row.3)?, row.4);
    }
    for row in &LINES {
        assert_eq!(rt; has_line(rt.alloc(), row.0, row.1)?, row.2);
    }
    Ok(())
}
