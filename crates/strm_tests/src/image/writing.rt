//! What is written of a new pair, and that what is read is written again.

use super::rewriting::{AllBands, put_state};
use std::alloc::{AllocError, Global};
use std::test::*;
use strm_image::writing::*;
use strm_image::{HeadBits, QueueKind, Sink, read};
use strm_types::{BANDS, Book, ControlMode, Openness, RULES, ReadMode, Slot};

// A queue as it is made.
fn put_new_queue(out: &mut Sink, at: QueueKind) {
    put_queue_flags(out, true, false);
    put_flows(out, &AllBands([at.first_flow(); BANDS]), at);
    put_u32(out, 0);
}

// A stream as it is made.
fn put_new_stream(out: &mut Sink) {
    let bits = HeadBits {
        hung_up: false,
        tostop: false,
        group: 0,
    };
    put_read_mode(out, ReadMode::ByteStream);
    put_control_mode(out, ControlMode::Refuse);
    put_head_bits(out, &bits);
    put_signals(out, &[]);
    put_slot(out, Slot::Free);
    put_u8(out, 0);
    put_new_queue(out, QueueKind::Head);
    put_new_queue(out, QueueKind::Driver);
}

// A pair whose master was opened, and whose slave is locked.
fn put_new_pair(out: &mut Sink) {
    put_front(out, Openness::Open, Openness::Never, true, 1);
    put_new_stream(out);
    put_new_stream(out);
    put_enabled(out, &[]);
    put_account(out, &Book::new(), &[0; RULES]);
    put_account(out, &Book::new(), &[0; RULES]);
}

// Where a new pair's image has other bytes than 0.
const OTHERS: [(usize, u8); 12] = [
    (0, 83),
    (1, 84),
    (2, 80),
    (3, 73),
    (4, 2),
    (5, 1),
    (7, 1),
    (11, 1),
    (18, 1),
    (25, 1),
    (38, 1),
    (45, 1),
];

#[test]
fn new_pair(rt: HostRuntime) -> Result<(), Fail> {
    let alloc = rt.alloc();
    let mut length = Sink::new(&mut []);
    put_new_pair(&mut length);
    assert_eq!(rt; length.count(), 421);
    let mut text = [7; 421];
    let mut out = Sink::new(&mut text);
    put_new_pair(&mut out);
    let mut want = vec![in alloc; 0; 421]?;
    for (at, byte) in OTHERS {
        if at < want.len() {
            want[at] = byte;
        }
    }
    assert!(rt; text.as_slice() == want.as_slice());
    Ok(())
}

// A queue without messages, bands or flags; and one where a writer waits for band 5, with an M_PROTO of one byte and two.
const EMPTY: [u8; 7] = [0; 7];

const PROTO: [u8; 32] = [
    3, 0, 1, 5, 0, 0, 0, 9, 0, 0, 0, 3, 1, 0, 0, 0, 1, 1, 5, 1, 0, 0, 0, 1, 99, 1, 0, 0, 0, 2, 100,
    101,
];

// The image that stands in a text, written again.
fn written_again(alloc: Global, text: &[u8]) -> Result<Option<Vec<u8>>, AllocError> {
    let Some(image) = read(text) else {
        return Ok(None);
    };
    let mut again = vec![in alloc; 0; text.len()]?;
    let mut out = Sink::new(again.as_mut_slice());
    put_state(&mut out, &image.state);
    if out.count() != text.len() {
        return Ok(None);
    }
    Ok(Some(again))
}

#[test]
fn read_and_written(rt: HostRuntime) -> Result<(), Fail> {
    let alloc = rt.alloc();
    let parts: [&[u8]; 22] = [
        // the front, and the master's head, whose last ioctl was answered with two bytes
        &[83, 84, 80, 73, 2, 1, 1, 0, 0, 0, 0, 4],
        &[
            1, 2, 1, 0, 2, 0, 0, 0, 3, 0, 0, 0, 9, 1, 0, 0, 0, 0, 0, 0, 0, 2, 7, 8,
        ],
        &[0],
        &PROTO,
        &EMPTY,
        // the slave's head, with a group and two signals, and an ioctl that waits
        &[0, 0, 6, 0, 0, 0, 5, 2, 2, 3, 1, 0, 0, 0, 1, 0, 0, 84, 3],
        // ptem, an ldterm with a line of two bytes and a message on its read queue, and a module of a user's own that has queues
        &[3, 2],
        &[9; 43],
        &[1],
        &[8; 35],
        &[1, 0, 0, 0, 0, 80, 2, 120, 121],
        &[0, 0, 0, 0, 0, 0, 1, 0, 0, 0, 0, 0, 0, 0, 1, 0, 0, 0, 1, 122],
        &EMPTY,
        &[4, 200, 0, 1, 65],
        &EMPTY,
        &EMPTY,
        &EMPTY,
        // an M_IOCTL of the slave's driver, three enabled queues, and the ledgers
        &[0, 0, 0, 0, 0, 0, 1, 14, 0, 0, 0, 0, 0, 0, 1, 0, 0, 0, 16],
        &[6; 16],
        &[3, 1, 1, 0, 0, 2, 1, 1, 3, 200, 1],
        &[0, 0, 0, 0, 0, 0, 0, 3],
        &[0; 176],
    ];
    let mut text = Vec::new(alloc);
    for part in parts {
        text.extend_from_slice(part)?;
    }
    text.extend_from_slice(&[0, 0, 0, 0, 0, 0, 0, 3])?;
    text.extend_from_slice(&[0; 176])?;
    let again = written_again(alloc, text.as_slice())?;
    assert!(rt; again.is_some_and(|bytes| bytes == text));
    Ok(())
}
