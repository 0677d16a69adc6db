//! Readers and writers that are slow, interrupted, or fail at a call, and scripts that they carry.

use super::{FIRST_ANSWERS, FIRST_RUN, READ_FAILED, WELL, WRITE_FAILED, ends_as, runs, wrote};
use std::alloc::Global;
use std::io::{self, Error, ErrorKind, Read, Write};
use std::process::Abort;
use strm_raw::RawStore;

// A reader that is interrupted first, so many times, and then gives a script's bytes one a call, up to the call that
// fails.
#[derive(Drop)]
struct SlowReader<'a> {
    bytes: &'a [u8],
    interruptions: usize,
    calls_left: usize,
}

impl Read for SlowReader<'_> {
    fn read(&mut self, buf: &mut [u8]) -> io::Result<usize> {
        if self.interruptions > 0 {
            self.interruptions -= 1;
            return Err(Error::from(ErrorKind::Interrupted));
        }
        if self.calls_left == 0 {
            return Err(Error::from(ErrorKind::Other));
        }
        self.calls_left -= 1;
        let Some((first, others)) = self.bytes.split_first() else {
            return Ok(0);
        };
        if buf.is_empty() {
            return Ok(0);
        }
        buf[0] = *first;
        self.bytes = others;
        Ok(1)
    }
}

// A writer that is interrupted first, so many times, and then takes one byte a call, up to the call that fails; its
// flushes go well or not.
#[derive(Drop)]
struct SlowWriter {
    written: Vec<u8>,
    interruptions: usize,
    calls_left: usize,
    flushes: bool,
}

impl Write for SlowWriter {
    fn write(&mut self, buf: &[u8]) -> io::Result<usize> {
        if self.interruptions > 0 {
            self.interruptions -= 1;
            return Err(Error::from(ErrorKind::Interrupted));
        }
        if self.calls_left == 0 {
            return Err(Error::from(ErrorKind::Other));
        }
        self.calls_left -= 1;
        let Some(first) = buf.first() else {
            return Ok(0);
        };
        self.written.push(*first)?;
        Ok(1)
    }

    fn flush(&mut self) -> io::Result<()> {
        if self.flushes {
            Ok(())
        } else {
            Err(Error::from(ErrorKind::Other))
        }
    }
}

// Runs a script byte by byte, with so many interruptions of its reader and of its writer first, to its end, and
// compares what it writes.
pub fn plays_slowly(
    rt: &impl Abort,
    alloc: Global,
    script: &[u8],
    answers: &[u8],
    interruptions: usize,
) {
    let mut reader = SlowReader {
        bytes: script,
        interruptions,
        calls_left: usize::MAX,
    };
    let mut writer = SlowWriter {
        written: Vec::new(alloc),
        interruptions,
        calls_left: usize::MAX,
        flushes: true,
    };
    let ended = runs::<RawStore, _, _>(alloc, &mut reader, &mut writer);
    ends_as(rt, "interruptions", interruptions, ended, WELL);
    wrote(
        rt,
        "interruptions",
        interruptions,
        writer.written.as_slice(),
        answers,
    );
}

#[test]
fn a_script_may_be_interrupted(rt: HostRuntime) {
    for interruptions in [0, 1, 3] {
        plays_slowly(&rt, rt.alloc(), FIRST_RUN, FIRST_ANSWERS, interruptions);
    }
}

// How many lines end in a text.
fn count_lines(text: &[u8]) -> usize {
    let mut count = 0usize;
    for byte in text {
        if *byte == b'\n' {
            count = count.saturating_add(1);
        }
    }
    count
}

// Compares what a run wrote whose reader failed behind so many bytes of the script: the answers of the lines that had
// ended.
fn wrote_whole_lines(rt: &impl Abort, calls: usize, written: &[u8]) {
    assert!(rt; FIRST_ANSWERS.starts_with(written), "at call {calls}");
    let wanted = count_lines(FIRST_RUN.get(..calls).unwrap_or(FIRST_RUN));
    assert_eq!(rt; count_lines(written), wanted, "at call {calls}");
}

#[test]
fn a_reader_that_fails_leaves_the_answers_of_whole_lines(rt: HostRuntime) {
    for calls in 0..=FIRST_RUN.len() {
        let mut reader = SlowReader {
            bytes: FIRST_RUN,
            interruptions: 1,
            calls_left: calls,
        };
        let mut written = Vec::new(rt.alloc());
        let ended = runs::<RawStore, _, _>(rt.alloc(), &mut reader, &mut written);
        ends_as(&rt, "at call", calls, ended, READ_FAILED);
        wrote_whole_lines(&rt, calls, written.as_slice());
    }
}

#[test]
fn a_writer_that_fails_has_the_front_of_the_answers(rt: HostRuntime) {
    for calls in 0..=FIRST_ANSWERS.len() {
        let mut reader = FIRST_RUN;
        let mut writer = SlowWriter {
            written: Vec::new(rt.alloc()),
            interruptions: 1,
            calls_left: calls,
            flushes: true,
        };
        let ended = runs::<RawStore, _, _>(rt.alloc(), &mut reader, &mut writer);
        let all = calls == FIRST_ANSWERS.len();
        ends_as(
            &rt,
            "at call",
            calls,
            ended,
            if all { WELL } else { WRITE_FAILED },
        );
        let front = &FIRST_ANSWERS[..calls];
        wrote(&rt, "at call", calls, writer.written.as_slice(), front);
    }
}

#[test]
fn a_flush_that_fails_is_a_write_fault(rt: HostRuntime) {
    let mut reader = FIRST_RUN;
    let mut writer = SlowWriter {
        written: Vec::new(rt.alloc()),
        interruptions: 0,
        calls_left: usize::MAX,
        flushes: false,
    };
    let ended = runs::<RawStore, _, _>(rt.alloc(), &mut reader, &mut writer);
    ends_as(&rt, "a flush", 0, ended, WRITE_FAILED);
    wrote(&rt, "a flush", 0, writer.written.as_slice(), FIRST_ANSWERS);
}
