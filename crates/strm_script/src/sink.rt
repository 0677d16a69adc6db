//! Writing what a script has answered.

ghost use Rattle.std.specs.Prelude.{◌≡◌, ◌≤◌, ◌==◌, ◌||◌, not, length, take, []};
ghost use Rattle.std.specs.Io.KnownBytes.{Appends};
ghost use Rattle.strm_script.specs.Faults.{sink_failed};
ghost use Rattle.strm_script.specs.Output.{Writes, WritesOut};

use std::io::{Error, ErrorKind, Write};

/// A writer of a script's answers, and the error of its last write or flush that failed. A write that takes no byte has failed.
#[derive(Drop)]
pub struct Sink<W> {
    /// The writer.
    pub writer: W,
    /// Why a write or a flush failed, where one did.
    pub error: Option<Error>,
}

impl<W: Write> Sink<W> {
    /// A writer of which no write has failed.
    pub fn new(writer: W) -> Sink<W>
        ensures { result ≡ record { writer = writer; error = None } }
    {
        Sink {
            writer,
            error: None,
        }
    }

    /// Writes once, and once more where that was interrupted, 2^32 - 1 times at most; how many bytes were taken, or 0 where it failed.
    fn write(&mut self, bytes: &[u8]) -> usize
        ensures bound { result ≤ length bytes.now }
        ensures bytes { Appends (W.contents self.old.writer) (W.contents self.new.writer) (take result bytes.now) }
        ensures failed { sink_failed self.new ≡ (sink_failed self.old || result == 0) }
    {
        for _ in 0..u32::MAX {
            match self.writer.write(bytes) {
                Ok(0) => {
                    self.error = Some(Error::from(ErrorKind::WriteZero));
                    return 0;
                }
                Ok(n) => return n,
                Err(error) => {
                    if error.kind() != ErrorKind::Interrupted {
                        self.error = Some(error);
                        return 0;
                    }
                }
            }
        }
        self.error = Some(Error::from(ErrorKind::Interrupted));
        0
    }

    /// Writes bytes, as far as the writer takes them; whether it took all.
    fn write_out(&mut self, bytes: &[u8]) -> bool
        ensures wrote { WritesOut (W.contents self.old.writer) (W.contents self.new.writer) bytes.now result }
        ensures failed { sink_failed self.new ≡ (sink_failed self.old || not result) }
    {
        let mut done = 0usize;
        while done < bytes.len() {
            let taken = self.write(&bytes[done..]);
            if taken == 0 {
                return false;
            }
            done += taken;
        }
        true
    }

    /// Flushes the writer; whether that went well.
    fn flush(&mut self) -> bool
        ensures kept { Appends (W.contents self.old.writer) (W.contents self.new.writer) [] }
        ensures failed { sink_failed self.new ≡ (sink_failed self.old || not result) }
    {
        if let Err(error) = self.writer.flush() {
            self.error = Some(error);
            return false;
        }
        true
    }

    /// Writes bytes and flushes the writer; whether both went well.
    pub fn send(&mut self, bytes: &[u8]) -> bool
        ensures wrote { Writes (W.contents self.old.writer) (W.contents self.new.writer) bytes.now result }
        ensures failed { sink_failed self.new ≡ (sink_failed self.old || not result) }
    {
        if bytes.is_empty() {
            return true;
        }
        self.write_out(bytes) && self.flush()
    }
}
