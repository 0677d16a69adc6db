//! Reading a script.

ghost use Rattle.std.specs.Prelude.{◌≡◌, ◌≤◌, ◌||◌, length, IfSome, is_none};
ghost use Rattle.strm_script.specs.Faults.{ReadTells, source_failed};

use std::io::{Error, ErrorKind, Read};

/// A reader of a script, and the error of its last read that failed.
#[derive(Drop)]
pub struct Source<R> {
    /// The reader.
    pub reader: R,
    /// Why a read failed, where one did.
    pub error: Option<Error>,
}

impl<R: Read> Source<R> {
    /// A reader of which no read has failed.
    pub fn new(reader: R) -> Source<R>
        ensures { result ≡ record { reader = reader; error = None } }
    {
        Source {
            reader,
            error: None,
        }
    }

    /// Reads once, and once more where that was interrupted, 2^32 - 1 times at most; how many bytes came, or none where it failed.
    pub fn read(&mut self, buf: &mut [u8]) -> Option<usize>
        ensures bound { IfSome result (λ n. n ≤ length buf.new) }
        ensures bytes { ReadTells (R.remaining self.old.reader) (R.remaining self.new.reader) result buf.new }
        ensures failed { source_failed self.new ≡ (source_failed self.old || is_none result) }
    {
        for _ in 0..u32::MAX {
            match self.reader.read(buf) {
                Ok(n) => return Some(n),
                Err(error) => {
                    if error.kind() != ErrorKind::Interrupted {
                        self.error = Some(error);
                        return None;
                    }
                }
            }
        }
        self.error = Some(Error::from(ErrorKind::Interrupted));
        None
    }
}
