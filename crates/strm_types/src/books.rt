//! What was booked of a direction so far.

ghost use Rattle.std.specs.Prelude.{◌≡◌};
ghost use Rattle.strm_types.specs.Books.{has_room};

/// From this number of bytes on, written or made in one direction, calls and turns that could add to it are refused
/// with ERANGE: 2^62. One call writes fewer than 2^63, so that no sum passes 2^64.
pub const BOOK_MAX: u64 = 4611686018427387904;

/// How many bytes of a direction were written so far, and how many were made on the way, as an echo is.
#[derive(Clone, Copy)]
pub struct Book {
    pub written: u64,
    pub made: u64,
}

impl Book {
    /// A book in which nothing stands.
    pub fn new() -> Book
        ensures { result ≡ record { written = 0; made = 0 } }
    {
        Book {
            written: 0,
            made: 0,
        }
    }

    /// Whether both numbers are below [`BOOK_MAX`].
    pub fn has_room(&self) -> bool
        ensures { result ≡ has_room self.now }
    {
        self.written < BOOK_MAX && self.made < BOOK_MAX
    }
}
