//! The size of a terminal's window (termio(7I): TIOCGWINSZ, TIOCSWINSZ).

ghost use Rattle.std.specs.Prelude.{◌≡◌, ◌≤◌, ◌+◌, length, Some};
ghost use Rattle.strm_types.specs.Winsizes.{first_winsize, half_at, read_winsize, same_winsize, winsize_bytes};

/// How large a terminal's window is: in rows and columns of characters, and in pixels. 0 where it isn't known.
#[derive(Clone, Copy)]
pub struct Winsize {
    pub rows: u16,
    pub columns: u16,
    pub x_pixels: u16,
    pub y_pixels: u16,
}

// The number of 16 bits that stands so many bytes on, its most significant byte first.
fn half_at(bytes: &[u8], at: usize) -> u16
    requires { at + 2 ≤ length bytes.now }
    ensures { result ≡ half_at at bytes.now }
{
    u16::from_be_bytes([bytes[at], bytes[at + 1]])
}

impl Winsize {
    /// The size that a window has at first: none is known.
    pub fn new() -> Winsize
        ensures { result ≡ first_winsize }
    {
        Winsize {
            rows: 0,
            columns: 0,
            x_pixels: 0,
            y_pixels: 0,
        }
    }

    /// Reads the 8 bytes of a size; `None` exactly where they are fewer or more.
    pub fn read(bytes: &[u8]) -> Option<Winsize>
        ensures { result ≡ read_winsize bytes.now }
    {
        if bytes.len() != 8 {
            return None;
        }
        Some(Winsize {
            rows: half_at(bytes, 0),
            columns: half_at(bytes, 2),
            x_pixels: half_at(bytes, 4),
            y_pixels: half_at(bytes, 6),
        })
    }

    /// The 8 bytes, which [`Winsize::read`] reads back.
    pub fn bytes(&self) -> [u8; 8]
        ensures bytes { result ≡ winsize_bytes self.now }
        ensures back { read_winsize result ≡ Some self.now }
    {
        let a = self.rows.to_be_bytes();
        let b = self.columns.to_be_bytes();
        let c = self.x_pixels.to_be_bytes();
        let d = self.y_pixels.to_be_bytes();
        [a[0], a[1], b[0], b[1], c[0], c[1], d[0], d[1]]
    }

    /// Whether two sizes are one.
    pub fn is_same(&self, other: &Winsize) -> bool
        ensures { result ≡ same_winsize self.now other.now }
    {
        self.rows == other.rows
            && self.columns == other.columns
            && self.x_pixels == other.x_pixels
            && self.y_pixels == other.y_pixels
    }
}
