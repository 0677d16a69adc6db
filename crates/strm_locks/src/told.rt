//! What calls told: how many they were, and how many bytes they wrote and read.

ghost use Rattle.std.specs.Prelude.{◌≡◌};

/// How many bytes, by the side that wrote them.
#[derive(Clone, Copy)]
pub struct Each {
    pub from_master: u64,
    pub from_slave: u64,
}

/// How many calls, and how many bytes they wrote and read, those of control parts too. A number of calls stands still at 2^64 - 1.
#[derive(Clone, Copy)]
pub struct Told {
    pub calls: u64,
    pub written: Each,
    pub read: Each,
}

impl Each {
    ghost use Rattle.strm_locks.specs.Books.{each};

    fn none() -> Each
        ensures { result ≡ each 0 0 }
    {
        Each {
            from_master: 0,
            from_slave: 0,
        }
    }
}

impl Told {
    ghost use Rattle.strm_locks.specs.Books.{plus, minus, nothing, IsBelow, Fits};

    /// No call.
    pub fn nothing() -> Told
        ensures { result ≡ nothing }
    {
        Told {
            calls: 0,
            written: Each::none(),
            read: Each::none(),
        }
    }

    // Both together. The numbers fit, as a book's do.
    pub(crate) fn plus(&self, more: &Told) -> Told
        requires { Fits (plus self.now more.now) }
        ensures { result ≡ plus self.now more.now }
    {
        Told {
            calls: self.calls + more.calls,
            written: Each {
                from_master: self.written.from_master + more.written.from_master,
                from_slave: self.written.from_slave + more.written.from_slave,
            },
            read: Each {
                from_master: self.read.from_master + more.read.from_master,
                from_slave: self.read.from_slave + more.read.from_slave,
            },
        }
    }

    // What this has beyond another, which is below it.
    pub(crate) fn minus(&self, less: &Told) -> Told
        requires { IsBelow less.now self.now }
        ensures { result ≡ minus self.now less.now }
    {
        Told {
            calls: self.calls - less.calls,
            written: Each {
                from_master: self.written.from_master - less.written.from_master,
                from_slave: self.written.from_slave - less.written.from_slave,
            },
            read: Each {
                from_master: self.read.from_master - less.read.from_master,
                from_slave: self.read.from_slave - less.read.from_slave,
            },
        }
    }
}
