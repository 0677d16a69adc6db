//! The signals that wait at a stream head (streamio(7I); STREAMS Programming Guide: M_SIG, M_PCSIG).

ghost use Rattle.std.specs.Prelude.{◌≡◌, ◌≤◌, [], true, length, Some};
ghost use Rattle.strm_types.specs.Signals.{has_signal, is_signal, signal_in, with_signal};

use arrayvec::ArrayVec;
use std::marker::Model;
use strm_types::{SIGNALS_MAX, signal_in};

/// The signals that wait, a byte each, in the order in which they came first: numbers from 1 to 31, each once. Contracts see
/// them as a list.
#[derive(Drop)]
pub struct Signals {
    numbers: ArrayVec<u8, SIGNALS_MAX>,
}

impl Model for Signals {
    ghost use Rattle.std.specs.Prelude.{ℕ, List};
    ghost use Rattle.strm_types.specs.Signals.{AreSignals};

    ghost Value = { List ℕ };

    ghost view = { λ s. s.numbers.items };

    ghost invariant = { λ s. AreSignals s.numbers.items };
}

impl Signals {
    /// No signal.
    pub fn new() -> Signals
        ensures { result ≡ [] }
    {
        Signals {
            numbers: ArrayVec::new(),
        }
    }

    /// The signals, in the order in which they came first.
    pub fn as_slice(&self) -> &[u8]
        ensures value { result.now ≡ self.now }
        ensures few { length result.now ≤ SIGNALS_MAX }
    {
        self.numbers.as_slice()
    }

    // Adds a signal behind all others, unless it waits.
    fn add(&mut self, number: u8)
        requires { is_signal number ≡ true }
        ensures { self.new ≡ with_signal (Some number) self.old }
    {
        if !self.numbers.as_slice().contains(&number) {
            self.numbers.push(number);
        }
    }

    /// Adds the signal that the bytes of an M_SIG or an M_PCSIG name, behind all others, unless it waits or they name none.
    pub fn post(&mut self, bytes: &[u8])
        ensures { self.new ≡ with_signal (signal_in bytes.now) self.old }
    {
        if let Some(number) = signal_in(bytes) {
            self.add(number);
        }
    }

    /// None waits any more.
    pub fn clear(&mut self)
        ensures { self.new ≡ [] }
    {
        self.numbers.clear();
    }
}
