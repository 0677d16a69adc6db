//! What is done where a lock comes free.

use crate::lock::Lock;
use crate::object::Object;

/// Rung by each call that tries a lock, behind the store that frees it: a thread that waits there has to be woken, and how is its caller's to say.
pub trait Bell {
    fn ring<P: Object>(&self, lock: &Lock<P>);
}

/// Wakes a thread that waits at the lock: for programs whose threads call what waits too.
pub struct Wakes;

impl Bell for Wakes {
    fn ring<P: Object>(&self, lock: &Lock<P>) {
        lock.wake();
    }
}

/// Does nothing: for programs no thread of which waits by the functions of this crate, as those that wait by means of their own.
pub struct NoBell;

impl Bell for NoBell {
    fn ring<P: Object>(&self, _lock: &Lock<P>) {}
}
