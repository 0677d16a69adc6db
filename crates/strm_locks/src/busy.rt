//! A lock that another thread has.

use thiserror::Error;

/// Another thread has the lock of the pair (pthread_mutex_trylock(3): EBUSY). Nothing was done.
#[derive(Clone, Copy, Debug, Error)]
#[error("another thread has the lock of the pair")]
pub struct Busy;
