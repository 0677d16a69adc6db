//! A store on another thread.
ghost use Rattle.std.specs.Prelude.{◌≡◌};

use crate::raw::RawStore;
use std::thread::{Threads, join};

/// Hands a store to another thread, and takes it back as it was: a store is `Send`.
pub fn sent<R: Threads>(rt: &R, store: RawStore) -> RawStore
    ensures { result ≡ store }
{
    let (back, ()) = join(
        rt,
        move || -> RawStore
            ensures { result ≡ store }
        { store },
        || {},
    );
    back
}
