//! Looks at a pair under its lock: what anything that reads a pair answers of it, as who waits for one asks for.

ghost use Rattle.std.specs.Fn.{FnOnceReturnsAt};
ghost use Rattle.std.specs.Prelude.{◌≡◌, ◌<◌, Some, IfOk, length, slice_get};
ghost use Rattle.strm_locks.specs.Shares.{Became, HasPair, IsSame};
ghost use Rattle.strm_locks.specs.Sounds.{IsSound};
ghost use Rattle.strm_locks.specs.Turns.{IsLook};

use crate::bell::Bell;
use crate::busy::Busy;
use crate::lock::Lock;
use crate::object::Object;
use crate::rule::Place;
use crate::system::System;
use crate::visit::Visit;

impl<P: Object> Lock<P> {
    // What a look answers of the pair in its slot. It stays.
    fn seen_held<T, F: FnOnce(&P) -> T + Drop>(&self, seat: &mut Place<P>, look: F) -> T
        requires own { seat.old.table_id ≡ self.now.table }
        requires lock { HasPair seat.old }
        requires callable { F.IsAlwaysCallable look }
        ensures same { IsSame seat.old seat.new × (seat.new.me.0 ≡ seat.old.me.0) }
        ensures did { Became (λ k k'. (k' ≡ k) × IsSound k.pair × (x : P) × (P.pair_of x ≡ k.pair) × FnOnceReturnsAt F.FnOnce look x result) seat.old.me.1 seat.new.me.1 }
    {
        let held = seat.slot_mut(&self.table.shared, 0);
        held.audit();
        held.seen(look)
    }

    /// Looks at the pair, where the lock is free: what the closure answers of it is answered, and the visit found that pair, and left it as it was.
    pub fn try_look<B: Bell, T, F: FnOnce(&P) -> T + Drop>(
        &self,
        bell: &B,
        look: F,
    ) -> Result<(Visit<P>, T), Busy>
        requires { F.IsAlwaysCallable look }
        ensures { IfOk result (λ r. (x : P) × IsLook self.now r.0 (P.pair_of x) × FnOnceReturnsAt F.FnOnce look x r.1) }
    {
        let mut seat = self.sit();
        if !self.try_take(&mut seat) {
            return Err(Busy);
        }
        let answer = self.seen_held(&mut seat, look);
        self.pass_by(bell, &mut seat);
        Ok((Visit { seat, made: None }, answer))
    }
}

impl<P: Object> System<P> {
    /// Looks at a pair as [`Lock::try_look`] does.
    pub fn try_look<B: Bell, T, F: FnOnce(&P) -> T + Drop>(
        &self,
        bell: &B,
        pair: u32,
        look: F,
    ) -> Result<(Visit<P>, T), Busy>
        requires within { pair < length self.now.locks }
        requires callable { F.IsAlwaysCallable look }
        ensures { IfOk result (λ r. (slice_get self.now.locks pair ≡ Some r.0.lock)
            × ((x : P) × IsLook r.0.lock r.0 (P.pair_of x) × FnOnceReturnsAt F.FnOnce look x r.1)) }
    {
        self.lock(pair).try_look(bell, look)
    }
}
