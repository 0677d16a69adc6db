//! What there is once for each side of a pair.

ghost use Rattle.std.specs.Prelude.{◌≡◌};
ghost use Rattle.std.specs.Borrow.{sem};

use crate::names::Side;

/// One for the master, and one for the slave.
#[derive(Clone, Copy, Drop)]
pub struct Both<T> {
    pub master: T,
    pub slave: T,
}

impl<T> Both<T> {
    ghost use Rattle.strm_types.specs.Both.{get, LendsSide};

    /// The one of a side.
    pub fn get(&self, side: Side) -> &T
        ensures { result.now ≡ get side self.now }
    {
        match side {
            Side::Master => &self.master,
            Side::Slave => &self.slave,
        }
    }

    /// The one of a side, to be changed.
    pub fn get_mut(&mut self, side: Side) -> &mut T
        ensures value { result.now ≡ get side self.old }
        ensures* writes_back { sem 𝓛 (LendsSide T.row self.entry side result) }
    {
        match side {
            Side::Master => &mut self.master,
            Side::Slave => &mut self.slave,
        }
    }
}
